// What begins somewhere: a row at its tick, and a plain number at itself; and how far the rows of tempo and meter go.
ghost use Rattle.std.specs.Prelude.{◌≡◌, ℕ};

// The last tick on which a row may begin, and the most ticks of a quarter note.
pub const LAST_TICK: u32 = 1_073_741_823;

pub const MOST_DIVISION: u32 = 32_767;

pub trait Row: Copy {
    ghost begins: { Self → ℕ };

    fn begins(self) -> u64
        ensures { result ≡ begins self };
}

// An impl for each number: one for all that turn into a u64 would have no `begins` to give, since `From` says by a relation,
// and not by a function, what a value turns into.
impl Row for u64 {
    ghost begins = { λ n. n };

    fn begins(self) -> u64 {
        self
    }
}

impl Row for u32 {
    ghost begins = { λ n. n };

    fn begins(self) -> u64 {
        u64::from(self)
    }
}
