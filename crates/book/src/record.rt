// What can be done with a log.
ghost use Rattle.std.specs.Prelude.{◌≡◌, ◌-◌, min, [], ◌∷◌, ◌++◌, length, is_ok, Ok, Err, if◌then◌else◌, nat_lt};
ghost use Rattle.refusal.specs.declared.Refusal.TheVariants.{NoFreeLines};
ghost use Rattle.book.specs.Held.{lines as written, log_room};

use crate::cue::Line;
use crate::lent::Lent;
use crate::pages::Log;
use refusal::Refusal;

// How many lines a log uses at most.
pub const MOST_LINES: usize = 65_535;

impl<'m, L: Copy> Log<'m, L> {
    // An empty log over the lent lines.
    pub fn new(lines: &'m mut [Line<L>]) -> Self
        ensures empty { written result ≡ [] }
        ensures room { log_room result ≡ min (length lines.old) 65535 }
    {
        Log {
            lines: Lent::new(lines),
        }
    }

    // The lines, the oldest first.
    pub fn held(&self) -> &[Line<L>]
        ensures { result.now ≡ written self.now }
    {
        self.lines.held()
    }

    // How many lines are free.
    pub fn free(&self) -> usize
        ensures { result ≡ log_room self.now - length (written self.now) }
    {
        self.lines.free()
    }

    // One line more at the end, refused where no line is free.
    pub fn append(&mut self, line: Line<L>) -> Result<(), Refusal>
        ensures value { result ≡ (if nat_lt (length (written self.old)) (log_room self.old) then Ok tt else Err NoFreeLines) }
        ensures after { written self.new ≡ (if is_ok result then written self.old ++ (line ∷ []) else written self.old) }
        ensures room { log_room self.new ≡ log_room self.old }
    {
        if self.free() == 0 {
            return Err(Refusal::NoFreeLines);
        }
        let end = self.held().len();
        self.lines.insert(end, line);
        Ok(())
    }
}
