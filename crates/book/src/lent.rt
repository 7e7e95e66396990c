// Memory that the host lends: the first places are in use, at most MOST of them. The count stands beside the memory,
// since lent memory cannot grow as a Vec does. A struct that holds a `&mut` keeps no invariant here, so `held` caps the
// count at the memory's own length, and each other method goes through `held`.
ghost use Rattle.std.specs.Prelude.{◌≡◌, ◌-◌, ◌<◌, ◌≤◌, min, [], ◌∷◌, ◌++◌, length};
ghost use Rattle.std.specs.List.{insert, remove};
ghost use Rattle.book.specs.Held.{in_use, places};

#[derive(Drop)]
pub(crate) struct Lent<'m, X, const MOST: usize> {
    pub(crate) memory: &'m mut [X],
    pub(crate) len: usize,
}

impl<'m, X: Copy, const MOST: usize> Lent<'m, X, MOST> {
    // None of the memory in use.
    pub(crate) fn new(memory: &'m mut [X]) -> Self
        ensures empty { in_use result ≡ [] }
        ensures room { places result ≡ min (length memory.old) MOST }
    {
        Lent { memory, len: 0 }
    }

    // The places in use.
    pub(crate) fn held(&self) -> &[X]
        ensures { result.now ≡ in_use self.now }
    {
        let n = self.len.min(self.memory.len());
        &self.memory[0..n]
    }

    // How many places are free.
    pub(crate) fn free(&self) -> usize
        ensures { result ≡ places self.now - length (in_use self.now) }
    {
        let most = self.memory.len().min(MOST);
        most.saturating_sub(self.held().len())
    }

    // One place more in use, at i; the others move up.
    pub(crate) fn insert(&mut self, i: usize, x: X)
        requires inside { i ≤ length (in_use self.old) }
        requires free { length (in_use self.old) < places self.old }
        ensures after { in_use self.new ≡ insert (in_use self.old) i x }
        ensures same { places self.new ≡ places self.old }
    {
        let n = self.held().len();
        self.memory.copy_within(i..n, i + 1);
        self.memory[i] = x;
        self.len = n + 1;
    }

    // One place less in use, without the one at i; the others move down.
    pub(crate) fn remove(&mut self, i: usize)
        requires { i < length (in_use self.old) }
        ensures after { in_use self.new ≡ remove (in_use self.old) i }
        ensures same { places self.new ≡ places self.old }
    {
        let n = self.held().len();
        self.memory.copy_within(i + 1..n, i);
        self.len = n - 1;
    }
}
