// What a layer does to the samples or the positions of the timebase below it: a change of numbers.
ghost use Rattle.std.specs.Prelude.{◌≡◌, ℕ, ◌^◌, min};
ghost use Rattle.layers.specs.Layers.{Pair, Ahead};

// A change takes a number past 2^36 for this one.
pub use timebase::base::END;

pub trait Change {
    ghost up: { Self → ℕ → ℕ };

    ghost back: { Self → ℕ → ℕ };

    fn up(&self, n: u64) -> u64
        ensures { result ≡ up self.now (min n (2 ^ 36)) };

    // The least number whose `up` is at least n.
    fn back(&self, n: u64) -> u64
        ensures { result ≡ back self.now (min n (2 ^ 36)) };

    ghost pair: { (g : Self) → Pair (up g) (back g) };
}

// A change that never goes to a number before.
pub trait AheadChange: Change {
    ghost ahead: { (g : Self) → Ahead (Self.up g) };
}
