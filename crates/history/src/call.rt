// The calls that a deck takes after power-up.
#[derive(Clone, Copy)]
pub enum Call<V> {
    Add { number: u64, at: V },
    Strike { number: u64 },
    Seek { head: u64 },
    Play { count: u64 },
}
