// What a deck is made of.
use book::pages::{Book, Log};
use forms::form::WrittenForm;
use written::base::WrittenTimebase;

#[derive(Drop)]
pub struct Deck<'m, C, F: WrittenForm, L: WrittenTimebase> {
    pub(crate) pile: C,
    pub(crate) form: F,
    pub(crate) frames: L,
    pub(crate) book: Book<'m, F::Value>,
    pub(crate) log: Log<'m, L::Shown>,
    pub(crate) head: u64,
}
