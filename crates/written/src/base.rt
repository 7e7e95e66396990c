// The form current at a sample, over any timebase.
ghost use Rattle.std.specs.Prelude.{◌≡◌, ℕ, Option};
ghost use Rattle.written.specs.Current.{current_at, shown, standing};
ghost use Rattle.std.proofs.Common.{rules};

use forms::form::WrittenForm;
use refusal::Refusal;
use timebase::base::{LAST_SAMPLE, Timebase};

pub trait WrittenTimebase: Timebase {
    type Shown: Copy;

    // The written form of a position, where it has one.
    ghost form: { Self → ℕ → Option Self.Shown };

    fn current(&self, s: u64) -> Option<Self::Shown>
        ensures { result ≡ current_at (Self.meaning self.now) (form self.now) s };
}

// Any pile with any written form.
#[derive(Clone, Copy, Drop)]
pub struct Written<T, F> {
    pub pile: T,
    pub form: F,
}

impl<T, F> Written<T, F> {
    pub fn new(pile: T, form: F) -> Self
        ensures pile { result.pile ≡ pile }
        ensures form { result.form ≡ form }
    {
        Written { pile, form }
    }
}

impl<T: Timebase, F> Timebase for Written<T, F> {
    ghost meaning = { λ t. T.meaning t.pile };

    ghost sound = { Prim.search rules };

    fn len(&self) -> u64 {
        self.pile.len()
    }

    fn place(&self, p: u64) -> Result<u64, Refusal> {
        self.pile.place(p)
    }

    fn locate(&self, s: u64) -> u64 {
        self.pile.locate(s)
    }
}

impl<T: Timebase, F: WrittenForm> WrittenTimebase for Written<T, F> {
    type Shown = F::Value;

    ghost form = { λ t. shown (F.count t.form) (F.value t.form) };

    fn current(&self, s: u64) -> Option<F::Value> {
        let p = standing_at(&self.pile, s)?;
        self.form.write(p).ok()
    }
}

// The position current at a sample.
fn standing_at<T: Timebase>(pile: &T, s: u64) -> Option<u64>
    ensures { result ≡ standing (T.meaning pile.now) s }
{
    if s > LAST_SAMPLE {
        return None;
    }
    let next = pile.locate(s + 1);
    // The length is asked for last: a layer may have to work it out.
    let before = next.checked_sub(1)?;
    if next == pile.len() {
        return None;
    }
    Some(before)
}
