// Timecode labels: hours, minutes, seconds and frames of a day.
ghost use Rattle.std.specs.Prelude.{◌≡◌, ◌*◌, ◌<◌, ◌≤◌, None};
ghost use Rattle.forms.specs.Formats.{values};
ghost use Rattle.forms.specs.Labels.{in_range, left_out, valid, dropped_before, added_to, nominal_label, label_number, label_of, no_label, label_parts};
ghost use Rattle.forms.specs.Laws.{label_paired, label_ordered};

use crate::form::WrittenForm;
use crate::format::Format;
use refusal::Refusal;

// A label as operators write it; it may be one that no format has.
#[derive(Clone, Copy, PartialEq, Eq, Debug)]
pub struct Label {
    pub hours: u8,
    pub minutes: u8,
    pub seconds: u8,
    pub frames: u8,
}

impl Label {
    // A label that no format has, to stand for a text that writes none: a deck asks of a cue's number before it asks of its
    // position, so the label must come as one that is refused later.
    pub fn invalid() -> Label
        ensures value { result ≡ no_label }
        ensures refused { (f : Format) → label_number f result ≡ None }
    {
        Label {
            hours: 255,
            minutes: 255,
            seconds: 255,
            frames: 255,
        }
    }

    // Whether each part is below its bound, at `rate` frames a second.
    fn in_range(self, rate: u64) -> bool
        ensures { result ≡ in_range rate self }
    {
        self.hours < 24 && self.minutes < 60 && self.seconds < 60 && u64::from(self.frames) < rate
    }

    // Whether dropping leaves the label out.
    fn left_out(self) -> bool
        ensures { result ≡ left_out self }
    {
        self.minutes % 10 > 0 && self.seconds == 0 && self.frames < 2
    }

    // The label of a number where none is left out.
    #[tactic(auto, using(crate::specs::Clock::hour_below))]
    fn nominal(rate: u64, n: u64) -> Label
        requires some { 0 < rate }
        requires few { rate ≤ 30 }
        requires below { n < rate * 86400 }
        ensures { result ≡ nominal_label rate n }
    {
        let second = n / rate;
        Label {
            hours: (second / 3600) as u8,
            minutes: (second / 60 % 60) as u8,
            seconds: (second % 60) as u8,
            frames: (n % rate) as u8,
        }
    }
}

// The written form of one format's labels.
#[derive(Clone, Copy)]
pub struct Labels {
    pub format: Format,
}

impl Labels {
    // Whether the format has the label.
    pub fn has(&self, label: Label) -> bool
        ensures { result ≡ valid self.now.format label }
    {
        label.in_range(self.format.rate()) && !(self.format.drops() && label.left_out())
    }

    // How many labels are left out up to minute `t`, its own two among them.
    fn dropped_before(&self, t: u64) -> u64
        requires { t < 1440 }
        ensures { result ≡ dropped_before self.now.format t }
    {
        if self.format.drops() {
            2 * (t - t / 10)
        } else {
            0
        }
    }

    // How many labels are left out before the label of number `n`.
    fn added_to(&self, n: u64) -> u64
        requires { n < 2592000 }
        ensures { result ≡ added_to self.now.format n }
    {
        if self.format.drops() {
            18 * (n / 17_982) + 2 * ((n % 17_982).saturating_sub(2) / 1_798)
        } else {
            0
        }
    }
}

impl WrittenForm for Labels {
    type Value = Label;

    ghost count = { λ f. (values f.format).day };

    ghost number = { λ f. label_number f.format };

    ghost value = { λ f. label_of f.format };

    ghost parts = { λ _. label_parts };

    ghost paired = { λ f. label_paired f.format };

    ghost ordered = { λ f. label_ordered f.format };

    fn count(&self) -> u64 {
        self.format.day()
    }

    fn read(&self, v: Label) -> Result<u64, Refusal> {
        if !self.has(v) {
            return Err(Refusal::NotWritten);
        }
        let minutes = 60 * u64::from(v.hours) + u64::from(v.minutes);
        let seconds = 60 * minutes + u64::from(v.seconds);
        let nominal = self.format.rate() * seconds + u64::from(v.frames);
        Ok(nominal - self.dropped_before(minutes))
    }

    fn write(&self, n: u64) -> Result<Label, Refusal> {
        if n >= self.count() {
            return Err(Refusal::NotBelowCount);
        }
        Ok(Label::nominal(self.format.rate(), n + self.added_to(n)))
    }
}
