// The positions worked out by hand.
ghost use Rattle.std.specs.Prelude.{◌≡◌};
ghost use Rattle.by_hand.specs.Positions.{label, positions, EveryPositionIsAsWorked};

use crate::worked::Worked;
use bar_positions::position::BarPosition;
use forms::label::Label;

// A label's four parts on one line: written as a struct each takes six, in a list that is read line by line.
fn label(hours: u8, minutes: u8, seconds: u8, frames: u8) -> Label
    ensures { result ≡ label hours minutes seconds frames }
{
    Label {
        hours,
        minutes,
        seconds,
        frames,
    }
}

// All of them.
pub fn worked_positions() -> [Worked; 21]
    ensures value { result ≡ positions }
    ensures holds { EveryPositionIsAsWorked }
{
    let at = BarPosition {
        bar: 2,
        beat: 2,
        tick: 0,
    };
    [
        Worked::Labelled(1799, label(0, 0, 59, 29)),
        Worked::Labelled(1800, label(0, 1, 0, 2)),
        Worked::Labelled(17_982, label(0, 10, 0, 0)),
        Worked::Labelled(107_892, label(1, 0, 0, 0)),
        Worked::Labelled(2_589_407, label(23, 59, 59, 29)),
        Worked::PastTheDay(2_589_408),
        Worked::LeftOut(label(0, 1, 0, 1)),
        Worked::Frame(1, 1602),
        Worked::Frame(5, 8008),
        Worked::Located(1602, 1),
        Worked::Located(1603, 2),
        Worked::Tick(1, 46),
        Worked::Tick(2, 92),
        Worked::Tick(3, 147),
        Worked::Varied(24_000, 24_024),
        Worked::Film(0, 0),
        Worked::Film(1, 2),
        Worked::Film(2, 5),
        Worked::Film(3, 7),
        Worked::Film(4, 10),
        Worked::Written(1680, at),
    ]
}
