// The list of positions worked out by hand, each asked of the engine's calls.
use bar_positions::position::{BarPosition, BarPositions};
use by_hand::list::worked_positions;
use by_hand::worked::Worked;
use forms::form::WrittenForm;
use forms::format::Format;
use forms::label::{Label, Labels};
use layers::pulldown::PullDown;
use layers::varispeed::Varispeed;
use meter::row::MeterRow;
use meter::table::MeterTable;
use refusal::Refusal;
use std::io;
use tempo::map::TempoMap;
use tempo::row::TempoRow;
use timebase::base::Timebase;
use timebase::rates::FrameRate;
use timebase::ratio::Ratio;
use trials::answered::Answered;
use trials::failure::Failure;

const LABELS: Labels = Labels {
    format: Format::Drop30,
};

const TEMPOS: [TempoRow; 2] = [
    TempoRow {
        tick: 0,
        q: 500_000,
    },
    TempoRow {
        tick: 2,
        q: 600_000,
    },
];

const METERS: [MeterRow; 2] = [
    MeterRow {
        tick: 0,
        nn: 3,
        dd: 2,
    },
    MeterRow {
        tick: 1440,
        nn: 6,
        dd: 3,
    },
];

// What a question answers, as a line: the number, or the refusal's.
fn say(rt: &HostRuntime, asked: &str, of: u64, answer: Result<u64, Refusal>) -> io::Result<()> {
    println!(rt; "{asked} {of}: {}", Answered(answer))
}

fn labelled(rt: &HostRuntime, number: u64, label: Label) -> io::Result<()> {
    say(rt, "number of the label of", number, LABELS.read(label))?;
    match LABELS.write(number) {
        Ok(written) => println!(rt; "label of {number} as worked: {}", written == label),
        Err(_) => println!(rt; "no label of {number}"),
    }
}

fn left_out(rt: &HostRuntime, label: Label) -> io::Result<()> {
    say(
        rt,
        "number of a label left out of minute",
        u64::from(label.minutes),
        LABELS.read(label),
    )
}

fn past_the_day(rt: &HostRuntime, number: u64) -> io::Result<()> {
    match LABELS.write(number) {
        Ok(_) => println!(rt; "a label of {number}"),
        Err(why) => println!(rt; "label of {number}: {why}"),
    }
}

fn written(rt: &HostRuntime, tick: u64, at: BarPosition) -> Result<(), Failure> {
    let form = BarPositions {
        meter: MeterTable::new(480, &METERS)?,
    };
    let BarPosition {
        bar,
        beat,
        tick: rest,
    } = form.write(tick)?;
    let back = form.read(at)?;
    println!(rt; "tick {tick}: bar {bar}, beat {beat}, tick {rest}; back {back}")?;
    Ok(())
}

fn frames() -> Result<Ratio, Refusal> {
    Ratio::frames(FrameRate::Ntsc2997, 48_000, 2_589_409)
}

fn samples() -> Result<Ratio, Refusal> {
    Ratio::new(1, 1, 100_000)
}

// A position asked of what is made for it.
fn one(rt: &HostRuntime, worked: Worked) -> Result<(), Failure> {
    match worked {
        Worked::Labelled(number, label) => labelled(rt, number, label)?,
        Worked::PastTheDay(number) => past_the_day(rt, number)?,
        Worked::LeftOut(label) => left_out(rt, label)?,
        Worked::Frame(frame, _) => say(rt, "sample of frame", frame, frames()?.place(frame))?,
        Worked::Located(sample, _) => {
            let frame = frames()?.locate(sample);
            println!(rt; "frame from sample {sample}: {frame}")?
        }
        Worked::Tick(tick, _) => {
            let ticks = TempoMap::new(rt.alloc(), 480, &TEMPOS, 1000, 44_100)?;
            say(rt, "sample of tick", tick, ticks.place(tick))?
        }
        Worked::Varied(before, _) => {
            let varied = Varispeed::new(samples()?, 1001, 1000)?;
            say(rt, "varied", before, varied.place(before))?
        }
        Worked::Film(frame, _) => {
            let film = PullDown::new(samples()?);
            say(rt, "field of film frame", frame, film.place(frame))?
        }
        Worked::Written(tick, at) => written(rt, tick, at)?,
    }
    Ok(())
}

pub(crate) fn listed(rt: &HostRuntime) -> Result<(), Failure> {
    for worked in worked_positions() {
        one(rt, worked)?;
    }
    Ok(())
}
