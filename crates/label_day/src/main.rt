// Writes and reads back every label of a day in every format, and prints what an outside timecode library is asked for too:
// for each hour a hash of the labels' texts and the sum of their numbers; then some positions by hand.
#![tactic(auto)]

use forms::form::{TextForm, WrittenForm};
use forms::format::Format;
use forms::label::Labels;
use forms::text::LABEL_TEXT;
use refusal::Refusal;
use std::hash::Hasher;
use std::io;
use std::ops::Range;
use std::str::from_utf8;
use trials::answered::Answered;
use trials::tally::Tally;

// The formats, as the outside library's program names them: the names are for this output alone, so no Display of Format.
const FORMATS: [(&str, Format); 4] = [
    ("film24", Format::Film24),
    ("pal25", Format::Pal25),
    ("full30", Format::Full30),
    ("drop30", Format::Drop30),
];

// Numbers of 30 drop: at the edges of minutes, of ten minutes, of an hour and of the day.
const WORKED: [u64; 6] = [1_799, 1_800, 17_982, 107_892, 2_589_407, 2_589_408];

// Texts for 30 drop: one that it leaves out, two that it has, and one with a colon too many.
const SOUGHT: [&str; 4] = ["00:01:00;01", "00:01:00;02", "00:10:00;00", "00:10:00:00"];

// Number `n` written, printed, parsed and read again.
fn there_and_back(labels: &Labels, n: u64, mut tally: Tally) -> Result<Tally, Refusal> {
    let mut text = [0; LABEL_TEXT];
    labels.print(labels.write(n)?, &mut text)?;
    tally.hash.write(&text);
    tally.add(labels.read(labels.parse(&text)?)?);
    Ok(tally)
}

fn run(labels: &Labels, mut numbers: Range<u64>) -> Result<Tally, Refusal> {
    numbers.try_fold(Tally::default(), |tally, n| {
        there_and_back(labels, n, tally)
    })
}

fn day(rt: &HostRuntime, name: &str, format: Format) -> io::Result<()> {
    let labels = Labels { format };
    let long = labels.count() / 24;
    // An hour of the day, which is printed too, and no index.
    for hour in 0..24u64 {
        let from = long.wrapping_mul(hour);
        let ran = run(&labels, from..from.wrapping_add(long));
        println!(rt; "{name} {hour:02} {}", Answered(ran))?;
    }
    Ok(())
}

fn written(labels: &Labels, n: u64, text: &mut [u8]) -> Result<usize, Refusal> {
    labels.print(labels.write(n)?, text)
}

fn worked(rt: &HostRuntime, labels: &Labels, n: u64) -> io::Result<()> {
    let mut text = [0; LABEL_TEXT];
    let answer = written(labels, n, &mut text).map(|_| from_utf8(&text).unwrap_or("no text"));
    println!(rt; "{n} {}", Answered(answer))
}

fn sought(rt: &HostRuntime, labels: &Labels, text: &str) -> io::Result<()> {
    let answer = labels.read(labels.value_of(text.as_bytes()));
    println!(rt; "{text} {}", Answered(answer))
}

fn main(rt: HostRuntime) -> io::Result<()> {
    for (name, format) in FORMATS {
        day(&rt, name, format)?;
    }
    let drop = Labels {
        format: Format::Drop30,
    };
    for n in WORKED {
        worked(&rt, &drop, n)?;
    }
    for text in SOUGHT {
        sought(&rt, &drop, text)?;
    }
    Ok(())
}
