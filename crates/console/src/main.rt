// Operators' calls on standard input, one a line, and the answer to each on standard output.
#![tactic(auto)]

use book::cue::{Cue, Line};
use book::edits::MOST_CUES;
use book::record::MOST_LINES;
use deck::state::Deck;
use forms::format::Format;
use forms::label::{Label, Labels};
use operator::answer::{Answer, Fault, write_answer};
use operator::line::read_line;
use session::carry::{Reply, carry_out};
use std::io;
use std::io::{BufRead, BufReader, Write};
use text::line::write_line;
use text::writer::TextWriter;
use timebase::rates::FrameRate;
use timebase::ratio::Ratio;
use written::base::Written;

const SAMPLE_RATE: u64 = 48_000;

const FRAMES: u64 = 2_589_409;

// The labels that cues and log lines are written in.
const LABELS: Labels = Labels {
    format: Format::Drop30,
};

type LabelDeck<'m> = Deck<'m, Ratio, Labels, Written<Ratio, Labels>>;

fn say(rt: &HostRuntime, answer: Result<Answer, Fault>) -> io::Result<()> {
    let mut out = [0u8; 32];
    let mut w = TextWriter::new(&mut out);
    // There is always room: this asks for the proof.
    write_answer(&mut w, answer).unwrap();
    rt.stdout().write_all(w.text())
}

fn list(rt: &HostRuntime, line: &Line<Label>) -> io::Result<()> {
    let mut out = [0u8; 64];
    let mut w = TextWriter::new(&mut out);
    write_line(&mut w, &LABELS, line).map_err(|_| io::Error::other(
        "a log line could not be written",
    ))?;
    rt.stdout().write_all(w.text())
}

fn answer(rt: &HostRuntime, deck: &mut LabelDeck<'_>, line: &[u8]) -> io::Result<()> {
    match carry_out(deck, read_line(line)) {
        Ok(Reply::Answered(answer)) => say(rt, Ok(answer)),
        Ok(Reply::Listing) => {
            for line in deck.lines() {
                list(rt, line)?;
            }
            Ok(())
        }
        Err(fault) => say(rt, Err(fault)),
    }
}

// Each call is carried out as it is read. One buffer serves every line: `split` would take memory for each anew.
fn serve(rt: &HostRuntime, deck: &mut LabelDeck<'_>) -> io::Result<()> {
    let mut input = BufReader::new(rt.alloc(), rt.stdin())?;
    let mut line = Vec::new(rt.alloc());
    for _ in 0..u64::MAX {
        line.clear();
        if input.read_until(b'\n', &mut line)? == 0 {
            break;
        }
        answer(rt, deck, &line)?;
    }
    Ok(())
}

fn main(rt: HostRuntime) -> io::Result<()> {
    // The numbers are in range: this asks for the proof.
    let frames = Ratio::frames(FrameRate::Ntsc2997, SAMPLE_RATE, FRAMES).unwrap();
    let cue = Cue {
        position: 0,
        number: 0,
        at: Label::invalid(),
    };
    let line = Line {
        cue: 0,
        sample: 0,
        label: None,
    };
    // The host lends memory for as many cues and lines as there may be.
    let mut places = vec![in rt.alloc(); cue; MOST_CUES]?;
    let mut lines = vec![in rt.alloc(); line; MOST_LINES]?;
    let log = Written::new(frames, LABELS);
    let mut deck = Deck::new(frames, LABELS, log, &mut places, &mut lines);
    serve(&rt, &mut deck)
}
