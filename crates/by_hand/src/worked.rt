// A position worked out by hand, with what it must be.
use bar_positions::position::BarPosition;
use forms::label::Label;

// What is asked of comes first, then what must be answered.
#[derive(Clone, Copy)]
pub enum Worked {
    // A number in 30 drop and its label; a number and a label that 30 drop has not.
    Labelled(u64, Label),
    PastTheDay(u64),
    LeftOut(Label),
    // A frame and its sample, at 30000 ÷ 1001 and 48,000 samples a second; a sample and the frame located from it.
    Frame(u64, u64),
    Located(u64, u64),
    // A tick of 480 a quarter and its sample at 44,100: 500,000 microseconds a quarter, and 600,000 from tick 2.
    Tick(u64, u64),
    // A sample, and where varispeed 1001 ÷ 1000 moves it.
    Varied(u64, u64),
    // A film frame and the field on which it starts.
    Film(u64, u64),
    // A tick of 480 a quarter and its bar position in 3/4, and 6/8 from tick 1,440.
    Written(u64, BarPosition),
}
