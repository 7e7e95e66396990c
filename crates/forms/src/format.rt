// The four label formats and their numbers, as a table looked up by row.
ghost use Rattle.std.specs.Prelude.{◌≡◌};
ghost use Rattle.forms.specs.Formats.{values};

#[derive(Clone, Copy, PartialEq, Eq, Debug)]
pub enum Format {
    Film24,
    Pal25,
    Full30,
    Drop30,
}

// What a format decides.
#[derive(Clone, Copy)]
struct FormatValues {
    rate: u64,
    drops: bool,
    day: u64,
    separator: char,
}

// A row for each format, in the order of the cases. A static, read where it lies: a const is built anew at each question.
static FORMATS: [FormatValues; 4] = [
    FormatValues {
        rate: 24,
        drops: false,
        day: 2_073_600,
        separator: ':',
    },
    FormatValues {
        rate: 25,
        drops: false,
        day: 2_160_000,
        separator: ':',
    },
    FormatValues {
        rate: 30,
        drops: false,
        day: 2_592_000,
        separator: ':',
    },
    FormatValues {
        rate: 30,
        drops: true,
        day: 2_589_408,
        separator: ';',
    },
];

impl Format {
    // The format's row of the table.
    fn values(self) -> FormatValues
        ensures { result ≡ values self }
    {
        FORMATS[self as usize]
    }

    // How many frames a second of labels has.
    pub fn rate(self) -> u64
        ensures { result ≡ (values self).rate }
    {
        self.values().rate
    }

    // Whether labels are left out, so that the count keeps up with 30000/1001 frames a second.
    pub fn drops(self) -> bool
        ensures { result ≡ (values self).drops }
    {
        self.values().drops
    }

    // How many labels a day has.
    pub fn day(self) -> u64
        ensures { result ≡ (values self).day }
    {
        self.values().day
    }

    // What stands between seconds and frames.
    pub fn separator(self) -> char
        ensures { result ≡ (values self).separator }
    {
        self.values().separator
    }
}
