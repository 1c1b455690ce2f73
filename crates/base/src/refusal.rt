// Why something is turned away: the numbered list of document 01 and of the requests of document 02.
ghost use Rattle.std.specs.Prelude.{◌≡◌};
ghost use Rattle.base.specs.Refusal.{refusal_number};

use std::error::Error;
use std::fmt;

// Each by the number that it has on the list; docs/refusals.txt says them in words, in the order in which they are tested.
#[derive(Clone, Copy, Debug, PartialEq, Eq)]
pub enum Refusal {
    ShortBuffer = 1,
    LongSheet = 2,
    NoLine = 3,
    WrongLetter = 4,
    LineLength = 5,
    NotNumber = 6,
    TableLine = 7,
    RowLine = 8,
    // of C and K lines, of cars in a train, or of the bytes behind E
    Count = 9,
    CarNumber = 10,
    NumberHeld = 11,
    UnknownType = 12,
    GradeOrStick = 13,
    ReadingCount = 14,
    ReadingsDiffer = 15,
    Level = 16,
    WaterLevel = 17,
    Temperature = 18,
    Density = 19,
    Content = 20,
    Density20 = 21,
    NotWritable = 22,
    ReadingsSpan = 23,
    GivenError = 24,
    LevelTerm = 25,
    ReportTemperature = 26,
    NoSuchDensity = 27,
    TapeCount = 28,
    TapeReading = 29,
    NotHeld = 30,
    ProbeNumber = 31,
    ProbeTenths = 32,
    TypesClash = 33,
    HeldTwice = 34,
    TooMany = 35,
}

impl Refusal {
    // Its number on the list.
    pub fn number(self) -> u32
        ensures { result ≡ refusal_number self }
    {
        self as u32
    }
}

impl fmt::Display for Refusal {
    fn fmt<W: fmt::Write>(&self, f: &mut fmt::Formatter<W>) -> fmt::Result {
        write!(f, "{}", self.number())
    }
}

impl Error for Refusal {}
