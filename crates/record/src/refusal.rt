// Why a call is turned away: the first of its checks that fails.
ghost use Rattle.std.specs.Prelude.{◌≡◌};
ghost use Rattle.record.specs.Answers.{number_of};

use std::error::Error;
use std::fmt;

#[derive(Clone, Copy, Debug, PartialEq, Eq)]
pub enum Refusal {
    FewBytes,
    OtherKind,
    BadCount,
    BadLength,
    ShortRecord,
    BadMark,
    Misplaced,
    Unordered,
    LongSpan,
    HighTolerance,
    BadThousandths,
    BadMoment,
    BadWindow,
    BadBox,
    ShortOutput,
    BadPoint,
    BadReading,
    BadState,
    BadNewPlace,
    BadSilence,
    MomentInSilence,
    BadRowCount,
    BadRows,
}

impl Refusal {
    // The papers' number.
    pub fn number(self) -> u8
        ensures { result ≡ number_of self }
    {
        match self {
            Refusal::FewBytes => 1,
            Refusal::OtherKind => 2,
            Refusal::BadCount => 3,
            Refusal::BadLength => 4,
            Refusal::ShortRecord => 5,
            Refusal::BadMark => 6,
            Refusal::Misplaced => 7,
            Refusal::Unordered => 8,
            Refusal::LongSpan => 9,
            Refusal::HighTolerance => 10,
            Refusal::BadThousandths => 11,
            Refusal::BadMoment => 12,
            Refusal::BadWindow => 13,
            Refusal::BadBox => 14,
            Refusal::ShortOutput => 15,
            Refusal::BadPoint => 16,
            Refusal::BadReading => 17,
            Refusal::BadState => 18,
            Refusal::BadNewPlace => 19,
            Refusal::BadSilence => 20,
            Refusal::MomentInSilence => 21,
            Refusal::BadRowCount => 22,
            Refusal::BadRows => 23,
        }
    }
}

impl fmt::Display for Refusal {
    fn fmt<W: fmt::Write>(&self, f: &mut fmt::Formatter<W>) -> fmt::Result {
        write!(f, "refused {}", self.number())
    }
}

impl Error for Refusal {}
