// Why a reading is not made, and at which of its fields.
ghost use Rattle.std.specs.Prelude.{◌≡◌};
ghost use Rattle.reading.specs.Refusals.{cause as cause_of, field as field_of};

use crate::cause::Cause;

// What is out of range.
#[derive(Clone, Copy, PartialEq, Eq, Debug)]
pub enum ReadingRefusal {
    LoggedLevel,
    LoggedHead,
    DippedLevel,
    LevelTolerance,
    DippedHead,
    HeadTolerance,
}

impl From<ReadingRefusal> for Cause {
    ghost from_gives = { λ r c. c ≡ cause_of r };

    fn from(refusal: ReadingRefusal) -> Cause {
        match refusal {
            ReadingRefusal::LoggedLevel | ReadingRefusal::LoggedHead => Cause::LoggedNumber,
            ReadingRefusal::DippedLevel | ReadingRefusal::DippedHead => Cause::DippedCoordinate,
            ReadingRefusal::LevelTolerance | ReadingRefusal::HeadTolerance => Cause::Tolerance,
        }
    }
}

impl ReadingRefusal {
    // The field, counted from 0 in its kind of reading.
    pub fn field(self) -> usize
        ensures { result ≡ field_of self }
    {
        match self {
            ReadingRefusal::LoggedLevel | ReadingRefusal::DippedLevel => 0,
            ReadingRefusal::LoggedHead | ReadingRefusal::LevelTolerance => 1,
            ReadingRefusal::DippedHead => 2,
            ReadingRefusal::HeadTolerance => 3,
        }
    }
}
