// How dipped readings are made, within their limits, and read again.
ghost use Rattle.std.specs.Prelude.{◌≡◌, Some};
ghost use Rattle.reading.specs.Limits.{reachable};
ghost use Rattle.reading.specs.Makes.{dipped_made, dipped_seen, dipped_numbers};
ghost use Rattle.reading.specs.Printed.{dip_text};

use crate::dipped::Dipped;
use crate::refusal::ReadingRefusal;
use std::fmt;

fn in_reach(millimetres: i32) -> bool
    ensures { result ≡ reachable millimetres }
{
    (-1_000_000..=1_000_000).contains(&millimetres)
}

impl Dipped {
    pub fn new(
        level: i32,
        level_tolerance: u16,
        head: i32,
        head_tolerance: u16,
    ) -> Result<Dipped, ReadingRefusal>
        ensures { dipped_seen result ≡ dipped_made level level_tolerance head head_tolerance }
    {
        if !in_reach(level) {
            return Err(ReadingRefusal::DippedLevel);
        }
        if level_tolerance > 1000 {
            return Err(ReadingRefusal::LevelTolerance);
        }
        if !in_reach(head) {
            return Err(ReadingRefusal::DippedHead);
        }
        if head_tolerance > 1000 {
            return Err(ReadingRefusal::HeadTolerance);
        }
        Ok(Dipped {
            level,
            level_tolerance,
            head,
            head_tolerance,
        })
    }

    pub fn level(&self) -> i32
        ensures { result ≡ (dipped_numbers self.now).0 }
    {
        self.level
    }

    pub fn level_tolerance(&self) -> u16
        ensures { result ≡ (dipped_numbers self.now).1 }
    {
        self.level_tolerance
    }

    pub fn head(&self) -> i32
        ensures { result ≡ (dipped_numbers self.now).2 }
    {
        self.head
    }

    pub fn head_tolerance(&self) -> u16
        ensures { result ≡ (dipped_numbers self.now).3 }
    {
        self.head_tolerance
    }
}

impl fmt::Display for Dipped {
    ghost output = { λ r. Some (dip_text (dipped_numbers r)) };

    fn fmt<W: fmt::Write>(&self, f: &mut fmt::Formatter<W>) -> fmt::Result {
        let Dipped {
            level,
            level_tolerance,
            head,
            head_tolerance,
        } = self;
        write!(f, "{level} {level_tolerance} {head} {head_tolerance}")
    }
}
