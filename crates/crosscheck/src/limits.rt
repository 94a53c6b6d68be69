// The limits of a logged reading: which numbers are taken, and at which field another is refused.
use reading::logged::Logged;
use reading::refusal::ReadingRefusal;
use std::fmt;
use std::num::{f64_from_bits_with_nan, f64_to_bits_with_nan};

// 2^20, 2^-20, the next numbers inside, their negatives, and zero.
const TAKEN: [u64; 9] = [
    0x4130_0000_0000_0000,
    0x412f_ffff_ffff_ffff,
    0x3eb0_0000_0000_0000,
    0x3eb0_0000_0000_0001,
    0xc130_0000_0000_0000,
    0xc12f_ffff_ffff_ffff,
    0xbeb0_0000_0000_0000,
    0xbeb0_0000_0000_0001,
    0,
];

// The next numbers outside 2^20 and 2^-20, the greatest number, infinity, the least normal number, the greatest and
// the least subnormal one, the negatives of all these, negative zero and NaN.
const REFUSED: [u64; 16] = [
    0x4130_0000_0000_0001,
    0x3eaf_ffff_ffff_ffff,
    0x7fef_ffff_ffff_ffff,
    0x7ff0_0000_0000_0000,
    0x0010_0000_0000_0000,
    0x000f_ffff_ffff_ffff,
    0x0000_0000_0000_0001,
    0xc130_0000_0000_0001,
    0xbeaf_ffff_ffff_ffff,
    0xffef_ffff_ffff_ffff,
    0xfff0_0000_0000_0000,
    0x8010_0000_0000_0000,
    0x800f_ffff_ffff_ffff,
    0x8000_0000_0000_0001,
    0x8000_0000_0000_0000,
    0x7ff8_0000_0000_0000,
];

// How many of the numbers are treated as they should be.
#[derive(Drop)]
pub(crate) struct Limits {
    taken: usize,
    refused: usize,
}

// Taken as a level and as a head, and read again as it was.
fn is_taken(x: f64) -> bool {
    let bits = f64_to_bits_with_nan(x);
    match (Logged::new(x, 1.0), Logged::new(1.0, x)) {
        (Ok(level), Ok(head)) => f64_to_bits_with_nan(level.level()) == bits
            && f64_to_bits_with_nan(head.head()) == bits,
        _ => false,
    }
}

// Refused as a level, as a head, and as a level where the head is bad too.
fn is_refused(x: f64) -> bool {
    match (Logged::new(x, 1.0), Logged::new(1.0, x), Logged::new(x, x)) {
        (Err(level), Err(head), Err(both)) => level == ReadingRefusal::LoggedLevel
            && head == ReadingRefusal::LoggedHead
            && both == ReadingRefusal::LoggedLevel,
        _ => false,
    }
}

fn count<F: Fn(f64) -> bool>(numbers: &[u64], holds: F) -> usize
    requires { F.IsAlwaysCallable holds }
{
    numbers
        .iter()
        .filter(|bits| holds(f64_from_bits_with_nan(**bits)))
        .count()
}

impl Limits {
    pub(crate) fn tried() -> Limits {
        Limits {
            taken: count(&TAKEN, is_taken),
            refused: count(&REFUSED, is_refused),
        }
    }

    pub(crate) fn hold(&self) -> bool {
        self.taken == TAKEN.len() && self.refused == REFUSED.len()
    }
}

impl fmt::Display for Limits {
    fn fmt<W: fmt::Write>(&self, f: &mut fmt::Formatter<W>) -> fmt::Result {
        let Limits { taken, refused } = self;
        let inside = TAKEN.len();
        let outside = REFUSED.len();
        write!(
            f,
            "{taken} of {inside} numbers in range taken, {refused} of {outside} others refused"
        )
    }
}
