// The limits of the numbers that a reading may hold.
use reading::cause::Cause;
use reading::dipped::Dipped;
use reading::logged::Logged;
use reading::refusal::ReadingRefusal;
use std::num::{f64_from_bits_with_nan, f64_to_bits_with_nan};
use std::test::Fail;

// The number of the cause, and the field.
fn refused<R: Drop>(made: Result<R, ReadingRefusal>) -> Option<(u8, usize)> {
    let refusal = made.err()?;
    Some((u8::from(Cause::from(refusal)), refusal.field()))
}

// The bits of a number, and whether a logged reading may hold it.
struct Number(u64, bool);

const NUMBERS: [Number; 15] = [
    // zero, and 2^20 and 2^-20 of either sign
    Number(0, true),
    Number(0x4130_0000_0000_0000, true),
    Number(0xc130_0000_0000_0000, true),
    Number(0x3eb0_0000_0000_0000, true),
    Number(0xbeb0_0000_0000_0000, true),
    // the numbers next to them
    Number(0x4130_0000_0000_0001, false),
    Number(0xc130_0000_0000_0001, false),
    Number(0x3eaf_ffff_ffff_ffff, false),
    Number(0xbeaf_ffff_ffff_ffff, false),
    // negative zero, the smallest number, the infinities and two NaNs
    Number(0x8000_0000_0000_0000, false),
    Number(1, false),
    Number(0x7ff0_0000_0000_0000, false),
    Number(0xfff0_0000_0000_0000, false),
    Number(0x7ff8_0000_0000_0000, false),
    Number(0x7ff0_0000_0000_0001, false),
];

#[test]
fn logged_limits(rt: HostRuntime) -> Result<(), Fail> {
    for Number(bits, taken) in &NUMBERS {
        let x = f64_from_bits_with_nan(*bits);
        let as_level = Logged::new(x, 0.0);
        let as_head = Logged::new(0.0, x);
        if *taken {
            assert_eq!(rt; f64_to_bits_with_nan(as_level?.level()), *bits);
            assert_eq!(rt; f64_to_bits_with_nan(as_head?.head()), *bits);
        } else {
            assert_eq!(rt; refused(as_level), Some((1, 0)), "{}", bits);
            assert_eq!(rt; refused(as_head), Some((1, 1)), "{}", bits);
        }
    }
    Ok(())
}

// A level and a head, each with its tolerance, and the refusal: the number of the cause, and the field.
struct Dip((i32, u16), (i32, u16), Option<(u8, usize)>);

const DIPS: [Dip; 13] = [
    Dip((1_000_000, 0), (-1_000_000, 1000), None),
    Dip((-1_000_000, 1000), (1_000_000, 0), None),
    Dip((1_000_001, 0), (0, 0), Some((2, 0))),
    Dip((-1_000_001, 0), (0, 0), Some((2, 0))),
    Dip((0, 1001), (0, 0), Some((3, 1))),
    Dip((0, 0), (1_000_001, 0), Some((2, 2))),
    Dip((0, 0), (-1_000_001, 0), Some((2, 2))),
    Dip((0, 0), (0, 1001), Some((3, 3))),
    // two bad fields: the first is named
    Dip((1_000_001, 1001), (0, 0), Some((2, 0))),
    Dip((0, 1001), (1_000_001, 0), Some((3, 1))),
    Dip((0, 1001), (0, 1001), Some((3, 1))),
    Dip((0, 0), (-1_000_001, 1001), Some((2, 2))),
    Dip((i32::MIN, 0), (i32::MAX, u16::MAX), Some((2, 0))),
];

#[test]
fn dipped_limits(rt: HostRuntime) -> Result<(), Fail> {
    for Dip(level, head, refusal) in &DIPS {
        let made = Dipped::new(level.0, level.1, head.0, head.1);
        if refusal.is_none() {
            let dipped = made?;
            assert_eq!(rt; (dipped.level(), dipped.level_tolerance()), *level);
            assert_eq!(rt; (dipped.head(), dipped.head_tolerance()), *head);
        } else {
            assert_eq!(rt; refused(made), *refusal);
        }
    }
    Ok(())
}
