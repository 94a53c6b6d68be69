// The triples of readings that are compared, in families; each number is given by its bits.
ghost use Rattle.std.specs.Prelude.{◌≡◌, ◌+◌, ◌*◌, ◌%◌, ◌^◌, ◌<◌, ◌≤◌};

use crate::source::Source;

// One coordinate of the readings a, b and c.
#[derive(Clone, Copy)]
pub(crate) struct Axis<T> {
    pub(crate) a: T,
    pub(crate) b: T,
    pub(crate) c: T,
}

#[derive(Drop)]
pub(crate) struct Triple {
    pub(crate) level: Axis<u64>,
    pub(crate) head: Axis<u64>,
}

impl<T> Axis<T> {
    fn drawn<F: FnMut() -> T>(mut draw: F) -> Axis<T>
        requires { F.IsAlwaysCallable draw }
    {
        Axis {
            a: draw(),
            b: draw(),
            c: draw(),
        }
    }

    pub(crate) fn map<U, F: FnMut(T) -> U>(self, mut f: F) -> Axis<U>
        requires { F.IsAlwaysCallable f }
    {
        Axis {
            a: f(self.a),
            b: f(self.b),
            c: f(self.c),
        }
    }
}

impl Triple {
    fn drawn<F: FnMut() -> Axis<u64>>(mut draw: F) -> Triple
        requires { F.IsAlwaysCallable draw }
    {
        Triple {
            level: draw(),
            head: draw(),
        }
    }
}

// 0, 1, 2^-20 and the next number above, 2^20 and the next number below.
const EXTREMES: [u64; 6] = [
    0,
    0x3ff0_0000_0000_0000,
    0x3eb0_0000_0000_0000,
    0x3eb0_0000_0000_0001,
    0x4130_0000_0000_0000,
    0x412f_ffff_ffff_ffff,
];

const SIGN: u64 = 0x8000_0000_0000_0000;

// 2^52
const FRACTIONS: u64 = 0x10_0000_0000_0000;

// 2^45
const STEPS: u64 = 0x2000_0000_0000;

fn with_sign(negative: bool, size: u64) -> u64 {
    if negative && size != 0 {
        size | SIGN
    } else {
        size
    }
}

// A number from 2^(power - 20) up, with the last 52 of these digits after its first.
fn number(power: u64, digits: u64) -> u64
    requires { power < 40 }
    ensures { result ≡ (1003 + power) * 2 ^ 52 + digits % 2 ^ 52 }
{
    (1003 + power) * FRACTIONS + digits % FRACTIONS
}

// digits / 2^(33 + down), or zero where that is too small for a reading.
fn quotient(digits: u64, down: u8) -> u64
    requires { digits < 2 ^ 53 }
{
    let zeros = digits.leading_zeros();
    match 50u32.checked_sub(zeros + u32::from(down)) {
        Some(power) if power < 40 => number(u64::from(power), digits << zeros >> 11),
        _ => 0,
    }
}

fn signed(source: &mut Source, size: u64) -> u64 {
    with_sign(source.coin(), size)
}

fn random_number(source: &mut Source) -> u64 {
    if source.below(16) == 0 {
        return 0;
    }
    let size = number(source.below(40), source.draw());
    signed(source, size)
}

fn random_axis(source: &mut Source) -> Axis<u64> {
    Axis::drawn(|| random_number(source))
}

// Any numbers of the range, and zero.
pub(crate) fn random(source: &mut Source) -> Triple {
    Triple::drawn(|| random_axis(source))
}

fn extreme(source: &mut Source) -> u64 {
    let size = EXTREMES[source.below(6) as usize];
    signed(source, size)
}

// The ends of the range, their neighbours inside, 1 and zero.
pub(crate) fn extremes(source: &mut Source) -> Triple {
    Triple::drawn(|| Axis::drawn(|| extreme(source)))
}

// c ends at half a unit in the last place of a and b.
fn tie_axis(source: &mut Source) -> Axis<u64> {
    let power = source.below(20);
    let zeros = source.below(20);
    let end = (source.draw() >> zeros | 1) << zeros;
    let a = number(power + zeros + 1, source.draw());
    let b = number(power + zeros + 1, source.draw());
    let c = number(power, end);
    Axis { a, b, c }.map(|size| signed(source, size))
}

// Sums and differences of two coordinates, mostly halfway between two numbers.
pub(crate) fn sum_ties(source: &mut Source) -> Triple {
    Triple::drawn(|| tie_axis(source))
}

// An odd number of 27 digits, times a power of two.
fn half_long(source: &mut Source) -> u64 {
    let size = number(source.below(40), (source.draw() | 1) << 26);
    signed(source, size)
}

// The product of two odd numbers of 27 digits has 53 digits or is halfway between two such.
fn half_long_axis(source: &mut Source) -> Axis<u64> {
    Axis {
        a: half_long(source),
        b: half_long(source),
        c: 0,
    }
}

// Products, many of them halfway between two numbers.
pub(crate) fn product_ties(source: &mut Source) -> Triple {
    Triple::drawn(|| half_long_axis(source))
}

// D and T, many of them halfway between two numbers: xa · yb has 53 digits or fewer, and xb · ya ends at half a unit
// in the 53rd.
pub(crate) fn last_ties(source: &mut Source) -> Triple {
    let across = source.below(20);
    let along = source.below(20);
    let xa = number(across + 20, (source.draw() | 1) << 26);
    let yb = number(along + 20, (source.draw() | 1) << 27);
    let xb = number(across, (source.draw() | 1) << 33);
    let ya = number(along + 7, 0);
    Triple {
        level: Axis {
            a: signed(source, xa),
            b: signed(source, xb),
            c: 0,
        },
        head: Axis {
            a: signed(source, ya),
            b: signed(source, yb),
            c: 0,
        },
    }
}

fn near_axis(source: &mut Source) -> Axis<u64> {
    let size = number(source.below(39), source.draw());
    let first = signed(source, size);
    Axis::drawn(|| first.wrapping_add(source.below(17)))
}

// Levels a few units in the last place apart, and heads too, or any.
pub(crate) fn near(source: &mut Source) -> Triple {
    let level = near_axis(source);
    let head = if source.coin() {
        near_axis(source)
    } else {
        random_axis(source)
    };
    Triple { level, head }
}

// (place - 2^52) / 2^(33 + down)
fn placed(place: u64, down: u8) -> u64
    requires { place ≤ 2 ^ 53 }
{
    if place < FRACTIONS {
        with_sign(true, quotient(FRACTIONS - place, down))
    } else {
        quotient(place - FRACTIONS, down)
    }
}

// a and b by their places, and c at part / 256 of the way from a to b, moved by off - 16.
fn line_axis(source: &mut Source, part: u64, off: u64, down: u8) -> Axis<u64>
    requires part { part ≤ 256 }
    requires off { off ≤ 32 }
{
    let a = source.below(STEPS);
    let b = source.below(STEPS);
    let c = ((256 - part) * a).saturating_add(part * b);
    Axis {
        a: placed(256 * a, down),
        b: placed(256 * b, down),
        c: placed(c.clamp(16, 256 * STEPS - 16) + off - 16, down),
    }
}

// c on the line through a and b, but for a few steps of the grid that they stand on.
pub(crate) fn line(source: &mut Source) -> Triple {
    let part = source.below(257);
    let off = source.below(33);
    let down = source.below(16) as u8;
    Triple {
        level: line_axis(source, part, 16, down),
        head: line_axis(source, part, off, down),
    }
}

// D a few units in the last place from E or -E, or equal to it: at levels 1 + 3/2^52, 1 - 6/2^53 and 0 and heads 1, 1
// and 0, both are 12/2^53.
pub(crate) fn edge(source: &mut Source) -> Triple {
    let one = number(1 + source.below(39), 0);
    let above = one.wrapping_add(1 + source.below(5));
    let below = one.wrapping_sub(4 + source.below(5));
    let (a, b) = if source.coin() {
        (above, below)
    } else {
        (below, above)
    };
    let head = with_sign(source.coin(), number(source.below(40), 0));
    Triple {
        level: Axis { a, b, c: 0 },
        head: Axis {
            a: head,
            b: head,
            c: 0,
        },
    }
}
