// Binary64 in whole numbers: zero and the normal numbers, rounded to nearest, ties to even.
ghost use Rattle.std.specs.Prelude.{◌≡◌, ◌+◌, ◌*◌, ◌%◌, ◌^◌, ◌<◌, ◌≤◌, false, not, pos, ◌≤ℤ◌, ◌<ℤ◌, IfSome, unsigned_abs};

// 2^52, the least significand of a number other than zero.
const LEAST: u64 = 0x10_0000_0000_0000;

// 2^64, room below the last digit of a significand.
const ROOM: u128 = 0x1_0000_0000_0000_0000;

// 2^75, what the 53 leading digits of 128 are counted in.
const UNIT: u128 = 0x800_0000_0000_0000_0000;

// How a number came by its 53 digits.
#[derive(Clone, Copy, PartialEq, Eq)]
pub(crate) enum Rounding {
    Exact,
    // off, and not halfway between two numbers
    Nearer,
    // halfway, and rounded towards zero or away from it
    TieDown,
    TieUp,
}

// significand · 2^(exponent - 1075), with a significand from 2^52 up to 2^53; zero has 0 for both.
#[derive(Clone, Copy)]
pub(crate) struct Whole {
    negative: bool,
    significand: u64,
    exponent: i32,
    pub(crate) rounding: Rounding,
    ghost digits: { significand < 2 ^ 53 },
    ghost least: { pos 0 ≤ℤ exponent },
    ghost greatest: { exponent <ℤ pos 2047 },
}

// The 53 leading digits of 128, the first of which is not 0, and how they were rounded.
fn leading(digits: u128) -> (u64, Rounding)
    ensures bound { result.0 ≤ 2 ^ 53 }
    ensures near_below { 2 * digits ≤ 2 ^ 76 * result.0 + 2 ^ 75 }
    ensures near_above { 2 ^ 76 * result.0 ≤ 2 * digits + 2 ^ 75 }
    ensures even { 2 * digits % 2 ^ 76 ≡ 2 ^ 75 → result.0 % 2 ≡ 0 }
{
    let kept = (digits / UNIT) as u64;
    let rest = digits % UNIT;
    if rest == 0 {
        (kept, Rounding::Exact)
    } else if rest < UNIT / 2 {
        (kept, Rounding::Nearer)
    } else if rest > UNIT / 2 {
        (kept + 1, Rounding::Nearer)
    } else if kept % 2 == 0 {
        (kept, Rounding::TieDown)
    } else {
        (kept + 1, Rounding::TieUp)
    }
}

// digits / 2^by, its last digit 1 where digits were lost.
fn lowered(digits: u128, by: u32) -> u128 {
    match digits.checked_shr(by) {
        Some(kept) if kept << by == digits => kept,
        Some(kept) => kept | 1,
        None => u128::from(digits != 0),
    }
}

impl Whole {
    ghost use Rattle.crosscheck.specs.Patterns.{pattern, bits_of};

    fn zero(negative: bool) -> Whole
        ensures { bits_of result ≡ pattern negative 0 (pos 0) }
    {
        Whole {
            negative,
            significand: 0,
            exponent: 0,
            rounding: Rounding::Exact,
        }
    }

    // None beyond the normal numbers.
    fn normal(negative: bool, significand: u64, exponent: i32, rounding: Rounding) -> Option<Whole>
        requires { significand < 2 ^ 53 }
        ensures { IfSome result (λ w. bits_of w ≡ pattern negative significand exponent) }
    {
        if !(1..=2046).contains(&exponent) {
            return None;
        }
        Some(Whole {
            negative,
            significand,
            exponent,
            rounding,
        })
    }

    // digits · 2^(scale - 1075).
    fn rounded(negative: bool, digits: u128, scale: i32) -> Option<Whole>
        requires { unsigned_abs scale ≤ 8192 }
    {
        let shift = digits.leading_zeros();
        let Some(digits) = digits.checked_shl(shift) else {
            // all 128 digits are 0
            return Some(Whole::zero(negative));
        };
        let (significand, rounding) = leading(digits);
        let exponent = scale + 75 - shift as i32;
        if significand < 2 * LEAST {
            Whole::normal(negative, significand, exponent, rounding)
        } else {
            Whole::normal(negative, LEAST, exponent + 1, rounding)
        }
    }

    // Named as the two of f64, so no From.
    pub(crate) fn from_bits(bits: u64) -> Option<Whole>
        ensures { IfSome result (λ w. bits_of w ≡ bits) }
    {
        let negative = bits >= 0x8000_0000_0000_0000;
        let exponent = (bits / LEAST % 2048) as i32;
        let fraction = bits % LEAST;
        if exponent == 0 && fraction == 0 {
            return Some(Whole::zero(negative));
        }
        Whole::normal(negative, LEAST + fraction, exponent, Rounding::Exact)
    }

    pub(crate) fn to_bits(self) -> u64
        ensures { result ≡ bits_of self }
    {
        let size = self.exponent as u64 * LEAST + self.significand % LEAST;
        if self.negative {
            0x8000_0000_0000_0000 + size
        } else {
            size
        }
    }

    fn with_sign(mut self, negative: bool) -> Whole
        ensures { bits_of result ≡ pattern negative self.significand self.exponent }
    {
        self.negative = negative;
        self
    }

    pub(crate) fn negated(self) -> Whole
        ensures { bits_of result ≡ pattern (not self.negative) self.significand self.exponent }
    {
        self.with_sign(!self.negative)
    }

    pub(crate) fn magnitude(self) -> Whole
        ensures { bits_of result ≡ pattern false self.significand self.exponent }
    {
        self.with_sign(false)
    }

    pub(crate) fn plus(self, other: Whole) -> Option<Whole> {
        let (high, low) = if self.exponent < other.exponent {
            (other, self)
        } else {
            (self, other)
        };
        let gap = high.exponent.abs_diff(low.exponent);
        let above = u128::from(high.significand) * ROOM;
        let below = lowered(u128::from(low.significand) * ROOM, gap);
        let scale = high.exponent - 64;
        if high.negative == low.negative {
            Whole::rounded(high.negative, above.checked_add(below)?, scale)
        } else if above < below {
            Whole::rounded(low.negative, below - above, scale)
        } else if above > below {
            Whole::rounded(high.negative, above - below, scale)
        } else {
            Whole::rounded(false, 0, scale)
        }
    }

    pub(crate) fn minus(self, other: Whole) -> Option<Whole> {
        self.plus(other.negated())
    }

    pub(crate) fn times(self, other: Whole) -> Option<Whole> {
        let negative = self.negative != other.negative;
        let digits = u128::from(self.significand) * u128::from(other.significand);
        Whole::rounded(negative, digits, self.exponent + other.exponent - 1075)
    }

    // The numbers' order: the bits of magnitudes are ordered as these, and both zeros have 0.
    fn rank(self) -> i64 {
        let size = self.magnitude().to_bits() as i64;
        if self.negative { -size } else { size }
    }

    // Not PartialOrd: it would call numbers equal that were rounded otherwise.
    pub(crate) fn exceeds(self, other: Whole) -> bool {
        self.rank() > other.rank()
    }
}
