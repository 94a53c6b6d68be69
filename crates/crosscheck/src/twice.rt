// A number computed twice: by the machine in binary64, and in whole numbers.
use crate::whole::{Rounding, Whole};
use std::num::{f64_from_bits_with_nan, f64_to_bits_with_nan};
use std::ops::{Add, Mul, Sub};

#[derive(Clone, Copy)]
pub(crate) struct Twice {
    pub(crate) machine: f64,
    // None beyond the normal numbers
    pub(crate) whole: Option<Whole>,
}

// What a tally counts of a number. It holds no Whole: a `&mut Tally` beside one in an iterator gets no proof.
#[derive(Clone, Copy)]
pub(crate) struct Outcome {
    pub(crate) agrees: bool,
    pub(crate) rounding: Option<Rounding>,
}

impl Twice {
    // Named as that of f64, so no From.
    pub(crate) fn from_bits(bits: u64) -> Twice {
        Twice {
            machine: f64_from_bits_with_nan(bits),
            whole: Whole::from_bits(bits),
        }
    }

    // One operation, done by the machine and in whole numbers.
    fn joined<M, W>(self, other: Twice, machine: M, whole: W) -> Twice
    where
        M: FnOnce(f64, f64) -> f64,
        W: FnOnce(Whole, Whole) -> Option<Whole>,
        requires machine { M.IsAlwaysCallable machine }
        requires whole { W.IsAlwaysCallable whole }
    {
        Twice {
            machine: machine(self.machine, other.machine),
            whole: self.whole.zip(other.whole).and_then(|(x, y)| whole(x, y)),
        }
    }

    pub(crate) fn magnitude(self) -> Twice {
        Twice {
            machine: self.machine.abs(),
            whole: self.whole.map(Whole::magnitude),
        }
    }

    // Whether the number in whole numbers has the bits of x.
    pub(crate) fn has_bits_of(self, x: f64) -> bool {
        self.whole
            .is_some_and(|whole| whole.to_bits() == f64_to_bits_with_nan(x))
    }

    pub(crate) fn outcome(self) -> Outcome {
        Outcome {
            agrees: self.has_bits_of(self.machine),
            rounding: self.whole.map(|whole| whole.rounding),
        }
    }
}

impl Add for Twice {
    type Output = Twice;

    fn add(self, other: Twice) -> Twice {
        self.joined(other, |x, y| x + y, Whole::plus)
    }
}

impl Sub for Twice {
    type Output = Twice;

    fn sub(self, other: Twice) -> Twice {
        self.joined(other, |x, y| x - y, Whole::minus)
    }
}

impl Mul for Twice {
    type Output = Twice;

    fn mul(self, other: Twice) -> Twice {
        self.joined(other, |x, y| x * y, Whole::times)
    }
}
