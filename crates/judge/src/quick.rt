// The quick judge of logged readings: the orientation test in binary64, trusted only beyond its rounding error.
ghost use Rattle.std.specs.Prelude.{◌≡◌};
ghost use Rattle.reading.specs.Makes.{logged_numbers};
ghost use Rattle.orientation.specs.Filter.{difference as difference_of, weight as weight_of, allowance as allowance_of};
ghost use Rattle.judge.specs.Words.{by_numbers};
ghost use Rattle.judge.specs.Quick.{coefficient, quick_word};
ghost use Rattle.judge.specs.Quicks.{quick_certain};

use crate::judge::Judge;
use crate::word::Word;
use reading::logged::Logged;

#[derive(Clone, Copy, Drop)]
pub struct Quick;

// Difference and weight stay apart: one function of how two coordinates are joined would hide both formulas.
impl Quick {
    // D, the doubled area as far as binary64 tells it.
    pub fn difference(&self, a: &Logged, b: &Logged, c: &Logged) -> f64
        ensures { result ≡ by_numbers logged_numbers difference_of a.now b.now c.now }
    {
        let p = a.level() - c.level();
        let q = b.head() - c.head();
        let r = b.level() - c.level();
        let s = a.head() - c.head();
        p * q - r * s
    }

    // T, what the rounding errors of D are measured by.
    pub fn weight(&self, a: &Logged, b: &Logged, c: &Logged) -> f64
        ensures { result ≡ by_numbers logged_numbers weight_of a.now b.now c.now }
    {
        let p = a.level().abs() + c.level().abs();
        let q = b.head().abs() + c.head().abs();
        let r = b.level().abs() + c.level().abs();
        let s = a.head().abs() + c.head().abs();
        p * q + r * s
    }

    // E, what D must exceed to be trusted.
    pub fn allowance(&self, a: &Logged, b: &Logged, c: &Logged) -> f64
        ensures { result ≡ by_numbers logged_numbers (allowance_of coefficient) a.now b.now c.now }
    {
        // 6 · 2^-53
        6.661338147750939e-16 * self.weight(a, b, c)
    }
}

impl Judge for Quick {
    type Reading = Logged;

    ghost word = { λ _. by_numbers logged_numbers quick_word };

    ghost certain = { λ j. quick_certain };

    fn ask(&self, a: &Logged, b: &Logged, c: &Logged) -> Word {
        let d = self.difference(a, b, c);
        let e = self.allowance(a, b, c);
        Word::of(d > e, -d > e)
    }
}
