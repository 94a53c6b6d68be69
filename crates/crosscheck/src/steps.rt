// The quick judge's operations on a triple, one after the other, each computed twice.
use crate::triples::{Axis, Triple};
use crate::twice::Twice;
use judge::word::Word;

// The names of the rows of tallies, in the order of the steps. Beside each step they would be copied with every triple.
pub(crate) const NAMES: [&'static str; 15] = [
    "p = xa - xc",
    "q = yb - yc",
    "r = xb - xc",
    "s = ya - yc",
    "p * q",
    "r * s",
    "D = pq - rs",
    "P = |xa| + |xc|",
    "Q = |yb| + |yc|",
    "R = |xb| + |xc|",
    "S = |ya| + |yc|",
    "P * Q",
    "R * S",
    "T = PQ + RS",
    "E = 6/2^53 * T",
];

// 6 · 2^-53
const COEFFICIENT: u64 = 0x3cc8_0000_0000_0000;

#[derive(Drop)]
pub(crate) struct Steps {
    pub(crate) difference: Twice,
    pub(crate) weight: Twice,
    pub(crate) allowance: Twice,
    // these three and what led to them, in the order of the names
    pub(crate) all: [Twice; 15],
}

// The operations of pq - rs, with `join` in place of each minus.
fn operations<F: Fn(Twice, Twice) -> Twice>(x: Axis<Twice>, y: Axis<Twice>, join: F) -> [Twice; 7]
    requires { F.IsAlwaysCallable join }
{
    let p = join(x.a, x.c);
    let q = join(y.b, y.c);
    let r = join(x.b, x.c);
    let s = join(y.a, y.c);
    let pq = p * q;
    let rs = r * s;
    [p, q, r, s, pq, rs, join(pq, rs)]
}

impl Steps {
    // Computes them, and converts nothing, so no From.
    pub(crate) fn of(triple: &Triple) -> Steps {
        let x = triple.level.map(Twice::from_bits);
        let y = triple.head.map(Twice::from_bits);
        let [p, q, r, s, pq, rs, d] = operations(x, y, |x, y| x - y);
        let x = x.map(Twice::magnitude);
        let y = y.map(Twice::magnitude);
        let [p2, q2, r2, s2, pq2, rs2, t] = operations(x, y, |x, y| x + y);
        let e = Twice::from_bits(COEFFICIENT) * t;
        Steps {
            difference: d,
            weight: t,
            allowance: e,
            all: [p, q, r, s, pq, rs, d, p2, q2, r2, s2, pq2, rs2, t, e],
        }
    }

    // Whether D is E or -E, so that a word rests on the sharpness of a comparison.
    pub(crate) fn on_edge(&self) -> bool {
        self.allowance.has_bits_of(self.difference.machine.abs())
    }

    // The word of D and E in whole numbers. Not by Word::of, with which the judge chooses its own.
    pub(crate) fn word(&self) -> Option<Word> {
        let d = self.difference.whole?;
        let e = self.allowance.whole?;
        Some(if d.exceeds(e) {
            Word::Left
        } else if d.negated().exceeds(e) {
            Word::Right
        } else {
            Word::Undecided
        })
    }
}
