// The centre judge of dipped readings: the doubled area of the centres, against how far the tolerances can move it.
ghost use Rattle.std.specs.Prelude.{◌≡◌, ◌^◌, ◌≤◌, pos, unsigned_abs};
ghost use Rattle.reading.specs.Makes.{dipped_numbers};
ghost use Rattle.judge.specs.Dips.{level, head};
ghost use Rattle.judge.specs.Words.{by_numbers};
ghost use Rattle.judge.specs.Centre.{apart, centre_area, centre_doubt, centre_word};
ghost use Rattle.judge.specs.Centres.{centre_certain};

use crate::coordinate::{Coordinate, Difference};
use crate::judge::Judge;
use crate::word::Word;
use reading::dipped::Dipped;

// What the doubled area p·q - r·s is made of.
#[derive(Clone, Copy)]
struct Differences {
    p: Difference,
    q: Difference,
    r: Difference,
    s: Difference,
}

impl Differences {
    fn of(a: &Dipped, b: &Dipped, c: &Dipped) -> Differences
        ensures p { result.p ≡ apart (level (dipped_numbers a.now)) (level (dipped_numbers c.now)) }
        ensures q { result.q ≡ apart (head (dipped_numbers b.now)) (head (dipped_numbers c.now)) }
        ensures r { result.r ≡ apart (level (dipped_numbers b.now)) (level (dipped_numbers c.now)) }
        ensures s { result.s ≡ apart (head (dipped_numbers a.now)) (head (dipped_numbers c.now)) }
    {
        let level = Coordinate::level(c);
        let head = Coordinate::head(c);
        Differences {
            p: Coordinate::level(a).minus(level),
            q: Coordinate::head(b).minus(head),
            r: Coordinate::level(b).minus(level),
            s: Coordinate::head(a).minus(head),
        }
    }
}

#[derive(Clone, Copy, Drop)]
pub struct Centre;

impl Centre {
    // C, the doubled area of the centres.
    pub fn area(&self, a: &Dipped, b: &Dipped, c: &Dipped) -> i64
        ensures value { result ≡ by_numbers dipped_numbers centre_area a.now b.now c.now }
        ensures small { unsigned_abs result ≤ 2 ^ 45 }
    {
        let Differences { p, q, r, s } = Differences::of(a, b, c);
        p.times(q) - r.times(s)
    }

    // R, how far the true doubled area may lie from C.
    pub fn doubt(&self, a: &Dipped, b: &Dipped, c: &Dipped) -> i64
        ensures { result ≡ pos (by_numbers dipped_numbers centre_doubt a.now b.now c.now) }
    {
        let Differences { p, q, r, s } = Differences::of(a, b, c);
        p.doubt(q) + r.doubt(s)
    }
}

impl Judge for Centre {
    type Reading = Dipped;

    ghost word = { λ _. by_numbers dipped_numbers centre_word };

    ghost certain = { λ j. centre_certain };

    fn ask(&self, a: &Dipped, b: &Dipped, c: &Dipped) -> Word {
        let area = self.area(a, b, c);
        let doubt = self.doubt(a, b, c);
        Word::of(area > doubt, -area > doubt)
    }
}
