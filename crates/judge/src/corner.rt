// The corner judge of dipped readings: the least and the greatest doubled area of all settings of the coordinates to their ends.
ghost use Rattle.std.specs.Prelude.{◌≡◌, ◌^◌, ◌≤◌, pos, ◌+ℤ◌, ◌-ℤ◌, unsigned_abs};
ghost use Rattle.reading.specs.Makes.{dipped_numbers};
ghost use Rattle.judge.specs.Words.{Certain, Decided, by_numbers};
ghost use Rattle.judge.specs.Corner.{at_heads, middle, reach, over_third, over_second, least, greatest, corner_word};
ghost use Rattle.judge.specs.Spans.{IsSpan, AtEnds};
ghost use Rattle.judge.specs.Corners.{corner_certain};

use crate::coordinate::{Coordinate, End};
use crate::judge::Judge;
use crate::span::Span;
use crate::word::Word;
use reading::dipped::Dipped;
use reading::kind::Kind;

// Here too a, b and c are given one by one, as an orientation test is written, and then the heads that are set.
// A struct of them would be taken apart at every step.

// The least and the greatest of f at both ends of a coordinate.
fn over_ends<F: Fn(End) -> Span>(x: Coordinate, f: F) -> Span
    requires { F.IsAlwaysCallable f }
    ensures { AtEnds (F.post f) x result }
{
    f(x.low()).join(f(x.high()))
}

// The least and the greatest doubled area of given heads and all 8 settings of the levels. The area is
// xa·(yb - yc) + xb·(yc - ya) + xc·(ya - yb), of which each term has its least and its greatest at the ends of its level.
fn at_heads(a: &Dipped, b: &Dipped, c: &Dipped, ya: End, yb: End, yc: End) -> Span
    ensures value { IsSpan (λ pick. by_numbers dipped_numbers (at_heads pick) a.now b.now c.now ya yb yc) result }
    ensures least { result.least ≡ by_numbers dipped_numbers middle a.now b.now c.now ya yb yc -ℤ pos (by_numbers dipped_numbers reach a.now b.now c.now ya yb yc) }
    ensures greatest { result.greatest ≡ by_numbers dipped_numbers middle a.now b.now c.now ya yb yc +ℤ pos (by_numbers dipped_numbers reach a.now b.now c.now ya yb yc) }
    ensures least_small { unsigned_abs result.least ≤ 2 ^ 46 }
    ensures greatest_small { unsigned_abs result.greatest ≤ 2 ^ 46 }
{
    let first = Coordinate::level(a).spread(yb, yc);
    let second = Coordinate::level(b).spread(yc, ya);
    let third = Coordinate::level(c).spread(ya, yb);
    Span {
        least: first.least + second.least + third.least,
        greatest: first.greatest + second.greatest + third.greatest,
    }
}

// Over both ends of the third head too.
fn over_third(a: &Dipped, b: &Dipped, c: &Dipped, ya: End, yb: End) -> Span
    ensures { IsSpan (λ pick. by_numbers dipped_numbers (over_third pick) a.now b.now c.now ya yb) result }
{
    over_ends(Coordinate::head(c), |yc| at_heads(a, b, c, ya, yb, yc))
}

// Over both ends of the second head too.
fn over_second(a: &Dipped, b: &Dipped, c: &Dipped, ya: End) -> Span
    ensures { IsSpan (λ pick. by_numbers dipped_numbers (over_second pick) a.now b.now c.now ya) result }
{
    over_ends(Coordinate::head(b), |yb| over_third(a, b, c, ya, yb))
}

#[derive(Clone, Copy, Drop)]
pub struct Corner;

impl Corner {
    // The least and the greatest doubled area of all 64 settings, as the pair that callers take apart.
    pub fn sweep(&self, a: &Dipped, b: &Dipped, c: &Dipped) -> (i64, i64)
        ensures { result ≡ (by_numbers dipped_numbers least a.now b.now c.now, by_numbers dipped_numbers greatest a.now b.now c.now) }
    {
        // Not by over_ends: the compiler leaves the outermost closure a call, and an ask takes a quarter longer.
        let ya = Coordinate::head(a);
        let all = over_second(a, b, c, ya.low()).join(over_second(a, b, c, ya.high()));
        (all.least, all.greatest)
    }
}

impl Judge for Corner {
    type Reading = Dipped;

    ghost word = { λ _. by_numbers dipped_numbers corner_word };

    ghost certain = { λ j. corner_certain };

    fn ask(&self, a: &Dipped, b: &Dipped, c: &Dipped) -> Word
        ensures word { result ≡ by_numbers dipped_numbers corner_word a.now b.now c.now }
        ensures certain { Certain ⟦<Dipped as Kind>⟧.stands a.now b.now c.now result }
        ensures decided { Decided ⟦<Dipped as Kind>⟧.stands a.now b.now c.now result }
    {
        let (least, greatest) = self.sweep(a, b, c);
        Word::of(least > 0, greatest < 0)
    }
}
