// The coordinates of dips and the differences of two, each a centre with a tolerance, and a coordinate's ends.
ghost use Rattle.std.specs.Prelude.{◌≡◌, ◌^◌, ◌≤◌, ◌*◌, pos, ◌-ℤ◌, ◌*ℤ◌, unsigned_abs};
ghost use Rattle.reading.specs.Makes.{dipped_numbers};
ghost use Rattle.judge.specs.Dips.{level as level_of, head as head_of, low, high};
ghost use Rattle.judge.specs.Centre.{apart, product_doubt};
ghost use Rattle.judge.specs.Corner.{ends};
ghost use Rattle.judge.specs.Spans.{IsSpan};

use crate::span::Span;
use reading::dipped::Dipped;
use std::marker::Model;

#[derive(Clone, Copy)]
pub(crate) struct Coordinate {
    centre: i32,
    tolerance: u16,
}

impl Model for Coordinate {
    ghost use Rattle.std.specs.Prelude.{T};
    ghost use Rattle.reading.specs.Limits.{reachable, tolerable};
    ghost use Rattle.judge.specs.Dips.{Coordinate as Numbers};

    ghost Value = { Numbers };

    ghost view = { λ x. (x.centre, x.tolerance) };

    ghost invariant = { λ x. T (reachable x.centre) × T (tolerable x.tolerance) };

    ghost inverse = { λ x. record { centre = x.0; tolerance = x.1 } };
}

// Level and head differ in the two fields that they read; one function that took them would be no shorter.
impl Coordinate {
    pub(crate) fn level(a: &Dipped) -> Coordinate
        ensures { result ≡ level_of (dipped_numbers a.now) }
    {
        Coordinate {
            centre: a.level(),
            tolerance: a.level_tolerance(),
        }
    }

    pub(crate) fn head(a: &Dipped) -> Coordinate
        ensures { result ≡ head_of (dipped_numbers a.now) }
    {
        Coordinate {
            centre: a.head(),
            tolerance: a.head_tolerance(),
        }
    }

    pub(crate) fn low(self) -> End
        ensures { result ≡ low self }
    {
        End {
            millimetres: i64::from(self.centre) - i64::from(self.tolerance),
        }
    }

    pub(crate) fn high(self) -> End
        ensures { result ≡ high self }
    {
        End {
            millimetres: i64::from(self.centre) + i64::from(self.tolerance),
        }
    }

    // The difference of the centres, with both tolerances together.
    pub(crate) fn minus(self, other: Coordinate) -> Difference
        ensures { result ≡ apart self other }
    {
        Difference {
            centre: self.centre - other.centre,
            tolerance: self.tolerance + other.tolerance,
        }
    }

    // The least and the greatest of t·(y - z) at both ends t.
    pub(crate) fn spread(self, y: End, z: End) -> Span
        ensures value { IsSpan (λ pick. ends pick self (λ t. t *ℤ (y -ℤ z))) result }
        ensures least_small { unsigned_abs result.least ≤ 2 ^ 44 }
        ensures greatest_small { unsigned_abs result.greatest ≤ 2 ^ 44 }
    {
        let factor = y.minus(z);
        let middle = i64::from(self.centre) * factor;
        let reach = i64::from(self.tolerance) * factor.abs();
        Span {
            least: middle - reach,
            greatest: middle + reach,
        }
    }
}

// One of the two ends of a coordinate.
#[derive(Clone, Copy)]
pub(crate) struct End {
    pub(crate) millimetres: i64,
}

impl Model for End {
    ghost use Rattle.std.specs.Prelude.{ℤ, ◌^◌, ◌≤◌, unsigned_abs};

    ghost Value = { ℤ };

    ghost view = { λ x. x.millimetres };

    ghost invariant = { λ x. unsigned_abs x.millimetres ≤ 2 ^ 21 };

    ghost inverse = { λ x. record { millimetres = x } };
}

impl End {
    // The length between two ends.
    pub(crate) fn minus(self, other: End) -> i64
        ensures value { result ≡ self -ℤ other }
        ensures short { unsigned_abs result ≤ 2 ^ 22 }
    {
        self.millimetres - other.millimetres
    }
}

#[derive(Clone, Copy)]
pub(crate) struct Difference {
    centre: i32,
    tolerance: u16,
}

impl Model for Difference {
    ghost use Rattle.std.specs.Prelude.{◌^◌, ◌≤◌, unsigned_abs};
    ghost use Rattle.judge.specs.Dips.{Coordinate as Numbers};

    ghost Value = { Numbers };

    ghost view = { λ x. (x.centre, x.tolerance) };

    ghost invariant = { λ x. unsigned_abs x.centre ≤ 2 ^ 22 };

    ghost inverse = { λ x. record { centre = x.0; tolerance = x.1 } };
}

impl Difference {
    // The product of the centres.
    pub(crate) fn times(self, other: Difference) -> i64
        ensures value { result ≡ self.0 *ℤ other.0 }
        ensures small { unsigned_abs result ≤ 2 ^ 44 }
    {
        i64::from(self.centre) * i64::from(other.centre)
    }

    // The centre, times a tolerance.
    fn scaled(self, tolerance: u16) -> i64
        ensures value { result ≡ self.0 *ℤ pos tolerance }
        ensures magnitude { unsigned_abs result ≡ unsigned_abs self.0 * tolerance }
        ensures small { unsigned_abs result ≤ 2 ^ 38 }
    {
        i64::from(self.centre) * i64::from(tolerance)
    }

    // The magnitude of the centre, times a tolerance.
    fn magnified(self, tolerance: u16) -> i64
        ensures value { result ≡ pos (unsigned_abs self.0 * tolerance) }
        ensures small { unsigned_abs result ≤ 2 ^ 38 }
    {
        self.scaled(tolerance).abs()
    }

    // How far the product of two differences may lie from that of their centres.
    pub(crate) fn doubt(self, other: Difference) -> i64
        ensures value { result ≡ pos (product_doubt self other) }
        ensures small { product_doubt self other ≤ 2 ^ 46 }
    {
        let by = self.tolerance;
        let other_by = other.tolerance;
        let both = i64::from(u32::from(by) * u32::from(other_by));
        other.magnified(by) + self.magnified(other_by) + both
    }
}
