// A kind of reading: which true points a reading stands for, and what a page calls it.
ghost use Rattle.std.specs.Prelude.{◌≡◌, ℕ, List, codes};
ghost use Rattle.plane.specs.Points.{Point};
ghost use Rattle.reading.specs.TruePoints.{LoggedPoint, DippedPoint, logged_sample, dipped_sample, value_of};
ghost use Rattle.reading.specs.Itself.{no_distance, within};

use crate::dipped::Dipped;
use crate::logged::Logged;

pub trait Kind {
    // the true points that a reading may have come from
    ghost stands: { Self → Point → Type 0 };

    // one of them
    ghost sample: { Self → Point };

    // the word that heads the kind's page
    ghost title: { List ℕ };

    // Of the kind and not of a reading, so there is nothing to print by Display.
    fn name() -> &'static str
        ensures { result.now ≡ title };

    ghost some: { (r : Self) → stands r (sample r) };
}

impl Kind for Logged {
    ghost stands = { λ r p. LoggedPoint r.level r.head p };

    ghost sample = { λ r. logged_sample r.level r.head };

    ghost title = { codes "LOGGED" };

    ghost some = { λ r. (no_distance (value_of r.level), no_distance (value_of r.head)) };

    fn name() -> &'static str {
        "LOGGED"
    }
}

impl Kind for Dipped {
    ghost stands = { λ r p. DippedPoint r.level r.level_tolerance r.head r.head_tolerance p };

    ghost sample = { λ r. dipped_sample r.level r.head };

    ghost title = { codes "DIPPED" };

    ghost some = { λ r. (within r.level r.level_tolerance, within r.head r.head_tolerance) };

    fn name() -> &'static str {
        "DIPPED"
    }
}
