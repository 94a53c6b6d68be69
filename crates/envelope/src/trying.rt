// What a judge's words make of a held reading.
ghost use Rattle.std.specs.Prelude.{◌≡◌, ◌<◌, ◌≤◌, length, slice_index_or};
ghost use Rattle.rules.specs.declared.standing.Standing.TheVariants.{Corner as corner, Held as held};
ghost use Rattle.rules.specs.Trying.{tried};
ghost use Rattle.envelope.specs.Corners.{with_corner};

use crate::ring;
use crate::run::Run;
use crate::table::Table;
use judge::judge::Judge;
use reading::kind::Kind;
use rules::standing::Standing;

impl<R> Table<R> {
    // Reading k becomes a corner, in place of the corners between two right sides.
    fn take_in(&mut self, k: usize, run: Run)
        requires number { k < length self.old.envelope.readings }
        requires held { slice_index_or self.old.envelope.standings k corner ≡ held }
        requires start { run.start ≤ length self.old.envelope.ring }
        requires some { 0 < run.rights }
        requires most { run.rights ≤ length self.old.envelope.ring }
        ensures { self.new ≡ record self.old { envelope = with_corner self.old.envelope k run } }
    {
        self.standings[k] = Standing::Corner;
        self.ring.rotate_left(run.start);
        ring::retire(&mut self.standings, &self.ring[1..run.rights]);
        ring::place(&mut self.ring, run.rights, k);
        let lowest = ring::lowest_at(&self.ring);
        self.ring.rotate_left(lowest);
    }
}

impl<R: Kind> Table<R> {
    // Reading k is tried, if it is held: it becomes inside or a corner, or stays held where the judge is undecided on a side.
    pub(crate) fn try_held<J: Judge<Reading = R>>(&mut self, judge: &J, k: usize)
        requires { k < length self.old.envelope.readings }
        ensures { (x : R) → self.new ≡ record self.old { envelope = tried (J.word judge.now) self.old.envelope k (slice_index_or self.old.envelope.readings k x) } }
    {
        let Standing::Held = self.standings[k] else {
            return;
        };
        match self.run(judge, &self.readings[k]) {
            None => {}
            Some(run) if run.rights == 0 => self.standings[k] = Standing::Inside,
            Some(run) => self.take_in(k, run),
        }
    }
}
