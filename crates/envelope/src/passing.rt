// Passes over the held readings.
ghost use Rattle.std.specs.Prelude.{◌≡◌, suc};
ghost use Rattle.rules.specs.Trying.{held_count as held_among, pass as passed, passes as all_passed};

use crate::counts::held_count;
use crate::table::Table;
use judge::judge::Judge;
use reading::kind::Kind;

impl<R: Kind> Table<R> {
    // How many readings are held.
    pub(crate) fn held(&self) -> usize
        ensures { result ≡ held_among self.now.envelope.standings }
    {
        held_count(&self.standings)
    }

    // Each held reading is tried, in rising number.
    fn pass<J: Judge<Reading = R>>(&mut self, judge: &J)
        ensures { self.new ≡ record self.old { envelope = passed (J.word judge.now) self.old.envelope.readings 0 self.old.envelope } }
    {
        // by number, since each try may change the table
        for k in 0..self.readings.len() {
            self.try_held(judge, k);
        }
    }

    // Passes until one settles nothing.
    pub(crate) fn passes<J: Judge<Reading = R>>(&mut self, judge: &J)
        ensures { self.new ≡ record self.old { envelope = all_passed (J.word judge.now) (suc (held_among self.old.envelope.standings)) self.old.envelope } }
    {
        let mut held = self.held();
        loop {
            self.pass(judge);
            let left = self.held();
            if left == held {
                return;
            }
            held = left;
        }
    }
}
