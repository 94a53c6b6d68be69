// Settling: the start search where there is no ring yet, and passes where there is one.
ghost use Rattle.std.specs.Prelude.{◌≡◌, [], Some, length};
ghost use Rattle.rules.specs.Starting.{started};
ghost use Rattle.rules.specs.Settling.{begun, settled};
ghost use Rattle.envelope.specs.Corners.{Three};

use crate::starts::first_three;
use crate::table::Table;
use judge::judge::Judge;
use reading::kind::Kind;
use rules::standing::Standing;

impl<R: Kind> Table<R> {
    // Readings a, b and c become the first corners.
    fn start(&mut self, a: usize, b: usize, c: usize)
        requires none { self.old.envelope.ring ≡ [] }
        requires three { Three (length self.old.envelope.readings) a b c }
        ensures { self.new ≡ record self.old { envelope = started self.old.envelope (Some (a, b, c)) } }
    {
        self.standings[a] = Standing::Corner;
        self.standings[b] = Standing::Corner;
        self.standings[c] = Standing::Corner;
        self.ring.push_reserved(a);
        self.ring.push_reserved(b);
        self.ring.push_reserved(c);
    }

    // Without a ring, the first three readings that the judge decides become its corners.
    fn begin<J: Judge<Reading = R>>(&mut self, judge: &J)
        requires { self.old.envelope.ring ≡ [] }
        ensures { self.new ≡ record self.old { envelope = begun (J.word judge.now) self.old.envelope self.old.envelope.ring } }
    {
        if let Some((a, b, c)) = first_three(judge, &self.readings) {
            self.start(a, b, c);
        }
    }

    pub(crate) fn settle<J: Judge<Reading = R>>(&mut self, judge: &J)
        ensures { self.new ≡ record self.old { envelope = settled (J.word judge.now) self.old.envelope } }
    {
        if self.ring.is_empty() {
            self.begin(judge);
        }
        if !self.ring.is_empty() {
            self.passes(judge);
        }
    }
}
