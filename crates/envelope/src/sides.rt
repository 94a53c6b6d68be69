// What a judge says on the sides of the ring.
ghost use Rattle.std.specs.Prelude.{◌≡◌, ◌<◌, length, slice_index_or};
ghost use Rattle.judge.specs.declared.word.Word.TheVariants.{Undecided};
ghost use Rattle.rules.specs.Asking.{asked, located as location_of};
ghost use Rattle.envelope.specs.Runs.{run_of};

use crate::run::Run;
use crate::table::Table;
use judge::judge::Judge;
use judge::word::Word;
use reading::kind::Kind;
use rules::location::Location;

impl<R: Kind> Table<R> {
    // The word on the side that begins at position i, with x third. Sides go by position: the last one ends at the first
    // corner, which no iterator over the ring gives without counting.
    fn word_on<J: Judge<Reading = R>>(&self, judge: &J, i: usize, x: &R) -> Word
        requires { i < length self.now.envelope.ring }
        ensures { result ≡ slice_index_or (asked (J.word judge.now) self.now.envelope x.now) i Undecided }
    {
        let sides = self.ring.len();
        let next = if i + 1 < sides { i + 1 } else { 0 };
        let a = self.ring[i];
        let b = self.ring[next];
        judge.ask(&self.readings[a], &self.readings[b], x)
    }

    // Where x lies, as far as the judge says.
    pub(crate) fn located<J: Judge<Reading = R>>(&self, judge: &J, x: &R) -> Location
        ensures { result ≡ location_of (J.word judge.now) self.now.envelope x.now }
    {
        let mut location = if self.ring.is_empty() {
            Location::Undecided
        } else {
            Location::Inside
        };
        for i in 0..self.ring.len() {
            match self.word_on(judge, i, x) {
                Word::Left => {}
                Word::Right => return Location::Outside,
                Word::Undecided => location = Location::Undecided,
            }
        }
        location
    }

    // None where the judge is undecided on a side.
    pub(crate) fn run<J: Judge<Reading = R>>(&self, judge: &J, x: &R) -> Option<Run>
        ensures { result ≡ run_of (asked (J.word judge.now) self.now.envelope x.now) }
    {
        let mut rights = 0;
        let mut start = 0;
        let mut first = false;
        // The last side comes before the first, and its word is not known yet.
        let mut before = true;
        for i in 0..self.ring.len() {
            let right = match self.word_on(judge, i, x) {
                Word::Left => false,
                Word::Right => true,
                Word::Undecided => return None,
            };
            if i == 0 {
                first = right;
            }
            // No run has begun before this side: it does here, or the next side may begin one.
            if start == i {
                start += usize::from(before | !right);
            }
            rights += usize::from(right);
            before = right;
        }
        if first && !before {
            start = 0;
        }
        Some(Run { start, rights })
    }
}
