// Two judges of one kind in a row: the second is asked where the first is undecided.
ghost use Rattle.judge.specs.Words.{or_else};
ghost use Rattle.std.proofs.Common.{rules};

use crate::judge::Judge;
use crate::word::Word;

#[derive(Drop)]
pub struct Staged<F, S> {
    pub first: F,
    pub second: S,
}

impl<F: Judge, S: Judge<Reading = F::Reading>> Judge for Staged<F, S> {
    type Reading = F::Reading;

    ghost word = { λ s a b c. or_else (F.Judge.word s.first a b c) (S.Judge.word s.second a b c) };

    ghost certain = { Prim.search rules };

    fn ask(&self, a: &F::Reading, b: &F::Reading, c: &F::Reading) -> Word {
        match self.first.ask(a, b, c) {
            Word::Undecided => self.second.ask(a, b, c),
            word => word,
        }
    }
}
