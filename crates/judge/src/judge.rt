// A judge of one kind of reading.
ghost use Rattle.std.specs.Prelude.{◌≡◌};
ghost use Rattle.judge.specs.Words.{Certain};
ghost use Rattle.judge.specs.declared.word.Word.{Word as Said};

use crate::word::Word;
use reading::kind::Kind;

pub trait Judge {
    type Reading: Kind;

    // the word on three readings, in their order
    ghost word: { Self → Self.Reading → Self.Reading → Self.Reading → Said };

    // The readings are given one by one, as an orientation test is written.
    fn ask(&self, a: &Self::Reading, b: &Self::Reading, c: &Self::Reading) -> Word
        ensures word { result ≡ word self.now a.now b.now c.now }
        ensures certain { Certain Self.Reading.Kind.stands a.now b.now c.now result };

    ghost certain: { (j : Self) (a b c : Self.Reading) → Certain Self.Reading.Kind.stands a b c (word j a b c) };
}
