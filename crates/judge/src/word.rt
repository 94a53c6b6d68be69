// What a judge says of three readings a, b and c: on which side of the line from a to b the third lies.
ghost use Rattle.std.specs.Prelude.{◌≡◌, Some};
ghost use Rattle.judge.specs.Words.{worded, word_name};

use std::fmt;

#[derive(Clone, Copy, PartialEq, Eq, Debug)]
pub enum Word {
    Left,
    Right,
    Undecided,
}

impl Word {
    // The word of a judge's two tests, of which left comes first. A From of two bools would not say which is which.
    pub fn of(left: bool, right: bool) -> Word
        ensures { result ≡ worded left right }
    {
        if left {
            Word::Left
        } else if right {
            Word::Right
        } else {
            Word::Undecided
        }
    }

    // As it is printed. Display prints it; this is for comparing it, without a place to print to.
    pub fn name(self) -> &'static str
        ensures { result.now ≡ word_name self }
    {
        match self {
            Word::Left => "LEFT",
            Word::Right => "RIGHT",
            Word::Undecided => "UNDECIDED",
        }
    }
}

impl fmt::Display for Word {
    ghost output = { λ w. Some (word_name w) };

    fn fmt<W: fmt::Write>(&self, f: &mut fmt::Formatter<W>) -> fmt::Result {
        f.write_str(self.name())
    }
}
