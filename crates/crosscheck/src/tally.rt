// Counts of what was compared, each a row of the page.
use crate::twice::Outcome;
use crate::whole::Rounding;
use judge::word::Word;
use std::fmt;

// One operation: how often both sides agree, and how often the result was rounded.
#[derive(Drop)]
pub(crate) struct Tally {
    name: &'static str,
    pub(crate) agreed: u64,
    inexact: u64,
    ties_down: u64,
    ties_up: u64,
}

// How often each word was said.
#[derive(Default, Drop)]
pub(crate) struct Words {
    left: u64,
    right: u64,
    undecided: u64,
}

pub(crate) fn count(counter: &mut u64, here: bool) {
    *counter = counter.saturating_add(u64::from(here));
}

impl Tally {
    pub(crate) fn new(name: &'static str) -> Tally {
        Tally {
            name,
            agreed: 0,
            inexact: 0,
            ties_down: 0,
            ties_up: 0,
        }
    }

    pub(crate) fn add(&mut self, step: Outcome) {
        let rounding = step.rounding;
        count(&mut self.agreed, step.agrees);
        count(
            &mut self.inexact,
            rounding.is_some_and(|how| how != Rounding::Exact),
        );
        count(&mut self.ties_down, rounding == Some(Rounding::TieDown));
        count(&mut self.ties_up, rounding == Some(Rounding::TieUp));
    }
}

impl fmt::Display for Tally {
    fn fmt<W: fmt::Write>(&self, f: &mut fmt::Formatter<W>) -> fmt::Result {
        let Tally {
            name,
            agreed,
            inexact,
            ties_down: down,
            ties_up: up,
        } = self;
        write!(f, "{name:<16}{agreed:>10}{inexact:>10}{down:>11}{up:>10}")
    }
}

impl Words {
    pub(crate) fn add(&mut self, word: Word) {
        count(&mut self.left, word == Word::Left);
        count(&mut self.right, word == Word::Right);
        count(&mut self.undecided, word == Word::Undecided);
    }
}

impl fmt::Display for Words {
    fn fmt<W: fmt::Write>(&self, f: &mut fmt::Formatter<W>) -> fmt::Result {
        let Words {
            left,
            right,
            undecided,
        } = self;
        write!(f, "{left:>10}{right:>10}{undecided:>11}")
    }
}
