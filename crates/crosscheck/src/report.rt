// What was compared so far, and how often both sides agree.
use crate::asked::Asked;
use crate::steps::{NAMES, Steps};
use crate::tally::{Tally, count};
use crate::triples::Triple;
use crate::twice::Twice;
use judge::word::Word;
use std::fmt;

// How often the judge's own answers agree with those in whole numbers.
#[derive(Default, Drop)]
pub(crate) struct Answers {
    pub(crate) difference: u64,
    pub(crate) weight: u64,
    pub(crate) allowance: u64,
    pub(crate) word: u64,
    // where D is E or -E
    pub(crate) on_edge: u64,
}

#[derive(Drop)]
pub(crate) struct Report {
    pub(crate) triples: u64,
    pub(crate) steps: [Tally; 15],
    pub(crate) answers: Answers,
}

impl Answers {
    fn add(&mut self, asked: &Asked, steps: &Steps) {
        count(
            &mut self.difference,
            steps.difference.has_bits_of(asked.difference),
        );
        count(&mut self.weight, steps.weight.has_bits_of(asked.weight));
        count(
            &mut self.allowance,
            steps.allowance.has_bits_of(asked.allowance),
        );
        count(&mut self.word, steps.word() == Some(asked.word));
        count(&mut self.on_edge, steps.on_edge());
    }
}

impl fmt::Display for Answers {
    fn fmt<W: fmt::Write>(&self, f: &mut fmt::Formatter<W>) -> fmt::Result {
        let Answers {
            difference: d,
            weight: t,
            allowance: e,
            word,
            on_edge: edge,
        } = self;
        write!(
            f,
            "the judge: D {d}, T {t}, E {e}, word {word} agree; {edge} with D = E or D = -E"
        )
    }
}

impl Report {
    pub(crate) fn new() -> Report {
        Report {
            triples: 0,
            steps: NAMES.map(Tally::new),
            answers: Answers::default(),
        }
    }

    // Compares a triple, and returns the judge's word on it, if its readings are taken.
    pub(crate) fn add(&mut self, triple: &Triple) -> Option<Word> {
        self.triples = self.triples.saturating_add(1);
        let steps = Steps::of(triple);
        for (tally, step) in self.steps.iter_mut().zip(steps.all.map(Twice::outcome)) {
            tally.add(step);
        }
        let asked = Asked::of(triple).ok()?;
        self.answers.add(&asked, &steps);
        Some(asked.word)
    }

    // How often the two sides differ.
    pub(crate) fn differences(&self) -> u64 {
        let answers = &self.answers;
        self.steps
            .iter()
            .map(|tally| tally.agreed)
            .chain([
                answers.difference,
                answers.weight,
                answers.allowance,
                answers.word,
            ])
            .map(|agreed| self.triples.saturating_sub(agreed))
            .fold(0, u64::saturating_add)
    }
}
