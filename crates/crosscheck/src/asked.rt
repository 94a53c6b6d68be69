// What the quick judge itself says of a triple.
use crate::triples::Triple;
use judge::judge::Judge;
use judge::quick::Quick;
use judge::word::Word;
use reading::logged::Logged;
use reading::refusal::ReadingRefusal;
use std::num::f64_from_bits_with_nan;

#[derive(Drop)]
pub(crate) struct Asked {
    pub(crate) difference: f64,
    pub(crate) weight: f64,
    pub(crate) allowance: f64,
    pub(crate) word: Word,
}

fn reading(level: u64, head: u64) -> Result<Logged, ReadingRefusal> {
    Logged::new(f64_from_bits_with_nan(level), f64_from_bits_with_nan(head))
}

impl Asked {
    // Asks the judge, and converts nothing, so no TryFrom.
    pub(crate) fn of(triple: &Triple) -> Result<Asked, ReadingRefusal> {
        let a = reading(triple.level.a, triple.head.a)?;
        let b = reading(triple.level.b, triple.head.b)?;
        let c = reading(triple.level.c, triple.head.c)?;
        Ok(Asked {
            difference: Quick.difference(&a, &b, &c),
            weight: Quick.weight(&a, &b, &c),
            allowance: Quick.allowance(&a, &b, &c),
            word: Quick.ask(&a, &b, &c),
        })
    }
}
