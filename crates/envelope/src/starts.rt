// The start search: the first three readings, in order of arrival, that the judge decides.
ghost use Rattle.std.specs.Prelude.{◌≡◌, ◌+◌, ◌<◌, length, drop};
ghost use Rattle.rules.specs.Starting.{counterclockwise as turned, third_from, second_from, first_from};

use judge::judge::Judge;
use judge::word::Word;

// The numbers of three readings, counterclockwise.
type Three = (usize, usize, usize);

// None where the judge does not decide.
fn counterclockwise(word: Word, a: usize, b: usize, c: usize) -> Option<Three>
    ensures { result ≡ turned word a b c }
{
    match word {
        Word::Left => Some((a, b, c)),
        Word::Right => Some((a, c, b)),
        Word::Undecided => None,
    }
}

// Of two readings, each with its number, and those after the second.
fn third<J: Judge>(
    judge: &J,
    readings: &[J::Reading],
    first: (usize, &J::Reading),
    second: (usize, &J::Reading),
) -> Option<Three>
    requires { second.0 < length readings.now }
    ensures { result ≡ third_from (J.Judge.word judge.now) first.entry.1.now second.entry.1.now first.entry.0 second.entry.0 (second.entry.0 + 1) (drop (second.entry.0 + 1) readings.now) }
{
    let (a, x) = first;
    let (b, y) = second;
    readings
        .iter()
        .enumerate()
        .skip(b + 1)
        .find_map(|(c, z)| counterclockwise(judge.ask(x, y, z), a, b, c))
}

// Of one reading with its number, and those after it.
fn second<J: Judge>(
    judge: &J,
    readings: &[J::Reading],
    first: (usize, &J::Reading),
) -> Option<Three>
    requires { first.0 < length readings.now }
    ensures { result ≡ second_from (J.Judge.word judge.now) first.entry.1.now first.entry.0 (first.entry.0 + 1) (drop (first.entry.0 + 1) readings.now) }
{
    readings
        .iter()
        .enumerate()
        .skip(first.0 + 1)
        .find_map(|second| third(judge, readings, first, second))
}

pub(crate) fn first_three<J: Judge>(judge: &J, readings: &[J::Reading]) -> Option<Three>
    ensures { result ≡ first_from (J.Judge.word judge.now) 0 readings.now }
{
    readings
        .iter()
        .enumerate()
        .find_map(|first| second(judge, readings, first))
}
