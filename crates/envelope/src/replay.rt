// A script of steps, played on a new year.
ghost use Rattle.std.specs.Prelude.{◌≡◌, IfOk, min};
ghost use Rattle.rules.specs.Calls.{Judging, answer, after};
ghost use Rattle.rules.specs.Promise.{Promise};
ghost use Rattle.envelope.specs.Replays.{said, called, Replayed};

use crate::open::OpenYear;
use judge::judge::Judge;
use reading::cause::Cause;
use reading::kind::Kind;
use rules::location::Location;
use rules::standing::Standing;
use std::alloc::{AllocError, Global};

// What an open year is asked, with the judge that it is to ask.
#[derive(Drop)]
pub enum Step<R, J> {
    Enter(R, J),
    Recheck(J),
    Locate(R, J),
    Standing(usize),
    Corner(usize),
}

#[derive(Clone, Copy, PartialEq, Eq, Debug)]
pub enum Answered {
    Entered(Result<(usize, Standing), Cause>),
    Rechecked(usize),
    Found(Location),
    Stood(Result<Standing, Cause>),
    Cornered(Result<usize, Cause>),
}

fn step_on<R: Kind + Copy + Drop, J: Judge<Reading = R>>(
    year: &mut OpenYear<R>,
    step: &Step<R, J>,
) -> Answered
    ensures answers { (judging : J → Judging R.Kind.stands) → ((j : J) → (judging j).word ≡ J.Judge.word j) →
        said result ≡ answer R.Kind.stands year.old.capacity year.old.envelope (called R.Kind.stands judging step.now) }
    ensures leaves { (judging : J → Judging R.Kind.stands) → ((j : J) → (judging j).word ≡ J.Judge.word j) →
        year.new ≡ record year.old { envelope = after R.Kind.stands year.old.capacity year.old.envelope (called R.Kind.stands judging step.now) } }
{
    match step {
        Step::Enter(reading, judge) => Answered::Entered(year.enter(*reading, judge)),
        Step::Recheck(judge) => Answered::Rechecked(year.recheck(judge)),
        Step::Locate(reading, judge) => Answered::Found(year.locate(judge, reading)),
        Step::Standing(number) => Answered::Stood(year.standing(*number)),
        Step::Corner(position) => Answered::Cornered(year.corner(*position)),
    }
}

// What each step answered. What that promises of the answers at every moment is the second clause.
pub fn replay<R: Kind + Copy + Drop, J: Judge<Reading = R>>(
    heap: Global,
    places: usize,
    steps: &[Step<R, J>],
) -> Result<Vec<Answered>, AllocError>
    ensures answers { IfOk result (λ answers. Replayed R.Kind.stands J.Judge.word (min places 512) steps.now answers.items) }
    ensures promise { Promise R.Kind.stands }
{
    let mut year = OpenYear::new(heap, places)?;
    let mut answers = Vec::with_capacity(heap, steps.len())?;
    for step in steps {
        answers.push_reserved(step_on(&mut year, step));
    }
    Ok(answers)
}
