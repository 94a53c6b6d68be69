// Years of dips that were worked through by hand.
use crate::open::OpenYear;
use crate::replay::{Answered, Step, replay};
use judge::centre::Centre;
use judge::corner::Corner;
use reading::cause::Cause;
use reading::dipped::Dipped;
use reading::refusal::ReadingRefusal;
use rules::location::Location;
use rules::standing::Standing;
use std::test::Fail;

// A dip without tolerance.
fn mark(level: i32, head: i32) -> Result<Dipped, ReadingRefusal> {
    Dipped::new(level, 0, head, 0)
}

#[test]
fn square_with_a_dip_below(rt: HostRuntime) -> Result<(), Fail> {
    let mut year = OpenYear::new(rt.alloc(), 7)?;
    assert_eq!(rt; year.enter(mark(0, 0)?, &Corner), Ok((0, Standing::Held)));
    assert_eq!(rt; year.enter(mark(10, 0)?, &Corner), Ok((1, Standing::Held)));
    assert_eq!(rt; year.locate(&Corner, &mark(5, 5)?), Location::Undecided);
    assert_eq!(rt;
        year.enter(mark(0, 10)?, &Corner),
        Ok((2, Standing::Corner))
    );
    assert_eq!(rt; year.enter(mark(2, 2)?, &Corner), Ok((3, Standing::Inside)));
    assert_eq!(rt;
        year.enter(mark(10, 10)?, &Corner),
        Ok((4, Standing::Corner))
    );
    assert_eq!(rt; year.locate(&Corner, &mark(20, 5)?), Location::Outside);
    assert_eq!(rt; year.locate(&Corner, &mark(5, 0)?), Location::Undecided);
    assert_eq!(rt; year.enter(mark(5, 0)?, &Corner), Ok((5, Standing::Held)));
    assert_eq!(rt; year.recheck(&Corner), 0);
    assert_eq!(rt;
        year.enter(mark(5, -5)?, &Corner),
        Ok((6, Standing::Corner))
    );
    assert_eq!(rt; year.enter(mark(1, 1)?, &Corner), Err(Cause::EnvelopeFull));
    assert_eq!(rt; year.standing(5), Ok(Standing::Inside));
    assert_eq!(rt; year.standing(7), Err(Cause::NoSuchReading));
    assert_eq!(rt; year.corner(1), Ok(6));
    assert_eq!(rt; year.corner(5), Err(Cause::NoSuchCorner));
    let year = year.bind();
    assert_eq!(rt; year.locate(&Corner, &mark(5, 5)?), Location::Inside);
    assert_eq!(rt; year.standing(4), Ok(Standing::Corner));
    assert_eq!(rt; year.corner(4), Ok(2));
    let mut out = [0; 52];
    assert_eq!(rt; year.page(&mut out), Ok(52));
    assert_eq!(rt;
        &out,
        b"DIPPED 7\n0 C\n1 C\n2 C\n3 I\n4 C\n5 I\n6 C\nRING 0 6 1 4 2\n"
    );
    Ok(())
}

// The centre judge is undecided of these three, and the corner judge is not.
#[test]
fn triangle_that_waits(rt: HostRuntime) -> Result<(), Fail> {
    let mut year = OpenYear::new(rt.alloc(), 3)?;
    assert_eq!(rt; year.enter(mark(0, 0)?, &Centre), Ok((0, Standing::Held)));
    assert_eq!(rt; year.enter(mark(10, 0)?, &Centre), Ok((1, Standing::Held)));
    assert_eq!(rt;
        year.enter(Dipped::new(5, 3, 2, 1)?, &Centre),
        Ok((2, Standing::Held))
    );
    assert_eq!(rt; year.recheck(&Centre), 0);
    assert_eq!(rt; year.recheck(&Corner), 3);
    let mut out = [0; 31];
    assert_eq!(rt; year.bind().page(&mut out), Err(Cause::OutputMemory));
    Ok(())
}

#[test]
fn triangle_replayed(rt: HostRuntime) -> Result<(), Fail> {
    let steps = [
        Step::Enter(mark(0, 0)?, Corner),
        Step::Enter(mark(10, 0)?, Corner),
        Step::Enter(mark(0, 10)?, Corner),
        Step::Standing(2),
    ];
    let answers = replay(rt.alloc(), 3, &steps)?;
    assert_eq!(rt;
        answers.last().copied(),
        Some(Answered::Stood(Ok(Standing::Corner)))
    );
    Ok(())
}
