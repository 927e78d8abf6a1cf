//! Each call of the core of a run once: a whole core, and one at each place where a start may begin.

use journal_core::{Core, Event, JobState, Phase};
use std::test::Fail;

#[test]
fn a_core_goes_by_its_table(rt: HostRuntime) -> Result<(), Fail> {
    let mut core = Core::new(rt.alloc(), [2].to_vec(rt.alloc())?)?;
    assert!(rt; core.step(Event::Propose));
    assert!(rt; !core.step(Event::Adopt));
    assert!(rt; core.step(Event::Settle));
    assert!(rt; core.step(Event::Adopt));
    assert_eq!(rt; core.phase(), Phase::Running);
    let states = [JobState::Going { moved: 2 }].to_vec(rt.alloc())?;
    let mut core = Core::resumed([4].to_vec(rt.alloc())?, states)?;
    assert!(rt; core.step(Event::Move { job: 0, step: 2 }));
    assert_eq!(rt; core.job(0), JobState::Going { moved: 3 });
    assert!(rt; Core::closed(rt.alloc()).step(Event::Clear));
    assert!(rt; Core::old(rt.alloc()).step(Event::Renew));
    Ok(())
}
