use crate::closing::Closing;
use crate::gate::Gate;
use crate::refusal::OpenRefusal;
use rules::{Allowance, Exact, Fixed, Line};
use std::test::Fail;
use tasks::{Draft, Numbered};

const LAST: u64 = 1_000_000_000_000_000;

// A task of one staircase, a reading, and what opening a gate under the exact rule on it answers.
#[derive(Clone, Copy)]
struct Case {
    limit: u64,
    deadline: u64,
    staircase: (u64, u64),
    reading: u64,
    answer: Result<u64, OpenRefusal>,
}

const fn opening(
    limit: u64,
    deadline: u64,
    staircase: (u64, u64),
    reading: u64,
    answer: Result<u64, OpenRefusal>,
) -> Case {
    Case {
        limit,
        deadline,
        staircase,
        reading,
        answer,
    }
}

fn draft_of(limit: u64, deadline: u64, staircase: (u64, u64)) -> Result<Draft, Fail> {
    let mut draft = Draft::new();
    draft.enter(limit, deadline, &[staircase])?;
    Ok(draft)
}

#[test]
fn exact_opens_or_says_why_not(rt: HostRuntime) -> Result<(), Fail> {
    let cases = [
        opening(2, 5, (1, 10), 0, Ok(3)),
        opening(2, 5, (1, 10), LAST, Ok(3)),
        opening(2, 5, (1, 10), LAST + 1, Err(OpenRefusal::ReadingTooLate)),
        opening(61, 65, (1, 65), 0, Err(OpenRefusal::SharesTooLarge)),
        opening(15, 16, (1, 16), 0, Ok(1)),
        opening(15, 15, (1, 16), 0, Err(OpenRefusal::NothingAllowed)),
        opening(15, 14, (1, 16), 0, Err(OpenRefusal::Misfit { task: 1 })),
    ];
    for case in &cases {
        let draft = draft_of(case.limit, case.deadline, case.staircase)?;
        let mut gate = Gate::new(Exact);
        assert_eq!(rt; gate.open(&draft, case.reading), case.answer);
    }
    Ok(())
}

#[test]
fn three_rules_open_alike_on_one_task(rt: HostRuntime) -> Result<(), Fail> {
    let draft = draft_of(2, 5, (1, 10))?;
    assert_eq!(rt; draft.peak_work(), 1042);
    assert_eq!(rt; draft_of(61, 65, (1, 65))?.shares(), 961);
    assert_eq!(rt; Gate::new(Exact).open(&draft, 0), Ok(3));
    assert_eq!(rt; Gate::new(Line).open(&draft, 0), Ok(3));
    assert_eq!(rt; Gate::new(Fixed).open(&draft, 0), Ok(3));
    Ok(())
}

#[test]
fn second_task_is_named(rt: HostRuntime) -> Result<(), Fail> {
    let mut draft = draft_of(2, 5, (1, 10))?;
    draft.enter(3, 4, &[(1, 20)])?;
    assert_eq!(rt; draft.shares(), 359);
    assert_eq!(rt;
        Gate::new(Line).open(&draft, 0),
        Err(OpenRefusal::Misfit { task: 2 })
    );
    Ok(())
}

#[test]
fn refused_opening_changes_nothing(rt: HostRuntime) -> Result<(), Fail> {
    let mut gate = Gate::new(Exact);
    assert_eq!(rt; gate.open(&Draft::new(), 0), Err(OpenRefusal::NoTask));
    assert_eq!(rt; gate.allowance(), 1024);
    assert_eq!(rt; gate.open(&draft_of(2, 5, (1, 10))?, 7), Ok(3));
    assert_eq!(rt; gate.open(&Draft::new(), 0), Err(OpenRefusal::NoTask));
    assert_eq!(rt; gate.allowance(), 3);
    assert_eq!(rt;
        gate.close(),
        Closing {
            clock: 7,
            pending: 0,
            released: 0,
            queued: 0,
        }
    );
    Ok(())
}

#[test]
fn unopened_place_shows_the_last_reading(rt: HostRuntime) {
    assert_eq!(rt; Gate::new(Fixed).allowance(), 1024);
    assert_eq!(rt;
        Gate::new(Fixed).close(),
        Closing {
            clock: LAST,
            pending: 0,
            released: 0,
            queued: 0,
        }
    );
}

#[test]
fn refusals_have_their_numbers(rt: HostRuntime) {
    assert_eq!(rt; OpenRefusal::NoTask.number(), 4);
    assert_eq!(rt; OpenRefusal::ReadingTooLate.number(), 5);
    assert_eq!(rt; OpenRefusal::SharesTooLarge.number(), 6);
    assert_eq!(rt; OpenRefusal::Misfit { task: 2 }.number(), 7);
    assert_eq!(rt; OpenRefusal::NothingAllowed.number(), 8);
}
