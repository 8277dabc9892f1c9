use crate::draft::Draft;
use crate::refusal::{EntryRefusal, Numbered, Quantity};
use crate::task::Task;
use std::test::Fail;

// What entering these numbers into an empty draft answers.
fn entered(limit: u64, deadline: u64, staircases: &[(u64, u64)]) -> Result<u64, EntryRefusal> {
    let mut draft = Draft::new();
    draft.enter(limit, deadline, staircases)
}

fn out_of_range(quantity: Quantity) -> Result<u64, EntryRefusal> {
    Err(EntryRefusal::OutOfRange(quantity))
}

#[test]
fn first_wrong_number_is_named(rt: HostRuntime) {
    assert_eq!(rt; entered(0, 0, &[]), out_of_range(Quantity::Limit));
    assert_eq!(rt; entered(65, 9, &[(1, 9)]), out_of_range(Quantity::Limit));
    assert_eq!(rt; entered(64, 0, &[]), out_of_range(Quantity::Deadline));
    assert_eq!(rt;
        entered(64, 1025, &[(1, 9)]),
        out_of_range(Quantity::Deadline)
    );
    assert_eq!(rt; entered(64, 1024, &[]), out_of_range(Quantity::Count));
    assert_eq!(rt;
        entered(1, 1, &[(1, 1), (1, 1), (1, 1), (1, 1), (1, 1)]),
        out_of_range(Quantity::Count)
    );
    assert_eq!(rt;
        entered(1, 1, &[(1, 0), (0, 1)]),
        out_of_range(Quantity::Step(1))
    );
    assert_eq!(rt;
        entered(1, 1, &[(8, 4096), (9, 4097)]),
        out_of_range(Quantity::Burst(2))
    );
    assert_eq!(rt;
        entered(1, 1, &[(8, 4096), (8, 4097)]),
        out_of_range(Quantity::Step(2))
    );
    assert_eq!(rt; entered(64, 1024, &[(8, 4096), (1, 1024)]), Ok(1));
}

#[test]
fn at_most_eight_jobs_may_be_pending(rt: HostRuntime) {
    assert_eq!(rt; entered(1, 10, &[(8, 10)]), Ok(1));
    assert_eq!(rt;
        entered(1, 11, &[(8, 10)]),
        Err(EntryRefusal::TooManyPending)
    );
    assert_eq!(rt; entered(1, 11, &[(8, 10), (1, 2)]), Ok(1));
}

#[test]
fn period_gives_two_staircases(rt: HostRuntime) {
    let mut draft = Draft::new();
    assert_eq!(rt; draft.enter_periodic(3, 50, 100, 300, 20), Ok(1));
    assert_eq!(rt;
        draft.enter_periodic(1, 50, 0, 32769, 0),
        out_of_range(Quantity::Period)
    );
    assert_eq!(rt;
        draft.enter_periodic(1, 50, 100, 32769, 0),
        out_of_range(Quantity::Jitter)
    );
    assert_eq!(rt;
        draft.enter_periodic(1, 50, 100, 32768, 0),
        out_of_range(Quantity::Distance)
    );
    assert_eq!(rt;
        draft.enter_periodic(1, 50, 100, 800, 20),
        out_of_range(Quantity::Burst(2))
    );
    for task in draft.tasks() {
        let staircases = task.staircases.as_slice();
        assert!(rt; staircases.len() == 2);
        assert_eq!(rt; (staircases[0].burst, staircases[0].step), (1, 20));
        assert_eq!(rt; (staircases[1].burst, staircases[1].step), (4, 100));
        assert_eq!(rt; task.long_staircase().step, 100);
        assert_eq!(rt; task.share(), 31);
    }
}

#[test]
fn long_staircase_and_share(rt: HostRuntime) -> Result<(), Fail> {
    let task = Task::new(61, 65, &[(2, 65), (1, 64), (1, 65)])?;
    assert_eq!(rt; task.long_staircase().burst, 1);
    assert_eq!(rt; task.long_staircase().step, 65);
    assert_eq!(rt; task.share(), 961);
    Ok(())
}

#[test]
fn ninth_task_is_refused_first(rt: HostRuntime) {
    let mut draft = Draft::new();
    for number in 1..9u64 {
        assert_eq!(rt; draft.enter(1, 5, &[(1, 10)]), Ok(number));
    }
    assert_eq!(rt; draft.enter(0, 0, &[]), Err(EntryRefusal::DraftFull));
    assert_eq!(rt; draft.tasks().len(), 8);
    assert_eq!(rt; EntryRefusal::DraftFull.number(), 1);
    assert_eq!(rt; EntryRefusal::OutOfRange(Quantity::Limit).number(), 2);
    assert_eq!(rt; EntryRefusal::TooManyPending.number(), 3);
}
