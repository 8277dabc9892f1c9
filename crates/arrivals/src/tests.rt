use crate::counter::Event;
use crate::monitor::Monitor;
use crate::observing::observe;
use crate::record::Record;
use crate::refusal::MonitorRefusal;
use std::test::Fail;
use tasks::{Numbered, Task};

const NO_TOKEN: Result<u64, MonitorRefusal> = Err(MonitorRefusal::NoToken { staircase: 1 });

// Lets that many ticks pass, and then brings an arrival.
fn arrive_after(monitor: &mut Monitor, ticks: u64) -> Result<u64, MonitorRefusal> {
    for _ in 0..ticks {
        monitor.tick()?;
    }
    monitor.arrive()
}

#[test]
fn two_at_once_and_one_more_each_ten_ticks(rt: HostRuntime) -> Result<(), Fail> {
    let mut monitor = Monitor::new(&Task::new(1, 5, &[(2, 10)])?);
    assert_eq!(rt; arrive_after(&mut monitor, 0), Ok(5));
    assert_eq!(rt; arrive_after(&mut monitor, 9), Ok(14));
    assert_eq!(rt; arrive_after(&mut monitor, 1), Ok(15));
    assert_eq!(rt; arrive_after(&mut monitor, 0), NO_TOKEN);
    assert_eq!(rt; monitor.clock(), 10);
    Ok(())
}

#[test]
fn one_each_ten_ticks(rt: HostRuntime) -> Result<(), Fail> {
    let mut monitor = Monitor::new(&Task::new(2, 5, &[(1, 10)])?);
    assert_eq!(rt; monitor.arrivals_within(0), 0);
    assert_eq!(rt; monitor.arrivals_within(10), 1);
    assert_eq!(rt; monitor.arrivals_within(11), 2);
    assert_eq!(rt; arrive_after(&mut monitor, 0), Ok(5));
    assert_eq!(rt; monitor.arrivals_within(10), 0);
    assert_eq!(rt; arrive_after(&mut monitor, 9), NO_TOKEN);
    assert_eq!(rt; monitor.arrivals_within(2), 1);
    assert_eq!(rt; arrive_after(&mut monitor, 1), Ok(15));
    Ok(())
}

// At 9 the first staircase refuses while the second one is full; the second must not begin to age, or it would refuse at 10.
#[test]
fn refusal_changes_no_counter(rt: HostRuntime) -> Result<(), Fail> {
    let mut monitor = Monitor::new(&Task::new(1, 1, &[(1, 10), (1, 3)])?);
    assert_eq!(rt; arrive_after(&mut monitor, 0), Ok(1));
    assert_eq!(rt; arrive_after(&mut monitor, 9), NO_TOKEN);
    assert_eq!(rt; arrive_after(&mut monitor, 1), Ok(11));
    Ok(())
}

#[test]
fn records_get_their_answers(rt: HostRuntime) -> Result<(), Fail> {
    let task = Task::new(3, 9, &[(1, 2), (2, 5)])?;
    let arrival = Record::from(Event::Arrival);
    let tick = Record::from(Event::Tick);
    let mut records = [arrival, tick, arrival, tick, arrival, tick, tick, arrival];
    let _ = observe(&task, &mut records);
    assert_eq!(rt; records[0].answer, Some(Ok(9)));
    assert_eq!(rt; records[1].answer, Some(Ok(1)));
    assert_eq!(rt; records[2].answer, Some(NO_TOKEN));
    assert_eq!(rt; records[4].answer, Some(Ok(11)));
    assert_eq!(rt;
        records[7].answer,
        Some(Err(MonitorRefusal::NoToken { staircase: 2 }))
    );
    Ok(())
}

#[test]
fn clock_ends(rt: HostRuntime) -> Result<(), Fail> {
    let mut monitor = Monitor::new(&Task::new(1, 5, &[(1, 10)])?);
    monitor.clock = 999_999_999_999_999;
    assert_eq!(rt; monitor.tick(), Ok(1_000_000_000_000_000));
    assert_eq!(rt; monitor.tick(), Err(MonitorRefusal::ClockAtEnd));
    assert_eq!(rt; MonitorRefusal::ClockAtEnd.number(), 12);
    assert_eq!(rt; MonitorRefusal::NoToken { staircase: 1 }.number(), 10);
    Ok(())
}
