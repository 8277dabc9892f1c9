// The account that the program prints, part by part.
use arrivals::{Event, Record};
use std::io;
use std::io::Write;
use tasks::{ByNumber, Draft};
use text::{LONGEST_TABLE, write_table};

pub(crate) fn print_tasks(rt: &impl Print, draft: &Draft) -> io::Result<()> {
    for (number, task) in (1u64..).zip(draft.tasks()) {
        print!(rt; "task {number}: {task}, staircases")?;
        for staircase in task.staircases.as_slice() {
            print!(rt; " {staircase}")?;
        }
        let longest = task.long_staircase();
        let share = task.share();
        println!(rt; ", long staircase {longest}, share {share}/1024")?;
    }
    Ok(())
}

// What became of each arrival at task 1. A tick is not told of, unless it was refused.
pub(crate) fn print_arrivals(rt: &impl Print, records: &[Record]) -> io::Result<()> {
    let mut clock = 0;
    for record in records {
        match (record.event, record.answer) {
            (_, None) => {}
            (Event::Arrival, Some(Ok(due))) => println!(rt; "at {clock}: taken, due {due}")?,
            (Event::Tick, Some(Ok(reading))) => clock = reading,
            (_, Some(Err(refusal))) => {
                let refusal = ByNumber(&refusal);
                println!(rt; "at {clock}: refused by {refusal}")?;
            }
        }
    }
    Ok(())
}

// The table of the draft, as text. The buffer lies in place, since the writer writes into its caller's bytes and allocates nothing.
pub(crate) fn print_table(rt: &HostRuntime, draft: &Draft) -> anyhow::Result<()> {
    let mut buffer = [0; LONGEST_TABLE];
    match write_table(draft, &mut buffer) {
        Ok(length) => rt.stdout().write_all(&buffer[..length])?,
        Err(refusal) => println!(rt; "the table is not written: {refusal}")?,
    }
    Ok(())
}
