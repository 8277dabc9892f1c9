// Reads a task table on standard input, brings some arrivals to its first task, and prints an account of what became of them.
#![tactic(auto)]

mod account;
mod schedule;

use account::{print_arrivals, print_table, print_tasks};
use arrivals::observe;
use input::read_draft;
use schedule::schedule;

// When the arrivals come.
const INSTANTS: [u64; 6] = [0, 20, 40, 60, 90, 100];

fn main(rt: HostRuntime) -> anyhow::Result<()> {
    run(&rt)
}

fn run(rt: &HostRuntime) -> anyhow::Result<()> {
    // said in both programs: a function that takes the rest of the program as a closure would be no plainer
    let draft = match read_draft(rt.alloc(), rt.stdin())? {
        Ok(draft) => draft,
        Err(fault) => {
            println!(rt; "the table is refused: {fault}")?;
            return Ok(());
        }
    };
    print_tasks(rt, &draft)?;
    if let Some(task) = draft.tasks().first() {
        let mut records = schedule(rt.alloc(), &INSTANTS)?;
        let _ = observe(task, records.as_mut_slice());
        println!(rt; "arrivals at task 1")?;
        print_arrivals(rt, records.as_slice())?;
    }
    println!(rt; "the table written back")?;
    print_table(rt, &draft)
}
