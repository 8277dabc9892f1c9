// Reads a task table on standard input and prints whether a gate opens on it, and with what allowance under each rule.
#![tactic(auto)]

mod account;

use account::{print_opening, print_tasks};
use input::read_draft;
use rules::{Exact, Fixed, Line};

fn main(rt: HostRuntime) -> anyhow::Result<()> {
    run(&rt)
}

fn run(rt: &HostRuntime) -> anyhow::Result<()> {
    // said in both programs: a function that takes the rest of the program as a closure would be no plainer
    let draft = match read_draft(rt.alloc(), rt.stdin())? {
        Ok(draft) => draft,
        Err(fault) => {
            println!(rt; "the table is refused: {fault}")?;
            return Ok(());
        }
    };
    print_tasks(rt, &draft)?;
    print_opening(rt, "exact", Exact, &draft)?;
    print_opening(rt, "line", Line, &draft)?;
    print_opening(rt, "fixed", Fixed, &draft)?;
    Ok(())
}
