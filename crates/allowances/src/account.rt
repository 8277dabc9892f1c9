// The account that the program prints, part by part.
use gate::Gate;
use rules::Allowance;
use std::io;
use tasks::{ByNumber, Draft};

// Each task with its share, their sum, and the bound on the work that can stand at one instant.
pub(crate) fn print_tasks(rt: &impl Print, draft: &Draft) -> io::Result<()> {
    for (number, task) in (1u64..).zip(draft.tasks()) {
        let share = task.share();
        println!(rt; "task {number}: {task}, share {share}/1024")?;
    }
    let shares = draft.shares();
    let work = draft.peak_work();
    println!(rt; "the shares sum to {shares}, of at most 960")?;
    println!(rt; "K, a bound on the work that can stand at one instant: {work}")?;
    Ok(())
}

// What a gate under this rule answers when it is opened on the draft at the reading 0.
pub(crate) fn print_opening<R: Allowance + Drop>(
    rt: &impl Print,
    name: &str,
    rule: R,
    draft: &Draft,
) -> io::Result<()> {
    let mut gate = Gate::new(rule);
    match gate.open(draft, 0) {
        Ok(allowance) => println!(rt; "{name}: opens with the allowance {allowance}"),
        Err(refusal) => {
            let refusal = ByNumber(&refusal);
            println!(rt; "{name}: refused by {refusal}")
        }
    }
}
