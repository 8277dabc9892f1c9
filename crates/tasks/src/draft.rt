use crate::task::Task;
use bounded::Bounded;

// At most eight tasks, the one with the highest priority first; a task's number is its place, counted from 1.
#[derive(Clone, Copy)]
pub struct Draft {
    pub(crate) tasks: Bounded<Task, 8>,
}
