// An allowance rule of a device maker's own, written above the library as any user would: background work is handed out only
// while the processor is idle, and then up to the fresh allowance.
#![tactic(auto)]

ghost use Rattle.std.specs.Prelude.{◌≡◌};
ghost use Rattle.state.specs.State.{state_of};
ghost use Rattle.when_idle.specs.WhenIdle.{when_idle};
ghost use Rattle.when_idle.specs.Lawful.{when_idle_laws};

use rules::Allowance;
use state::State;

#[derive(Clone, Copy)]
pub struct WhenIdle;

impl Allowance for WhenIdle {
    ghost meaning = { λ rule state. when_idle state };

    ghost lawful = { λ s. when_idle_laws };

    fn allowance(&self, state: &State) -> u64
        ensures value { result ≡ when_idle (state_of state.now) }
    {
        if state.is_idle() {
            state.fresh_allowance()
        } else {
            0
        }
    }
}

#[cfg(test)]
mod tests {
    use super::*;
    use gate::Gate;
    use std::test::Fail;
    use tasks::Draft;

    #[test]
    fn gate_opens_under_it(rt: HostRuntime) -> Result<(), Fail> {
        let mut draft = Draft::new();
        draft.enter(2, 5, &[(1, 10)])?;
        let mut gate = Gate::new(WhenIdle);
        assert_eq!(rt; gate.open(&draft, 0), Ok(3));
        assert_eq!(rt; gate.allowance(), 3);
        Ok(())
    }
}
