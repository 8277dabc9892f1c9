ghost use Rattle.std.specs.Prelude.{◌≡◌, ℕ};
ghost use Rattle.fit.specs.Laws.{Laws};
ghost use Rattle.fit.specs.State.{StateModel};
ghost use Rattle.state.specs.State.{state_of};

use state::State;

// A rule tells of each state how much background work may stand before the tasks. It refuses nothing, only reads, and gives
// equal states equal answers. On a sound state it never tells more than the exact allowance, and on a sound idle state never
// less than on the state freshly opened on the same tasks.
pub trait Allowance {
    // the amount for each state
    ghost meaning: { Self → StateModel → ℕ };

    fn allowance(&self, state: &State) -> u64
        ensures value { result ≡ meaning self.now (state_of state.now) };

    ghost lawful: { (s : Self) → Laws (meaning s) };
}
