// What a gate tells of itself.
ghost use Rattle.std.specs.Prelude.{◌≡◌};
ghost use Rattle.gate.specs.Gate.{gate_of};

use crate::gate::Gate;
use rules::Allowance;

impl<R: Allowance> Gate<R> {
    // How much background work may stand before the tasks now.
    pub fn allowance(&self) -> u64
        ensures { result ≡ R.Allowance.meaning self.now.rule (gate_of self.now).state }
    {
        self.rule.allowance(&self.state)
    }
}
