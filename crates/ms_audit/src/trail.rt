//! The steps by which a stack satisfies a miniscript.
ghost use Rattle.std.specs.Prelude.{◌≡◌};

use def_audit::Step;
use std::marker::Model;

/// Steps, those of a node's children before its own. Contracts see a list of steps.
#[derive(Debug, Drop)]
pub struct Trail {
    steps: Vec<Step>,
}

impl Model for Trail {
    ghost use Rattle.std.specs.Prelude.{List};
    ghost use Rattle.def_audit.specs.declared.Step.{Step as TheStep};

    ghost Value = { List TheStep };

    ghost view = { λ t. t.steps.items };
}

impl Trail {
    /// The trail of these steps, which it takes over. Takes no memory.
    pub fn from_vec(steps: Vec<Step>) -> Trail
        ensures { result ≡ steps.items }
    {
        Trail { steps }
    }

    /// The steps, first one first. Takes no memory.
    pub fn as_slice(&self) -> &[Step]
        ensures { result.now ≡ self.now }
    {
        &self.steps
    }
}
