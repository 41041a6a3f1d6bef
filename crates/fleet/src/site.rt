//! One environment of an account.

ghost use Rattle.std.specs.Prelude.{◌≡◌, ◌<◌, ◌≤◌, ◌^◌, [], length, None, IfOk};
ghost use Rattle.arn_ids.specs.Environments.{owners};
ghost use Rattle.arn_ids.specs.Faults.{first_fault};
ghost use Rattle.env_phase.specs.Taking.{step_of, given, registered_name, IsShort};
ghost use Rattle.fleet.specs.Sites.{site as site_in, moved, IsFew};

use arn_ids::{Checked, EnvNo, FnNo};
use call_model::Call;
use env_phase::{Environment, Step};
use extension_set::Moves;
use std::alloc::{AllocError, Global};

/// An environment, and the function that it belongs to.
#[derive(Drop)]
pub struct Site {
    /// The number of its function, from 1.
    pub function: FnNo,
    /// The environment itself.
    pub environment: Environment,
}

impl Site {
    /// Returns the environment with a number as it is before any call.
    ///
    /// # Errors
    /// Only if memory is refused.
    pub fn open(alloc: Global, config: &Checked, env: EnvNo) -> Result<Site, AllocError>
        requires sound { first_fault config.now ≡ None }
        requires low { 1 ≤ env }
        requires high { env ≤ length (owners config.now) }
        ensures { IfOk result (λ site. site ≡ site_in config.now [] env) }
    {
        let function = config.function_of(env);
        Ok(Site {
            function,
            environment: Environment::open(alloc, config.function(function))?,
        })
    }

    /// Takes a call that reaches it, and leaves its answers in `moves`, in rising order of their tickets, in
    /// place of what was there.
    pub fn take(&mut self, step: Step, call: &Call, moves: &mut Moves)
        requires moment { step.now < 2 ^ 53 }
        requires few { IsFew self.old }
        requires short { IsShort (registered_name call.now) }
        ensures site { self.new ≡ moved (step_of step) call.now self.old }
        ensures given { moves.new ≡ given self.old.environment (step_of step) call.now }
    {
        moves.clear();
        self.environment.take(step, call, moves);
    }
}
