//! The search for the function with which a fault comes in.

ghost use Rattle.std.specs.Prelude.{◌≡◌, ◌≤◌, length, MatchOption, Some, None};
ghost use Rattle.arn_ids.specs.Faults.{first_fault};
ghost use Rattle.arn_ids.specs.Places.{with_first, ComesIn, IsPlaceOf};

use crate::faults::fault_of;
use crate::part::first_of;
use crate::{Config, ConfigFault, FaultPlace};

/// Returns the first fault of a configuration that has only its first functions.
fn fault_of_first(config: &Config, count: usize) -> Option<ConfigFault>
    requires { count ≤ length config.now.functions }
    ensures { result ≡ first_fault (with_first count config.now) }
{
    fault_of(&first_of(config, count))
}

/// Returns how many functions bring a fault in, from the first on.
fn comes_in_with(config: &Config, fault: ConfigFault) -> usize
    requires { first_fault config.now ≡ Some fault }
    ensures { ComesIn config.now fault result }
{
    let all = config.functions.as_slice().len();
    for count in 0..all {
        if fault_of_first(config, count) == Some(fault) {
            return count;
        }
    }
    all
}

/// Returns the place of the first fault of a configuration; `None` if it has no fault.
pub(crate) fn place_in(config: &Config) -> Option<FaultPlace>
    ensures { MatchOption result (first_fault config.now ≡ None) (IsPlaceOf config.now) }
{
    let fault = fault_of_first(config, config.functions.as_slice().len())?;
    Some(FaultPlace {
        fault,
        functions: comes_in_with(config, fault),
    })
}
