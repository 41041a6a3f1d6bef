//! What a host is opened with.

ghost use Rattle.std.specs.Prelude.{◌≡◌, ◌==◌, ◌||◌, [], IfOk, IfSome, MatchResult, None, is_some};
ghost use Rattle.std.specs.Arc.{arc_value};
ghost use Rattle.std.specs.List.{list_any};
ghost use Rattle.arn_ids.specs.Faults.{first_fault};
ghost use Rattle.http_front.specs.HostFaults.{IsFaultOf};
ghost use Rattle.http_front.specs.Ports as spec;

use crate::HostFault;
use crate::ports::ports_in_order;
use arn_ids::{Checked, MOST_EXTENSIONS};
use lambda_wire::Setup;
use service_port::HandledPorts;
use std::alloc::{AllocError, Global};
use std::sync::Arc;

/// The most polls that an environment has open at once: those of its runtime and of its extensions.
const POLLS_OF_ONE: u32 = MOST_EXTENSIONS as u32 + 1;

/// The number of places for callers, of which 64 may follow the trace, in addition to those for all polls.
const FOR_CALLERS: u32 = 128;

/// The least number of places.
const LEAST_PLACES: u32 = 1_024;

/// Returns whether one of these numbers is that of a port of the configuration.
fn has_configured(alloc: Global, config: &Checked, numbers: &[u16]) -> Result<bool, AllocError>
    ensures { IfOk result (λ has. has ≡ list_any (spec.is_configured config.now) numbers.now) }
{
    let invoke_port = config.invoke_port();
    let of_environments = ports_in_order(alloc, config)?;
    Ok(has_one_of(invoke_port, of_environments.as_slice(), numbers))
}

/// Returns whether one of these numbers is the invoke port's or one of the environments' ports.
fn has_one_of(invoke_port: u16, of_environments: &[u16], numbers: &[u16]) -> bool
    ensures { result ≡ list_any
        (λ number. (invoke_port == number) || list_any (λ other. other == number) of_environments.now) numbers.now }
{
    numbers.iter().any(|number| invoke_port == *number || of_environments.contains(number))
}

/// What a host is opened with: a configuration without a fault, the salt of its identifiers, the
/// greatest number of entries of its history, and further ports, all of whose requests are handed
/// over. The account and the ports share the configuration, each by its own handle.
#[derive(Drop)]
pub struct Plan {
    pub(crate) config: Arc<Checked>,
    pub(crate) shared: Arc<Checked>,
    pub(crate) salt: u64,
    pub(crate) max_entries: u64,
    pub(crate) handled: HandledPorts,
    ghost same: { arc_value shared ≡ arc_value config },
}

impl Plan {
    /// Makes the plan of a setup, without further ports, if its configuration has no fault; a faulty one is
    /// dropped. The range of the number of entries is checked when the host is opened.
    ///
    /// # Errors
    /// `Config` with the first fault of the configuration, otherwise `OutOfMemory`.
    pub fn check(alloc: Global, setup: Setup) -> Result<Plan, HostFault>
        ensures { MatchResult result
            (λ plan. (arc_value plan.config ≡ setup.config) × (plan.salt ≡ setup.salt)
            × (plan.max_entries ≡ setup.max_entries) × (plan.handled ≡ []) × (first_fault setup.config ≡ None))
            (IsFaultOf setup.config) }
    {
        let Setup {
            config,
            salt,
            max_entries,
        } = setup;
        let config = match config.check() {
            Ok(config) => config,
            Err(place) => return Err(HostFault::Config(place.fault)),
        };
        let shared = Arc::new(alloc, config).map_err(AllocError::from)?;
        Ok(Plan {
            config: Arc::try_clone(&shared)?,
            shared,
            salt,
            max_entries,
            handled: HandledPorts::none(alloc),
        })
    }

    /// Returns the same plan with these further ports, all of whose requests are handed over; `None` if
    /// one of them is a port of the configuration.
    ///
    /// # Errors
    /// If an allocation fails.
    pub fn handing(self, alloc: Global, handled: HandledPorts) -> Result<Option<Plan>, AllocError>
        ensures apart { IfOk result (λ plan. is_some plan ≡ spec.are_apart (arc_value self.config) handled) }
        ensures handed { IfOk result (λ plan. IfSome plan (λ plan. plan.handled ≡ handled)) }
        ensures same { IfOk result (λ plan. IfSome plan (λ plan. (plan.config ≡ self.config)
            × (plan.salt ≡ self.salt) × (plan.max_entries ≡ self.max_entries))) }
    {
        if has_configured(alloc, &self.config, handled.numbers())? {
            return Ok(None);
        }
        let Plan {
            config,
            shared,
            salt,
            max_entries,
            ..
        } = self;
        Ok(Some(Plan {
            config,
            shared,
            salt,
            max_entries,
            handled,
        }))
    }

    /// Returns the greatest number of connections at once: one for each poll of all environments,
    /// each with its runtime and the most extensions, and 128 for callers; at least 1,024.
    pub fn places(&self) -> u32
        ensures { result ≡ spec.places_for (arc_value self.now.config) }
    {
        let polls = self.config.environments().saturating_mul(POLLS_OF_ONE);
        polls.saturating_add(FOR_CALLERS).max(LEAST_PLACES)
    }

    /// Returns the checked configuration.
    pub fn config(&self) -> &Checked
        ensures { result.now ≡ arc_value self.now.config }
    {
        &self.config
    }
}
