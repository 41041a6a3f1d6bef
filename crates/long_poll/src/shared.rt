//! What the connections of a service share.

ghost use Rattle.std.specs.Prelude.{◌≡◌, IfOk, IfSome};
ghost use Rattle.std.specs.Arc.{arc_value};

use crate::{Alarm, Beat, Line, Rejections};
use lambda_wire::{HeaderMaps, LongScratches};
use std::alloc::{AllocError, Global};
use std::sync::Arc;

/// What all connections of a service share, with its ticker and its host: its account; its clock; what a step wakes;
/// what its log tells; the line of the callers that are held back, and for how many milliseconds each may be; the maps of the headers that
/// most replies have; and the memory in which long payloads are read. (What a body that is streamed keeps of it, which
/// knows neither clock nor line, has an `Arc` of its own.)
#[derive(Drop)]
pub struct Shared<S, N> {
    pub(crate) alloc: Global,
    /// The account.
    pub service: Arc<S>,
    /// The clock, which gives the moments of calls.
    pub clock: N,
    /// What is told after each step.
    pub beat: Arc<Beat>,
    /// The requests that are rejected, for the log.
    pub rejections: Arc<Rejections>,
    pub(crate) line: Line,
    pub(crate) patience_ms: u32,
    pub(crate) maps: HeaderMaps,
    pub(crate) long: Arc<LongScratches>,
}

/// Shares a value. It fails only if an allocation fails; the value is then dropped.
fn arc_of<T: Drop>(alloc: Global, value: T) -> Result<Arc<T>, AllocError>
    ensures { IfOk result (λ it. arc_value it ≡ value) }
{
    match Arc::new(alloc, value) {
        Ok(it) => Ok(it),
        Err(_refused) => Err(AllocError),
    }
}

impl<S: Drop, N: Drop> Shared<S, N> {
    /// Makes it for this account and this clock; the service is not over. A premature call is held back for up to
    /// `patience_ms` milliseconds.
    ///
    /// # Errors
    /// If an allocation fails. The account and the clock are then dropped.
    pub fn new(
        alloc: Global,
        service: Arc<S>,
        clock: N,
        patience_ms: u32,
    ) -> Result<Shared<S, N>, AllocError>
        ensures { IfOk result (λ shared. (shared.service ≡ service) × (shared.clock ≡ clock)) }
    {
        let maps = HeaderMaps::open(alloc)?;
        let long = arc_of(alloc, LongScratches::new(alloc))?;
        let beat = arc_of(alloc, Beat::new(alloc, arc_of(alloc, Alarm::new())?))?;
        let rejections = arc_of(alloc, Rejections::new(alloc))?;
        Ok(Shared {
            alloc,
            service,
            clock,
            beat,
            rejections,
            line: Line::new(alloc),
            patience_ms,
            maps,
            long,
        })
    }

    /// Returns the account, `None` if it is still shared.
    pub fn into_service(self) -> Option<S>
        ensures { IfSome result (λ service. service ≡ arc_value self.service) }
    {
        let Shared { service, .. } = self;
        Arc::into_inner(service)
    }
}
