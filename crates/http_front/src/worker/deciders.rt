//! The deciders of the requests that come on one thread.

ghost use Rattle.std.specs.Prelude.{◌≡◌, IfOk, IfSome};
ghost use Rattle.std.specs.Arc.{arc_value};

use crate::Side;
use crate::ports::ServedPort;
use account_lock::Identity;
use std::alloc::{AllocError, Global};
use std::sync::Arc;

/// A port, and the decider of its requests.
#[derive(Drop)]
struct LastUsed<S: Identity> {
    served: ServedPort<S>,
    side: Arc<Side>,
    ghost same: { arc_value side ≡ served },
    ghost configured: { (arc_value side).config ≡ S.config },
}

/// The decider of the last connection's requests. The next connection at the same port then needs
/// no new routes.
#[derive(Drop)]
pub(crate) struct Deciders<S: Identity> {
    last: Option<LastUsed<S>>,
}

impl<S: Identity> Deciders<S> {
    /// Makes it, without a decider.
    pub(crate) fn new() -> Deciders<S> {
        Deciders { last: None }
    }

    /// Returns the decider of the last connection's requests, if that was at this port.
    fn known(&self, served: &ServedPort<S>) -> Option<&Arc<Side>>
        ensures same { IfSome result (λ side. arc_value side.now ≡ served.now) }
        ensures configured { IfSome result (λ side. (arc_value side.now).config ≡ S.config) }
    {
        match &self.last {
            Some(last) if last.served.is(served) => Some(&last.side),
            _ => None,
        }
    }

    /// Returns the decider of a port's requests. It fails only if an allocation fails.
    pub(crate) fn of(
        &mut self,
        alloc: Global,
        served: ServedPort<S>,
    ) -> Result<Arc<Side>, AllocError>
        ensures same { IfOk result (λ side. arc_value side ≡ served) }
        ensures configured { IfOk result (λ side. (arc_value side).config ≡ S.config) }
    {
        if let Some(side) = self.known(&served) {
            return Arc::try_clone(side);
        }
        let side = Arc::new(alloc, served.decider(alloc)?).map_err(AllocError::from)?;
        let kept = Arc::try_clone(&side)?;
        self.last = Some(LastUsed { served, side: kept });
        Ok(side)
    }
}
