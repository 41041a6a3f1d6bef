//! A bell that rings once, and what hears it.

ghost use Rattle.std.specs.Prelude.{◌≡◌, IfOk};
ghost use Rattle.long_poll.specs.Ringing.{rings_at, hears_at};

use account_lock::Bell;
use futures::channel::oneshot::{Receiver, Sender, channel};
use futures::future::Future;
use futures::task::{Context, Poll};
use std::alloc::{AllocError, Global};

/// A bell for one call, which rings at most once. If it is dropped before it rings, that is heard too.
#[derive(Drop)]
pub struct OneShotBell {
    sender: Sender<()>,
}

/// A future that is ready once its bell has rung or was dropped. (No contract says so: that of the
/// channel does not say when its receiver is ready.)
#[derive(Drop)]
pub struct Heard {
    receiver: Receiver<()>,
}

impl OneShotBell {
    /// Makes a bell, and the future that hears it.
    ///
    /// # Errors
    /// `AllocError` if an allocation fails.
    pub fn pair(alloc: Global) -> Result<(OneShotBell, Heard), AllocError>
        ensures { IfOk result (λ pair. rings_at pair.0 ≡ hears_at pair.1) }
    {
        let (sender, receiver) = channel(alloc)?;
        Ok((OneShotBell { sender }, Heard { receiver }))
    }

    /// Returns whether nobody will hear it: what would is gone.
    pub(crate) fn has_no_hearer(&self) -> bool {
        self.sender.is_canceled()
    }
}

impl Bell for OneShotBell {
    fn ring(self) {
        let OneShotBell { sender } = self;
        let _ = sender.send(());
    }
}

impl Future for Heard {
    type Output = ();

    ghost needs = { λ heard source. source ≡ hears_at heard };

    fn poll(&mut self, cx: &mut Context<'_>) -> Poll<()> {
        match self.receiver.poll(cx) {
            Poll::Ready(_) => Poll::Ready(()),
            Poll::Pending => Poll::Pending,
        }
    }
}
