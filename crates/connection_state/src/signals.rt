//! The signals that end a connection.

ghost use Rattle.futures.specs.Poll.{OnPending};
ghost use Rattle.futures.specs.Task.{IsArmed, Keeps};

use futures::Stream;
use futures::channel::mpsc::{UnboundedReceiver, UnboundedSender, unbounded};
use futures::task::{Context, Poll};
use std::alloc::{AllocError, Global};
use std::sync::Arc;
use std::sync::atomic::AtomicBool;
use std::sync::atomic::Ordering::SeqCst;

/// A signal that ends a connection in some of its states.
#[derive(Clone, Copy, Drop)]
pub enum Signal {
    /// Ends it after the exchange that has begun.
    Soft,
    /// Ends it at once if it serves no request; has no effect otherwise.
    Room,
}

/// The sender of a connection's signals. The connection ends at once if it is dropped.
pub struct Ender {
    sender: UnboundedSender<Signal>,
    // Set before a signal is sent, and before the sender is dropped.
    is_used: Arc<AtomicBool>,
}

impl Drop for Ender {
    fn drop(self) {
        let Ender { sender, is_used } = self;
        is_used.store(true, SeqCst);
        drop(sender);
    }
}

/// The signals that a connection receives.
#[derive(Drop)]
pub struct Signals {
    receiver: UnboundedReceiver<Signal>,
    is_used: Arc<AtomicBool>,
}

impl Ender {
    /// Sends a signal. Returns whether it was sent: it is not if the connection has ended, or an
    /// allocation fails.
    pub fn send(&self, signal: Signal) -> bool {
        self.is_used.store(true, SeqCst);
        self.sender.unbounded_send(signal).is_ok()
    }
}

impl Signals {
    /// Makes the signals of a connection, and their sender.
    pub fn open(alloc: Global) -> Result<(Ender, Signals), AllocError> {
        let is_used = Arc::new(alloc, AtomicBool::new(false))?;
        let for_sender = Arc::try_clone(&is_used)?;
        let (sender, receiver) = unbounded(alloc)?;
        let ender = Ender {
            sender,
            is_used: for_sender,
        };
        Ok((ender, Signals { receiver, is_used }))
    }

    /// Returns whether the sender was used or dropped. If not, `poll_next` is pending. (It takes no
    /// lock, so a connection asks this at each turn, once it has polled the signals.)
    pub fn may_have_come(&self) -> bool {
        self.is_used.load(SeqCst)
    }

    /// Receives the next signal, or `None` once the sender was dropped. Others may follow a signal,
    /// so the connection is then polled again.
    pub fn poll_next(&mut self, cx: &mut Context<'_>) -> Poll<Option<Signal>>
        ensures registered { OnPending result (IsArmed cx.new) }
        ensures kept { Keeps cx.old cx.new }
    {
        let next = self.receiver.poll_next(cx);
        if let Poll::Ready(Some(_)) = &next {
            let _: Poll<()> = cx.yield_now();
        }
        next
    }
}
