//! The two ends of a body that is passed on while it comes: that of the handler which posts it, and that of its requester.

ghost use Rattle.std.specs.Prelude.{◌≡◌, ◌<◌, [], length, IfOk, OnOk, OnErr};
ghost use Rattle.std.specs.Arc.{arc_value};
ghost use Rattle.futures.specs.Poll.{IfReady, OnPending};
ghost use Rattle.futures.specs.Task.{Covers, Keeps};
ghost use Rattle.handover.specs.Pipes as passing;
ghost use Rattle.handover.specs.declared.pipe.Ending.TheVariants as endings;
ghost use Rattle.handler_desk.specs.Piped as spec;

use bytes::Bytes;
use futures::spin::lock;
use futures::task::{Context, Poll, Source, Waker};
use handover::{Pipe, Put, Taken};
use std::alloc::{AllocError, Global};
use std::sync::{Arc, Mutex};

/// What is kept behind the lock: the pipe, and whom each end wakes once it has changed.
#[derive(Drop)]
struct Inside {
    pipe: Pipe,
    sender: Option<Waker>,
    receiver: Option<Waker>,
}

/// What both ends share.
#[derive(Drop)]
struct Shared {
    // Fires once what was put in is taken out, or the receiver has gone away.
    emptied: Source,
    // Fires once something is put in, or the body has ended.
    filled: Source,
    inside: Mutex<Inside>,
}

/// Where a body is put in. If it is dropped before the body has come to its end, the body has broken off.
pub struct PipeSender {
    shared: Arc<Shared>,
}

/// Where a body is taken out. If it is dropped, its sender is told.
pub struct PipeReceiver {
    shared: Arc<Shared>,
    // How many bytes are still to come, if that is known.
    left: Option<u64>,
}

/// Why bytes cannot be put in.
#[derive(Clone, Copy, Debug, PartialEq, Eq)]
pub enum PipeFault {
    /// No one takes them out any more.
    Gone,
    /// An allocation failed.
    OutOfMemory,
}

/// Makes the two ends of a pipe for a body, of which nothing has come. Its length is known or not.
///
/// # Errors
/// If an allocation fails.
pub fn open_pipe(
    alloc: Global,
    length: Option<u64>,
) -> Result<(PipeSender, PipeReceiver), AllocError>
    ensures ends { IfOk result (λ ends. arc_value ends.0.shared ≡ arc_value ends.1.shared) }
    ensures length { IfOk result (λ ends. ends.1.left ≡ length) }
{
    let inside = Inside {
        pipe: Pipe::new(),
        sender: None,
        receiver: None,
    };
    let shared = Arc::new(
        alloc,
        Shared {
            emptied: Source::new(),
            filled: Source::new(),
            inside: Mutex::new(inside),
        },
    )?;
    let other = Arc::try_clone(&shared)?;
    let sender = PipeSender { shared };
    let receiver = PipeReceiver {
        shared: other,
        left: length,
    };
    Ok((sender, receiver))
}

impl Inside {
    /// Puts bytes in. Returns whom that wakes: it is to be dropped once the lock is free.
    fn put(&mut self, rest: &mut Bytes) -> (Result<Put, AllocError>, Option<Waker>)
        ensures put { IfOk result.0 (λ put. put ≡ passing.room self.old.pipe) }
        ensures state { OnOk result.0 (self.new.pipe ≡ passing.with_bytes rest.old self.old.pipe) }
        ensures rest { OnOk result.0 (rest.new ≡ passing.left (passing.room self.old.pipe) rest.old) }
        ensures same { OnErr result.0 ((self.new.pipe ≡ self.old.pipe) × (rest.new ≡ rest.old)) }
    {
        match self.pipe.put(rest) {
            Ok(Put::Done) => (Ok(Put::Done), self.receiver.take()),
            put => (put, None),
        }
    }

    /// Puts bytes in, and waits until none is left.
    fn poll_put(
        &mut self,
        cx: &mut Context<'_>,
        emptied: &Source,
        rest: &mut Bytes,
    ) -> (Poll<Result<(), PipeFault>>, Option<Waker>)
        requires { 0 < length rest.old }
        ensures rest { spec.IsBehind rest.old rest.new }
        ensures all { IfReady result.0 (λ put. OnOk put (rest.new ≡ [])) }
        ensures more { OnPending result.0 (0 < length rest.new) }
        ensures registered { OnPending result.0 (Covers cx.new (λ s. s ≡ emptied.now.id)) }
        ensures kept { Keeps cx.old cx.new }
    {
        let (put, woken) = self.put(rest);
        match put {
            Err(AllocError) => (Poll::Ready(Err(PipeFault::OutOfMemory)), woken),
            Ok(Put::Over) => (Poll::Ready(Err(PipeFault::Gone)), woken),
            Ok(Put::Done) if rest.is_empty() => (Poll::Ready(Ok(())), woken),
            Ok(Put::Done | Put::Full) => (cx.register(emptied, &mut self.sender), woken),
        }
    }

    /// Waits until the receiver has gone away.
    fn poll_gone(&mut self, cx: &mut Context<'_>, emptied: &Source) -> Poll<()>
        ensures registered { OnPending result (Covers cx.new (λ s. s ≡ emptied.now.id)) }
        ensures kept { Keeps cx.old cx.new }
    {
        if self.pipe.is_abandoned() {
            return Poll::Ready(());
        }
        cx.register(emptied, &mut self.sender)
    }

    /// Takes out what was put in, or waits for something.
    fn poll_taken(&mut self, cx: &mut Context<'_>, filled: &Source) -> (Poll<Taken>, Option<Waker>)
        ensures taken { IfReady result.0 spec.IsTaken }
        ensures registered { OnPending result.0 (Covers cx.new (λ s. s ≡ filled.now.id)) }
        ensures kept { Keeps cx.old cx.new }
    {
        match self.pipe.take() {
            Taken::Nothing => (cx.register(filled, &mut self.receiver), None),
            taken => (Poll::Ready(taken), self.sender.take()),
        }
    }

    /// Notes that the body has come to its end.
    fn finish(&mut self) -> Option<Waker>
        ensures { self.new.pipe ≡ passing.ended endings.Whole self.old.pipe }
    {
        self.pipe.finish();
        self.receiver.take()
    }

    /// Notes that the sender has gone away.
    fn break_off(&mut self) -> Option<Waker>
        ensures { self.new.pipe ≡ passing.ended endings.Broken self.old.pipe }
    {
        self.pipe.break_off();
        self.receiver.take()
    }

    /// Notes that the receiver has gone away.
    fn abandon(&mut self) -> Option<Waker>
        ensures { self.new.pipe ≡ passing.abandoned self.old.pipe }
    {
        self.pipe.abandon();
        self.sender.take()
    }
}

impl PipeSender {
    /// Puts bytes in, and is ready once none is left; or once no one takes them out any more.
    ///
    /// # Errors
    /// If no one does, or if an allocation fails.
    pub fn poll_put(
        &mut self,
        cx: &mut Context<'_>,
        rest: &mut Bytes,
    ) -> Poll<Result<(), PipeFault>>
        ensures rest { spec.IsBehind rest.old rest.new }
        ensures all { IfReady result (λ put. OnOk put (rest.new ≡ [])) }
        ensures more { OnPending result (0 < length rest.new) }
        ensures registered { OnPending result (Covers cx.new (λ s. s ≡ spec.emptied_source self.new)) }
        ensures kept { Keeps cx.old cx.new }
        ensures same { spec.emptied_source self.new ≡ spec.emptied_source self.old }
    {
        if rest.is_empty() {
            return Poll::Ready(Ok(()));
        }
        let Some(mut inside) = lock(&self.shared.inside) else {
            return cx.yield_now();
        };
        let (polled, woken) = inside.poll_put(cx, &self.shared.emptied, rest);
        drop(inside);
        drop(woken);
        polled
    }

    /// Is ready once no one takes anything out any more.
    pub fn poll_gone(&mut self, cx: &mut Context<'_>) -> Poll<()>
        ensures registered { OnPending result (Covers cx.new (λ s. s ≡ spec.emptied_source self.new)) }
        ensures kept { Keeps cx.old cx.new }
        ensures same { spec.emptied_source self.new ≡ spec.emptied_source self.old }
    {
        let Some(mut inside) = lock(&self.shared.inside) else {
            return cx.yield_now();
        };
        inside.poll_gone(cx, &self.shared.emptied)
    }

    /// Notes that the body has come to its end.
    pub fn finish(&self) {
        let woken = lock(&self.shared.inside).map(|mut inside| inside.finish());
        drop(woken);
    }
}

impl Drop for PipeSender {
    fn drop(self) {
        let PipeSender { shared } = self;
        let woken = lock(&shared.inside).map(|mut inside| inside.break_off());
        drop(woken);
    }
}

impl PipeReceiver {
    /// Returns how many bytes are still to come, if that is known.
    pub fn left(&self) -> Option<u64>
        ensures { result ≡ self.now.left }
    {
        self.left
    }

    /// Takes out what was put in: bytes, or that nothing more comes. It is ready once there is one of these.
    pub fn poll_taken(&mut self, cx: &mut Context<'_>) -> Poll<Taken>
        ensures taken { IfReady result spec.IsTaken }
        ensures registered { OnPending result (Covers cx.new (λ s. s ≡ spec.filled_source self.new)) }
        ensures kept { Keeps cx.old cx.new }
        ensures same { spec.filled_source self.new ≡ spec.filled_source self.old }
    {
        let Some(mut inside) = lock(&self.shared.inside) else {
            return cx.yield_now();
        };
        let (polled, woken) = inside.poll_taken(cx, &self.shared.filled);
        drop(inside);
        drop(woken);
        if let Poll::Ready(Taken::Piece(piece)) = &polled {
            self.left = self
                .left
                .map(|left| left.saturating_sub(piece.len() as u64));
        }
        polled
    }
}

impl Drop for PipeReceiver {
    fn drop(self) {
        let PipeReceiver { shared, left: _ } = self;
        let woken = lock(&shared.inside).map(|mut inside| inside.abandon());
        drop(woken);
    }
}
