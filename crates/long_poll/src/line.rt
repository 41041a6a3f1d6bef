//! The line in which callers wait whose Invokes are held back.

mod queue;
mod seat;

use arn_ids::FnNo;
use queue::{Caller, Queue};
use seat::Seat;
use std::alloc::{AllocError, Global};
use std::sync::atomic::AtomicU64;
use std::sync::atomic::Ordering::SeqCst;
use std::sync::{Arc, Mutex, Wait};
use std::time::{Clock, Duration, Instant};

/// A caller's place in the line, which is left when it is dropped.
pub(crate) struct Place {
    function: FnNo,
    number: u64,
    seat: Arc<Seat>,
}

impl Drop for Place {
    fn drop(self) {
        self.seat.leave();
        let Place {
            function: _,
            number: _,
            seat: _,
        } = self;
    }
}

impl Place {
    /// Sleeps until the caller is called, for this many microseconds at most. Returns for how many it slept.
    pub(crate) fn sleep<R: Wait + Clock>(&self, rt: &R, most: u64) -> u64 {
        let Ok(start) = Instant::now(rt) else {
            return most;
        };
        self.seat.sleep(rt, Duration::from_micros(most));
        match start.elapsed(rt) {
            Ok(slept) => u64::try_from(slept.as_micros()).unwrap_or(most),
            Err(_) => most,
        }
    }
}

/// Wakes the thread of a caller that was called. The line is not locked, so the thread finds it free, and others need not
/// wait while the system wakes it.
fn wake(called: Option<Arc<Seat>>) {
    if let Some(seat) = called {
        seat.wake();
    }
}

/// The queue of the callers whose Invokes are held back, which the threads of all connections share. The callers of a
/// function are called one by one, as its environments become ready.
#[derive(Drop)]
pub struct Line {
    alloc: Global,
    // How often an environment may have become ready.
    readies: AtomicU64,
    // How many callers came.
    came: AtomicU64,
    // How many callers wait, or more: it is read without the lock.
    length: AtomicU64,
    queue: Mutex<Queue>,
}

impl Line {
    /// Makes an empty line. It allocates nothing.
    pub fn new(alloc: Global) -> Line {
        Line {
            alloc,
            readies: AtomicU64::new(0),
            came: AtomicU64::new(0),
            length: AtomicU64::new(0),
            queue: Mutex::new(Queue::new(alloc)),
        }
    }

    /// Returns how often an environment may have become ready, for a caller that then tries, and may join.
    pub(crate) fn readies(&self) -> u64 {
        self.readies.load(SeqCst)
    }

    /// Removes the callers whose places were dropped.
    fn tidy(&self, queue: &mut Queue) {
        queue.tidy();
        self.length.store(queue.len(), SeqCst);
    }

    /// Joins the line at its end, with an Invoke of this function that was held back after environments had become
    /// ready so often. If more did since, the caller is called at once.
    pub(crate) fn join(
        &self,
        rt: &impl Wait,
        function: FnNo,
        readies: u64,
    ) -> Result<Place, AllocError> {
        let seat = Arc::new(self.alloc, Seat::new()).map_err(AllocError::from)?;
        let place = Place {
            function,
            number: self.came.fetch_add(1, SeqCst),
            seat: Arc::try_clone(&seat)?,
        };
        let mut queue = self.queue.lock(rt);
        // (First the length, then the count: so a Next either calls the caller, or is counted here.)
        self.length.store(queue.len().saturating_add(1), SeqCst);
        let called = self.readies().saturating_sub(readies);
        if called > 0 {
            seat.wake();
        }
        queue.join(Caller::new(function, place.number, called, seat))?;
        Ok(place)
    }

    /// Returns whether an Invoke of this function may be tried now: by a newcomer if no one waits, by a caller at
    /// its place if it was called or is the first.
    pub(crate) fn is_turn(&self, rt: &impl Wait, function: FnNo, place: &Option<Place>) -> bool {
        if place.is_none() && self.length.load(SeqCst) == 0 {
            return true;
        }
        let mut queue = self.queue.lock(rt);
        self.tidy(&mut queue);
        match place {
            None => queue.is_free(function),
            Some(place) => queue.may_try(place.number),
        }
    }

    /// Calls a caller, since an environment of this function may have become ready.
    pub(crate) fn call(&self, rt: &impl Wait, function: FnNo) {
        self.readies.fetch_add(1, SeqCst);
        if self.length.load(SeqCst) > 0 {
            wake(self.next_called(rt, function));
        }
    }

    /// Calls the next caller, and returns its seat.
    fn next_called(&self, rt: &impl Wait, function: FnNo) -> Option<Arc<Seat>> {
        let mut queue = self.queue.lock(rt);
        self.tidy(&mut queue);
        queue.call(function, 1)
    }

    /// Leaves the line. If the caller was called more often than the once that it needed, the next one is called; also
    /// if it was not called at all, since something else has changed.
    pub(crate) fn leave(&self, rt: &impl Wait, place: Place) {
        wake(self.called_instead(rt, place));
    }

    /// Removes a caller from the queue, and calls the next one if it has to be. Returns the seat of that one.
    fn called_instead(&self, rt: &impl Wait, place: Place) -> Option<Arc<Seat>> {
        let mut queue = self.queue.lock(rt);
        let spare = queue.remove(place.number);
        self.tidy(&mut queue);
        if spare == 0 {
            return None;
        }
        queue.call(place.function, spare)
    }
}
