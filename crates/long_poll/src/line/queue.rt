//! The order of the callers whose Invokes are held back.

ghost use Rattle.std.specs.Prelude.{◌≡◌, ◌↔◌, ◌++◌, ◌∷◌, [], length, not, is_some, position, remove, slice_index_or};
ghost use Rattle.std.specs.Prelude.{IfOk, IfErr, IfSome, IsTrue, MatchOption};
ghost use Rattle.std.specs.Arc.{arc_value};
ghost use Rattle.long_poll.specs.Queues.{first_of, first_waiting, next_of, is_numbered, is_waiting};
ghost use Rattle.long_poll.specs.Queues.{Changes, HasTurn, called, spare_of, trying};
ghost use Rattle.long_poll.specs.declared.line.queue.Caller.{Caller};

use super::seat::Seat;
use arn_ids::FnNo;
use std::alloc::{AllocError, Global};
use std::sync::Arc;

/// A caller whose Invoke is held back.
#[derive(Drop)]
pub(crate) struct Caller {
    function: FnNo,
    number: u64,
    // How often it was called since it last tried, and how often it had been called then: for each time
    // an environment may be ready.
    called: u64,
    tried: u64,
    seat: Arc<Seat>,
}

impl Caller {
    /// Makes the caller with this number, who invokes this function and was called so often.
    pub(crate) fn new(function: FnNo, number: u64, called: u64, seat: Arc<Seat>) -> Caller
        ensures { result ≡ record { function = function; number = number; called = called; tried = 0; seat = seat } }
    {
        Caller {
            function,
            number,
            called,
            tried: 0,
            seat,
        }
    }
}

/// Returns a called caller's seat; or wakes its thread, if the seat cannot be shared.
fn shared(seat: &Arc<Seat>) -> Option<Arc<Seat>>
    ensures { IfSome result (λ it. arc_value it ≡ arc_value seat.now) }
{
    match Arc::try_clone(seat) {
        Ok(seat) => Some(seat),
        Err(AllocError) => {
            seat.wake();
            None
        }
    }
}

/// The callers whose Invokes are held back, in the order in which they came.
#[derive(Drop)]
pub(crate) struct Queue {
    callers: Vec<Caller>,
}

impl Queue {
    /// Makes an empty queue. It allocates nothing.
    pub(crate) fn new(alloc: Global) -> Queue
        ensures { result.callers.items ≡ [] }
    {
        Queue {
            callers: Vec::new(alloc),
        }
    }

    /// Returns how many callers there are.
    pub(crate) fn len(&self) -> u64
        ensures { result ≡ length self.now.callers.items }
    {
        self.callers.len() as u64
    }

    /// Removes the callers whose places were dropped.
    pub(crate) fn tidy(&mut self) {
        self.callers.retain(|caller| !caller.seat.is_left());
    }

    /// Lets a caller join at the end.
    ///
    /// # Errors
    /// If an allocation fails. The queue is then as it was.
    pub(crate) fn join(&mut self, caller: Caller) -> Result<(), AllocError>
        ensures last { IfOk result (λ _. self.new.callers.items ≡ self.old.callers.items ++ caller ∷ []) }
        ensures same { IfErr result (λ _. self.new.callers.items ≡ self.old.callers.items) }
    {
        Ok(self.callers.push(caller)?)
    }

    /// Returns the place of a function's first caller.
    fn first_of(&self, function: FnNo) -> Option<usize>
        ensures { result ≡ first_of function self.now.callers.items }
    {
        self.callers
            .iter()
            .position(|caller| caller.function == function)
    }

    /// Returns the place of a function's first caller that was not called since it last tried.
    fn first_waiting(&self, function: FnNo) -> Option<usize>
        ensures { result ≡ first_waiting function self.now.callers.items }
    {
        self.callers
            .iter()
            .position(|caller| caller.function == function && caller.called == 0)
    }

    /// Returns the place of the first caller of any function that was not called since it last tried.
    fn first_of_any(&self) -> Option<usize>
        ensures { result ≡ position is_waiting self.now.callers.items }
    {
        self.callers.iter().position(|caller| caller.called == 0)
    }

    /// Returns the place of the caller to call when an environment of this function may be ready.
    fn next_of(&self, function: FnNo) -> Option<usize>
        ensures { result ≡ next_of function self.now.callers.items }
    {
        self.first_waiting(function)
            .or(self.first_of(function))
            .or(self.first_of_any())
    }

    /// Returns the place of the caller with this number.
    fn place_of(&self, number: u64) -> Option<usize>
        ensures { result ≡ position (is_numbered number) self.now.callers.items }
    {
        self.callers
            .iter()
            .position(|caller| caller.number == number)
    }

    /// Returns whether no caller of this function waits, so that a newcomer may try.
    pub(crate) fn is_free(&self, function: FnNo) -> bool
        ensures { result ≡ not (is_some (first_of function self.now.callers.items)) }
    {
        self.first_of(function).is_none()
    }

    /// Returns whether the caller with this number may try: if it was called since it last tried, or is the first of
    /// its function. It counts as trying then.
    pub(crate) fn may_try(&mut self, number: u64) -> bool
        ensures list { MatchOption (position (is_numbered number) self.old.callers.items)
            (self.new.callers.items ≡ self.old.callers.items)
            (λ at. Changes trying at self.old.callers.items self.new.callers.items) }
        ensures turn { (d : Caller) → IfSome (position (is_numbered number) self.old.callers.items)
            (λ at. IsTrue result ↔ HasTurn self.old.callers.items at (slice_index_or self.old.callers.items at d)) }
    {
        let Some(at) = self.place_of(number) else {
            return true;
        };
        let is_first = self.first_of(self.callers[at].function) == Some(at);
        let caller = &mut self.callers[at];
        let was_called = caller.called > 0;
        caller.tried = caller.called;
        caller.called = 0;
        is_first || was_called
    }

    /// Calls the next caller, so many times at once. Returns its seat, in which its thread is to be woken once the queue
    /// is not locked any more. (If the seat cannot be shared, its thread is woken at once.)
    pub(crate) fn call(&mut self, function: FnNo, times: u64) -> Option<Arc<Seat>>
        ensures list { MatchOption (next_of function self.old.callers.items)
            (self.new.callers.items ≡ self.old.callers.items)
            (λ at. Changes (called times) at self.old.callers.items self.new.callers.items) }
        ensures seat { (d : Caller) → IfSome result (λ seat. IfSome (next_of function self.old.callers.items)
            (λ at. arc_value seat ≡ arc_value (slice_index_or self.old.callers.items at d).seat)) }
    {
        let at = self.next_of(function)?;
        let caller = &mut self.callers[at];
        caller.called = caller.called.saturating_add(times);
        shared(&caller.seat)
    }

    /// Removes the caller with this number. Returns how often the next one is to be called in its place: for each of
    /// its calls but the one that it needed; once if it was not called, since something else has changed then.
    pub(crate) fn remove(&mut self, number: u64) -> u64
        ensures list { MatchOption (position (is_numbered number) self.old.callers.items)
            (self.new.callers.items ≡ self.old.callers.items)
            (λ at. self.new.callers.items ≡ remove self.old.callers.items at) }
        ensures spare { (d : Caller) → IfSome (position (is_numbered number) self.old.callers.items)
            (λ at. result ≡ spare_of (slice_index_or self.old.callers.items at d)) }
    {
        let Some(at) = self.place_of(number) else {
            return 0;
        };
        let caller = self.callers.remove(at);
        let calls = caller.called.saturating_add(caller.tried);
        if calls == 0 { 1 } else { calls - 1 }
    }
}
