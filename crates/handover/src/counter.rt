//! The requests that wait for a handler, and those that handlers have taken.

ghost use Rattle.std.specs.Prelude.{◌≡◌, ◌+◌, ◌-◌, ◌^◌, ◌<◌, IfOk, OnOk, IfErr, OnErr, MatchOption, MatchResult, None, Some};
ghost use Rattle.std.specs.BTreeMap.{is_at};
ghost use Rattle.std.specs.Map.{remove_entry};
ghost use Rattle.std.specs.Ordering.{nat_cmp};
ghost use Rattle.handover.specs.declared.fault.PutFault.TheVariants.{OutOfMemory};
ghost use Rattle.handover.specs.Counters.{bytes_of, bytes_held, opened, refusal, first_of, others_of, with_request, taken_by, given_up};
ghost use Rattle.handover.specs.Counters.{answered, withdrawn, without_handler};
ghost use Rattle.handover.specs.Stages.{stage, denial};

use crate::fault::{NotTaken, PutFault};
use crate::request::Request;
use crate::stage::Stage;
use std::alloc::{AllocError, Global};
use std::collections::BTreeMap;
use std::marker::Model;

/// What may be handed over at once.
#[derive(Clone, Copy)]
pub struct Limits {
    /// How many requests, those that wait and those at handlers together.
    pub most: u64,
    /// How many bytes those that wait may have together. (Nothing is held of the others.)
    pub most_bytes: u64,
}

/// The requests that are handed over: those that wait for a handler, and those that a handler has taken and not
/// answered yet. Identifiers are given in ascending order, from 0, and never again.
///
/// Contracts see a record of the lists of both. A request that waits holds its bytes here, within the limits; one
/// that was taken holds its identifier alone, until it is answered, its handler ends or its requester goes away.
///
/// No call visits the requests that wait; `end_handler` alone visits those that were taken.
#[derive(Drop)]
pub struct Requests {
    waiting: BTreeMap<u64, Request>,
    taken: BTreeMap<u64, u64>,
    next_id: u64,
    /// The bytes of the requests that wait.
    bytes: u64,
    limits: Limits,
}

impl Model for Requests {
    ghost use Rattle.handover.specs.Counters.{Counter};

    ghost Value = { Counter };

    ghost use Rattle.handover.specs.Order.{IsSound};

    ghost view = { λ r. record {
      waiting = r.waiting.entries;
      taken = r.taken.entries;
      next_id = r.next_id;
      limits = r.limits;
    } };

    ghost invariant = { λ r. IsSound r.waiting.entries r.taken.entries r.next_id r.bytes };
}

impl Requests {
    /// Returns a counter at which no request has come yet. It allocates nothing.
    pub fn new(alloc: Global, limits: Limits) -> Requests
        ensures { result ≡ opened limits }
    {
        Requests {
            waiting: BTreeMap::new(alloc),
            taken: BTreeMap::new(alloc),
            next_id: 0,
            bytes: 0,
            limits,
        }
    }

    /// Returns the identifier of the request that comes next.
    pub fn next_id(&self) -> u64
        ensures { result ≡ self.now.next_id }
    {
        self.next_id
    }

    /// Returns where the request with this identifier is.
    pub fn stage(&self, id: u64) -> Stage
        ensures { result ≡ stage id self.now }
    {
        match self.taken.get(&id) {
            Some(handler) => Stage::Taken(*handler),
            None if self.waiting.contains_key(&id) => Stage::Waits,
            None if id < self.next_id => Stage::Over,
            None => Stage::NotGiven,
        }
    }

    /// Returns the bytes that wait once a request of so many bytes does.
    fn bytes_with(&self, bytes: u64) -> Result<u64, PutFault>
        ensures sum { IfOk result (λ n. n ≡ bytes_held self.now.waiting + bytes) }
        ensures allowed { OnOk result (refusal bytes self.now ≡ None) }
        ensures identifier { OnOk result (self.now.next_id < 2 ^ 64 - 1) }
        ensures fault { IfErr result (λ e. refusal bytes self.now ≡ Some e) }
    {
        let Limits { most, most_bytes } = self.limits;
        let taken = self.taken.len() as u64;
        if self.waiting.len() as u64 >= most.saturating_sub(taken) {
            return Err(PutFault::TooMany);
        }
        let Some(sum) = self.bytes.checked_add(bytes) else {
            return Err(PutFault::TooManyBytes);
        };
        if sum > most_bytes {
            return Err(PutFault::TooManyBytes);
        }
        if self.next_id == u64::MAX {
            return Err(PutFault::NoIdentifier);
        }
        Ok(sum)
    }

    /// Returns why a request of so many bytes cannot wait now, if it cannot.
    pub fn refusal(&self, bytes: u64) -> Option<PutFault>
        ensures { result ≡ refusal bytes self.now }
    {
        match self.bytes_with(bytes) {
            Ok(_) => None,
            Err(fault) => Some(fault),
        }
    }

    /// Lets a request wait behind all others. Returns its identifier.
    ///
    /// # Errors
    /// If [`Requests::refusal`] says why, or if memory is refused. All is then as it was.
    pub fn put(&mut self, request: Request) -> Result<u64, PutFault>
        ensures id { IfOk result (λ id. id ≡ self.old.next_id) }
        ensures allowed { OnOk result (refusal (bytes_of request) self.old ≡ None) }
        ensures waits { OnOk result (self.new ≡ with_request request self.old) }
        ensures fault { IfErr result (λ e. MatchOption (refusal (bytes_of request) self.old) (e ≡ OutOfMemory) (λ f. e ≡ f)) }
        ensures same { OnErr result (self.new ≡ self.old) }
    {
        let bytes = self.bytes_with(request.bytes())?;
        let id = self.next_id;
        self.waiting.insert(id, request)?;
        self.next_id += 1;
        self.bytes = bytes;
        Ok(id)
    }

    /// Hands the first request that waits to a handler, with its identifier. Returns `None` if none waits.
    ///
    /// # Errors
    /// If memory is refused. All is then as it was.
    pub fn take(&mut self, handler: u64) -> Result<Option<(u64, Request)>, AllocError>
        ensures first { IfOk result (λ taken. taken ≡ first_of self.old.waiting) }
        ensures state { OnOk result (self.new ≡ taken_by handler self.old) }
        ensures same { OnErr result (self.new ≡ self.old) }
    {
        let Some((first, _)) = self.waiting.first_key_value() else {
            return Ok(None);
        };
        self.taken.insert(*first, handler)?;
        Ok(pop(&mut self.waiting, &mut self.bytes))
    }

    /// Removes the first request that waits, which no handler is to have. Returns it with its identifier, or `None`
    /// if none waits.
    pub fn give_up(&mut self) -> Option<(u64, Request)>
        ensures first { result ≡ first_of self.old.waiting }
        ensures state { self.new ≡ given_up self.old }
    {
        pop(&mut self.waiting, &mut self.bytes)
    }

    /// Returns why a handler may not answer a request, if it may not: it has not taken it, or it is over.
    pub fn denial(&self, id: u64, handler: u64) -> Option<NotTaken>
        ensures { result ≡ denial handler (stage id self.now) }
    {
        match self.stage(id) {
            Stage::Taken(other) if other == handler => None,
            Stage::Taken(_) => Some(NotTaken::ByAnother),
            Stage::Waits => Some(NotTaken::StillWaits),
            Stage::Over => Some(NotTaken::IsOver),
            Stage::NotGiven => Some(NotTaken::NotGiven),
        }
    }

    /// Lets a handler answer a request, which is over then.
    ///
    /// # Errors
    /// If [`Requests::denial`] says why. All is then as it was.
    pub fn answer(&mut self, id: u64, handler: u64) -> Result<(), NotTaken>
        ensures fault { MatchResult result (λ _. denial handler (stage id self.old) ≡ None)
            (λ e. denial handler (stage id self.old) ≡ Some e) }
        ensures state { OnOk result (self.new ≡ answered id self.old) }
        ensures same { OnErr result (self.new ≡ self.old) }
    {
        if let Some(fault) = self.denial(id, handler) {
            return Err(fault);
        }
        let _ = self.taken.remove(&id);
        Ok(())
    }

    /// Ends a handler: the requests that it had taken and not answered have failed, and are over.
    pub fn end_handler(&mut self, handler: u64)
        ensures { self.new ≡ without_handler handler self.old }
    {
        self.taken.retain(|_, other| *other != handler);
    }

    /// Removes a request whose requester has gone away: it is over. Returns where it was.
    pub fn requester_ended(&mut self, id: u64) -> Stage
        ensures was { result ≡ stage id self.old }
        ensures state { self.new ≡ withdrawn id self.old }
    {
        let was = self.stage(id);
        remove(&mut self.waiting, &mut self.bytes, id);
        let _ = self.taken.remove(&id);
        was
    }
}

/// Removes the first request that waits, and gives its bytes back.
fn pop(waiting: &mut BTreeMap<u64, Request>, bytes: &mut u64) -> Option<(u64, Request)>
    requires held { bytes.old ≡ bytes_held waiting.old.entries }
    ensures first { result ≡ first_of waiting.old.entries }
    ensures others { waiting.new.entries ≡ others_of waiting.old.entries }
    ensures held { bytes.new ≡ bytes_held waiting.new.entries }
{
    let (id, request) = waiting.pop_first()?;
    *bytes -= request.bytes();
    Some((id, request))
}

/// Removes a request that waits, if it does, and gives its bytes back.
fn remove(waiting: &mut BTreeMap<u64, Request>, bytes: &mut u64, id: u64)
    requires held { bytes.old ≡ bytes_held waiting.old.entries }
    ensures others { waiting.new.entries ≡ remove_entry (is_at (nat_cmp id)) waiting.old.entries }
    ensures held { bytes.new ≡ bytes_held waiting.new.entries }
{
    if let Some(request) = waiting.remove(&id) {
        *bytes -= request.bytes();
    }
}
