//! Places for the open connections, up to a limit.

ghost use Rattle.std.specs.Prelude.{◌≡◌, ◌+◌, ◌<◌, ◌++◌, ◌∷◌, [], length, map, nat_lt, vec_len};
ghost use Rattle.std.specs.Prelude.{IfOk, IfErr, IfSome, MatchOption};
ghost use Rattle.std.specs.List.{list_all};
ghost use Rattle.connection_places.specs.Places.{Becomes, Either, Places, SomeBecome, next_free, is_free, is_free_with_thread};
ghost use Rattle.connection_places.specs.Places.{added, closed, filled, given_back, is_vacant, staffed, standing, taken, unstaffed};

use crate::choice::{admits, place_for, reserve_of};
use crate::mailbox::Mailbox;
use crate::post::{Ended, Post, WorkerThread};
use crate::running::Running;
use service_port::Port;
use std::alloc::{AllocError, Global};
use std::marker::Model;
use std::sync::{Arc, Mutex, Wait};
use std::thread::Threads;
use std::time::{Clock, Duration};

/// A place of one connection after another, which all count in its tally: so no tally is lost, and
/// there are no more tallies than the greatest number of connections that were open at once. Its
/// thread may wait for the next connection.
#[derive(Drop)]
pub(crate) struct Slot<Y, V> {
    tally: Arc<Mutex<Y>>,
    // Whether it was given to a connection, which may not have begun yet.
    is_taken: bool,
    worker: Option<WorkerThread<V>>,
    pub(crate) running: Option<Running>,
}

impl<Y, V: Drop> Slot<Y, V> {
    /// Returns whether the place may be given to a connection.
    fn is_free(&self) -> bool
        ensures { result ≡ is_free (standing self.now) }
    {
        !self.is_taken && self.running.is_none()
    }

    /// Returns whether the place may be given to a connection, and has a thread, which may wait for it.
    fn is_free_with_thread(&self) -> bool
        ensures { result ≡ is_free_with_thread (standing self.now) }
    {
        self.is_free() && self.worker.is_some()
    }

    /// Returns whether the place has neither a connection nor a thread.
    fn is_vacant(&self) -> bool
        ensures { result ≡ is_vacant (standing self.now) }
    {
        self.running.is_none() && self.worker.is_none()
    }

    /// Gives it to a connection.
    fn take(&mut self)
        ensures { standing self.new ≡ taken (standing self.old) }
    {
        self.is_taken = true;
    }

    /// Takes it back from a connection that has not begun.
    fn give_back(&mut self)
        ensures { standing self.new ≡ given_back (standing self.old) }
    {
        self.is_taken = false;
    }

    /// Gives it to a thread.
    fn employ(&mut self, worker: WorkerThread<V>)
        ensures { standing self.new ≡ staffed (standing self.old) }
    {
        self.worker = Some(worker);
    }

    /// Notes its connection.
    fn fill(&mut self, running: Running)
        ensures { standing self.new ≡ filled (standing self.old) }
    {
        self.running = Some(running);
    }

    /// Gives a connection to the thread that waits for one. If none waits, returns the connection,
    /// and joins a thread that has ended.
    fn offer<R: Wait + Threads>(&mut self, rt: &R, visit: V) -> Result<(), V>
        ensures given { IfOk result (λ _. standing self.new ≡ standing self.old) }
        ensures back { IfErr result (λ back. (back ≡ visit) × (standing self.new ≡ unstaffed (standing self.old))) }
    {
        let Some(worker) = self.worker.take() else {
            return Err(visit);
        };
        match worker.mailbox.put(rt, visit) {
            Ok(()) => {
                self.worker = Some(worker);
                Ok(())
            }
            Err(visit) => {
                worker.join(rt);
                Err(visit)
            }
        }
    }

    /// Removes the connection, if there is one: the place is free.
    fn see_out(&mut self)
        ensures { standing self.new ≡ closed (standing self.old) }
    {
        if self.running.take().is_some() {
            self.is_taken = false;
        }
    }

    /// Joins the thread if it has ended.
    fn join_if_ended<R: Wait + Threads>(&mut self, rt: &R)
        ensures { Either unstaffed (standing self.old) (standing self.new) }
    {
        let Some(worker) = self.worker.take() else {
            return;
        };
        if worker.mailbox.is_closed(rt) {
            worker.join(rt);
        } else {
            self.worker = Some(worker);
        }
    }

    /// Joins the thread, if there is one.
    fn join(&mut self, rt: &impl Threads)
        ensures { standing self.new ≡ unstaffed (standing self.old) }
    {
        if let Some(worker) = self.worker.take() {
            worker.join(rt);
        }
    }

    /// Signals the connection to end, if there is one: after its exchange, or at once.
    fn tell(&mut self, at_once: bool)
        ensures { standing self.new ≡ standing self.old }
    {
        if let Some(running) = &mut self.running {
            running.tell(at_once);
        }
    }

    /// Looks at the connection, if there is one, and ends it at once unless it lingers and has got something since
    /// the last look.
    fn end_if_still(&mut self)
        ensures { standing self.new ≡ standing self.old }
    {
        if let Some(running) = &mut self.running {
            running.end_if_still();
        }
    }

    /// Looks at the connection, if there is one, and ends it at once if it has reached one of its limits.
    fn end_if_idle(&mut self)
        ensures { standing self.new ≡ standing self.old }
    {
        if let Some(running) = &mut self.running {
            running.look(1);
            if running.seen.has_outstayed() {
                running.tell(true);
            }
        }
    }

    /// Looks at the connection, if there is one, without counting this as a look.
    fn look_again(&mut self)
        ensures { standing self.new ≡ standing self.old }
    {
        if let Some(running) = &mut self.running {
            running.look(0);
        }
    }

    /// Asks the connection to make room, if there is one.
    fn ask_for_room(&mut self)
        ensures { standing self.new ≡ standing self.old }
    {
        if let Some(running) = &mut self.running {
            running.ask_for_room();
        }
    }
}

/// Returns the first free place that has a thread, which may be waiting; or otherwise the first free one.
fn next_free<Y, V: Drop>(slots: &[Slot<Y, V>]) -> Option<usize>
    ensures { result ≡ next_free (map standing slots.now) }
{
    let mut first = None;
    for (at, slot) in slots.iter().enumerate() {
        if slot.is_free_with_thread() {
            return Some(at);
        }
        if first.is_none() && slot.is_free() {
            first = Some(at);
        }
    }
    first
}

/// Returns whether each place is free.
fn are_free<Y, V: Drop>(slots: &[Slot<Y, V>]) -> bool
    ensures { result ≡ list_all (λ slot. is_free (standing slot)) slots.now }
{
    slots.iter().all(|slot| slot.is_free())
}

/// Returns whether no place has a connection or a thread.
fn are_vacant<Y, V: Drop>(slots: &[Slot<Y, V>]) -> bool
    ensures { result ≡ list_all (λ slot. is_vacant (standing slot)) slots.now }
{
    slots.iter().all(|slot| slot.is_vacant())
}

/// The error that a thread still has the tally of its place.
#[derive(Clone, Copy, Debug, PartialEq, Eq)]
pub struct StillShared;

/// The places: by their type never more than `most`. `ended` has room for every place, and `gathered`
/// for the tallies of all places and two more, so that the end of the service allocates nothing. Contracts see of each
/// place whether it is taken, and whether it has a connection and a thread.
#[derive(Drop)]
pub struct Slots<Y, V> {
    alloc: Global,
    most: usize,
    slots: Vec<Slot<Y, V>>,
    ended: Arc<Ended>,
    gathered: Vec<Y>,
}

impl<Y, V> Model for Slots<Y, V> {
    ghost use Rattle.std.specs.Prelude.{◌≡◌, ◌+◌, ◌≤◌, length, map, vec_len, vec_capacity};
    ghost use Rattle.connection_places.specs.Places.{Places, standing};

    ghost Value = { Places };

    ghost view = { λ s. record { most = s.most; places = map standing s.slots.items } };

    ghost invariant = { λ s. (length s.slots.items ≤ s.most) × (vec_len s.gathered ≡ 0)
        × (length s.slots.items + 2 ≤ vec_capacity s.gathered) };
}

impl<Y: Drop, V: Drop> Slots<Y, V> {
    /// Makes an empty list of places, of which there may be `most`. It fails only if an allocation
    /// fails.
    pub fn new(alloc: Global, most: u32) -> Result<Slots<Y, V>, AllocError>
        ensures { IfOk result (λ slots. slots ≡ record { most = most; places = [] }) }
    {
        Ok(Slots {
            alloc,
            most: most as usize,
            slots: Vec::new(alloc),
            ended: Arc::new(alloc, Ended::new(alloc))?,
            gathered: Vec::with_capacity(alloc, 2)?,
        })
    }

    /// Takes a free place, which no connection has: the first one with a thread, or otherwise the first. Returns `None`
    /// exactly if none is free.
    pub fn take(&mut self) -> Option<usize>
        ensures place { result ≡ next_free self.old.places }
        ensures taken { MatchOption result (self.new ≡ self.old) (λ at. Becomes taken at self.old self.new) }
    {
        let at = next_free(self.slots.as_slice())?;
        self.slots[at].take();
        Some(at)
    }

    /// Returns whether another place can be made.
    pub fn has_room(&self) -> bool
        ensures { result ≡ nat_lt (length self.now.places) self.now.most }
    {
        self.slots.len() < self.most
    }

    /// Makes another place, with this tally, and takes it. There is room for one more.
    ///
    /// # Errors
    /// If an allocation fails, the tally is returned, and no place is made.
    pub fn add(&mut self, rt: &impl Wait, tally: Y) -> Result<usize, Y>
        requires { length self.old.places < self.old.most }
        ensures added { IfOk result (λ at. (at ≡ length self.old.places)
            × (self.new ≡ record self.old { places = self.old.places ++ added ∷ [] })) }
        ensures refused { IfErr result (λ _. self.new ≡ self.old) }
    {
        let at = self.slots.len();
        let room = at.saturating_add(1);
        let Some(tallies) = at.checked_add(3) else {
            return Err(tally);
        };
        if self.slots.reserve(1).is_err()
            || self.ended.reserve(rt, room).is_err()
            || self.gathered.reserve(tallies).is_err()
        {
            return Err(tally);
        }
        match Arc::new(self.alloc, Mutex::new(tally)) {
            Ok(tally) => {
                self.slots.push_reserved(Slot {
                    tally,
                    is_taken: true,
                    worker: None,
                    running: None,
                });
                Ok(at)
            }
            Err(refused) => Err(refused.value.into_inner()),
        }
    }

    /// Returns a place, as a new thread gets it.
    ///
    /// # Errors
    /// `AllocError` if an allocation fails, or there is no place of this number.
    pub fn post(&self, at: usize) -> Result<Post<Y, V>, AllocError> {
        let Some(slot) = self.slots.get(at) else {
            return Err(AllocError);
        };
        Ok(Post {
            at,
            tally: Arc::try_clone(&slot.tally)?,
            mailbox: Arc::new(self.alloc, Mailbox::new()).map_err(AllocError::from)?,
            ended: Arc::try_clone(&self.ended)?,
        })
    }

    /// Gives a connection to the thread that waits for one at a place. If none waits, or there is
    /// no place of this number, returns the connection; the place has no thread then.
    pub fn offer<R: Wait + Threads>(&mut self, rt: &R, at: usize, visit: V) -> Result<(), V>
        ensures given { IfOk result (λ _. self.new ≡ self.old) }
        ensures back { IfErr result (λ back. (back ≡ visit) × Becomes unstaffed at self.old self.new) }
    {
        if at < self.slots.len() {
            self.slots[at].offer(rt, visit)
        } else {
            Err(visit)
        }
    }

    /// Gives a place to a thread. If there is no place of this number, the thread is dropped, and
    /// nothing changes.
    pub fn employ(&mut self, at: usize, worker: WorkerThread<V>)
        ensures { Becomes staffed at self.old self.new }
    {
        if at < self.slots.len() {
            self.slots[at].employ(worker);
        }
    }

    /// Notes the connection of a place that was taken. If there is no place of this number, nothing
    /// changes.
    pub fn fill(&mut self, at: usize, running: Running)
        ensures { Becomes filled at self.old self.new }
    {
        if at < self.slots.len() {
            self.slots[at].fill(running);
        }
    }

    /// Gives back a place that was taken, and whose connection has not begun. If there is no place of this number,
    /// nothing changes.
    pub fn give_back(&mut self, at: usize)
        ensures { Becomes given_back at self.old self.new }
    {
        if at < self.slots.len() {
            self.slots[at].give_back();
        }
    }

    /// Removes the connection of a place, which has ended: the place is free.
    fn see_out(&mut self, at: usize)
        ensures { Becomes closed at self.old self.new }
    {
        if at < self.slots.len() {
            self.slots[at].see_out();
        }
    }

    /// Removes the connections that have ended.
    pub fn reap(&mut self, rt: &impl Wait)
        ensures { SomeBecome closed self.old self.new }
    {
        for _ in 0..self.slots.len() {
            let Some(at) = self.ended.pop(rt) else {
                return;
            };
            self.see_out(at);
        }
    }

    /// Waits until a connection has ended that is to be removed, for up to this time.
    pub fn await_end<R: Wait + Clock>(&self, rt: &R, time: Duration) {
        self.ended.wait(rt, time);
    }

    /// Joins the threads that have ended because no connection came.
    pub fn join_the_ended<R: Wait + Threads>(&mut self, rt: &R)
        ensures { SomeBecome unstaffed self.old self.new }
    {
        for slot in self.slots.iter_mut() {
            slot.join_if_ended(rt);
        }
    }

    /// Signals each thread to end: at once if it waits, otherwise after its connection.
    pub fn dismiss(&self, rt: &impl Wait) {
        for slot in &self.slots {
            if let Some(worker) = &slot.worker {
                worker.mailbox.close(rt);
            }
        }
    }

    /// Joins all threads, after they were signalled to end.
    pub fn join_all(&mut self, rt: &impl Threads)
        ensures { self.new ≡ record self.old { places = map unstaffed self.old.places } }
    {
        for slot in self.slots.iter_mut() {
            slot.join(rt);
        }
    }

    /// Returns whether every place is free.
    pub fn is_idle(&self) -> bool
        ensures { result ≡ list_all is_free self.now.places }
    {
        are_free(self.slots.as_slice())
    }

    /// Returns whether no place has a connection or a thread.
    pub fn is_vacant(&self) -> bool
        ensures { result ≡ list_all is_vacant self.now.places }
    {
        are_vacant(self.slots.as_slice())
    }

    /// Signals each connection to end: after its exchange, or at once. A signal that was sent
    /// before is not repeated.
    pub fn tell(&mut self, at_once: bool)
        ensures { self.new ≡ self.old }
    {
        for slot in self.slots.iter_mut() {
            slot.tell(at_once);
        }
    }

    /// Looks at each connection, and ends at once those that do not linger, or have got nothing since the
    /// last look.
    pub fn end_the_still(&mut self)
        ensures { self.new ≡ self.old }
    {
        for slot in self.slots.iter_mut() {
            slot.end_if_still();
        }
    }

    /// Looks at each connection, and ends at once those that have reached one of their limits, so
    /// that no peer keeps a place without asking for something. It is called once a second.
    pub fn end_the_idle(&mut self)
        ensures { self.new ≡ self.old }
    {
        for slot in self.slots.iter_mut() {
            slot.end_if_idle();
        }
    }

    /// Returns whether a newcomer at this port may have a place that no connection has:
    /// one in sixteen, up to 64, and of 1,024 or more 64 further ones are kept for callers' ports.
    pub fn admits(&self, port: Port) -> bool {
        admits(self.most, port, self.slots.as_slice())
    }

    /// Looks at each connection, without counting this as a look.
    pub fn look_again(&mut self)
        ensures { self.new ≡ self.old }
    {
        for slot in self.slots.iter_mut() {
            slot.look_again();
        }
    }

    /// If no place is left for a newcomer at this port, and some are kept for
    /// callers' ports, asks one connection to make room. Returns whether there is one. It ends if it
    /// serves no request when it is asked; its place is free once it has ended.
    ///
    /// At callers' ports, and as long as environments have not used up their share, it is the
    /// one at callers' ports that has been longest without a complete request. For a newcomer at
    /// an environment's port it is otherwise the longest of the environment's port that holds most.
    pub fn ask_for_room(&mut self, port: Port) -> bool
        ensures { self.new ≡ self.old }
    {
        if reserve_of(self.most) == 0 || (self.has_room() && self.admits(port)) {
            return false;
        }
        self.look_again();
        let Some(at) = place_for(self.most, port, self.slots.as_slice()) else {
            return false;
        };
        if at < self.slots.len() {
            self.slots[at].ask_for_room();
        }
        true
    }

    /// Returns these two tallies and those of all places, once every thread is joined.
    ///
    /// # Errors
    /// `StillShared` if a thread still has one; the tallies are then dropped.
    pub fn into_tallies(self, one: Y, other: Y) -> Result<Vec<Y>, StillShared>
        ensures all { IfOk result (λ tallies. vec_len tallies ≡ length self.places + 2) }
    {
        let Slots {
            slots,
            gathered,
            ..
        } = self;
        let mut slots = slots;
        let mut tallies = gathered;
        tallies.push_reserved(one);
        tallies.push_reserved(other);
        while let Some(slot) = slots.pop() {
            let Slot { tally, .. } = slot;
            let Some(tally) = Arc::into_inner(tally) else {
                return Err(StillShared);
            };
            tallies.push_reserved(tally.into_inner());
        }
        Ok(tallies)
    }
}
