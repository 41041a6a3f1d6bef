//! Who follows the history as it grows, and is woken after a step.

ghost use Rattle.std.specs.Prelude.{◌≡◌, nat_lt};

use crate::{Beat, Heard, OneShotBell};
use account_lock::Bell;
use std::alloc::{AllocError, Global};
use std::mem;
use std::sync::atomic::Ordering::SeqCst;
use std::sync::atomic::{AtomicBool, AtomicU64};
use std::sync::{Arc, Mutex, Wait};

/// How many connections follow the history at once, at most.
const MOST_FOLLOWERS: u64 = 64;

/// Returns whether one more may follow the history, where so many do.
fn has_place(followers: u64) -> bool
    ensures { result ≡ nat_lt followers 64 }
{
    followers < MOST_FOLLOWERS
}

/// The place of one who follows the history. It is given back when it is dropped.
pub(crate) struct FollowerPlace {
    beat: Arc<Beat>,
}

impl Drop for FollowerPlace {
    fn drop(self) {
        self.beat.followers.leave();
        let FollowerPlace { beat: _ } = self;
    }
}

impl FollowerPlace {
    /// Takes a place, `None` if as many follow the history as may.
    ///
    /// # Errors
    /// If an allocation fails.
    pub(crate) fn take(beat: &Arc<Beat>) -> Result<Option<FollowerPlace>, AllocError> {
        let beat = Arc::try_clone(beat)?;
        if !beat.followers.enter() {
            return Ok(None);
        }
        Ok(Some(FollowerPlace { beat }))
    }
}

/// The bells of those who follow the history and wait for its next entry. A follower gives its bell here, and
/// then looks once more for an entry; a thread makes its step, and then looks whether a bell is here. So
/// whichever comes first, the follower notices the step.
#[derive(Drop)]
pub struct Followers {
    alloc: Global,
    // Whether there is a bell: it is read without the lock.
    is_awaited: AtomicBool,
    bells: Mutex<Vec<OneShotBell>>,
    // How many places are taken.
    taken: AtomicU64,
}

impl Followers {
    /// Makes it without a bell. It allocates nothing.
    pub(crate) fn new(alloc: Global) -> Followers {
        Followers {
            alloc,
            is_awaited: AtomicBool::new(false),
            bells: Mutex::new(Vec::new(alloc)),
            taken: AtomicU64::new(0),
        }
    }

    /// Takes a place. Returns false if none is left.
    fn enter(&self) -> bool {
        let may = has_place(self.taken.fetch_add(1, SeqCst));
        if !may {
            self.leave();
        }
        may
    }

    /// Gives a place back.
    fn leave(&self) {
        self.taken.fetch_sub(1, SeqCst);
    }

    /// Returns a future that is ready after the next step. The bells of followers that are gone are dropped.
    ///
    /// # Errors
    /// If an allocation fails.
    pub(crate) fn listen(&self, rt: &impl Wait) -> Result<Heard, AllocError> {
        let (bell, heard) = OneShotBell::pair(self.alloc)?;
        let mut bells = self.bells.lock(rt);
        bells.retain(|bell| !bell.has_no_hearer());
        bells.push(bell).map_err(AllocError::from)?;
        self.is_awaited.store(true, SeqCst);
        Ok(heard)
    }

    /// Takes out all bells.
    fn take_bells(&self, rt: &impl Wait) -> Vec<OneShotBell> {
        let mut bells = self.bells.lock(rt);
        self.is_awaited.store(false, SeqCst);
        mem::replace(&mut *bells, Vec::new(self.alloc))
    }

    /// Rings all bells. They ring after the lock is released.
    pub(crate) fn wake(&self, rt: &impl Wait) {
        if !self.is_awaited.load(SeqCst) {
            return;
        }
        for bell in self.take_bells(rt) {
            bell.ring();
        }
    }
}
