//! A place of connections, as its thread sees it.

use crate::mailbox::Mailbox;
use std::alloc::{AllocError, Global};
use std::sync::{Arc, Condvar, Mutex, Wait};
use std::thread::{JoinHandle, Threads};
use std::time::{Clock, Duration};

/// How many seconds a thread waits for its next connection before it ends.
const KEPT: u64 = 10;

/// What threads and the keeper of the places tell each other.
#[derive(Drop)]
struct Notes {
    // The places whose connections have ended.
    ends: Vec<usize>,
    // Whether the keeper waits for the next one.
    is_awaited: bool,
}

/// The connections that have ended, and the wait for the next one.
#[derive(Drop)]
pub(crate) struct Ended {
    notes: Mutex<Notes>,
    noted: Condvar,
}

impl Ended {
    /// Makes it, without a connection. It allocates nothing.
    pub(crate) fn new(alloc: Global) -> Ended {
        let notes = Notes {
            ends: Vec::new(alloc),
            is_awaited: false,
        };
        Ended {
            notes: Mutex::new(notes),
            noted: Condvar::new(),
        }
    }

    /// Makes room for the notes of `count` places.
    pub(crate) fn reserve(&self, rt: &impl Wait, count: usize) -> Result<(), AllocError> {
        self.notes.lock(rt).ends.reserve(count)
    }

    /// Notes that a connection has ended, and wakes the keeper if it waits for that. (There is room for
    /// the note.)
    fn push(&self, rt: &impl Wait, at: usize) {
        let mut notes = self.notes.lock(rt);
        let _ = notes.ends.push(at);
        let is_awaited = notes.is_awaited;
        drop(notes);
        if is_awaited {
            self.noted.notify_one();
        }
    }

    /// Takes out the note of a connection that has ended, which is its place.
    pub(crate) fn pop(&self, rt: &impl Wait) -> Option<usize> {
        self.notes.lock(rt).ends.pop()
    }

    /// Waits until there is a note, for up to this time.
    pub(crate) fn wait<R: Wait + Clock>(&self, rt: &R, time: Duration) {
        let mut notes = self.notes.lock(rt);
        notes.is_awaited = true;
        let (mut notes, _) = self
            .noted
            .wait_timeout_while(rt, notes, time, |notes| notes.ends.is_empty());
        notes.is_awaited = false;
    }
}

/// What the thread of a place knows of it: its number, the tally of its connections, the mailbox
/// into which the next one is put, and the list in which the thread notes that one has ended.
#[derive(Drop)]
pub struct Post<Y, V> {
    pub(crate) at: usize,
    /// The tally of the connections of its place.
    pub tally: Arc<Mutex<Y>>,
    /// The mailbox from which the next connection comes.
    pub mailbox: Arc<Mailbox<V>>,
    pub(crate) ended: Arc<Ended>,
}

impl<Y, V: Drop> Post<Y, V> {
    /// Notes that the connection of the place has ended, and waits for the next one. If it returns
    /// `None`, the thread has to end.
    pub fn next<R: Wait + Clock>(&self, rt: &R) -> Option<V> {
        self.ended.push(rt, self.at);
        self.mailbox.take(rt, Duration::from_secs(KEPT))
    }

    /// Notes that the connection of the place has ended, and that the thread leaves.
    pub fn leave(&self, rt: &impl Wait) {
        self.mailbox.close(rt);
        self.ended.push(rt, self.at);
    }
}

/// The thread of a place, and its mailbox.
#[derive(Drop)]
pub struct WorkerThread<V> {
    /// The handle of the thread.
    pub thread: JoinHandle<()>,
    /// The mailbox into which its next connection is put.
    pub mailbox: Arc<Mailbox<V>>,
}

impl<V: Drop> WorkerThread<V> {
    /// Joins the thread.
    pub(crate) fn join(self, rt: &impl Threads) {
        let WorkerThread { thread, .. } = self;
        thread.join(rt);
    }
}
