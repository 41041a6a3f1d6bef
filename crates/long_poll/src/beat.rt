//! What is told after each step: how the ticker rests while nothing happens, and who follows the history.

mod alarm;
mod followers;

pub use alarm::Alarm;
pub(crate) use followers::FollowerPlace;
use followers::Followers;
use std::alloc::Global;
use std::sync::atomic::AtomicBool;
use std::sync::atomic::Ordering::SeqCst;
use std::sync::{Arc, Mutex, Wait};
use std::time::Duration;

/// How long a thread waits at most for the ticker to have looked.
const FOR_LOOK_MS: u64 = 100;

/// What the ticker and the threads of the connections tell each other. While the ticker rests, each
/// step rings for it: a thread makes its step and then looks whether the ticker rests; the ticker
/// first says that it rests, and then looks whether a step was made. So whichever comes first, the
/// ticker notices the step.
#[derive(Drop)]
pub struct Beat {
    is_over: AtomicBool,
    // Whether the ticker rests.
    rests: AtomicBool,
    // Whether a stop was asked for: each step may be the last one.
    is_stopping: AtomicBool,
    // Rung for the ticker.
    pub alarm: Arc<Alarm>,
    // Rung by the ticker once it has looked.
    looked: Alarm,
    // Who follows the history, and is woken after each step.
    pub(crate) followers: Followers,
    /// Held while the clock is set for a request, until what is then due has expired; and by the ticker while it
    /// looks. So the ticker's look is before or after that, as a whole: it never catches up with the time of day in a
    /// clock that is paused meanwhile, and lets nothing expire that the request is about to. Whoever holds it may lock
    /// an account; no account is locked when it is taken.
    pub setting: Mutex<()>,
}

impl Beat {
    /// Makes the beat of a service that is not over, whose ticker this alarm wakes. It allocates nothing.
    pub fn new(alloc: Global, alarm: Arc<Alarm>) -> Beat {
        Beat {
            is_over: AtomicBool::new(false),
            rests: AtomicBool::new(false),
            is_stopping: AtomicBool::new(false),
            alarm,
            looked: Alarm::new(),
            followers: Followers::new(alloc),
            setting: Mutex::new(()),
        }
    }

    /// Returns whether the service is over.
    pub fn is_over(&self) -> bool {
        self.is_over.load(SeqCst)
    }

    /// Notes that the service is over, and wakes the ticker and those who follow the history.
    pub fn end(&self, rt: &impl Wait) {
        self.is_over.store(true, SeqCst);
        self.alarm.ring();
        self.followers.wake(rt);
    }

    /// Notes that a stop was asked for: from now on each step wakes the ticker.
    pub fn note_stop(&self) {
        self.is_stopping.store(true, SeqCst);
    }

    /// Returns whether the ticker rests.
    pub fn rests(&self) -> bool {
        self.rests.load(SeqCst)
    }

    /// Wakes the ticker if it rests, or if the service may have come to its end, and those who follow the
    /// history. It is called after each step.
    pub fn note_step(&self, rt: &impl Wait) {
        if self.rests() || self.is_stopping.load(SeqCst) {
            self.alarm.ring();
        }
        self.followers.wake(rt);
    }

    /// Wakes those who follow the history, after a step of the ticker itself.
    pub fn note_own_step(&self, rt: &impl Wait) {
        self.followers.wake(rt);
    }

    /// Wakes the ticker after the clock was set: what it waits for may come at another time.
    pub fn note_clock(&self) {
        self.alarm.ring();
    }

    /// Wakes the ticker, and waits until it has looked.
    pub fn await_look(&self, rt: &impl Wait) {
        let seen = self.looked.count();
        self.alarm.ring();
        self.looked
            .sleep(rt, seen, Duration::from_millis(FOR_LOOK_MS));
    }

    /// Returns how often the ticker was woken so far.
    pub fn count(&self) -> u64 {
        self.alarm.count()
    }

    /// Notes that the ticker rests from now on.
    pub fn begin_rest(&self) {
        self.rests.store(true, SeqCst);
    }

    /// Lets the ticker sleep for this long, or until it is woken, unless it has been woken since it
    /// was woken `seen` times. It does not rest any more then.
    pub fn sleep(&self, rt: &impl Wait, seen: u64, time: Duration) {
        self.alarm.sleep(rt, seen, time);
        self.rests.store(false, SeqCst);
    }

    /// Notes that the ticker has looked.
    pub fn note_look(&self) {
        self.looked.ring();
    }
}
