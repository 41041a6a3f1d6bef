//! The machine's clock.

use crate::course::Course;
use long_poll::ClockFace;
use std::sync::atomic::Ordering::SeqCst;
use std::sync::atomic::{AtomicBool, AtomicU64};
use std::sync::{Mutex, Wait};
use std::time::{self, Duration};

/// The machine's clock, as the server reads it: in Unix milliseconds, the unit of the deadlines in
/// the Runtime API. It reads the time of day once, when it is made, and advances from there by the
/// machine's monotonic clock, which no one can set: so no deadline comes early or late. The
/// monotonic clock does not advance while the machine sleeps, so this clock may be set forward to
/// the time of day while no deadline is running. It never goes back: if the time of day is set
/// back, it stays ahead. It may be paused, and moved forward.
///
/// Its course is set under a lock, and read without one. A change makes the number of changes odd,
/// then reads the machine's clock, then shows the new course, and makes the number even again. A
/// reading that finds the same even number before and after is of one course, which was in force
/// while the machine's clock was read: so it lies between what the clock showed when the reading
/// began and what it showed when that ended, and a change that comes later reads the machine's
/// clock later. Any other reading is made under the lock. So readings never go back, whichever
/// changes and readings come at once, and those of a paused clock are equal.
#[derive(Drop)]
pub struct UnixClock<R> {
    rt: R,
    // The readings of the two clocks when this clock was made.
    since_1970: Duration,
    monotonic: Duration,
    course: Mutex<Course>,
    // The same course, for those who read it without the lock, and how often it began or ended to
    // change.
    changes: AtomicU64,
    at: AtomicU64,
    from: AtomicU64,
    is_running: AtomicBool,
}

/// Returns a duration in milliseconds. (The library's `as_millis` takes more steps, since its result
/// has 128 bits.)
fn millis(time: Duration) -> u64 {
    time.as_secs()
        .saturating_mul(1_000)
        .saturating_add(u64::from(time.subsec_millis()))
}

impl<R: time::Clock> UnixClock<R> {
    /// Makes the clock of this machine, from now on. A clock that fails counts as one that reads 0.
    pub fn new(rt: R) -> UnixClock<R> {
        let since_1970 = rt.since_1970().unwrap_or(Duration::ZERO);
        let monotonic = rt.monotonic().unwrap_or(Duration::ZERO);
        let course = Course::new(millis(since_1970));
        UnixClock {
            rt,
            since_1970,
            monotonic,
            course: Mutex::new(course),
            changes: AtomicU64::new(0),
            at: AtomicU64::new(course.at),
            from: AtomicU64::new(course.from),
            is_running: AtomicBool::new(course.is_running),
        }
    }

    /// Returns the milliseconds since 1970 by the machine's monotonic clock. If that fails, the
    /// clock reads what it read when it was last set, which counts as the last moment.
    fn counted(&self) -> u64 {
        match self.rt.monotonic() {
            Ok(monotonic) => {
                let elapsed = monotonic.saturating_sub(self.monotonic);
                millis(self.since_1970.saturating_add(elapsed))
            }
            Err(_fault) => 0,
        }
    }

    /// Begins a change of the course, which is locked. Returns what is counted then.
    fn begin_change(&self) -> u64 {
        self.changes.fetch_add(1, SeqCst);
        self.counted()
    }

    /// Shows the course to those who read it without the lock, and ends the change.
    fn end_change(&self, course: Course) {
        self.at.store(course.at, SeqCst);
        self.from.store(course.from, SeqCst);
        self.is_running.store(course.is_running, SeqCst);
        self.changes.fetch_add(1, SeqCst);
    }

    /// Returns the course that is shown. While it changes, it may be part of one and part of
    /// another.
    fn shown(&self) -> Course {
        Course {
            at: self.at.load(SeqCst),
            from: self.from.load(SeqCst),
            is_running: self.is_running.load(SeqCst),
        }
    }
}

impl<R: time::Clock + Wait> UnixClock<R> {
    /// Returns the reading, under the lock.
    fn locked_reading(&self) -> u64 {
        let course = self.course.lock(&self.rt);
        course.reading(self.counted())
    }
}

impl<R: time::Clock + Wait> long_poll::Clock for UnixClock<R> {
    /// Returns the reading of the clock.
    fn now(&self) -> u64 {
        let changes = self.changes.load(SeqCst);
        let course = self.shown();
        let counted = self.counted();
        if changes % 2 == 0 && self.changes.load(SeqCst) == changes {
            return course.reading(counted);
        }
        self.locked_reading()
    }

    fn lag(&self) -> u64 {
        let course = self.course.lock(&self.rt);
        if !course.is_running {
            return 0;
        }
        match self.rt.since_1970() {
            Ok(since_1970) => millis(since_1970).saturating_sub(course.reading(self.counted())),
            Err(_fault) => 0,
        }
    }

    fn set_forward(&self, by: u64) {
        let mut course = self.course.lock(&self.rt);
        let _counted = self.begin_change();
        *course = course.set_forward(by);
        self.end_change(*course);
    }

    fn face(&self) -> ClockFace {
        let course = self.course.lock(&self.rt);
        course.face(self.counted())
    }

    fn pause(&self) -> ClockFace {
        let mut course = self.course.lock(&self.rt);
        let counted = self.begin_change();
        let paused = course.paused(counted);
        *course = paused;
        self.end_change(paused);
        paused.face(counted)
    }

    fn resume(&self) -> ClockFace {
        let mut course = self.course.lock(&self.rt);
        let counted = self.begin_change();
        let resumed = course.resumed(counted);
        *course = resumed;
        self.end_change(resumed);
        resumed.face(counted)
    }

    fn advance(&self, by: u64) -> Option<ClockFace> {
        let mut course = self.course.lock(&self.rt);
        let counted = self.begin_change();
        let before = *course;
        match before.advanced(by, counted) {
            Some(ahead) => {
                *course = ahead;
                self.end_change(ahead);
                Some(ahead.face(counted))
            }
            None => {
                self.end_change(before);
                None
            }
        }
    }
}
