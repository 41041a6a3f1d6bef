//! The log of a service, on a thread of its own.

use crate::rejected::tell_rejected;
use http_front::{Alarm, Machine, Notices, Room};
use log::{Level, Log, info, log_enabled, warn};
use std::alloc::AllocError;
use std::sync::atomic::AtomicBool;
use std::sync::atomic::Ordering::SeqCst;
use std::sync::{Arc, Wait};
use std::thread::{self, JoinHandle};
use std::time::{self, Duration, Instant};

/// How long the log's thread sleeps at most if there is nothing to say.
const REST_S: u64 = 3_600;

/// The shortest time between two looks at all requests that were rejected. (The first of a kind is told at once.)
const BETWEEN_COUNTS_S: u64 = 60;

/// How long the service waits for the last line.
const FOR_LAST_LINE_S: u64 = 1;

/// The notes that the service and its log's thread leave for each other.
#[derive(Drop)]
struct Progress {
    // Whether the service is over.
    is_over: AtomicBool,
    // Whether the last line was written, and what then rings.
    has_ended: AtomicBool,
    ended: Alarm,
}

/// Logs how much room the journal has left.
fn warn_of<R: Log>(rt: &R, room: Room) {
    match room {
        Room::Ample => {}
        Room::Short => {
            warn!(rt; "nine tenths of the history's entries (maxEntries) are used");
        }
        Room::Full => warn!(rt; "the history is full (maxEntries): calls are refused"),
    }
}

/// Returns how long it is until all rejected requests are told again, by the monotonic clock; no time if that is now.
fn until_counts<R: time::Clock>(rt: &R, told: Option<Instant>) -> Duration {
    let Some(told) = told else {
        return Duration::ZERO;
    };
    match told.elapsed(rt) {
        Ok(elapsed) => Duration::from_secs(BETWEEN_COUNTS_S).saturating_sub(elapsed),
        Err(_) => Duration::from_secs(BETWEEN_COUNTS_S),
    }
}

/// Logs the requests that were rejected: the first of each kind at once, how many followed them once a minute, of which
/// `told` is the last time, at the end without it. Returns how long the log's thread then sleeps at most.
fn tell_of<R: Log + Wait + time::Clock>(
    rt: &R,
    notices: &Notices,
    told: &mut Option<Instant>,
) -> Duration {
    let rejections = &*notices.rejections;
    if !rejections.waits(rt) {
        return Duration::from_secs(REST_S);
    }
    let left = until_counts(rt, *told);
    let all = left.is_zero();
    tell_rejected(rt, rejections, all);
    if all {
        *told = Instant::now(rt).ok();
        Duration::from_secs(REST_S)
    } else {
        left
    }
}

/// Writes the log of a service until the service is over. Each warning is logged once.
fn write<R: Log + Wait + time::Clock>(rt: &R, notices: &Notices, progress: &Progress) {
    if log_enabled!(rt; Level::Info) {
        notices.rejections.begin();
    }
    info!(rt; "listening");
    let alarm = &notices.rejections.alarm;
    let mut said = Room::Ample;
    let mut told = None;
    for _ in rt.forever() {
        let seen = alarm.count();
        let room = notices.room();
        if room > said {
            said = room;
            warn_of(rt, room);
        }
        let is_over = progress.is_over.load(SeqCst);
        if is_over {
            told = None;
        }
        let rest = tell_of(rt, notices, &mut told);
        if is_over {
            info!(rt; "stopped");
            progress.has_ended.store(true, SeqCst);
            progress.ended.ring();
            return;
        }
        alarm.sleep(rt, seen, rest);
    }
    unreachable!()
}

/// Writes the log of a service while the service runs. A write to a pipe that is not read blocks,
/// so the log has a thread of its own: the service waits for it only at its end, and then for a
/// second at most.
#[derive(Drop)]
pub struct LogWriter {
    notices: Arc<Notices>,
    progress: Arc<Progress>,
    thread: JoinHandle<()>,
}

impl LogWriter {
    /// Starts the thread, which logs that the service listens, and then what its notices say.
    ///
    /// # Errors
    /// If an allocation fails, or a thread is refused.
    pub fn start<R: Machine + Log>(rt: R, notices: Arc<Notices>) -> Result<LogWriter, AllocError> {
        let progress = Progress {
            is_over: AtomicBool::new(false),
            has_ended: AtomicBool::new(false),
            ended: Alarm::new(),
        };
        let progress = Arc::new(rt.alloc(), progress).map_err(AllocError::from)?;
        let told = Arc::try_clone(&progress)?;
        let read = Arc::try_clone(&notices)?;
        let thread = thread::spawn(&rt, move || write(&rt, &read, &told))?;
        Ok(LogWriter {
            notices,
            progress,
            thread,
        })
    }

    /// Lets the thread log that the service has stopped, and waits until it has, for up to a
    /// second: its output may not be read.
    pub fn finish<R: Machine>(self, rt: &R) {
        let LogWriter {
            notices,
            progress,
            thread,
        } = self;
        let seen = progress.ended.count();
        progress.is_over.store(true, SeqCst);
        notices.rejections.alarm.ring();
        if !progress.has_ended.load(SeqCst) {
            progress
                .ended
                .sleep(rt, seen, Duration::from_secs(FOR_LAST_LINE_S));
        }
        if progress.has_ended.load(SeqCst) {
            thread.join(rt);
        }
    }
}
