//! What a service has to say while it runs.

ghost use Rattle.std.specs.Prelude.{◌≡◌};
ghost use Rattle.http_front.specs.Notices.{room_left};

use long_poll::Rejections;
use std::sync::Arc;
use std::sync::atomic::AtomicU64;
use std::sync::atomic::Ordering::SeqCst;

/// The room left in a journal.
#[derive(Clone, Copy, Debug, PartialEq, Eq, PartialOrd, Ord, Drop)]
pub enum Room {
    /// Enough.
    Ample,
    /// Nine tenths of the entries are used.
    Short,
    /// The journal takes no call but a Stop.
    Full,
}

/// Returns the room left in a journal that has `entries` of at most `most` entries. Each step may
/// take `step` entries: one for each environment that expires, and one for the call.
fn room_left(entries: u64, most: u64, step: u32) -> Room
    ensures { result ≡ room_left entries most step }
{
    if most.saturating_sub(entries) < 2 * u64::from(step) {
        Room::Full
    } else if most - most / 10 <= entries {
        Room::Short
    } else {
        Room::Ample
    }
}

/// What a service has to say while it runs, for a log that another thread writes, so that the
/// service does not wait for the log's reader.
#[derive(Drop)]
pub struct Notices {
    most: u64,
    step: u32,
    entries: AtomicU64,
    /// The requests that are rejected. Their alarm rings when the room has changed, too.
    pub rejections: Arc<Rejections>,
}

impl Notices {
    /// Makes the notices of an empty journal that holds at most `most` entries, of which a step
    /// takes at most `step`, and of these rejected requests.
    pub(crate) fn new(most: u64, step: u32, rejections: Arc<Rejections>) -> Notices {
        Notices {
            most,
            step,
            entries: AtomicU64::new(0),
            rejections,
        }
    }

    /// Notes how many entries there are. Rings if the room has changed.
    pub(crate) fn note(&self, entries: u64) {
        let before = self.room();
        self.entries.store(entries, SeqCst);
        if self.room() > before {
            self.rejections.alarm.ring();
        }
    }

    /// Returns the room that the journal had at the last check. If a step was made meanwhile, that
    /// was up to 50 milliseconds ago.
    pub fn room(&self) -> Room {
        room_left(self.entries.load(SeqCst), self.most, self.step)
    }
}
