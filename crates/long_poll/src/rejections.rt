//! The requests that are rejected, as the connections of a service count them for its log.

mod board;
mod rejection;

use crate::Alarm;
use board::Board;
use http::request::Parts;
use percent_encoding::{CONTROLS, percent_encode};
pub use rejection::{Cause, Kind, Told};
use std::alloc::{AllocError, Global};
use std::sync::atomic::AtomicBool;
use std::sync::atomic::Ordering::SeqCst;
use std::sync::{Mutex, Wait};

/// How many bytes of a target, and of what a response says, are shown at most.
const MOST_SHOWN: usize = 200;

/// The first bytes of a text.
fn beginning(text: &[u8]) -> &[u8] {
    &text[..text.len().min(MOST_SHOWN)]
}

/// Returns the words for a request: its method, its target and the number of its port, and what its response says of
/// it, if that is shown. (All of these are escaped: they are the client's.)
fn words_for(
    alloc: Global,
    parts: &Parts,
    port: u16,
    why: Option<&[u8]>,
) -> Result<String, AllocError> {
    let mut words = String::new(alloc);
    percent_encode(beginning(parts.method.as_str().as_bytes()), CONTROLS).append_to(&mut words)?;
    words.push_str(" ")?;
    percent_encode(beginning(parts.uri.path().as_bytes()), CONTROLS).append_to(&mut words)?;
    if let Some(query) = parts.uri.query() {
        words.push_str("?")?;
        percent_encode(beginning(query.as_bytes()), CONTROLS).append_to(&mut words)?;
    }
    let at = format!(in alloc; " at port {port}")?;
    words.push_str(at.as_str())?;
    if let Some(why) = why {
        words.push_str(", ")?;
        percent_encode(beginning(why), CONTROLS).append_to(&mut words)?;
    }
    Ok(words)
}

/// The requests that are rejected before they are calls, counted by kind. The threads of all connections share them. A
/// request that is not rejected costs nothing here; one that is, a lock and a count, and nothing if no one is told.
#[derive(Drop)]
pub struct Rejections {
    alloc: Global,
    // Whether someone is told.
    is_told: AtomicBool,
    board: Mutex<Board>,
    /// Rings when something is to be told, and nothing was before.
    pub alarm: Alarm,
}

impl Rejections {
    /// Makes it, with no request seen and no one to be told. It allocates nothing.
    pub(crate) fn new(alloc: Global) -> Rejections {
        Rejections {
            alloc,
            is_told: AtomicBool::new(false),
            board: Mutex::new(Board::new(alloc)),
            alarm: Alarm::new(),
        }
    }

    /// Counts the requests from now on.
    pub fn begin(&self) {
        self.is_told.store(true, SeqCst);
    }

    /// Counts a request of this kind, which came to the port with this number; its head, unless it has none, and what
    /// its response says of it are kept of the first one of its kind. If an allocation fails for that, it is not
    /// counted.
    pub fn note(
        &self,
        rt: &impl Wait,
        kind: Kind,
        port: u16,
        head: Option<&Parts>,
        why: Option<&[u8]>,
    ) {
        if !self.is_told.load(SeqCst) {
            return;
        }
        let mut board = self.board.lock(rt);
        let is_first = match board.count(kind) {
            Some(is_first) => is_first,
            None => {
                let first = match head {
                    Some(parts) => words_for(self.alloc, parts, port, why),
                    None => format!(in self.alloc; "port {port}"),
                };
                board.begin(kind, first.ok()).is_ok()
            }
        };
        if is_first {
            self.alarm.ring();
        }
    }

    /// Takes what is to be told of a kind: of one of which nothing was told yet, or of any one if `all` is true.
    pub fn take(&self, rt: &impl Wait, all: bool) -> Option<Told> {
        let mut board = self.board.lock(rt);
        board.take(all)
    }

    /// Returns whether something is to be told.
    pub fn waits(&self, rt: &impl Wait) -> bool {
        let board = self.board.lock(rt);
        board.waits()
    }
}
