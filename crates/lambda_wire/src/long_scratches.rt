//! The scratch memory of long payloads, which all connections share.

use json::Scratch;
use std::alloc::{AllocError, Global};
use std::sync::Mutex;

/// How many are kept: of more, few would be in use at the same moment.
const MOST_KEPT: usize = 4;

/// The scratch memory of long payloads: it stays, since to clear new memory costs as much as a third of
/// the check, and connections share it, since each would keep as much as its longest payload. Nobody
/// waits for it: who finds none takes new memory. Its contents never change an answer.
#[derive(Drop)]
pub struct LongScratches {
    kept: Mutex<Vec<Box<Scratch>>>,
}

impl LongScratches {
    /// Keeps none yet. It takes no memory.
    pub fn new(alloc: Global) -> LongScratches {
        LongScratches {
            kept: Mutex::new(Vec::new(alloc)),
        }
    }

    /// Takes one out, if one is kept.
    pub(crate) fn take(&self) -> Option<Box<Scratch>> {
        let mut kept = self.kept.try_lock()?;
        kept.pop()
    }

    /// Keeps one for the next long payload, unless there are enough of them.
    pub(crate) fn keep(&self, scratch: Box<Scratch>) {
        let Some(mut kept) = self.kept.try_lock() else {
            return;
        };
        if kept.len() < MOST_KEPT {
            let _ = kept.push(scratch);
        }
    }
}
