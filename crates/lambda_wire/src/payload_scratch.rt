//! The scratch memory in which payloads are read.

use crate::long_scratches::LongScratches;
use json::Scratch;
use std::alloc::{AllocError, Global};
use std::sync::Arc;

/// The length of the longest payload whose scratch memory a connection keeps: 1 MiB. A longer one is rare,
/// and its memory would stay with each connection that once carried one.
const LONGEST_OF_ITS_OWN: usize = 1_048_576;

/// The scratch memory in which `read_invoke_body` reads, kept from one payload to the next. It is empty
/// at first, and its contents never change an answer.
#[derive(Drop)]
pub struct PayloadScratch {
    kept: Option<Box<Scratch>>,
    shared: Option<Arc<LongScratches>>,
}

impl PayloadScratch {
    /// Returns an empty scratch. It takes no memory.
    pub fn new() -> PayloadScratch {
        PayloadScratch {
            kept: None,
            shared: None,
        }
    }

    /// Returns an empty scratch that reads long payloads in shared memory. It takes no memory.
    pub fn sharing(shared: Arc<LongScratches>) -> PayloadScratch {
        PayloadScratch {
            kept: None,
            shared: Some(shared),
        }
    }

    /// Takes the memory that is kept for a payload of this length, if there is any.
    fn kept(&mut self, length: usize) -> Option<Box<Scratch>> {
        if length <= LONGEST_OF_ITS_OWN {
            return self.kept.take();
        }
        match &self.shared {
            Some(shared) => shared.take(),
            None => None,
        }
    }

    /// Takes out the scratch memory for a payload of this length, or new memory if none is kept; `keep` puts
    /// it back. The only error is lack of memory.
    pub(crate) fn take(
        &mut self,
        alloc: Global,
        length: usize,
    ) -> Result<Box<Scratch>, AllocError> {
        match self.kept(length) {
            Some(scratch) => Ok(scratch),
            None => Ok(Box::new(alloc, Scratch::new(alloc))?),
        }
    }

    /// Keeps the memory for the next payload: that of a long one only if it is shared.
    pub(crate) fn keep(&mut self, scratch: Box<Scratch>, length: usize) {
        if length <= LONGEST_OF_ITS_OWN {
            self.kept = Some(scratch);
        } else if let Some(shared) = &self.shared {
            shared.keep(scratch);
        }
    }
}

impl Default for PayloadScratch {
    fn default() -> PayloadScratch {
        PayloadScratch::new()
    }
}
