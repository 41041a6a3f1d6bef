//! The bells that ring after a connection's turn.

use crate::OneShotBell;
use account_lock::{Bell, Ringer, Rings};
use std::mem;
use std::sync::{Mutex, Wait};

/// The bells of a connection's last step, which ring once its turn is over: by then its own response is written, as far
/// as its peer takes it. Whoever is woken earlier competes with that response for a processor.
#[derive(Drop)]
pub struct LateBells {
    held: Mutex<Option<Rings<OneShotBell>>>,
}

impl LateBells {
    /// Makes a place that holds no bells. It allocates nothing.
    pub fn new() -> LateBells {
        LateBells {
            held: Mutex::new(None),
        }
    }

    /// Rings the bells that are held.
    pub fn ring(&self, rt: &impl Wait) {
        let held = mem::replace(&mut *self.held.lock(rt), None);
        if let Some(rings) = held {
            rings.ring();
        }
    }
}

impl Ringer<OneShotBell> for LateBells {
    /// Rings the last bell of a step, holds the others, and rings those of a step before. If the step has answered its own
    /// call, the last bell is that call's: the connection hears it in this same turn, and goes on to write its answer. If
    /// not, the connection has none to write yet.
    fn take<R: Wait>(&self, rt: &R, mut rings: Rings<OneShotBell>) {
        if let Some(last) = rings.take_last() {
            last.ring();
        }
        if rings.is_empty() {
            return;
        }
        let before = mem::replace(&mut *self.held.lock(rt), Some(rings));
        if let Some(rings) = before {
            rings.ring();
        }
    }
}
