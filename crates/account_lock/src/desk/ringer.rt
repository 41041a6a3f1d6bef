//! Who rings the bells of a step, and when.

use crate::{Bell, Rings};
use std::sync::Wait;

/// Rings the bells of a step after the account's lock is released: at once, or once the caller that made the step has
/// written its own answer. Those whom they wake would otherwise take the processor from it.
pub trait Ringer<B>: Drop {
    /// Takes the bells of a step.
    fn take<R: Wait>(&self, rt: &R, rings: Rings<B>);
}

/// Rings the bells of a step at once.
#[derive(Clone, Copy, Debug)]
pub struct AtOnce;

impl<B: Bell> Ringer<B> for AtOnce {
    fn take<R: Wait>(&self, _rt: &R, rings: Rings<B>) {
        rings.ring();
    }
}
