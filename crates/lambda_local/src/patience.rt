//! How long a premature Invoke is held back: one that comes just before its environment is ready.

ghost use Rattle.std.specs.Prelude.{◌≤◌, IfSome};

use crate::setting_fault::SettingFault;
use std::env::{self, Env, VarError};

/// The environment variable with the number of milliseconds.
const NAME: &str = "LAMBDA_LOCAL_PATIENCE_MS";

/// The number if the variable is absent.
const USUAL: u32 = 100;

/// The greatest number.
const MOST: u32 = 2_000;

/// Reads a number of milliseconds up to the greatest one.
fn patience_of(text: &str) -> Option<u32>
    ensures { IfSome result (λ patience. patience ≤ 2000) }
{
    match text.parse::<u32>() {
        Ok(patience) if patience <= MOST => Some(patience),
        _ => None,
    }
}

/// Reads the most milliseconds for which a premature Invoke is held back: the environment
/// variable's number, from 0 (not at all) to 2,000, or 100 if it is absent.
///
/// # Errors
/// `Malformed` if it is not such a number, otherwise `OutOfMemory`.
pub fn read_patience<R: Env + AllocGlobal>(rt: &R) -> Result<u32, SettingFault> {
    match env::var(rt, NAME) {
        Ok(text) => patience_of(text.as_str()).ok_or(SettingFault::Malformed),
        Err(VarError::NotPresent) => Ok(USUAL),
        Err(VarError::NotUnicode) => Err(SettingFault::Malformed),
        Err(VarError::OutOfMemory) => Err(SettingFault::OutOfMemory),
    }
}
