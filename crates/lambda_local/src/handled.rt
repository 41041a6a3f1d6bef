//! Further ports, all of whose requests are handed over to handlers.

use crate::setting_fault::SettingFault;
use service_port::HandledPorts;
use std::alloc::AllocError;
use std::env::{self, Env, VarError};

/// The environment variable that lists them.
const NAME: &str = "LAMBDA_LOCAL_HANDLED";

/// Reads the further ports. The environment variable lists them: up to 64 decimal numbers from 1 to
/// 65,535, without leading zeros, each once, separated by commas. If it is empty or absent, there are
/// none.
///
/// # Errors
/// `Malformed` if it is not such a list, otherwise `OutOfMemory`.
pub fn read_handled<R: Env + AllocGlobal>(rt: &R) -> Result<HandledPorts, SettingFault> {
    match env::var(rt, NAME) {
        Ok(text) => match HandledPorts::read(rt.alloc(), text.as_str()) {
            Ok(Some(ports)) => Ok(ports),
            Ok(None) => Err(SettingFault::Malformed),
            Err(AllocError) => Err(SettingFault::OutOfMemory),
        },
        Err(VarError::NotPresent) => Ok(HandledPorts::none(rt.alloc())),
        Err(VarError::NotUnicode) => Err(SettingFault::Malformed),
        Err(VarError::OutOfMemory) => Err(SettingFault::OutOfMemory),
    }
}
