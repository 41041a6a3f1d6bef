//! The hosts that the service answers for in addition to the local ones.

use crate::setting_fault::SettingFault;
use request_guard::KnownHosts;
use std::env::{self, Env, VarError};

/// The environment variable that lists them.
const NAME: &str = "LAMBDA_LOCAL_HOSTS";

/// Reads the hosts that the service answers for in addition to the local ones. The environment
/// variable lists them: names of letters, digits, `-`, `.` and `_`, separated by commas. If it is
/// empty or absent, there are none.
///
/// # Errors
/// `Malformed` if it is not such a list, otherwise `OutOfMemory`.
pub fn read_hosts<R: Env + AllocGlobal>(rt: &R) -> Result<KnownHosts, SettingFault> {
    match env::var(rt, NAME) {
        Ok(text) => KnownHosts::read(text).ok_or(SettingFault::Malformed),
        Err(VarError::NotPresent) => Ok(KnownHosts::none(rt.alloc())),
        Err(VarError::NotUnicode) => Err(SettingFault::Malformed),
        Err(VarError::OutOfMemory) => Err(SettingFault::OutOfMemory),
    }
}
