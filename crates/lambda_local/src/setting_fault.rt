//! Why an environment variable cannot be used.

/// Why a setting was not read.
#[derive(Clone, Copy, Debug, PartialEq, Eq)]
pub enum SettingFault {
    /// The variable's value is malformed.
    Malformed,
    /// An allocation failed.
    OutOfMemory,
}
