//! Limits of sizes and numbers.

/// How many bytes a payload, an output or a report may have (Lambda quotas: invocation payload).
pub const LONGEST_BODY: usize = 6_291_456;

/// The greatest moment that an account takes, in milliseconds: the greatest number that JSON carries
/// exactly (RFC 8259, section 6).
pub const GREATEST_MOMENT: u64 = (1 << 53) - 1;

/// How many environments an account has at most, over all its functions.
pub const MOST_ENVIRONMENTS: usize = 256;

/// How many extensions a function expects at most, and how many can register in one generation of
/// an environment (Lambda quotas: extensions).
pub const MOST_EXTENSIONS: usize = 10;

/// The length of the longest trace, in bytes.
pub const LONGEST_TRACE: usize = 256;

/// The greatest count in an identifier.
pub const GREATEST_COUNT: u64 = (1 << 48) - 1;
