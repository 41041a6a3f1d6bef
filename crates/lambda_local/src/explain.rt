//! Where the fault of a configuration is.

ghost use Rattle.std.specs.Prelude.{IfOk, IfSome};
ghost use Rattle.lambda_local.specs.Explaining.{Explains, IsPlaceIn, IsPlaceOfEntries};

use crate::configuration::read_setup;
use crate::serve_fault::ServeFault;
use account_book::{Book, OpenFault};
use arn_ids::{Checked, ConfigFault, FaultPlace};
use lambda_wire::Setup;
use std::alloc::{AllocError, Global};
use std::io::Read;
use std::sync::Arc;

/// Returns the place of `maxEntries` if no history can be opened with it.
fn place_of_entries(
    alloc: Global,
    config: Checked,
    salt: u64,
    max_entries: u64,
) -> Result<Option<FaultPlace>, AllocError>
    ensures { IfOk result
        (IsPlaceOfEntries (record { config = config; salt = salt; max_entries = max_entries })) }
{
    let config = Arc::new(alloc, config).map_err(AllocError::from)?;
    match Book::open(alloc, config, salt, max_entries) {
        Ok(_) => Ok(None),
        Err(OpenFault::EntriesOutOfRange) => Ok(Some(FaultPlace {
            fault: ConfigFault::EntriesOutOfRange,
            functions: 0,
        })),
        Err(OpenFault::OutOfMemory) => Err(AllocError),
    }
}

/// Returns the place of the fault for which a setup is refused; `None` if it is not refused.
fn place_in(alloc: Global, setup: Setup) -> Result<Option<FaultPlace>, AllocError>
    ensures { IfOk result (IsPlaceIn setup) }
{
    match setup.config.check() {
        Ok(config) => place_of_entries(alloc, config, setup.salt, setup.max_entries),
        Err(place) => Ok(Some(place)),
    }
}

/// Reads a configuration, and returns the place of its first fault; `None` if it has no fault.
///
/// # Errors
/// `Wire` if this is not a configuration, otherwise `Read` or `OutOfMemory`.
pub fn explain<R: Read + Drop>(alloc: Global, reader: R) -> Result<Option<FaultPlace>, ServeFault>
    ensures { IfSome (R.remaining reader) (λ input. Explains input result) }
{
    let setup = read_setup(alloc, reader)?;
    Ok(place_in(alloc, setup)?)
}
