//! The text of a configuration.

ghost use Rattle.std.specs.Prelude.{◌≡◌, take, IfErr, IfOk, IfSome};
ghost use Rattle.lambda_local.specs.Explaining.{IsOfReading, IsSetupOf};

use crate::serve_fault::ServeFault;
use lambda_wire::{Setup, read_config};
use std::alloc::Global;
use std::io::Read;

/// The most bytes of a configuration that are read: one more than the longest configuration has.
const MOST_READ: u64 = 20_000_001;

/// Reads a text to its end, or to one byte more than the longest configuration has.
fn read_text<R: Read + Drop>(alloc: Global, reader: R) -> Result<Vec<u8>, ServeFault>
    ensures text { IfOk result (λ text. IfSome (R.remaining reader) (λ input. text.items ≡ take 20000001 input)) }
    ensures fault { IfErr result IsOfReading }
{
    let mut text = Vec::new(alloc);
    match reader.take(MOST_READ).read_to_end(&mut text) {
        Ok(_) => Ok(text),
        Err(fault) => Err(ServeFault::at_input(&fault)),
    }
}

/// Returns the setup that a text describes.
fn setup_of(alloc: Global, text: &[u8]) -> Result<Setup, ServeFault>
    ensures { IsSetupOf text.now result }
{
    Ok(read_config(alloc, text)?)
}

/// Reads a configuration.
///
/// # Errors
/// `Wire` if the text is not a configuration, otherwise `Read` or `OutOfMemory`.
pub fn read_setup<R: Read + Drop>(alloc: Global, reader: R) -> Result<Setup, ServeFault>
    ensures { IfSome (R.remaining reader) (λ input. IsSetupOf input result) }
{
    let text = read_text(alloc, reader)?;
    setup_of(alloc, text.as_slice())
}
