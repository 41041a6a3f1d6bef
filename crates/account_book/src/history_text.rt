//! The text of a history before its first entry.

ghost use Rattle.std.specs.Prelude.{◌≡◌, IfOk};
ghost use Rattle.lambda_wire.specs.Ranges.{IsConfigInRange};
ghost use Rattle.account_book.specs.HistoryText.{opening_text};

use arn_ids::Checked;
use lambda_wire::write_config;
use std::alloc::{AllocError, Global};

/// The line `form 2`, and the configuration's line. Followed by the texts of a history's entries, the
/// oldest first, it is the text of the history, a script whose replay gives its answers.
///
/// It fails only if an allocation fails.
pub fn opening_text(
    alloc: Global,
    config: &Checked,
    salt: u64,
    max_entries: u64,
) -> Result<Vec<u8>, AllocError>
    ensures text { IfOk result (λ text. text.items ≡ opening_text config.now salt max_entries) }
    // The numbers that are written are in the ranges of their types.
    ensures in_range { IfOk result (λ _. IsConfigInRange config.now) }
{
    let line = write_config(alloc, config.as_config(), salt, max_entries)?;
    let mut text = Vec::new(alloc);
    text.extend_from_slice(b"form 2\n")?;
    text.extend_from_slice(&line)?;
    text.push(b'\n')?;
    Ok(text)
}
