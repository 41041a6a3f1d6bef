//! Writing a text as a whole.

ghost use Rattle.std.specs.Prelude.{◌≡◌, ◌++◌, List, ℕ, OnOk, IfErr};
ghost use Rattle.std.specs.Io.KnownBytes.{Appends};
ghost use Rattle.script_replay.specs.declared.fault.ReplayFault.TheVariants as faults;

use crate::fault::ReplayFault;
use std::io;
use std::io::Write;

/// Writes all of the bytes.
pub fn write_whole<W: Write>(writer: &mut W, bytes: &[u8]) -> Result<(), ReplayFault>
    ensures ok { OnOk result (Appends (W.contents writer.old) (W.contents writer.new) bytes.now) }
    ensures err { IfErr result (λ e. (e ≡ faults.Write) × ((part : List ℕ) × (lost : List ℕ)
        × (bytes.now ≡ part ++ lost) × Appends (W.contents writer.old) (W.contents writer.new) part)) }
{
    let mut rest = bytes;
    for _ in 0..u64::MAX {
        if rest.is_empty() {
            return Ok(());
        }
        match writer.write(rest) {
            Ok(0) => return Err(ReplayFault::Write),
            Ok(n) => rest = &rest[n..],
            Err(e) => {
                if e.kind() != io::ErrorKind::Interrupted {
                    return Err(ReplayFault::Write);
                }
            }
        }
    }
    Err(ReplayFault::Write)
}
