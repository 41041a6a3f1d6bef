//! The trace of a script, from a reader to a writer.

ghost use Rattle.std.specs.Prelude.{None, IfErr, IfSome, OnOk};
ghost use Rattle.std.specs.Io.KnownBytes.{IsAtEnd};
ghost use Rattle.trace_replay.specs.Traces.{Stops, Traced};

use crate::history::write_trace;
use script_replay::{ReplayFault, lead};
use std::alloc::Global;
use std::io::{Read, Write};

/// Replays the script that the reader gives, as [`script_replay::replay`] does, and writes the trace of
/// the history that the script leads to, and nothing else: a JSON object for each entry, each on a line
/// of its own. With `bodies`, payloads, outputs and reports are members. Nothing is written before the
/// whole script was read, and nothing if it has a fault.
///
/// # Errors
/// Those of [`script_replay::replay`].
pub fn trace<R: Read, W: Write>(
    alloc: Global,
    reader: &mut R,
    writer: &mut W,
    bodies: bool,
) -> Result<(), ReplayFault>
    // What is written is the trace of the history that the input leads to,
    ensures ok { OnOk result (IfSome (R.remaining reader.old) (λ input. Traced bodies input None
        (W.contents writer.old) (W.contents writer.new))) }
    // and the whole input was read.
    ensures end { OnOk result (IsAtEnd (R.remaining reader.new)) }
    // A fault of the script is the one that its replay has. If memory ran out or the writer failed, a prefix
    // is written; otherwise nothing.
    ensures stopped { IfErr result (λ e. IfSome (R.remaining reader.old) (λ input.
        Stops bodies input (R.remaining reader.new) (W.contents writer.old) (W.contents writer.new) e)) }
{
    let book = lead(alloc, reader)?;
    write_trace(alloc, &book, bodies, writer)
}
