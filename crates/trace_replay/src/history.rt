//! The trace of a book's history.

ghost use Rattle.std.specs.Prelude.{◌≡◌, ◌+◌, ◌<◌, ◌≤◌, ◌^◌, length, OnOk, OnErr, IfErr};
ghost use Rattle.std.specs.Io.KnownBytes.{Appends};
ghost use Rattle.script_replay.specs.declared.fault.ReplayFault.TheVariants as faults;
ghost use Rattle.fleet.specs.Reaches.{before};
ghost use Rattle.trace.specs.Sites.{sites};
ghost use Rattle.trace_replay.specs.Lines.{Fails, Flushed, LineAdded};
ghost use Rattle.trace_replay.specs.Traces.{CutShort, book_trace};

use account_book::Book;
use call_model::Ticket;
use script_replay::{ReplayFault, write_whole};
use std::alloc::{AllocError, Global};
use std::io::Write;
use trace::Follower;

/// From this many bytes on, a text is written.
const PIECE: usize = 65_536;

/// Follows the entry with a ticket, and adds its line.
fn push_line(
    follower: &mut Follower,
    book: &Book,
    bodies: bool,
    ticket: Ticket,
    out: &mut Vec<u8>,
) -> Result<(), AllocError>
    requires there { ticket < length book.now.history }
    requires few { length book.now.history ≤ 2 ^ 32 }
    requires follows { follower.old ≡ sites book.now.config (before book.now.history ticket) }
    ensures followed { follower.new ≡ sites book.now.config (before book.now.history (ticket + 1)) }
    ensures ok { OnOk result (LineAdded bodies book.now ticket out.old.items out.new.items) }
    ensures err { OnErr result (out.new.items ≡ out.old.items) }
{
    book.facts();
    let past = book.past();
    follower.follow(&past, ticket);
    let object = follower.draft(&past, bodies, ticket)?;
    object.push_to(out)
}

/// Writes a text and forgets it, if it is long.
fn flush<W: Write>(writer: &mut W, out: &mut Vec<u8>) -> Result<(), ReplayFault>
    ensures ok { OnOk result
        (Flushed out.old.items out.new.items (W.contents writer.old) (W.contents writer.new)) }
    ensures err { IfErr result (λ e. (e ≡ faults.Write)
        × CutShort out.old.items (W.contents writer.old) (W.contents writer.new)) }
{
    if out.len() < PIECE {
        return Ok(());
    }
    write_whole(writer, out)?;
    out.clear();
    Ok(())
}

/// Writes the trace of a book's history.
pub fn write_trace<W: Write>(
    alloc: Global,
    book: &Book,
    bodies: bool,
    writer: &mut W,
) -> Result<(), ReplayFault>
    ensures ok { OnOk result
        (Appends (W.contents writer.old) (W.contents writer.new) (book_trace bodies book.now)) }
    ensures err { IfErr result (Fails bodies book.now (W.contents writer.old) (W.contents writer.new)) }
{
    let mut follower = Follower::open(alloc, book.config())?;
    let mut out = Vec::new(alloc);
    let mut ticket = 0;
    while ticket < book.len() {
        push_line(&mut follower, book, bodies, ticket, &mut out)?;
        flush(writer, &mut out)?;
        ticket += 1;
    }
    write_whole(writer, &out)
}
