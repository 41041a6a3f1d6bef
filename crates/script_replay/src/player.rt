//! Replays a script from a reader to a writer.

ghost use Rattle.std.specs.Prelude.{◌≡◌, ◌+◌, ◌<◌, ◌≤◌, ◌^◌, ◌∷◌, [], ◌++◌, List, ℕ, Option, Some, None, length};
ghost use Rattle.std.specs.Prelude.{position, MatchOption, IfOk, IfErr, IfSome, OnOk, vec_len, ◌==◌};
ghost use Rattle.std.specs.Io.KnownBytes.{IsAtEnd};
ghost use Rattle.std.specs.Str.Lines.{lines};
ghost use Rattle.account_book.specs.Run.{AtStart, fault_at_end};
ghost use Rattle.script_replay.specs.Replays.{IsOpen, LeadsTo, Played, StoppedAt, Replays, Stops};
ghost use Rattle.script_replay.specs.Steps.{EndsLine, Going, StoppedIn, first_position, last_lines};
ghost use Rattle.script_replay.specs.Views.{seen, stand};

use crate::fault::ReplayFault;
use crate::line::{LINE_LIMIT, Progress, drop_return, overlong, take_line};
use crate::whole::write_whole;
use account_book::Book;
use lambda_wire::WireFault;
use std::alloc::{AllocError, Global};
use std::io::{self, Read, Write};

/// The state of a replay.
#[derive(Drop)]
struct Player {
    /// The state between two lines.
    progress: Progress,
    /// How many lines were taken.
    line: u64,
    /// The part of the next line that was read.
    pending: Vec<u8>,
    /// The text that a line writes. Its memory is used again for the next line.
    answers: Vec<u8>,
}

impl Player {
    /// Returns the state before the first line.
    fn new(alloc: Global) -> Player
        ensures { stand result ≡ first_position }
    {
        Player {
            progress: Progress::AtStart,
            line: 0,
            pending: Vec::new(alloc),
            answers: Vec::new(alloc),
        }
    }
}

/// Takes what was read so far as the next line, and writes its answers.
fn play_line<W: Write>(
    alloc: Global,
    player: &mut Player,
    writer: &mut W,
) -> Result<(), ReplayFault>
    requires line { player.old.line + 1 < 2 ^ 64 }
    ensures played { OnOk result
        (Played (player.old.line + 1) (seen player.old.progress) (seen player.new.progress)
        (player.old.pending.items ∷ []) (W.contents writer.old) (W.contents writer.new)) }
    ensures next { OnOk result ((player.new.line ≡ player.old.line + 1) × (player.new.pending.items ≡ [])) }
    ensures stopped { IfErr result (λ e. (rest : List (List ℕ))
        → StoppedAt (player.old.line + 1) (seen player.old.progress)
        (player.old.pending.items ∷ rest) (W.contents writer.old) (W.contents writer.new) e) }
{
    player.answers.clear();
    take_line(
        alloc,
        player.line + 1,
        &mut player.progress,
        &player.pending,
        &mut player.answers,
    )?;
    write_whole(writer, &player.answers)?;
    player.line += 1;
    player.pending.clear();
    Ok(())
}

/// Keeps bytes of the next line, which contain no line feed.
fn keep(player: &mut Player, bytes: &[u8]) -> Result<(), ReplayFault>
    requires free { IsOpen bytes.now }
    requires pending { IsOpen player.old.pending.items }
    requires line { player.old.line + 1 < 2 ^ 64 }
    ensures kept { OnOk result
        (stand player.new ≡ record (stand player.old) { pending = player.old.pending.items ++ bytes.now }) }
    ensures stopped { IfErr result (λ e. (old : Option (List ℕ)) (rest : List ℕ)
        → StoppedAt (player.old.line + 1) (seen player.old.progress)
        (lines (player.old.pending.items ++ (bytes.now ++ rest))) old old e) }
{
    // A carriage return that ends the line is not counted.
    if player.pending.len() + bytes.len() > LINE_LIMIT + 1 {
        return Err(overlong(player.line + 1, &player.progress));
    }
    player.pending.extend_from_slice(bytes)?;
    Ok(())
}

/// Returns the index of the first line feed.
fn line_feed_at(bytes: &[u8]) -> Option<usize>
    ensures { result ≡ position (λ b. b == 10) bytes.now }
{
    bytes.iter().position(|b| *b == b'\n')
}

/// Splits the bytes at their first line feed, if they have one.
fn cut_line(bytes: &[u8]) -> Option<(&[u8], &[u8])>
    ensures { MatchOption result (IsOpen bytes.now) (λ cut. EndsLine bytes.now cut.0.now cut.1.now) }
{
    let end = line_feed_at(bytes)?;
    Some((&bytes[..end], &bytes[end + 1..]))
}

/// Plays a piece of the script.
fn feed<W: Write>(
    alloc: Global,
    player: &mut Player,
    writer: &mut W,
    piece: &[u8],
) -> Result<(), ReplayFault>
    requires pending { IsOpen player.old.pending.items }
    requires line { player.old.line + length piece.now + 1 < 2 ^ 64 }
    ensures ok { OnOk result (Going (stand player.old) (stand player.new) piece.now []
        (W.contents writer.old) (W.contents writer.new)) }
    ensures stopped { IfErr result (λ e. StoppedIn (stand player.old) piece.now
        (W.contents writer.old) (W.contents writer.new) e) }
{
    let mut rest = piece;
    while let Some((line, others)) = cut_line(rest) {
        keep(player, line)?;
        drop_return(&mut player.pending);
        play_line(alloc, player, writer)?;
        rest = others;
    }
    keep(player, rest)
}

/// Takes what was read after the last line feed as a line, if anything was.
fn play_last<W: Write>(
    alloc: Global,
    player: &mut Player,
    writer: &mut W,
) -> Result<(), ReplayFault>
    requires line { player.old.line + 1 < 2 ^ 64 }
    ensures ok { OnOk result
        (Played (player.old.line + 1) (seen player.old.progress) (seen player.new.progress)
        (last_lines player.old.pending.items) (W.contents writer.old) (W.contents writer.new)) }
    ensures stopped { IfErr result
        (λ e. StoppedAt (player.old.line + 1) (seen player.old.progress) (last_lines player.old.pending.items)
        (W.contents writer.old) (W.contents writer.new) e) }
{
    if player.pending.is_empty() {
        return Ok(());
    }
    play_line(alloc, player, writer)
}

/// Plays the end of the input. An input that ends before its configuration is not JSON.
fn finish<W: Write>(alloc: Global, player: &mut Player, writer: &mut W) -> Result<(), ReplayFault>
    requires line { player.old.line + 1 < 2 ^ 64 }
    ensures ok { OnOk result
        (Played (player.old.line + 1) (seen player.old.progress) (seen player.new.progress)
        (last_lines player.old.pending.items) (W.contents writer.old) (W.contents writer.new)) }
    ensures booked { OnOk result (fault_at_end (seen player.new.progress) ≡ None) }
    ensures stopped { IfErr result
        (λ e. StoppedAt (player.old.line + 1) (seen player.old.progress) (last_lines player.old.pending.items)
        (W.contents writer.old) (W.contents writer.new) e) }
{
    play_last(alloc, player, writer)?;
    match player.progress {
        Progress::Taking { .. } => Ok(()),
        Progress::AtStart => Err(ReplayFault::Wire(WireFault::NotJson)),
        Progress::AfterForm => Err(ReplayFault::Wire(WireFault::NotJson)),
    }
}

/// Returns a buffer of this many zeros.
fn buffer(alloc: Global, size: usize) -> Result<Vec<u8>, AllocError>
    ensures { IfOk result (λ v. vec_len v ≡ size) }
{
    vec![in alloc; 0u8; size]
}

/// How many bytes are read at once.
const PIECE: usize = 65536;

/// Replays the script in pieces of the size of this buffer.
fn replay_by<R: Read, W: Write>(
    alloc: Global,
    reader: &mut R,
    writer: &mut W,
    player: &mut Player,
    piece: &mut [u8],
) -> Result<(), ReplayFault>
    requires first { stand player.old ≡ first_position }
    requires room { 0 < length piece.old }
    requires small { length piece.old ≤ 65536 }
    ensures ok { OnOk result (IfSome (R.remaining reader.old) (λ input. Played 1 AtStart (seen player.new.progress)
        (lines input) (W.contents writer.old) (W.contents writer.new))) }
    ensures booked { OnOk result (fault_at_end (seen player.new.progress) ≡ None) }
    ensures end { OnOk result (IsAtEnd (R.remaining reader.new)) }
    ensures stopped { IfErr result (λ e. IfSome (R.remaining reader.old) (λ input. Stops input (R.remaining reader.new)
        (W.contents writer.old) (W.contents writer.new) e)) }
{
    for _ in 0..4_294_967_296u64 {
        match reader.read(piece) {
            Ok(0) => return finish(alloc, player, writer),
            Ok(n) => feed(alloc, player, writer, &piece[..n])?,
            Err(e) => {
                if e.kind() != io::ErrorKind::Interrupted {
                    return Err(ReplayFault::Read);
                }
            }
        }
    }
    Err(ReplayFault::Read)
}

/// Replays the script that the reader gives, and writes its answers and nothing else. If the first line
/// is `form 2`, the script is of form 2: it may have `reserve` lines, and its second line is the
/// configuration. Otherwise the first line is the configuration. Every other line that is neither empty
/// nor a comment is a call. The answers of a line are written before the next line is taken.
///
/// # Errors
/// `Config` and `Wire` if the configuration has the fault; `Script` if a line is not a call or has more
/// than 20,000,000 bytes; `Read` if the reader failed, or was called 2^32 times without reaching the end
/// of its input; `Write` if the writer failed or accepted nothing; and `OutOfMemory`. The answers of the
/// lines before the fault are then written: for `Read`, those of all whole lines that the reader gave;
/// for `Write`, a prefix of them.
pub fn replay<R: Read, W: Write>(
    alloc: Global,
    reader: &mut R,
    writer: &mut W,
) -> Result<(), ReplayFault>
    // What is written is what the replay of the input writes,
    ensures ok { OnOk result (IfSome (R.remaining reader.old) (λ input. Replays input
        (W.contents writer.old) (W.contents writer.new))) }
    // and the whole input was read.
    ensures end { OnOk result (IsAtEnd (R.remaining reader.new)) }
    // A fault of the script is the one that the replay of the input has. What is written is then all that
    // precedes it; if the reader failed, all that its whole lines write; if the writer failed, a prefix.
    ensures stopped { IfErr result (λ e. IfSome (R.remaining reader.old) (λ input. Stops input (R.remaining reader.new)
        (W.contents writer.old) (W.contents writer.new) e)) }
{
    let mut piece = buffer(alloc, PIECE)?;
    let mut player = Player::new(alloc);
    replay_by(alloc, reader, writer, &mut player, &mut piece)
}

/// Replays the script that the reader gives, as `replay` does, and writes nothing: returns the book that
/// the script leads to.
///
/// # Errors
/// Those of `replay`.
pub fn lead<R: Read>(alloc: Global, reader: &mut R) -> Result<Book, ReplayFault>
    // The book is the one that the replay of the input ends with,
    ensures ok { IfOk result (λ book. IfSome (R.remaining reader.old) (λ input. LeadsTo input book)) }
    // and the whole input was read.
    ensures end { IfOk result (λ book. IsAtEnd (R.remaining reader.new)) }
    // A fault of the script is the one that its replay has.
    ensures stopped { IfErr result (λ e. IfSome (R.remaining reader.old) (λ input.
        Stops input (R.remaining reader.new) None None e)) }
{
    let mut piece = buffer(alloc, PIECE)?;
    let mut player = Player::new(alloc);
    replay_by(alloc, reader, &mut io::sink(), &mut player, &mut piece)?;
    let Player { progress, .. } = player;
    match progress {
        Progress::Taking { book, .. } => Ok(book),
        // An input that ends before its configuration is a fault, which `replay_by` returned.
        Progress::AtStart => Err(ReplayFault::OutOfMemory),
        Progress::AfterForm => Err(ReplayFault::OutOfMemory),
    }
}
