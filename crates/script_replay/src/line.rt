//! The replay of one line of a script.

ghost use Rattle.std.specs.Prelude.{◌≡◌, ◌<◌, ℕ, List, length, OnOk, IfErr};
ghost use Rattle.std.specs.Str.Lines.{strip_carriage_return};
ghost use Rattle.account_book.specs.Run.{is_form_2 as says_form_2, is_skipped as skips, line_limit};
ghost use Rattle.account_book.specs.Run.{line_answered, line_taken};
ghost use Rattle.script_replay.specs.Faults.{HasFault};
ghost use Rattle.script_replay.specs.Steps.{Took};
ghost use Rattle.script_replay.specs.Views.{seen};

use crate::book::{answer, open_book};
use crate::fault::ReplayFault;
use account_book::Book;
use lambda_wire::WireFault;
use std::alloc::Global;

/// The length of the longest line in bytes, without its ending.
pub const LINE_LIMIT: usize = 20_000_000;

/// The state of a replay between two lines.
#[derive(Drop)]
pub enum Progress {
    /// No line was taken yet.
    AtStart,
    /// The first line was `form 2`; the configuration comes next.
    AfterForm,
    /// The configuration opened the book. Only a script of form 2 may have `reserve` lines.
    Taking { reserves: bool, book: Book },
}

/// Whether a first line is `form 2`.
fn is_form_2(line: &[u8]) -> bool
    ensures { result ≡ says_form_2 line.now }
{
    line == b"form 2".as_slice()
}

/// Whether a line is empty or a comment.
fn is_skipped(line: &[u8]) -> bool
    ensures { result ≡ skips line.now }
{
    match line {
        [] => true,
        [first, ..] => *first == b'#',
    }
}

/// Removes the carriage return before the line feed that ended a line, if there is one.
pub fn drop_return(line: &mut Vec<u8>)
    ensures { line.new.items ≡ strip_carriage_return line.old.items }
{
    if line.last() == Some(&b'\r') {
        line.pop();
    }
}

/// Applies the call of a line to the book, and adds the lines of its answers.
#[tactic(auto, unfolding(account_book::specs::Run::line_answered))]
fn answer_line(
    alloc: Global,
    number: u64,
    reserves: bool,
    book: &mut Book,
    line: &[u8],
    out: &mut Vec<u8>,
) -> Result<(), ReplayFault>
    ensures took { OnOk result
        (Took (line_answered reserves number book.old line.now) book.new out.old.items out.new.items) }
    ensures fault { IfErr result (λ e. HasFault (line_answered reserves number book.old line.now) e) }
{
    if line.len() > LINE_LIMIT {
        return Err(ReplayFault::Script { line: number });
    }
    if is_skipped(line) {
        return Ok(());
    }
    match script::read_call(alloc, book.config(), reserves, line)? {
        Some((now, call)) => {
            answer(book, now, call, out)?;
            Ok(())
        }
        None => Err(ReplayFault::Script { line: number }),
    }
}

/// Takes the line with a number, and adds what it writes to the text. The first line may be `form 2`;
/// the line after it, or else the first, is the configuration, which opens the book. Every other line is
/// a call, empty or a comment.
pub fn take_line(
    alloc: Global,
    number: u64,
    progress: &mut Progress,
    line: &[u8],
    out: &mut Vec<u8>,
) -> Result<(), ReplayFault>
    ensures took { OnOk result
        (Took (line_taken number (seen progress.old) line.now) (seen progress.new) out.old.items out.new.items) }
    ensures fault { IfErr result (λ e. HasFault (line_taken number (seen progress.old) line.now) e) }
{
    match progress {
        Progress::AtStart => {
            if is_form_2(line) {
                *progress = Progress::AfterForm;
                return Ok(());
            }
            let book = open_book(alloc, line)?;
            *progress = Progress::Taking {
                reserves: false,
                book,
            };
            Ok(())
        }
        Progress::AfterForm => {
            let book = open_book(alloc, line)?;
            *progress = Progress::Taking {
                reserves: true,
                book,
            };
            Ok(())
        }
        Progress::Taking { reserves, book } => {
            answer_line(alloc, number, *reserves, book, line, out)
        }
    }
}

/// Returns the fault of a line that is too long.
pub fn overlong(number: u64, progress: &Progress) -> ReplayFault
    ensures { (line : List ℕ) → line_limit < length line
        → HasFault (line_taken number (seen progress.now) line) result }
{
    match progress {
        Progress::Taking { .. } => ReplayFault::Script { line: number },
        Progress::AtStart => ReplayFault::Wire(WireFault::TooLong),
        Progress::AfterForm => ReplayFault::Wire(WireFault::TooLong),
    }
}
