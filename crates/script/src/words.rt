//! The words of a line, and how they are written.

ghost use Rattle.std.specs.Prelude.{[], ◌∷◌, map, decimal};
ghost use Rattle.percent_encoding.specs.Iter.{encoded_text};
ghost use Rattle.call_model.specs.Identifiers.{id_text};
ghost use Rattle.script.specs.TextFields.{escaped, text_field};
ghost use Rattle.script.specs.Writing.{Adds, spaced, word_text};

use crate::sink::Sink;
use bytes::Bytes;
use itoa::Buffer;
use percent_encoding::{AsciiSet, CONTROLS, PercentEncode, ascii_set, percent_encode};
use std::alloc::AllocError;
use uuid::Uuid;

const ESCAPED: AsciiSet = ascii_set!(CONTROLS.add(b' ').add(b'%'));

/// A word of a line.
#[derive(Clone, Copy)]
pub(crate) enum Word<'a> {
    /// A text, unchanged.
    Plain(&'a str),
    /// A number in decimal.
    Number(u64),
    /// An identifier, hyphenated and in lower case (RFC 9562, section 4); a dash if there is none.
    Identifier(Option<Uuid>),
    /// Bytes, percent-encoded after an equals sign.
    Text(&'a [u8]),
    /// A payload, an output or a report, percent-encoded after an equals sign.
    Body(&'a Bytes),
}

fn push_pieces(out: &mut Vec<u8>, pieces: PercentEncode) -> Result<(), AllocError>
    ensures { Adds result (encoded_text pieces.entry) out.old.items out.new.items }
{
    for piece in pieces {
        out.extend_from_slice(piece.as_bytes())?;
    }
    Ok(())
}

/// Adds bytes, percent-encoded, without a copy of them.
pub(crate) fn push_escaped(out: &mut Vec<u8>, bytes: &[u8]) -> Result<(), AllocError>
    ensures { Adds result (escaped bytes.now) out.old.items out.new.items }
{
    push_pieces(out, percent_encode(bytes, ESCAPED))
}

fn push_number<W: Sink>(out: &mut W, number: u64) -> Result<(), AllocError>
    ensures { Adds result (decimal number) (W.text out.old) (W.text out.new) }
{
    let mut buffer = Buffer::new();
    out.push_bytes(buffer.format(number).as_bytes())
}

fn push_identifier<W: Sink>(out: &mut W, id: Option<Uuid>) -> Result<(), AllocError>
    ensures { Adds result (id_text id) (W.text out.old) (W.text out.new) }
{
    let Some(id) = id else {
        return out.push_bytes(b"-");
    };
    let mut buffer = Uuid::encode_buffer();
    let text = id.hyphenated().encode_lower(&mut buffer);
    out.push_bytes(text.as_bytes())
}

fn push_text<W: Sink>(out: &mut W, bytes: &[u8]) -> Result<(), AllocError>
    ensures { Adds result (text_field bytes.now) (W.text out.old) (W.text out.new) }
{
    out.push_bytes(b"=")?;
    out.push_escaped(bytes)
}

fn push_body<W: Sink>(out: &mut W, body: &Bytes) -> Result<(), AllocError>
    ensures { Adds result (text_field body.now) (W.text out.old) (W.text out.new) }
{
    out.push_bytes(b"=")?;
    out.push_body(body)
}

/// Adds a word.
pub(crate) fn push_word<W: Sink>(out: &mut W, word: &Word) -> Result<(), AllocError>
    ensures { Adds result (word_text word.now) (W.text out.old) (W.text out.new) }
{
    match word {
        Word::Plain(text) => out.push_bytes(text.as_bytes()),
        Word::Number(number) => push_number(out, *number),
        Word::Identifier(id) => push_identifier(out, *id),
        Word::Text(bytes) => push_text(out, bytes),
        Word::Body(body) => push_body(out, body),
    }
}

/// Adds a space and a word.
pub(crate) fn push_spaced<W: Sink>(out: &mut W, word: &Word) -> Result<(), AllocError>
    ensures { Adds result (32 ∷ word_text word.now) (W.text out.old) (W.text out.new) }
{
    out.push_bytes(b" ")?;
    push_word(out, word)
}

/// Adds words, each after a space.
pub(crate) fn push_words<W: Sink>(out: &mut W, words: &[Word]) -> Result<(), AllocError>
    ensures { Adds result (spaced (map word_text words.now)) (W.text out.old) (W.text out.new) }
{
    for word in words {
        push_spaced(out, word)?;
    }
    Ok(())
}

/// Adds one word, after a space.
pub(crate) fn push_name<W: Sink>(out: &mut W, name: &str) -> Result<(), AllocError>
    ensures { Adds result (spaced (name.now ∷ [])) (W.text out.old) (W.text out.new) }
{
    push_words(out, &[Word::Plain(name)])
}

/// Adds the last word of a line, after a space.
pub(crate) fn push_last<W: Sink>(out: &mut W, word: &Word) -> Result<(), AllocError>
    ensures { Adds result (spaced (word_text word.now ∷ [])) (W.text out.old) (W.text out.new) }
{
    push_spaced(out, word)
}

/// Adds a word and its argument, each after a space.
pub(crate) fn push_named<W: Sink>(out: &mut W, name: &str, word: &Word) -> Result<(), AllocError>
    ensures { Adds result (spaced (name.now ∷ word_text word.now ∷ [])) (W.text out.old) (W.text out.new) }
{
    push_spaced(out, &Word::Plain(name))?;
    push_spaced(out, word)
}

/// Ends a line.
pub(crate) fn end_line<W: Sink>(out: &mut W) -> Result<(), AllocError>
    ensures { Adds result (10 ∷ []) (W.text out.old) (W.text out.new) }
{
    out.push_bytes(b"\n")
}
