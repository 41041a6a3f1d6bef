//! The object of an entry before it is written.

mod line;
mod part;
mod teller;

ghost use Rattle.std.specs.Prelude.{◌≡◌, ◌∷◌, ◌++◌, [], true, codes, map, OnOk, OnErr, IfOk};
ghost use Rattle.std.specs.List.{flat_map};
ghost use Rattle.base64.specs.Engines.{standard};
ghost use Rattle.base64.specs.GeneralPurpose.{encode_of};
ghost use Rattle.json.specs.Lex.{tokens};
ghost use Rattle.json.specs.Print.{print};
ghost use Rattle.json.specs.Token.{string};
ghost use Rattle.call_model.specs.Identifiers.{id_text};
ghost use Rattle.trace.specs.Members.{body_member, text_member};
ghost use Rattle.trace.specs.Telling.{Adds, inset_tokens, part_token, run_tokens, tokens_of};

use base64::engine::general_purpose::STANDARD;
use json::Writer;
use line::line_of;
pub(crate) use part::{Inset, Part, Run};
use script::Draft as Text;
use std::alloc::{AllocError, Global};
use std::marker::Model;
use std::{mem, str};
pub(crate) use teller::{Teller, widened};
use uuid::Uuid;

/// Room for the line of most entries without their bodies.
const LINE: usize = 512;

/// The most bytes of bodies that a line is written with at once.
const SHORT: usize = 8_192;

/// The object of an entry before it is written: its tokens, and the bodies, which it shares with the
/// history. So it takes little time and memory, whatever the length of the bodies: a caller makes it under
/// a lock, and writes it after the lock is released. Contracts see the object's tokens.
#[derive(Drop)]
pub struct Draft {
    alloc: Global,
    runs: Vec<Run>,
    // The parts behind the last run.
    parts: Vec<Part>,
}

impl Model for Draft {
    ghost use Rattle.std.specs.Prelude.{List};
    ghost use Rattle.json.specs.Token.{Token, tokens_code};
    ghost use Rattle.trace.specs.Telling.{tokens_of};

    ghost Value = { List Token };

    ghost coded = { tokens_code };

    ghost view = { λ d. tokens_of d.runs.items d.parts.items };
}

fn write_identifier(writer: &mut Writer, id: Option<Uuid>) -> Result<(), AllocError>
    ensures { Adds result (string (id_text id) ∷ []) writer.old writer.new }
{
    let Some(id) = id else {
        return writer.string("-");
    };
    let mut buffer = Uuid::encode_buffer();
    writer.string(id.hyphenated().encode_lower(&mut buffer))
}

/// Writes a member that is a text.
fn write_text(writer: &mut Writer, name: &str, text: &str) -> Result<(), AllocError>
    ensures { Adds result (text_member name.now text.now) writer.old writer.new }
{
    writer.key(name)?;
    writer.string(text)
}

/// Writes a body that is not UTF-8.
fn write_base64(alloc: Global, writer: &mut Writer, bytes: &[u8]) -> Result<(), AllocError>
    ensures { Adds result (text_member (codes "bodyBase64") (encode_of standard bytes.now)) writer.old writer.new }
{
    let text = STANDARD.encode(alloc, bytes)?;
    write_text(writer, "bodyBase64", text.as_str())
}

/// Writes the member with a payload, an output or a report: `body` if it is UTF-8, otherwise `bodyBase64`.
#[tactic(auto, unfolding(crate::specs::Members::body_member))]
fn write_body(alloc: Global, writer: &mut Writer, bytes: &[u8]) -> Result<(), AllocError>
    ensures { Adds result (body_member true bytes.now) writer.old writer.new }
{
    match str::from_utf8(bytes) {
        Ok(text) => write_text(writer, "body", text),
        Err(_) => write_base64(alloc, writer, bytes),
    }
}

fn write_part(writer: &mut Writer, part: &Part) -> Result<(), AllocError>
    ensures { Adds result (part_token part.now ∷ []) writer.old writer.new }
{
    match part {
        Part::Open => writer.begin_object(),
        Part::Close => writer.end_object(),
        Part::OpenList => writer.begin_array(),
        Part::CloseList => writer.end_array(),
        Part::Key(name) => writer.key(name),
        Part::Word(word) => writer.string(word),
        Part::Number(number) => writer.u64(*number),
        Part::Flag(set) => writer.boolean(*set),
        Part::Identifier(id) => write_identifier(writer, *id),
    }
}

/// Writes parts, one after the other.
pub(crate) fn write_parts(writer: &mut Writer, parts: &[Part]) -> Result<(), AllocError>
    ensures { Adds result (map part_token parts.now) writer.old writer.new }
{
    for part in parts {
        write_part(writer, part)?;
    }
    Ok(())
}

fn write_inset(alloc: Global, writer: &mut Writer, inset: &Inset) -> Result<(), AllocError>
    ensures { Adds result (inset_tokens inset.now) writer.old writer.new }
{
    match inset {
        Inset::Copied(text) => writer.string(text.as_str()),
        Inset::Body(body) => write_body(alloc, writer, body.as_slice()),
    }
}

fn write_run(alloc: Global, writer: &mut Writer, run: &Run) -> Result<(), AllocError>
    ensures { Adds result (run_tokens run.now) writer.old writer.new }
{
    write_parts(writer, &run.parts)?;
    write_inset(alloc, writer, &run.inset)
}

/// Writes runs, one after the other.
fn write_runs(alloc: Global, writer: &mut Writer, runs: &[Run]) -> Result<(), AllocError>
    ensures { Adds result (flat_map run_tokens runs.now) writer.old writer.new }
{
    for run in runs {
        write_run(alloc, writer, run)?;
    }
    Ok(())
}

impl Draft {
    /// Returns the object that has these runs, and these parts behind them.
    pub(crate) fn new(alloc: Global, runs: Vec<Run>, parts: Vec<Part>) -> Draft
        ensures { result ≡ tokens_of runs.items parts.items }
    {
        Draft { alloc, runs, parts }
    }

    /// Writes the object's tokens.
    fn write(&self, writer: &mut Writer) -> Result<(), AllocError>
        ensures { Adds result self.now writer.old writer.new }
    {
        write_runs(self.alloc, writer, &self.runs)?;
        write_parts(writer, &self.parts)
    }

    /// Adds the object's line to a text: the object, and a line feed. A reader of JSON reads the object's
    /// own tokens from it.
    ///
    /// # Errors
    /// Only if memory is refused; `out` is then as it was.
    pub fn push_to(&self, out: &mut Vec<u8>) -> Result<(), AllocError>
        ensures ok { OnOk result (out.new.items ≡ out.old.items ++ (print self.now ++ 10 ∷ [])) }
        ensures reads_back { OnOk result (tokens (print self.now) ≡ self.now) }
        ensures err { OnErr result (out.new.items ≡ out.old.items) }
    {
        let start = out.len();
        let text = mem::replace(out, Vec::new(self.alloc));
        let mut writer = Writer::new(text);
        let written = self.write(&mut writer);
        let mut text = writer.into_inner();
        let is_cut = written.is_err() || text.push(b'\n').is_err();
        if is_cut {
            text.truncate(start);
            *out = text;
            return Err(AllocError);
        }
        *out = text;
        Ok(())
    }

    /// Returns whether its bodies are short.
    fn is_short(&self) -> bool {
        let mut length: usize = 0;
        for run in &self.runs {
            length = length.saturating_add(run.inset.body_len());
        }
        length <= SHORT
    }

    /// Returns the object's line as a text that is taken in pieces: the object, and a line feed. It shares the
    /// bodies, unless they are short.
    ///
    /// # Errors
    /// Only if memory is refused.
    pub fn line(self) -> Result<Text, AllocError>
        ensures { IfOk result (λ line. line ≡ print self ++ 10 ∷ []) }
    {
        let alloc = self.alloc;
        if self.is_short() {
            return Ok(Text::of(alloc, self.finish()?));
        }
        line_of(alloc, &self.runs, &self.parts)
    }

    /// Returns the object's line: the object, and a line feed. A reader of JSON reads the object's own
    /// tokens from it.
    ///
    /// # Errors
    /// Only if memory is refused.
    pub fn finish(self) -> Result<Vec<u8>, AllocError>
        ensures ok { IfOk result (λ line. line.items ≡ print self ++ 10 ∷ []) }
        ensures reads_back { OnOk result (tokens (print self) ≡ self) }
    {
        let mut line = Vec::with_capacity(self.alloc, LINE)?;
        self.push_to(&mut line)?;
        Ok(line)
    }
}
