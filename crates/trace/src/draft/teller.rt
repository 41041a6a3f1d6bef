//! How an object is told, token by token.

ghost use Rattle.std.specs.Prelude.{◌≡◌, ◌∷◌, ◌++◌, [], true, false, List, length, map, option_map, unwrap_or, IfOk};
ghost use Rattle.json.specs.Token.{Token, string};
ghost use Rattle.trace.specs.Members.{body_member, number_if, text_member};
ghost use Rattle.trace.specs.Telling.{IsBegun, Tells, inset_tokens, part_token, tokens_of};

use crate::Draft;
use crate::draft::{Inset, Part, Run};
use arn_ids::Text;
use bytes::Bytes;
use std::alloc::{AllocError, Global};
use std::mem;

/// Room for the parts of most runs.
const PARTS: usize = 32;

/// What was told so far. If memory runs out, that is noted and reported at the end.
#[derive(Drop)]
pub(crate) struct Teller {
    alloc: Global,
    runs: Vec<Run>,
    // The parts behind the last run.
    parts: Vec<Part>,
    is_cut: bool,
}

/// Returns the same number, if there is one.
pub(crate) fn widened(number: Option<u32>) -> Option<u64>
    ensures { result ≡ number }
{
    match number {
        None => None,
        Some(number) => Some(u64::from(number)),
    }
}

/// Returns how many bytes a body has: 0 if there is none.
fn length_of(body: Option<&Bytes>) -> u64
    ensures { result ≡ length (unwrap_or (option_map (λ bytes. bytes.now) body.entry) []) }
{
    match body {
        None => 0,
        Some(body) => body.len() as u64,
    }
}

impl Teller {
    /// Returns a teller that has told nothing.
    ///
    /// # Errors
    /// Only if memory is refused.
    pub(crate) fn new(alloc: Global) -> Result<Teller, AllocError>
        ensures begun { IfOk result IsBegun }
    {
        Ok(Teller {
            alloc,
            runs: Vec::new(alloc),
            parts: Vec::with_capacity(alloc, PARTS)?,
            is_cut: false,
        })
    }

    /// Returns what was told.
    ///
    /// # Errors
    /// Only if memory ran out.
    pub(crate) fn finish(self) -> Result<Draft, AllocError>
        ensures { IfOk result (λ draft. (self.is_cut ≡ false) × (draft ≡ tokens_of self.runs.items self.parts.items)) }
    {
        if self.is_cut {
            return Err(AllocError);
        }
        Ok(Draft::new(self.alloc, self.runs, self.parts))
    }

    /// Notes that memory ran out.
    fn cut(&mut self)
        ensures { (added : List Token) → Tells added self.old self.new }
    {
        self.is_cut = true;
    }

    /// Tells tokens, one after the other.
    pub(crate) fn say_all(&mut self, parts: &[Part])
        ensures { Tells (map part_token parts.now) self.old self.new }
    {
        self.is_cut = self.parts.extend_from_slice(parts).is_err() || self.is_cut;
    }

    /// Tells an inset behind the parts.
    fn say_inset(&mut self, inset: Inset)
        ensures { Tells (inset_tokens inset) self.old self.new }
    {
        match Vec::with_capacity(self.alloc, PARTS) {
            Ok(room) => {
                let parts = mem::replace(&mut self.parts, room);
                self.is_cut = self.runs.push(Run { parts, inset }).is_err() || self.is_cut;
            }
            Err(_) => self.cut(),
        }
    }

    /// Tells a text, which is copied.
    fn say_copied(&mut self, text: &str)
        ensures { Tells (string text.now ∷ []) self.old self.new }
    {
        match String::from_str(self.alloc, text) {
            Ok(text) => self.say_inset(Inset::Copied(Text::new(text))),
            Err(_) => self.cut(),
        }
    }

    /// Tells a member that is a text, which is copied.
    pub(crate) fn say_text(&mut self, name: &'static str, text: &str)
        ensures { Tells (text_member name.now text.now) self.old self.new }
    {
        self.say_all(&[Part::Key(name)]);
        self.say_copied(text);
    }

    /// Tells a member that is a whole number, if there is one.
    pub(crate) fn say_number_if(&mut self, name: &'static str, number: Option<u64>)
        ensures { Tells (number_if name.now number) self.old self.new }
    {
        if let Some(number) = number {
            self.say_all(&[Part::Key(name), Part::Number(number)]);
        }
    }

    /// Tells a body, or how many bytes it has if bodies are not asked for: one without bytes if there is none.
    #[tactic(auto, unfolding(crate::specs::Members::body_member))]
    pub(crate) fn say_body(&mut self, bodies: bool, body: Option<&Bytes>)
        ensures { Tells (body_member bodies (unwrap_or (option_map (λ bytes. bytes.now) body.entry) [])) self.old self.new }
    {
        if bodies {
            match body {
                None => self.say_inset(Inset::Body(Bytes::new())),
                Some(body) => self.say_shared(body),
            }
        } else {
            self.say_number_if("bodyLength", Some(length_of(body)));
        }
    }

    /// Tells a body, which is shared.
    fn say_shared(&mut self, body: &Bytes)
        ensures { Tells (body_member true body.now) self.old self.new }
    {
        match body.clone() {
            Ok(body) => self.say_inset(Inset::Body(body)),
            Err(_) => self.cut(),
        }
    }

    /// Tells an object with a body among its members.
    pub(crate) fn say_around(
        &mut self,
        front: &[Part],
        bodies: bool,
        body: Option<&Bytes>,
        rest: &[Part],
    )
        ensures { Tells (map part_token front.now
            ++ (body_member bodies (unwrap_or (option_map (λ bytes. bytes.now) body.entry) []) ++ map part_token rest.now))
            self.old self.new }
    {
        self.say_all(front);
        self.say_body(bodies, body);
        self.say_all(rest);
    }
}
