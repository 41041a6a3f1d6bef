//! What an object is told by.

use arn_ids::Text;
use bytes::Bytes;
use uuid::Uuid;

/// A token of an object.
#[derive(Clone, Copy)]
pub(crate) enum Part {
    /// An object begins.
    Open,
    /// An object ends.
    Close,
    /// A list begins.
    OpenList,
    /// A list ends.
    CloseList,
    /// The name of a member.
    Key(&'static str),
    /// A word.
    Word(&'static str),
    /// A whole number.
    Number(u64),
    /// True or false.
    Flag(bool),
    /// An identifier, hyphenated and in lower case (RFC 9562, section 4); a dash if there is none.
    Identifier(Option<Uuid>),
}

/// What is no part, since it has memory of its own.
#[derive(Drop)]
pub(crate) enum Inset {
    /// A text of its own.
    Copied(Text),
    /// A payload, an output or a report, with the name of its member.
    Body(Bytes),
}

impl Inset {
    /// Returns how many bytes it shares with the history.
    pub(crate) fn body_len(&self) -> usize {
        match self {
            Inset::Copied(_) => 0,
            Inset::Body(body) => body.len(),
        }
    }
}

/// Parts, and the inset behind them.
#[derive(Drop)]
pub(crate) struct Run {
    pub(crate) parts: Vec<Part>,
    pub(crate) inset: Inset,
}
