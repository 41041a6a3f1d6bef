//! The text forms of calls and answers: the lines of a script, and those of a history.
//!
//! The groups of modules stand in the order in which to read them.
#![tactic(auto, using(crate::proofs::Fronts::added, crate::proofs::Fronts::onward, crate::proofs::Fronts::same))]

// The words of a line, and where they are written to; the fields into which a line is cut again, and the texts in them.
mod fields;
mod sink;
mod text_fields;
mod words;

// A call's line, written and read.
mod call_reader;
mod call_writer;

// The lines of an entry's answers; and the same text before its bodies are written, which is taken in pieces, each body
// in its coding.
mod answer_writer;
mod coding;
mod draft;

// What follows: each line that is written is read as its call.
pub mod laws;

pub use answer_writer::{draft_entry, push_answers};
pub use call_reader::read_call;
pub use coding::Coding;
pub use draft::Draft;
