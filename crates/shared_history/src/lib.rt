//! One history that threads share: a list that only grows, of which each token knows a beginning.
//!
//! The list exists in proofs alone. What threads share is a word, and a token has no bytes: to look at
//! the history is a plain load of that word, which never changes. An [`Anchor`] has a word of its own,
//! which says whether a thread is copying its token.
#![tactic(auto)]

mod anchor;
mod pen;
mod spine;
mod token;
mod view;

pub use anchor::Anchor;
pub use pen::{Pen, Source};
pub use spine::{Naming, Opened, Spine};
pub use token::Token;
pub use view::{Shares, View};
