//! The answer to a request.

use lambda_wire::Reply;
use usage_ledger::{Ledgers, Token};

/// The answer to a request: a reply, or the history or its trace as a streamed body.
#[derive(Drop)]
pub enum Outcome<H, L: Ledgers> {
    /// This reply. The token has seen the history that it is of: of the reply to a call, the one in which the
    /// call has it, or for which the call was refused; of counts, a reservation and the environments, the one
    /// that has them. If the reply itself was decided, it is of no history. Of what the tokens of two outcomes
    /// of one account have seen, one is a beginning of the other ([`crate::laws::of_one_history`]).
    Reply(Reply, Token<L>),
    /// The text of the account's history (an operation of this service alone), whole or from an entry on,
    /// with the headers of [`crate::history_headers`].
    History(H),
    /// The trace of the account's history (an operation of this service alone), a line of JSON for each
    /// entry.
    Trace(H),
}
