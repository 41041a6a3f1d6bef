//! What an exchange over an account gives. Each function does nothing; its clauses are the laws.

ghost use Rattle.std.specs.Prelude.{◌⊎◌, ℕ, List};
ghost use Rattle.account_lock.specs.Shown.{Sees};
ghost use Rattle.arn_ids.specs.declared.config.Config.{Config};
ghost use Rattle.call_types.specs.declared.call.Call.{Call};
ghost use Rattle.call_types.specs.declared.call.Entry.{Entry};
ghost use Rattle.decisions.specs.declared.decide.Decision.TheVariants.{Submit};
ghost use Rattle.lambda_wire.specs.declared.reply.Reply.{Reply};
ghost use Rattle.long_poll.specs.Exchanges.{IsReply};
ghost use Rattle.long_poll.specs.Replies.{AreOfOne, IsBeginning, IsReplyAt, IsReplyIn, IsReplyOf};

use crate::{Clock, Connection, OneShotBell};
use account_book::laws::replies_stay;
use account_lock::laws::stands_where_it_was_taken;
use account_lock::{Account, Identity};
use decisions::Decide;
use usage_ledger::{Keep, Token};

/// What an exchange gives to a request that was decided to be a call: the exact reply text of a call equal to that one,
/// at its ticket, in the history that the outcome's token has seen, to which calls led; or the text of why it was
/// refused there. That history continues the connection's anchor, in which the ticket is not: the call was made after
/// all that the anchor has seen.
pub fn replies<R, S: Identity + Drop, D: Decide, N: Clock, K: Keep>(
    connection: &Connection<R, Account<S, OneShotBell>, D, N, K>,
)
    ensures { (call : Call) (reply : Reply) (token : List Entry)
        → IsReply connection.now N.Clock (Submit call) reply token
        → IsReplyAt S.config S.most S.salt connection.now.anchor call reply token }
{
    let _connection = connection;
    stands_where_it_was_taken();
}

/// Replies of two histories, one of which is a beginning of the other, are of one history.
pub fn one_history()
    // The reply to a call in a history is also the reply to it in each history that extends that one,
    ensures stays { (config : Config) (most salt : ℕ) (h later : List Entry) (call : Call) (reply : Reply)
        → Sees config most h later → IsReplyIn config salt h call reply → IsReplyIn config salt later call reply }
    // so two such replies are both of the longer history.
    ensures one { (config : Config) (most salt : ℕ) (call call' : Call) (reply reply' : Reply) (h h' : List Entry)
        → IsReplyOf config most salt call reply h → IsReplyOf config most salt call' reply' h'
        → IsBeginning h h' ⊎ IsBeginning h' h → AreOfOne config most salt call reply call' reply' }
{
    replies_stay();
}

/// What two exchanges over an account gave to calls that were taken, on whichever connections and threads, are replies
/// of its one history: the tokens of their outcomes agree (`Account::agree`).
pub fn of_one_history<S: Identity>(
    account: &Account<S, OneShotBell>,
    token: &mut Token<S>,
    other: &mut Token<S>,
)
    ensures { (call call' : Call) (reply reply' : Reply) → IsReplyOf S.config S.most S.salt call reply token.old
        → IsReplyOf S.config S.most S.salt call' reply' other.old
        → AreOfOne S.config S.most S.salt call reply call' reply' }
{
    account.agree(token, other);
    one_history();
}
