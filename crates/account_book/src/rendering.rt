//! The reply to the client of a call.

ghost use Rattle.std.specs.Prelude.{◌≡◌, ◌<◌, Some, IfOk, length, reverse};
ghost use Rattle.call_model.specs.History.{answer_of, call_of};
ghost use Rattle.call_model.specs.Isolation as spec;
ghost use Rattle.call_model.specs.Next.{IsLegal};
ghost use Rattle.account_book.specs.ReplyText.{reply_text};
ghost use Rattle.account_book.specs.Taking.{AllKnown};

use call_model::{Answer, Call, Past, Ticket};
use lambda_wire::Reply;
use replies::{Gist, reply};
use std::alloc::{AllocError, Global};

/// The ticket of the call whose bytes an answer carries, else the answered ticket itself.
fn source_of(ticket: Ticket, answer: Answer) -> Ticket
    ensures { result ≡ spec.source_of ticket (spec.named answer) }
{
    match answer {
        Answer::Delivered { invoke, .. } | Answer::Told { invoke, .. } => invoke,
        Answer::Output { source } | Answer::Error { source } => source,
        _ => ticket,
    }
}

/// The call with a ticket.
fn call_at<'a>(past: &Past<'a>, ticket: Ticket) -> &'a Call
    requires { ticket < length past.now.entries.now.0 }
    ensures { result.now ≡ call_of (reverse past.now.entries.now.0) ticket }
{
    &past.entries.at(ticket as usize).call
}

/// The reply to a ticket with its answer. It fails only if an allocation fails.
pub(crate) fn render(
    alloc: Global,
    past: &Past<'_>,
    ticket: Ticket,
    answer: Answer,
) -> Result<Reply, AllocError>
    requires answered { answer_of (reverse past.now.entries.now.0) ticket ≡ Some answer }
    requires legal { IsLegal past.now.config.now (reverse past.now.entries.now.0) }
    requires known { AllKnown past.now.config.now (reverse past.now.entries.now.0) }
    ensures { IfOk result
        (λ reply. Some reply
        ≡ reply_text past.now.config.now past.now.salt (reverse past.now.entries.now.0) ticket) }
{
    let source = source_of(ticket, answer);
    let gist = Gist {
        answer,
        call: call_at(past, ticket),
        count: past.count(ticket),
        source: call_at(past, source),
        source_count: past.count(source),
    };
    reply(alloc, past.config, past.salt, &gist)
}
