//! Why a request never becomes a call, and the answer to it.

ghost use Rattle.std.specs.Prelude.{◌≡◌, true, IfOk};
ghost use Rattle.std.specs.List.{list_all};
ghost use Rattle.http_header.specs.Token.{is_value_byte};
ghost use Rattle.lambda_wire.specs.Replies as replies;
ghost use Rattle.request_guard.specs.Refusals as spec;
ghost use Rattle.request_guard.specs.declared.refusal.Refusal.TheVariants.{ForeignCoding};

use lambda_wire::{InvokeFault, Reply, fault_reply, invoke_fault_reply};
use service_port::Port;
use std::alloc::{AllocError, Global};

/// Why a request never becomes a call, whatever it asks for.
#[derive(Clone, Copy, Debug, PartialEq, Eq)]
pub enum Refusal {
    /// Its host is named in two fields, or by a text that is not a host (RFC 9112, section 3.2).
    MalformedHost,
    /// A web page sent it.
    FromPage,
    /// Its host is neither local nor listed.
    ForeignHost,
    /// Its body is coded in a way that is not supported (RFC 9112, section 6.1).
    ForeignCoding,
    /// Its body is broken (RFC 9112, section 2.2).
    BrokenBody,
    /// An allocation for it failed.
    OutOfMemory,
}

impl Refusal {
    /// Returns whether the connection ends after the reply, whatever is left of the request. Each refusal by a head
    /// ends it, and says so (RFC 9112, section 9.6): the body is left unread, so a further request could be lost
    /// behind it.
    pub fn closes(self) -> bool
        ensures { result ≡ spec.closes self }
    {
        match self {
            Refusal::MalformedHost
            | Refusal::FromPage
            | Refusal::ForeignHost
            | Refusal::ForeignCoding
            | Refusal::OutOfMemory => true,
            Refusal::BrokenBody => false,
        }
    }
}

fn by_lambda(
    alloc: Global,
    status: u16,
    kind: &str,
    form: InvokeFault,
    message: &str,
) -> Result<Reply, AllocError>
    requires { list_all is_value_byte kind.now ≡ true }
    ensures { IfOk result (λ reply. reply ≡ replies.invoke_fault_reply status kind.now form message.now) }
{
    invoke_fault_reply(alloc, status, kind, form, message)
}

/// Makes the reply on a port of the Lambda API.
fn lambda_reply(alloc: Global, refusal: Refusal) -> Result<Reply, AllocError>
    ensures { IfOk result (λ reply. reply ≡ spec.lambda_reply refusal) }
{
    match refusal {
        Refusal::MalformedHost => by_lambda(
            alloc,
            400,
            "InvalidParameterValueException",
            InvokeFault::User,
            "Host is malformed",
        ),
        Refusal::FromPage => by_lambda(
            alloc,
            403,
            "AccessDeniedException",
            InvokeFault::User,
            "Web pages may not call this service",
        ),
        Refusal::ForeignHost => by_lambda(
            alloc,
            403,
            "AccessDeniedException",
            InvokeFault::User,
            "Host is neither local nor in LAMBDA_LOCAL_HOSTS",
        ),
        Refusal::ForeignCoding => foreign_coding(alloc),
        Refusal::BrokenBody => by_lambda(
            alloc,
            400,
            "InvalidRequestContentException",
            InvokeFault::User,
            "Body is malformed",
        ),
        Refusal::OutOfMemory => by_lambda(
            alloc,
            500,
            "ServiceException",
            InvokeFault::Service,
            "Out of memory",
        ),
    }
}

fn foreign_coding(alloc: Global) -> Result<Reply, AllocError>
    ensures { IfOk result (λ reply. reply ≡ spec.runtime_reply ForeignCoding) }
{
    fault_reply(
        alloc,
        501,
        "Transfer coding not supported",
        "NotImplemented",
    )
}

/// Makes the reply on a port of the Runtime API and the Extensions API.
fn runtime_reply(alloc: Global, refusal: Refusal) -> Result<Reply, AllocError>
    ensures { IfOk result (λ reply. reply ≡ spec.runtime_reply refusal) }
{
    match refusal {
        Refusal::MalformedHost => fault_reply(alloc, 400, "Host is malformed", "InvalidHost"),
        Refusal::FromPage => fault_reply(
            alloc,
            403,
            "Web pages may not call this service",
            "AccessDenied",
        ),
        Refusal::ForeignHost => fault_reply(
            alloc,
            403,
            "Host is neither local nor in LAMBDA_LOCAL_HOSTS",
            "AccessDenied",
        ),
        Refusal::ForeignCoding => foreign_coding(alloc),
        Refusal::BrokenBody => fault_reply(alloc, 400, "Body is malformed", "InvalidRequestFormat"),
        Refusal::OutOfMemory => fault_reply(alloc, 500, "Out of memory", "OutOfMemory"),
    }
}

/// Makes the reply to a refused request, in the form of its port's API: the Lambda
/// API's at the account's port and at those of handlers, the Runtime API's at an environment's. It fails only if an
/// allocation fails.
pub fn refusal_reply(alloc: Global, port: Port, refusal: Refusal) -> Result<Reply, AllocError>
    ensures { IfOk result (λ reply. reply ≡ spec.refusal_reply port refusal) }
{
    match port {
        Port::Account | Port::Handled(_) => lambda_reply(alloc, refusal),
        Port::Environment(_) => runtime_reply(alloc, refusal),
    }
}
