//! A whole reply.

ghost use Rattle.std.specs.Prelude.{◌≡◌, Ok, IfOk, MatchResult};
ghost use Rattle.http_header.specs.FieldValue.{IsFieldValue};
ghost use Rattle.lambda_wire.specs.Replies as spec;

use crate::body_writer::{InvokeFault, write_fault, write_invoke_fault};
use crate::header_writer::{Headers, error_headers, json_headers};
use bytes::Bytes;
use std::alloc::{AllocError, Global};

/// What a client gets: a status code (RFC 9110, section 15), headers and a body.
#[derive(Drop)]
pub struct Reply {
    /// From 200 to 599.
    pub status: u16,
    /// All headers except those that the connection itself adds, such as `Content-Length` and `Date`.
    pub headers: Headers,
    /// Its bytes; empty if the reply has no body.
    pub body: Bytes,
}

impl Reply {
    /// Returns a reply with these headers and this body, if there was memory for both.
    ///
    /// The only error of this and the other functions is lack of memory.
    pub fn of(
        status: u16,
        headers: Result<Headers, AllocError>,
        body: Result<Vec<u8>, AllocError>,
    ) -> Result<Reply, AllocError>
        ensures status { IfOk result (λ r. r.status ≡ status) }
        ensures headers { IfOk result (λ r. headers ≡ Ok r.headers) }
        ensures body { IfOk result (λ r. MatchResult body (λ b. r.body ≡ b.items) (λ _. ⊥)) }
    {
        let (Ok(headers), Ok(body)) = (headers, body) else {
            return Err(AllocError);
        };
        Ok(Reply {
            status,
            headers,
            body: Bytes::from_vec(body)?,
        })
    }
}

/// A refusal on an environment's port: a message and its type.
pub fn fault_reply(
    alloc: Global,
    status: u16,
    message: &str,
    kind: &str,
) -> Result<Reply, AllocError>
    ensures { IfOk result (λ r. r ≡ spec.fault_reply status message.now kind.now) }
{
    let body = write_fault(alloc, message, kind);
    Reply::of(status, json_headers(alloc), body)
}

/// A refusal by the Lambda API before there is a request identifier: its type, the form of its
/// body and its message.
pub fn invoke_fault_reply(
    alloc: Global,
    status: u16,
    kind: &str,
    form: InvokeFault,
    message: &str,
) -> Result<Reply, AllocError>
    requires kind { IsFieldValue kind.now }
    ensures { IfOk result (λ r. r ≡ spec.invoke_fault_reply status kind.now form message.now) }
{
    let body = write_invoke_fault(alloc, form, message);
    Reply::of(status, error_headers(alloc, None, kind), body)
}
