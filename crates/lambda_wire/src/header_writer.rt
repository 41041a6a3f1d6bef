//! The headers of replies.

ghost use Rattle.std.specs.Prelude.{◌≡◌, decimal, IfOk, MatchOption, option_map, unwrap_or, string_bytes};
ghost use Rattle.std.specs.Prelude.{◌∷◌, ◌++◌, []};
ghost use Rattle.lambda_wire.specs.declared.header_set.HeaderSet.TheVariants.{Delivery as delivered};
ghost use Rattle.http_header.specs.FieldValue.{IsFieldValue, plain_value};
ghost use Rattle.lambda_wire.specs.HeaderSets.{listed};
ghost use Rattle.lambda_wire.specs.Headers as spec;

use crate::header_set::HeaderSet;
use bytes::Bytes;
use http_header::HeaderValue;
use std::alloc::{AllocError, Global};
use std::marker::Model;

/// The headers of a reply, in the order in which they are written.
#[derive(Drop)]
pub struct Headers {
    set: HeaderSet,
    // The values that differ from reply to reply, in the order of their names.
    values: Vec<HeaderValue>,
}

impl Model for Headers {
    ghost use Rattle.std.specs.Prelude.{ℕ, List};
    ghost use Rattle.http_header.specs.FieldValue.{FieldValue};
    ghost use Rattle.lambda_wire.specs.HeaderSets.{listed};

    ghost Value = { List (List ℕ × FieldValue) };

    ghost view = { λ headers. listed headers.set headers.values.items };
}

impl Headers {
    /// Returns the set, and the values that are given.
    pub(crate) fn into_parts(self) -> (HeaderSet, Vec<HeaderValue>)
        ensures { self ≡ listed result.0 result.1.items }
    {
        let Headers { set, values } = self;
        (set, values)
    }

    /// Returns the same headers once more.
    pub(crate) fn copy(&self) -> Result<Headers, AllocError>
        ensures { IfOk result (λ copy. copy ≡ self.now) }
    {
        Ok(Headers {
            set: self.set,
            values: self.values.clone()?,
        })
    }
}

/// Returns a text that is a header's value.
fn value(alloc: Global, text: &str) -> Result<HeaderValue, AllocError>
    requires { IsFieldValue text.now }
    ensures { IfOk result (λ v. v ≡ plain_value text.now) }
{
    match Bytes::copy_from_slice(alloc, text.as_bytes()) {
        Ok(bytes) => Ok(HeaderValue::from_known_valid(bytes)),
        Err(_) => Err(AllocError),
    }
}

/// Returns the headers of a set of whose values one differs.
fn with_one(alloc: Global, set: HeaderSet, value: HeaderValue) -> Result<Headers, AllocError>
    ensures { IfOk result (λ h. h ≡ listed set (value ∷ [])) }
{
    let mut values = Vec::with_capacity(alloc, 1)?;
    values.push(value)?;
    Ok(Headers { set, values })
}

/// No headers, as a reply without a body has.
pub fn no_headers(alloc: Global) -> Headers
    ensures { result ≡ [] }
{
    Headers {
        set: HeaderSet::Empty,
        values: Vec::new(alloc),
    }
}

/// The headers of every reply with a body: `Content-Type: application/json`.
///
/// The only error of this and the other functions is lack of memory.
pub fn json_headers(alloc: Global) -> Result<Headers, AllocError>
    ensures { IfOk result (λ h. h ≡ spec.json_headers) }
{
    Ok(Headers {
        set: HeaderSet::Json,
        values: Vec::new(alloc),
    })
}

/// The headers of a text: `Content-Type: text/plain`.
pub fn text_headers(alloc: Global) -> Result<Headers, AllocError>
    ensures { IfOk result (λ h. h ≡ spec.text_headers) }
{
    Ok(Headers {
        set: HeaderSet::Text,
        values: Vec::new(alloc),
    })
}

/// The headers of a refusal that lists the methods of a route (RFC 9110, section 15.5.6).
pub fn method_headers(alloc: Global, methods: HeaderValue) -> Result<Headers, AllocError>
    ensures { IfOk result (λ h. h ≡ spec.method_headers methods) }
{
    with_one(alloc, HeaderSet::Methods, methods)
}

/// The trace of an invocation whose caller gave none.
pub const NO_TRACE: &str = "Root=1-00000000-000000000000000000000000;Sampled=0";

/// The texts of a delivery's headers. They share one memory.
#[derive(Drop)]
struct DeliveryTexts {
    request: Bytes,
    deadline: Bytes,
    arn: Bytes,
}

/// Puts the other texts of a delivery behind its ARN, and parts the whole.
fn delivery_texts(request: &str, deadline: u64, arn: String) -> Result<DeliveryTexts, AllocError>
    ensures request { IfOk result (λ texts. texts.request ≡ request.now) }
    ensures deadline { IfOk result (λ texts. texts.deadline ≡ decimal deadline) }
    ensures arn { IfOk result (λ texts. texts.arn ≡ string_bytes arn) }
{
    let mut text = arn;
    let request_start = text.len();
    text.push_str(request)?;
    let deadline_start = text.len();
    write!(text, "{deadline}")?;
    let mut arn = Bytes::from_string(text)?;
    let deadline = arn.split_off(deadline_start)?;
    let request = arn.split_off(request_start)?;
    Ok(DeliveryTexts {
        request,
        deadline,
        arn,
    })
}

/// Returns the headers of a delivery whose caller gave a trace, after the other values.
fn with_trace(alloc: Global, values: Vec<HeaderValue>, trace: &str) -> Result<Headers, AllocError>
    requires { IsFieldValue trace.now }
    ensures { IfOk result (λ h. h ≡ listed delivered (values.items ++ plain_value trace.now ∷ [])) }
{
    let mut values = values;
    values.push(value(alloc, trace)?)?;
    Ok(Headers {
        set: HeaderSet::Delivery,
        values,
    })
}

/// The headers of a delivery: the request identifier, when the invocation times out, in
/// milliseconds, the invoked ARN, and the trace or its default (Runtime API, Next invocation). The
/// first three are put into the memory of the ARN.
#[tactic(auto, unfolding(crate::specs::Headers::next_headers))]
pub fn next_headers(
    alloc: Global,
    request: &str,
    deadline: u64,
    arn: String,
    trace: Option<&str>,
) -> Result<Headers, AllocError>
    requires request { IsFieldValue request.now }
    requires arn { IsFieldValue (string_bytes arn) }
    requires trace { MatchOption trace Unit (λ t. IsFieldValue t.now) }
    ensures { IfOk result (λ h. h ≡ spec.next_headers request.now deadline (string_bytes arn)
        (unwrap_or (option_map (λ t. t.now) trace.entry) spec.no_trace)) }
{
    let texts = delivery_texts(request, deadline, arn)?;
    let mut values = Vec::with_capacity(alloc, 4)?;
    values.push(HeaderValue::from_known_valid(texts.request))?;
    values.push(HeaderValue::from_known_valid(texts.deadline))?;
    values.push(HeaderValue::from_known_valid(texts.arn))?;
    if let Some(trace) = trace {
        return with_trace(alloc, values, trace);
    }
    Ok(Headers {
        set: HeaderSet::Delivery,
        values,
    })
}

/// The headers of an extension's event (Extensions API, Next).
#[tactic(auto, unfolding(crate::specs::Headers::event_headers))]
pub fn event_headers(alloc: Global, event: &str) -> Result<Headers, AllocError>
    requires event { IsFieldValue event.now }
    ensures { IfOk result (λ h. h ≡ spec.event_headers event.now) }
{
    with_one(alloc, HeaderSet::Event, value(alloc, event)?)
}

/// The headers of an extension's registration (Extensions API, Register).
#[tactic(auto, unfolding(crate::specs::Headers::registered_headers))]
pub fn registered_headers(alloc: Global, extension: &str) -> Result<Headers, AllocError>
    requires extension { IsFieldValue extension.now }
    ensures { IfOk result (λ h. h ≡ spec.registered_headers extension.now) }
{
    with_one(alloc, HeaderSet::Registration, value(alloc, extension)?)
}

/// The headers of an invocation that ran, and whether it failed (Lambda API, Invoke: Response
/// Elements).
#[tactic(auto, unfolding(crate::specs::Headers::invoke_headers))]
pub fn invoke_headers(alloc: Global, request: &str, failed: bool) -> Result<Headers, AllocError>
    requires request { IsFieldValue request.now }
    ensures { IfOk result (λ h. h ≡ spec.invoke_headers request.now failed) }
{
    let set = if failed {
        HeaderSet::Failure
    } else {
        HeaderSet::Outcome
    };
    with_one(alloc, set, value(alloc, request)?)
}

/// The headers of a refusal by the Lambda API: its type, and the request identifier if there is
/// one (Lambda API, Invoke: Errors).
#[tactic(auto, unfolding(crate::specs::Headers::error_headers))]
pub fn error_headers(
    alloc: Global,
    request: Option<&str>,
    kind: &str,
) -> Result<Headers, AllocError>
    requires request { MatchOption request Unit (λ r. IsFieldValue r.now) }
    requires kind { IsFieldValue kind.now }
    ensures { IfOk result (λ h. h ≡ spec.error_headers (option_map (λ r. r.now) request.entry) kind.now) }
{
    let kind = value(alloc, kind)?;
    let Some(request) = request else {
        return with_one(alloc, HeaderSet::Refusal, kind);
    };
    let mut values = Vec::with_capacity(alloc, 2)?;
    values.push(kind)?;
    values.push(value(alloc, request)?)?;
    Ok(Headers {
        set: HeaderSet::RequestRefusal,
        values,
    })
}
