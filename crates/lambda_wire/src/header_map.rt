//! The headers of replies as maps, which a response takes.

ghost use Rattle.std.specs.Prelude.{◌≡◌, ◌++◌, ◌∷◌, [], IfOk, IsTrue, OnOk, codes};
ghost use Rattle.http_header.specs.FieldName.{is_header_name};
ghost use Rattle.http_header.specs.FieldValue.{is_visible_text, plain_value};
ghost use Rattle.http_header.specs.HeaderMap.{append, insert, set_first};
ghost use Rattle.lambda_wire.specs.HeaderFields.{IsTemplate, fields, filled};
ghost use Rattle.lambda_wire.specs.HeaderSets.{listed};
ghost use Rattle.lambda_wire.specs.Headers.{json_headers};
ghost use Rattle.lambda_wire.specs.declared.header_set.HeaderSet.TheVariants as set;

use crate::header_set::HeaderSet;
use crate::header_writer::{Headers, NO_TRACE};
use http_header::{CONTENT_TYPE, HeaderMap, HeaderName, HeaderValue};
use std::alloc::{AllocError, Global};

/// A map of the headers of a set, and the names of those whose values differ from reply to reply, in
/// the order in which a reply gives the values.
#[derive(Drop)]
pub(crate) struct Template {
    map: HeaderMap,
    names: Vec<HeaderName>,
}

/// Adds a header to a map.
fn add(map: &mut HeaderMap, name: HeaderName, value: HeaderValue) -> Result<(), AllocError>
    ensures { OnOk result (map.new ≡ append map.old name value) }
{
    match map.append(name, value) {
        Ok(_) => Ok(()),
        Err(_) => Err(AllocError),
    }
}

/// Puts a value in place of all those of a name.
fn set(map: &mut HeaderMap, name: &HeaderName, value: HeaderValue) -> Result<(), AllocError>
    ensures { OnOk result (map.new ≡ insert map.old name.now value) }
{
    match map.insert(name, value) {
        Ok(_) => Ok(()),
        Err(_) => Err(AllocError),
    }
}

/// Puts a value in place of the first one of a name. (If the map has the name, this costs less than
/// an insertion.)
fn put(map: &mut HeaderMap, name: &HeaderName, value: HeaderValue) -> Result<(), AllocError>
    ensures { OnOk result (map.new ≡ set_first map.old name.now value) }
{
    if let Some(place) = map.get_mut(name) {
        *place = value;
        return Ok(());
    }
    set(map, name, value)
}

/// Puts values in place of the first ones of these names.
fn fill(
    map: HeaderMap,
    names: &[HeaderName],
    values: Vec<HeaderValue>,
) -> Result<HeaderMap, AllocError>
    ensures { IfOk result (λ m. m ≡ filled map names.now values.items) }
{
    let mut map = map;
    for (name, value) in names.iter().zip(values) {
        put(&mut map, name, value)?;
    }
    Ok(map)
}

impl Template {
    /// Has no headers.
    fn empty(alloc: Global) -> Template
        ensures map { result.map ≡ [] }
        ensures names { result.names.items ≡ [] }
    {
        Template {
            map: HeaderMap::new(alloc),
            names: Vec::new(alloc),
        }
    }

    /// Begins with `Content-Type`.
    fn of_type(alloc: Global, media_type: &'static str) -> Result<Template, AllocError>
        requires { IsTrue (is_visible_text media_type.now) }
        ensures map { IfOk result (λ t. t.map ≡ append [] (codes "content-type") (plain_value media_type.now)) }
        ensures names { IfOk result (λ t. t.names.items ≡ []) }
    {
        let mut map = HeaderMap::new(alloc);
        add(&mut map, CONTENT_TYPE, HeaderValue::from_static(media_type))?;
        Ok(Template {
            map,
            names: Vec::new(alloc),
        })
    }

    /// Adds a header whose value is the same in each reply.
    fn fixed(self, name: &'static str, text: &'static str) -> Result<Template, AllocError>
        requires name { IsTrue (is_header_name name.now) }
        requires text { IsTrue (is_visible_text text.now) }
        ensures map { IfOk result (λ t. t.map ≡ append self.map name.now (plain_value text.now)) }
        ensures names { IfOk result (λ t. t.names.items ≡ self.names.items) }
    {
        let Template { mut map, names } = self;
        add(
            &mut map,
            HeaderName::from_static(name),
            HeaderValue::from_static(text),
        )?;
        Ok(Template { map, names })
    }

    /// Adds a header whose value a reply may give, and the value that it otherwise has.
    fn varying(self, name: &'static str, otherwise: &'static str) -> Result<Template, AllocError>
        requires name { IsTrue (is_header_name name.now) }
        requires text { IsTrue (is_visible_text otherwise.now) }
        ensures map { IfOk result (λ t. t.map ≡ append self.map name.now (plain_value otherwise.now)) }
        ensures names { IfOk result (λ t. t.names.items ≡ self.names.items ++ name.now ∷ []) }
    {
        let Template { map, mut names } = self.fixed(name, otherwise)?;
        names.push(HeaderName::from_static(name))?;
        Ok(Template { map, names })
    }

    /// Returns its map with these values.
    fn copy_with(&self, values: Vec<HeaderValue>) -> Result<HeaderMap, AllocError>
        ensures { IfOk result (λ m. m ≡ filled self.now.map self.now.names.items values.items) }
    {
        fill(self.map.clone()?, self.names.as_slice(), values)
    }
}

/// Adds the headers of an invocation that a runtime gets.
fn delivery(json: Template) -> Result<Template, AllocError>
    requires fields { json.map ≡ fields json_headers }
    requires names { json.names.items ≡ [] }
    ensures { IfOk result (IsTemplate set.Delivery) }
{
    json.varying("lambda-runtime-aws-request-id", "")?
        .varying("lambda-runtime-deadline-ms", "")?
        .varying("lambda-runtime-invoked-function-arn", "")?
        .varying("lambda-runtime-trace-id", NO_TRACE)
}

/// Adds the headers of an invocation that ran.
fn outcome(json: Template) -> Result<Template, AllocError>
    requires fields { json.map ≡ fields json_headers }
    requires names { json.names.items ≡ [] }
    ensures { IfOk result (IsTemplate set.Outcome) }
{
    json.fixed("x-amz-executed-version", "$LATEST")?
        .varying("x-amzn-requestid", "")
}

/// Makes the template of a set.
fn template_of(alloc: Global, set: HeaderSet) -> Result<Template, AllocError>
    ensures { IfOk result (IsTemplate set) }
{
    match set {
        HeaderSet::Empty => return Ok(Template::empty(alloc)),
        HeaderSet::Text => return Template::of_type(alloc, "text/plain"),
        _ => {}
    }
    let json = Template::of_type(alloc, "application/json")?;
    match set {
        HeaderSet::Empty | HeaderSet::Json | HeaderSet::Text => Ok(json),
        HeaderSet::Delivery => delivery(json),
        HeaderSet::Event => json.varying("lambda-extension-event-identifier", ""),
        HeaderSet::Registration => json.varying("lambda-extension-identifier", ""),
        HeaderSet::Outcome => outcome(json),
        HeaderSet::Failure => outcome(json)?.fixed("x-amz-function-error", "Unhandled"),
        HeaderSet::Refusal => json.varying("x-amzn-errortype", ""),
        HeaderSet::RequestRefusal => json
            .varying("x-amzn-errortype", "")?
            .varying("x-amzn-requestid", ""),
        HeaderSet::Methods => json.varying("allow", ""),
    }
}

/// The templates of the sets that most replies have, made once.
#[derive(Drop)]
pub struct HeaderMaps {
    json: Template,
    delivery: Template,
    event: Template,
    outcome: Template,
    failure: Template,
    ghost json_is: { IsTemplate set.Json json },
    ghost delivery_is: { IsTemplate set.Delivery delivery },
    ghost event_is: { IsTemplate set.Event event },
    ghost outcome_is: { IsTemplate set.Outcome outcome },
    ghost failure_is: { IsTemplate set.Failure failure },
}

impl HeaderMaps {
    /// Makes the templates. It fails only if an allocation fails.
    pub fn open(alloc: Global) -> Result<HeaderMaps, AllocError> {
        Ok(HeaderMaps {
            json: template_of(alloc, HeaderSet::Json)?,
            delivery: template_of(alloc, HeaderSet::Delivery)?,
            event: template_of(alloc, HeaderSet::Event)?,
            outcome: template_of(alloc, HeaderSet::Outcome)?,
            failure: template_of(alloc, HeaderSet::Failure)?,
        })
    }

    /// Returns headers as a map, in their order. If they are of a set that most replies have, a copy
    /// of its template is filled in, which is cheaper than adding each. It fails only if an
    /// allocation fails.
    pub fn map_of(&self, alloc: Global, headers: Headers) -> Result<HeaderMap, AllocError>
        ensures { IfOk result (λ map. map ≡ fields headers) }
    {
        let (set, values) = headers.into_parts();
        match set {
            HeaderSet::Json => self.json.copy_with(values),
            HeaderSet::Delivery => self.delivery.copy_with(values),
            HeaderSet::Event => self.event.copy_with(values),
            HeaderSet::Outcome => self.outcome.copy_with(values),
            HeaderSet::Failure => self.failure.copy_with(values),
            HeaderSet::Empty
            | HeaderSet::Text
            | HeaderSet::Registration
            | HeaderSet::Refusal
            | HeaderSet::RequestRefusal
            | HeaderSet::Methods => new_map(alloc, set, values),
        }
    }
}

/// Makes a map of the headers of a set with these values.
fn new_map(alloc: Global, set: HeaderSet, values: Vec<HeaderValue>) -> Result<HeaderMap, AllocError>
    ensures { IfOk result (λ map. map ≡ fields (listed set values.items)) }
{
    let Template { map, names } = template_of(alloc, set)?;
    fill(map, names.as_slice(), values)
}

impl Headers {
    /// Returns the headers as a map, in their order. It fails only if an allocation fails.
    pub fn to_map(&self, alloc: Global) -> Result<HeaderMap, AllocError>
        ensures { IfOk result (λ map. map ≡ fields self.now) }
    {
        let (set, values) = self.copy()?.into_parts();
        new_map(alloc, set, values)
    }
}
