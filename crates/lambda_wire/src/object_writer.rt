//! The writer of JSON objects, member by member, in any order of the names.

ghost use Rattle.std.specs.Prelude.{ℕ, ◌≡◌, false, List, IfOk, option_map};
ghost use Rattle.serde_json.specs.Data.{Members, no_members, put, string, number, unsigned, array, object};
ghost use Rattle.serde_json.specs.View.{view, items_view};
ghost use Rattle.serde_json.specs.Written.{has_float, compact_text};
ghost use Rattle.lambda_wire.specs.Objects.{Holds, put_if_any};
ghost use Rattle.lambda_wire.specs.Ranges.{IsReservedInRange};

use serde_json::{Map, Value};
use std::alloc::{AllocError, Global};

/// The members of an object so far. If memory runs out, that is noted and reported at the end: a `?` for
/// each member would be expensive to prove.
#[derive(Drop)]
pub(crate) struct ObjectWriter {
    alloc: Global,
    members: Map<String, Value>,
    is_cut: bool,
}

impl ObjectWriter {
    /// Returns an object without members.
    pub(crate) fn new(alloc: Global) -> ObjectWriter
        ensures { Holds result no_members }
    {
        ObjectWriter {
            alloc,
            members: Map::new(alloc),
            is_cut: false,
        }
    }

    /// Adds a member.
    pub(crate) fn value(self, name: &str, value: Value) -> ObjectWriter
        ensures { (before : Members) → Holds self before → Holds result (put name.now (view value) before) }
    {
        let ObjectWriter {
            alloc,
            mut members,
            is_cut,
        } = self;
        let is_cut = serde_json::put(&mut members, alloc, name, value).is_err() || is_cut;
        ObjectWriter {
            alloc,
            members,
            is_cut,
        }
    }

    /// Adds a member that is a text.
    pub(crate) fn text(self, name: &str, text: &str) -> ObjectWriter
        ensures { (before : Members) → Holds self before → Holds result (put name.now (string text.now) before) }
    {
        match Value::try_from_str(self.alloc, text) {
            Ok(value) => self.value(name, value),
            Err(_) => self.cut(),
        }
    }

    /// Adds a member that is a text, if there is one.
    pub(crate) fn text_if_any(self, name: &str, text: Option<&str>) -> ObjectWriter
        ensures { (before : Members) → Holds self before
            → Holds result (put_if_any name.now (option_map string (option_map (λ t. t.now) text.entry)) before) }
    {
        match text {
            None => self,
            Some(text) => self.text(name, text),
        }
    }

    /// Adds a member that is a whole number.
    pub(crate) fn number(self, name: &str, count: u64) -> ObjectWriter
        ensures { (before : Members) → Holds self before
            → Holds result (put name.now (number (unsigned count)) before) }
    {
        self.value(name, Value::from(count))
    }

    /// Adds a member that is a whole number, if there is one.
    pub(crate) fn number_if_any(self, name: &str, count: Option<u32>) -> ObjectWriter
        ensures members { (before : Members) → Holds self before
            → Holds result (put_if_any name.now (option_map (λ n. number (unsigned n)) count) before) }
        ensures in_range { IsReservedInRange count }
    {
        match count {
            None => self,
            Some(count) => self.number(name, count as u64),
        }
    }

    /// Adds a member that is a list.
    pub(crate) fn list(self, name: &str, values: Vec<Value>) -> ObjectWriter
        ensures { (before : Members) → Holds self before
            → Holds result (put name.now (array (items_view values.items)) before) }
    {
        self.value(name, Value::Array(values))
    }

    /// Adds a member that is an object.
    pub(crate) fn object(self, name: &str, inner: ObjectWriter) -> ObjectWriter
        ensures { (before inside : Members) → Holds self before → Holds inner inside
            → Holds result (put name.now (object inside) before) }
    {
        match inner.into_value() {
            Ok(value) => self.value(name, value),
            Err(_) => self.cut(),
        }
    }

    /// Notes that memory ran out.
    fn cut(self) -> ObjectWriter
        ensures { (members : Members) → Holds result members }
    {
        ObjectWriter {
            is_cut: true,
            ..self
        }
    }

    /// Returns the object. The only error is lack of memory.
    pub(crate) fn into_value(self) -> Result<Value, AllocError>
        ensures { (members : Members) → Holds self members → IfOk result (λ v. view v ≡ object members) }
    {
        if self.is_cut {
            return Err(AllocError);
        }
        Ok(Value::Object(self.members))
    }
    /// Returns the object as compact JSON. The only error is lack of memory.
    pub(crate) fn into_vec(self) -> Result<Vec<u8>, AllocError>
        ensures { (members : Members) (text : List ℕ) → Holds self members → has_float (object members) ≡ false
            → compact_text (object members) ≡ text → IfOk result (λ b. b.items ≡ text) }
    {
        let alloc = self.alloc;
        self.into_value()?.to_vec(alloc)
    }
}
