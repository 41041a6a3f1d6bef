//! The methods of a route, and the field `Allow` that lists them.

ghost use Rattle.std.specs.Prelude.{◌≡◌};
ghost use Rattle.http_routes.specs.Methods as spec;

use http_header::HeaderValue;

/// The methods of a route.
#[derive(Clone, Copy, Debug, PartialEq, Eq)]
pub enum Methods {
    /// GET alone.
    Get,
    /// POST alone.
    Post,
    /// DELETE and PUT.
    DeleteAndPut,
}

impl Methods {
    /// Returns whether this method is one of them.
    pub(crate) fn has(self, method: &str) -> bool
        ensures { result ≡ spec.is_among (spec.listed self) method.now }
    {
        match self {
            Methods::Get => method == "GET",
            Methods::Post => method == "POST",
            Methods::DeleteAndPut => method == "DELETE" || method == "PUT",
        }
    }

    /// Returns the value of the field `Allow` that lists them (RFC 9110, section 10.2.1).
    pub(crate) fn field(self) -> HeaderValue
        ensures { result ≡ spec.allow_field (spec.listed self) }
    {
        match self {
            Methods::Get => HeaderValue::from_static("GET"),
            Methods::Post => HeaderValue::from_static("POST"),
            Methods::DeleteAndPut => HeaderValue::from_static("DELETE, PUT"),
        }
    }
}
