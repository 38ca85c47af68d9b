//! A whole request.
ghost use Rattle.std.specs.Prelude.{◌≡◌};

use http::Method;
use std::marker::Model;

/// A request: its head, and its whole body.
#[derive(Debug, Drop)]
pub struct Request {
    method: Method,
    path: Vec<u8>,
    body: Vec<u8>,
    last: bool,
}

impl Model for Request {
    ghost use Rattle.registry_http.specs.RequestParts.{RequestParts};

    ghost Value = { RequestParts };

    ghost view = { λ a. record { method = a.method; path = a.path.items; body = a.body.items; last = a.last } };
}

impl Request {
    pub(crate) fn new(method: Method, path: Vec<u8>, body: Vec<u8>, last: bool) -> Request
        ensures { result ≡ record { method = method; path = path.items; body = body.items; last = last } }
    {
        Request {
            method,
            path,
            body,
            last,
        }
    }

    /// The method.
    pub fn method(&self) -> &Method
        ensures { result.now ≡ self.now.method }
    {
        &self.method
    }

    /// The target, whole.
    pub fn path(&self) -> &[u8]
        ensures { result.now ≡ self.now.path }
    {
        &self.path
    }

    /// The body. That of a GET is read too.
    pub fn body(&self) -> &[u8]
        ensures { result.now ≡ self.now.body }
    {
        &self.body
    }

    /// Whether the connection ends after this request, for its version or its Connection header.
    pub fn is_last(&self) -> bool
        ensures { result ≡ self.now.last }
    {
        self.last
    }
}
