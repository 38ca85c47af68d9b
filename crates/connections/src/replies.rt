//! Replies.
ghost use Rattle.std.specs.Prelude.{◌≡◌, IfOk, OnErr, option_map};
ghost use Rattle.connections.specs.Answers.{text_reply};
ghost use Rattle.connections.specs.Replies.{bad_request, body_too_long, disk_failed, not_a_journal, not_found, out_of_memory, wrong_method};
ghost use Rattle.connections.specs.inner.Taking.{IsReplyTo, IsReplyToFault, opening_reply, unrouted_reply};

use crate::bodies::Body;
use act_json::LineFault;
use gb_base::NoMemory;
use http::StatusCode;
use intake::{malformed_line, received_line};
use receipt_journal::{BookFault, Received};
use registry_http::RouteFault;
use std::alloc::Global;
use std::marker::Model;

/// A reply: a status, and a body.
#[derive(Debug, Drop)]
pub struct Reply {
    status: StatusCode,
    body: Body,
}

impl Model for Reply {
    ghost use Rattle.connections.specs.Replies.{ReplyParts};
    ghost use Rattle.connections.specs.inner.ReplyBodies.{bytes_in};

    ghost Value = { ReplyParts };

    ghost view = { λ a. record { status = a.status; body = bytes_in a.body } };
}

impl Reply {
    /// The status.
    pub fn status(&self) -> StatusCode
        ensures { result ≡ self.now.status }
    {
        self.status
    }

    /// The body.
    pub fn body(&self) -> &[u8]
        ensures { result.now ≡ self.now.body }
    {
        match &self.body {
            Body::Words(words) => words.as_bytes(),
            Body::Text(text) => text.as_slice(),
        }
    }

    /// No route has the path, or nothing of that name is there.
    fn not_found() -> Reply
        ensures { result ≡ not_found }
    {
        Reply::words(StatusCode::NOT_FOUND, "not found\n")
    }

    /// A route has the path, with another method.
    fn wrong_method() -> Reply
        ensures { result ≡ wrong_method }
    {
        Reply::words(StatusCode::METHOD_NOT_ALLOWED, "method not allowed\n")
    }

    /// The disk failed.
    fn disk_failed() -> Reply
        ensures { result ≡ disk_failed }
    {
        Reply::words(StatusCode::SERVICE_UNAVAILABLE, "service unavailable\n")
    }

    /// The file is no journal, or has a bad record.
    fn not_a_journal() -> Reply
        ensures { result ≡ not_a_journal }
    {
        Reply::words(StatusCode::INTERNAL_SERVER_ERROR, "not a journal\n")
    }

    /// The bytes begin no head, or one that is refused.
    pub(crate) fn bad_request() -> Reply
        ensures { result ≡ bad_request }
    {
        Reply::words(StatusCode::BAD_REQUEST, "bad request\n")
    }

    /// The head announces too long a body.
    pub(crate) fn body_too_long() -> Reply
        ensures { result ≡ body_too_long }
    {
        Reply::words(StatusCode::PAYLOAD_TOO_LARGE, "payload too large\n")
    }

    /// No memory was found. This reply needs none.
    pub(crate) fn out_of_memory() -> Reply
        ensures { result ≡ out_of_memory }
    {
        Reply::words(StatusCode::INSUFFICIENT_STORAGE, "insufficient storage\n")
    }

    /// The reply to a request that has no route.
    pub(crate) fn unrouted(fault: RouteFault) -> Reply
        ensures { result ≡ unrouted_reply fault }
    {
        match fault {
            RouteFault::NotFound => Reply::not_found(),
            RouteFault::WrongMethod => Reply::wrong_method(),
            RouteFault::Memory => Reply::out_of_memory(),
        }
    }

    /// The reply to a body that is no item.
    pub(crate) fn malformed(alloc: Global, fault: &LineFault) -> Reply
        ensures { IsReplyToFault fault.now result }
    {
        match fault {
            LineFault::NotJson => Reply::words(StatusCode::BAD_REQUEST, "malformed json\n"),
            LineFault::NotItem(path) => {
                Reply::text(
                    StatusCode::UNPROCESSABLE_ENTITY,
                    malformed_line(alloc, path.text()),
                )
            }
            LineFault::Memory => Reply::out_of_memory(),
        }
    }

    /// The reply to a request for which no book was opened.
    pub(crate) fn unopened(fault: &BookFault) -> Reply
        ensures { result ≡ opening_reply fault.now }
    {
        match fault {
            BookFault::Disk => Reply::disk_failed(),
            BookFault::NotJournal | BookFault::BadRecord { .. } => Reply::not_a_journal(),
            BookFault::Memory => Reply::out_of_memory(),
        }
    }

    /// The reply to a read that found this text, or none.
    pub(crate) fn read(text: Result<Option<Vec<u8>>, NoMemory>) -> Reply
        ensures found { IfOk text (λ found. result ≡ text_reply (option_map (λ t. t.items) found)) }
        ensures fault { OnErr text (result ≡ out_of_memory) }
    {
        match text {
            Ok(Some(text)) => Reply {
                status: StatusCode::OK,
                body: Body::Text(text),
            },
            Ok(None) => Reply::not_found(),
            Err(_) => Reply::out_of_memory(),
        }
    }

    /// The reply to an item. Where no memory is found for its words, it says that.
    pub(crate) fn received(alloc: Global, answer: Received) -> Reply
        ensures { IsReplyTo answer result }
    {
        match answer {
            Received::Accepted(_) => Reply::text(StatusCode::CREATED, received_line(alloc, answer)),
            Received::Repeated(_) => Reply::text(StatusCode::OK, received_line(alloc, answer)),
            Received::Differs(_) => Reply::text(StatusCode::CONFLICT, received_line(alloc, answer)),
            // It has no number, so that its words take no memory.
            Received::Full => Reply::words(StatusCode::FORBIDDEN, "full\n"),
            Received::Disk | Received::MustReopen => Reply::disk_failed(),
            Received::Memory => Reply::out_of_memory(),
        }
    }

    /// A reply of these words.
    fn words(status: StatusCode, words: &'static str) -> Reply
        ensures { result ≡ record { status = status; body = words.now } }
    {
        Reply {
            status,
            body: Body::Words(words),
        }
    }

    /// A reply of this text, unless no memory was found for it.
    fn text(status: StatusCode, text: Result<Vec<u8>, NoMemory>) -> Reply
        ensures found { IfOk text (λ text. result ≡ record { status = status; body = text.items }) }
        ensures fault { OnErr text (result ≡ out_of_memory) }
    {
        match text {
            Ok(text) => Reply {
                status,
                body: Body::Text(text),
            },
            Err(_) => Reply::out_of_memory(),
        }
    }
}
