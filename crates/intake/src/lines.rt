//! One line of an input: what it asks.
ghost use Rattle.std.specs.Prelude.{◌≡◌, ◌≤◌, ◌==◌, ◌||◌, ◌++◌, ◌≢◌, codes, length, IfOk, IsTrue};
ghost use Rattle.act_json.specs.Lines.{longest_line, item_of, stamped_of};
ghost use Rattle.intake.specs.Lines.{is_blank, fault_text, request_of_line, request_of_stamped, request_of_plain};
ghost use Rattle.intake_requests.specs.Asking.{asks_well};

use crate::words::malformed_line;
use act_json::{LineFault, read_item, read_stamped};
use gb_base::NoMemory;
use intake_requests::{Reply, Request, SenderReference};
use std::alloc::{AllocError, Global};

/// The most bytes of a line.
const MAX_LINE: usize = 1 << 16;

/// Whether the lines of an input have their stamps.
#[derive(Clone, Copy, Debug, PartialEq, Eq)]
pub enum LineKind {
    /// Each item has its stamp.
    Stamped,
    /// The clock stamps the items.
    Unstamped,
}

/// What a line asks. It may run out of memory (NoMemory).
#[tactic(auto, unfolding(crate::specs::Lines::request_of_line))]
pub fn request_of_line(alloc: Global, kind: LineKind, line: &[u8]) -> Result<Request, NoMemory>
    ensures value { IfOk result (λ request. request ≡ request_of_line kind line.now) }
    ensures well_formed { IfOk result (λ request. IsTrue (asks_well request)) }
{
    if is_blank(line) {
        return Ok(Request::Nothing);
    }
    if line.len() > MAX_LINE {
        return Request::refused(alloc, b"malformed length\n");
    }
    match kind {
        LineKind::Stamped => request_of_stamped(alloc, line),
        LineKind::Unstamped => request_of_plain(alloc, line),
    }
}

/// Whether the line has nothing but spaces, tabs and carriage returns.
fn is_blank(line: &[u8]) -> bool
    ensures { result ≡ is_blank line.now }
{
    line.iter()
        .all(|byte| *byte == b' ' || *byte == b'\t' || *byte == b'\r')
}

/// What a line with its stamp asks.
fn request_of_stamped(alloc: Global, line: &[u8]) -> Result<Request, NoMemory>
    requires { length line.now ≤ longest_line }
    ensures value { IfOk result (λ request. request ≡ request_of_stamped (stamped_of line.now)) }
    ensures well_formed { IfOk result (λ request. IsTrue (asks_well request)) }
{
    match read_stamped(alloc, line) {
        Ok((stamp, sender, reference, item)) => {
            let from = SenderReference { sender, reference };
            let stamp = Some(stamp);
            Ok(Request::Receive { stamp, from, item })
        }
        Err(fault) => fault_line(alloc, &fault),
    }
}

/// What a line asks that the clock stamps.
fn request_of_plain(alloc: Global, line: &[u8]) -> Result<Request, NoMemory>
    requires { length line.now ≤ longest_line }
    ensures value { IfOk result (λ request. request ≡ request_of_plain (item_of line.now)) }
    ensures well_formed { IfOk result (λ request. IsTrue (asks_well request)) }
{
    match read_item(alloc, line) {
        Ok((sender, reference, item)) => {
            let from = SenderReference { sender, reference };
            let stamp = None;
            Ok(Request::Receive { stamp, from, item })
        }
        Err(fault) => fault_line(alloc, &fault),
    }
}

/// A line that is no item is refused.
fn fault_line(alloc: Global, fault: &LineFault) -> Result<Request, NoMemory>
    ensures value { IfOk result (λ request. (request ≡ Request.Refused (fault_text fault.now ++ codes "\n")) × (fault.now ≢ LineFault.Memory)) }
{
    match fault {
        LineFault::NotJson => Request::refused(alloc, b"malformed json\n"),
        LineFault::NotItem(path) => {
            let text = malformed_line(alloc, path.text())?;
            Ok(Request::Refused(Reply::new(text)))
        }
        LineFault::Memory => Err(AllocError),
    }
}
