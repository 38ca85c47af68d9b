//! Lines of JSON, with or without the stamp of their receipt.
ghost use Rattle.std.specs.Prelude.{◌≡◌, ◌≤◌, length, codes, IfOk, IsTrue};
ghost use Rattle.act_model.specs.WellFormed.{well_formed};
ghost use Rattle.act_json.specs.inner.Helpers.{widest};
ghost use Rattle.act_json.specs.Reading.{within, an_object};
ghost use Rattle.act_json.specs.Lines.{longest_line, stamp, sender, reference, item_line, stamped_line, json_of, item_of, stamped_of, ReadsAs};
ghost use Rattle.act_json.specs.inner.Parsing.{Parses};
ghost use Rattle.act_json.specs.inner.Values.{view, tree_of};
ghost use Rattle.json.specs.Value.{value_view};

use crate::Path;
use crate::reading::{an_object, member, number, only};
use crate::values::is_in_range;
use act_model::Item;
use gb_base::{Day, Stamp};
use json::{Error, Reader, Scratch, Value};
use std::alloc::Global;
use std::str;

/// Why a line is no item.
#[derive(Debug, Drop)]
pub enum LineFault {
    /// The line is no JSON.
    NotJson,
    /// The line is JSON outside the grammar of items; its first wrong path.
    NotItem(Path),
    /// No memory was found for the line's value.
    Memory,
}

/// How deep arrays and objects nest in a line, as in `serde_json`.
const MAX_DEPTH: usize = 127;

/// The sender, the reference and the item of an unstamped line, of at most 65,536 bytes.
/// The fault says that the line is no JSON, that it is no item and where it is wrong, or that
/// memory ran out.
///
/// ```
/// let line = br#"{"sender":1,"reference":2,"item":{"kind":"distribute","folio":7}}"#;
/// let (sender, reference, item) = read_item(alloc, line)?;
/// assert_eq!((sender, reference), (1, 2));
/// assert!(matches!(item, Item::Distribute { .. }));
/// ```
#[tactic(auto, unfolding(crate::specs::Lines::item_of))]
pub fn read_item(alloc: Global, line: &[u8]) -> Result<(u32, u64, Item), LineFault>
    requires { length line.now ≤ longest_line }
    ensures exact { ReadsAs result (item_of line.now) }
    ensures well_formed { IfOk result (λ found. IsTrue (well_formed found.2)) }
{
    let mut scratch = Scratch::new(alloc);
    let value = parse(alloc, line, &mut scratch)?;
    match item_line(&value) {
        Ok(found) => Ok(found),
        Err(path) => Err(LineFault::NotItem(path)),
    }
}

/// The stamp, the sender, the reference and the item of a stamped line, of at most 65,536 bytes.
/// The faults are those of [`read_item`].
///
/// ```
/// let line = br#"{"day":"2024-03-01","minute":540,"sender":1,"reference":2,"item":{"kind":"distribute","folio":0}}"#;
/// match read_stamped(alloc, line) {
///     Err(LineFault::NotItem(path)) => assert_eq!(path.text(), b"item.folio"),
///     _ => unreachable!(),
/// }
/// ```
#[tactic(auto, unfolding(crate::specs::Lines::stamped_of))]
pub fn read_stamped(alloc: Global, line: &[u8]) -> Result<(Stamp, u32, u64, Item), LineFault>
    requires { length line.now ≤ longest_line }
    ensures exact { ReadsAs result (stamped_of line.now) }
    ensures well_formed { IfOk result (λ found. IsTrue (well_formed found.3)) }
{
    let mut scratch = Scratch::new(alloc);
    let value = parse(alloc, line, &mut scratch)?;
    match stamped_line(&value) {
        Ok(found) => Ok(found),
        Err(path) => Err(LineFault::NotItem(path)),
    }
}

/// The JSON value that the bytes are. Its texts are borrowed from the line, and from `scratch` where
/// they have escapes.
#[tactic(auto, using(crate::proofs::WidestRead::widest_read, crate::proofs::WidestRead::utf8_tests))]
fn parse<'a>(
    alloc: Global,
    line: &'a [u8],
    scratch: &'a mut Scratch,
) -> Result<Value<'a>, LineFault>
    requires { length line.now ≤ longest_line }
    ensures exact { Parses view result (json_of line.now) }
    ensures narrow { IfOk result (λ value. widest (view value) ≤ 99999) }
{
    let Ok(text) = str::from_utf8(line) else {
        return Err(LineFault::NotJson);
    };
    let value = tree(alloc, text, scratch)?;
    if is_in_range(&value) {
        Ok(value)
    } else {
        Err(LineFault::NotJson)
    }
}

/// The tree that the text is, whether or not the numbers in it are in range.
fn tree<'a>(alloc: Global, text: &'a str, scratch: &'a mut Scratch) -> Result<Value<'a>, LineFault>
    ensures { Parses value_view result (tree_of text.now) }
{
    let Ok(mut reader) = Reader::new(text, scratch) else {
        return Err(LineFault::Memory);
    };
    match Value::read(alloc, &mut reader, MAX_DEPTH) {
        Ok(value) => {
            if reader.next().is_some() {
                Err(LineFault::NotJson)
            } else {
                Ok(value)
            }
        }
        Err(Error::Invalid) => Err(LineFault::NotJson),
        // The only other error here is that memory ran out.
        Err(_) => Err(LineFault::Memory),
    }
}

#[tactic(auto, unfolding(crate::specs::Lines::item_line))]
fn item_line(value: &Value<'_>) -> Result<(u32, u64, Item), Path>
    requires { widest (view value.now) ≤ 99999 }
    ensures exact { result ≡ item_line (view value.now) }
    ensures well_formed { IfOk result (λ found. IsTrue (well_formed found.2)) }
{
    line_object(value)?;
    let sender = sender(value)?;
    let reference = reference(value)?;
    let item = member(value, "item")?;
    only(value, &["sender", "reference", "item"])?;
    Ok((sender, reference, item))
}

#[tactic(auto, unfolding(crate::specs::Lines::stamped_line))]
fn stamped_line(value: &Value<'_>) -> Result<(Stamp, u32, u64, Item), Path>
    requires { widest (view value.now) ≤ 99999 }
    ensures exact { result ≡ stamped_line (view value.now) }
    ensures well_formed { IfOk result (λ found. IsTrue (well_formed found.3)) }
{
    line_object(value)?;
    let stamp = stamp(value)?;
    let sender = sender(value)?;
    let reference = reference(value)?;
    let item = member(value, "item")?;
    only(value, &["day", "minute", "sender", "reference", "item"])?;
    Ok((stamp, sender, reference, item))
}

/// The line is an object. Where it is none, the wrong path is `line`.
fn line_object(value: &Value<'_>) -> Result<(), Path>
    ensures { result ≡ within (codes "line") (an_object (view value.now)) }
{
    match an_object(value) {
        Ok(()) => Ok(()),
        Err(_) => Err(Path::of("line")),
    }
}

fn stamp(value: &Value<'_>) -> Result<Stamp, Path>
    requires { widest (view value.now) ≤ 99999 }
    ensures { result ≡ stamp (view value.now) }
{
    let day: Day = member(value, "day")?;
    if day.number() < Stamp::FIRST_DAY || Stamp::LAST_DAY < day.number() {
        return Err(Path::of("day"));
    }
    let minute = number(value, "minute", 0, 1_439)?;
    Ok(Stamp::new(day, minute as u16).unwrap())
}

fn sender(value: &Value<'_>) -> Result<u32, Path>
    ensures { result ≡ sender (view value.now) }
{
    let sender = number(value, "sender", 0, 4_294_967_295)?;
    Ok(sender as u32)
}

fn reference(value: &Value<'_>) -> Result<u64, Path>
    ensures { result ≡ reference (view value.now) }
{
    number(value, "reference", 0, u64::MAX)
}
