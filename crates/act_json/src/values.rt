//! JSON values as trees whose texts are borrowed from the line, and what they say.
//! Why so: docs/DECISIONS.md, "Lines are read as trees that borrow".
ghost use Rattle.std.specs.Prelude.{◌≡◌, option_map, option_and_then};
ghost use Rattle.json.specs.Value.{value_view, items_view as items_of, members_view as members_of};
ghost use Rattle.serde_json.specs.Find.{get, as_array, as_number, as_str, as_u64};
ghost use Rattle.act_json.specs.inner.Values.{view, items_view, in_range, items_in_range, members_in_range};

use crate::numerals;
use json::Value;

/// The member of this name. Where several have it, the last one counts.
pub(crate) fn named<'v, 'a>(value: &'v Value<'a>, name: &str) -> Option<&'v Value<'a>>
    ensures { option_map (λ v. view v.now) result ≡ get name.now (view value.now) }
{
    value.get(name)
}

/// The elements of an array.
pub(crate) fn elements<'v, 'a>(value: &'v Value<'a>) -> Option<&'v [Value<'a>]>
    ensures { option_map (λ list. items_view list.now) result ≡ as_array (view value.now) }
{
    match value {
        Value::Array(list) => Some(list.as_slice()),
        _ => None,
    }
}

/// A string.
pub(crate) fn string<'a>(value: &Value<'a>) -> Option<&'a str>
    ensures { option_map (λ s. s.now) result ≡ as_str (view value.now) }
{
    value.as_str()
}

/// A number without sign, fraction and exponent, of at most 64 bits.
pub(crate) fn whole_number(value: &Value<'_>) -> Option<u64>
    ensures { result ≡ option_and_then as_u64 (as_number (view value.now)) }
{
    match value {
        Value::Number(text) => numerals::whole(text.as_bytes()),
        _ => None,
    }
}

/// Whether each number in the value is in range. Where one is not, the line counts as no JSON.
#[cycle(in_range)]
pub(crate) fn is_in_range(value: &Value<'_>) -> bool
    ensures { result ≡ in_range (value_view value.now) }
{
    match value {
        Value::Number(text) => numerals::is_in_range(text.as_bytes()),
        Value::Array(list) => are_in_range(list.as_slice()),
        Value::Object(members) => are_members_in_range(members.as_slice()),
        _ => true,
    }
}

#[cycle(in_range)]
fn are_in_range(items: &[Value<'_>]) -> bool
    ensures { result ≡ items_in_range (items_of items.now) }
{
    for item in items {
        if !is_in_range(item) {
            return false;
        }
    }
    true
}

#[cycle(in_range)]
fn are_members_in_range(members: &[(&str, Value<'_>)]) -> bool
    ensures { result ≡ members_in_range (members_of members.now) }
{
    for member in members {
        if !is_in_range(&member.1) {
            return false;
        }
    }
    true
}
