//! What a JSON value is read as, and the members of an object.
ghost use Rattle.std.specs.Prelude.{◌≡◌, ◌+◌, ◌<◌, ◌≤◌, [], length, map, None, Some, MatchResult, IfErr, IfOk, IsTrue, ◌++◌, ◌||◌};
ghost use Rattle.std.specs.List.{list_all};
ghost use Rattle.serde_json.specs.Find.{get};
ghost use Rattle.act_json.specs.inner.Values.{view};
ghost use Rattle.act_json.specs.Reading.{an_object, member, optional, only, read_whole, truth, kind_word};
ghost use Rattle.act_json.specs.inner.Helpers.{widest, among};

use crate::Path;
use crate::values::{named, whole_number};
use json::Value;

/// What stands in a line as a JSON value.
pub(crate) trait FromJson: Drop {
    ghost use Rattle.std.specs.Prelude.{◌≡◌, ◌≤◌, ℕ, List, Bool, true, length, Result, IfErr, IfOk, IsTrue};
    ghost use Rattle.serde_json.specs.Data.{Data};
    ghost use Rattle.act_json.specs.inner.Values.{view};
    ghost use Rattle.act_json.specs.inner.Helpers.{widest};

    // What the grammar reads.
    ghost reads: { Data → Result Self (List ℕ) };

    // The most bytes of a wrong path inside the value.
    ghost longest: { ℕ };

    // The ranges and rules that each value keeps that was read.
    ghost keeps: { Self → Bool } = { λ _. true };

    fn read(value: &Value<'_>) -> Result<Self, Path>
        requires { widest (view value.now) ≤ 99999 }
        ensures exact { result ≡ reads (view value.now) }
        ensures short { IfErr result (λ path. length path ≤ longest) }
        ensures good { IfOk result (λ x. IsTrue (keeps x)) };
}

/// The member of this name, which has to be there.
#[tactic(auto, using(crate::proofs::Narrow::widest_member))]
pub(crate) fn member<T: FromJson>(value: &Value<'_>, name: &str) -> Result<T, Path>
    requires narrow { widest (view value.now) ≤ 99999 }
    requires short { length name.now + T.longest < 32 }
    ensures exact { result ≡ member name.now T.reads (view value.now) }
    ensures short { IfErr result (λ path. length path ≤ length name.now + 1 + T.longest) }
    ensures good { IfOk result (λ x. IsTrue (T.keeps x)) }
{
    let found = found(value, name)?;
    match T::read(found) {
        Ok(x) => Ok(x),
        Err(path) => Err(path.below(name)),
    }
}

/// The member of this name, where it is there.
#[tactic(auto, using(crate::proofs::Narrow::widest_member))]
pub(crate) fn optional<T: FromJson>(value: &Value<'_>, name: &str) -> Result<Option<T>, Path>
    requires narrow { widest (view value.now) ≤ 99999 }
    requires short { length name.now + T.longest < 32 }
    ensures exact { result ≡ optional name.now T.reads (view value.now) }
    ensures short { IfErr result (λ path. length path ≤ length name.now + 1 + T.longest) }
{
    let Some(found) = named(value, name) else {
        return Ok(None);
    };
    match T::read(found) {
        Ok(x) => Ok(Some(x)),
        Err(path) => Err(path.below(name)),
    }
}

/// The member of this name, a whole number from `low` to `high`.
pub(crate) fn number(value: &Value<'_>, name: &str, low: u64, high: u64) -> Result<u64, Path>
    requires { length name.now < 32 }
    ensures exact { result ≡ member name.now (read_whole low high) (view value.now) }
    ensures short { IfErr result (λ path. length path ≤ length name.now) }
    ensures in_range { IfOk result (λ n. (low ≤ n) × (n ≤ high)) }
{
    let number = found(value, name)?;
    match read_whole(number, low, high) {
        Ok(n) => Ok(n),
        Err(_) => Err(Path::of(name)),
    }
}

/// A whole number from `low` to `high`.
pub(crate) fn read_whole(value: &Value<'_>, low: u64, high: u64) -> Result<u64, Path>
    ensures exact { result ≡ read_whole low high (view value.now) }
    ensures short { IfErr result (λ path. path ≡ []) }
    ensures in_range { IfOk result (λ n. (low ≤ n) × (n ≤ high)) }
{
    match whole_number(value) {
        Some(n) if low <= n && n <= high => Ok(n),
        _ => Err(Path::here()),
    }
}

impl FromJson for bool {
    ghost use Rattle.act_json.specs.Reading.{truth};

    ghost reads = { truth };

    ghost longest = { 0 };

    fn read(value: &Value<'_>) -> Result<bool, Path> {
        value.as_bool().ok_or(Path::here())
    }
}

fn found<'v, 'a>(value: &'v Value<'a>, name: &str) -> Result<&'v Value<'a>, Path>
    requires { length name.now < 32 }
    ensures { MatchResult result (λ v. get name.now (view value.now) ≡ Some (view v.now))
        (λ path. (path ≡ name.now) × (get name.now (view value.now) ≡ None)) }
{
    match named(value, name) {
        Some(member) => Ok(member),
        None => Err(Path::of(name)),
    }
}

/// The value is an object.
pub(crate) fn an_object(value: &Value<'_>) -> Result<(), Path>
    ensures exact { result ≡ an_object (view value.now) }
    ensures short { IfErr result (λ path. path ≡ []) }
{
    match value {
        Value::Object(_) => Ok(()),
        _ => Err(Path::here()),
    }
}

/// The word by which an object says its kind, in the member of this name.
pub(crate) fn kind_word<W: FromJson>(value: &Value<'_>, name: &str) -> Result<W, Path>
    requires narrow { widest (view value.now) ≤ 99999 }
    requires short { length name.now + W.longest < 32 }
    ensures exact { result ≡ kind_word name.now W.reads (view value.now) }
    ensures short { IfErr result (λ path. length path ≤ length name.now + 1 + W.longest) }
{
    an_object(value)?;
    member(value, name)
}

/// The object has no member of another name than these.
#[tactic(auto, using(crate::proofs::Names::no_more))]
pub(crate) fn only(value: &Value<'_>, names: &[&str]) -> Result<(), Path>
    ensures exact { result ≡ only (map (λ name. name.now) names.now) (view value.now) }
    ensures short { IfErr result (λ path. length path ≤ 1) }
{
    only_of_both(value, names, &[])
}

/// The object has no member of another name than those in `names` and in `others`.
pub(crate) fn only_of_both(value: &Value<'_>, names: &[&str], others: &[&str]) -> Result<(), Path>
    ensures exact { result ≡ only (map (λ name. name.now) names.now ++ map (λ name. name.now) others.now)
        (view value.now) }
    ensures short { IfErr result (λ path. length path ≤ 1) }
{
    let Value::Object(members) = value else {
        return Err(Path::here());
    };
    if are_named(members.as_slice(), names, others) {
        Ok(())
    } else {
        Err(Path::of("*"))
    }
}

fn are_named(members: &[(&str, Value<'_>)], names: &[&str], others: &[&str]) -> bool
    ensures { result ≡ list_all (λ member. among names.now member.0.now || among others.now member.0.now)
        members.now }
{
    members.iter().all(|member| is_among(member.0, names) || is_among(member.0, others))
}

fn is_among(name: &str, names: &[&str]) -> bool
    ensures { result ≡ among names.now name.now }
{
    names.iter().any(|known| name == *known)
}
