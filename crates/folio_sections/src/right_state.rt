//! What is read of a right from its entries, kept as they come.
ghost use Rattle.std.specs.Prelude.{◌≡◌, List};
ghost use Rattle.folio_sections.specs.Rights.{capital, created_by, entered_by, is_conversion, is_exercise, is_full, live_by, new_holder_by, remaining_by};
ghost use Rattle.folio_sections.specs.declared.entries.Entry.{Entry};
ghost use Rattle.folio_sections.specs.inner.States.{IsRightState, holder_named, names_holder, state_by, state_on};

use crate::{Created, Entry, RightForm, What};
use gb_base::{Cents, Day, Person};

/// The right as its entries leave it.
#[derive(Clone, Copy)]
pub(crate) struct RightState {
    pub live: bool,
    pub created: Option<Created>,
    /// The day of the creation's entry.
    pub entered: Option<Day>,
    /// Whether the right of a priority notice is entered (BGB § 883(3)).
    pub converted: bool,
    /// The last new holder.
    pub new_holder: Option<Person>,
    /// The capital that the last award left.
    pub remaining: Option<Cents>,
    pub spent: bool,
}

impl RightState {
    /// Whether the right itself is entered, and not only a priority notice for it (BGB § 883).
    pub fn full(&self) -> bool
        ensures { (entries : List Entry) → IsRightState self.now entries → result ≡ is_full entries }
    {
        match &self.created {
            Some(made) => self.converted || made.form == RightForm::Full,
            None => false,
        }
    }

    /// The capital: the one that the last award left, else that of the creation (ZVG § 52); None
    /// where there is neither.
    pub fn capital(&self) -> Option<Cents>
        ensures { (entries : List Entry) → IsRightState self.now entries → result ≡ capital entries }
    {
        match &self.remaining {
            Some(capital) => Some(*capital),
            None => match &self.created {
                Some(made) => Some(made.spec.capital),
                None => None,
            },
        }
    }
}

/// The right after these entries.
pub(crate) fn state_on(before: RightState, entries: &[Entry]) -> RightState
    ensures { result ≡ state_on before entries.now }
{
    entries
        .iter()
        .fold(before, |before, entry| state_by(before, entry))
}

/// The right before its first entry.
pub(crate) const NEVER_CREATED: RightState = RightState {
    live: false,
    created: None,
    entered: None,
    converted: false,
    new_holder: None,
    remaining: None,
    spent: false,
};

/// The right after an entry.
pub(crate) fn state_by(before: RightState, entry: &Entry) -> RightState
    ensures { result ≡ state_by before entry.now }
{
    let what = &entry.what;
    RightState {
        live: live_by(before.live, what),
        created: created_by(before.created, what),
        entered: entered_by(before.entered, entry),
        converted: before.converted || is_conversion(what),
        new_holder: new_holder_by(before.new_holder, what),
        remaining: remaining_by(before.remaining, what),
        spent: before.spent || is_exercise(what),
    }
}

/// Whether the right is live after a content.
fn live_by(before: bool, what: &What) -> bool
    ensures { result ≡ live_by before what.now }
{
    match what {
        What::Created(_) => true,
        What::Cancelled { .. } => false,
        What::Expired => false,
        _ => before,
    }
}

/// The right as created, after a content: the one that it creates, else the one before.
fn created_by(before: Option<Created>, what: &What) -> Option<Created>
    ensures { result ≡ created_by before what.now }
{
    match what {
        What::Created(made) => Some(*made),
        _ => before,
    }
}

/// The day on which the right was entered, after an entry: the entry's own day where it creates the
/// right, else the one before.
fn entered_by(before: Option<Day>, entry: &Entry) -> Option<Day>
    ensures { result ≡ entered_by entry.now.day before entry.now.what }
{
    match &entry.what {
        What::Created(_) => Some(entry.day),
        _ => before,
    }
}

/// Whether a content enters the right of a priority notice.
fn is_conversion(what: &What) -> bool
    ensures { result ≡ is_conversion what.now }
{
    match what {
        What::Converted => true,
        _ => false,
    }
}

/// The last new holder, after a content: the one that it names, else the one before.
fn new_holder_by(before: Option<Person>, what: &What) -> Option<Person>
    ensures { result ≡ new_holder_by before what.now }
{
    match what {
        What::Holder { person } => Some(*person),
        _ => before,
    }
}

/// Whether a content names who is the holder after it, where `before` was the last new holder. A new
/// holder always does; a creation does where there was no new holder yet.
pub(crate) fn names_holder(before: Option<Person>, what: &What) -> bool
    ensures { result ≡ names_holder before what.now }
{
    match what {
        What::Created(_) => before.is_none(),
        What::Holder { .. } => true,
        _ => false,
    }
}

/// The holder whom a content names.
pub(crate) fn holder_named(what: &What) -> Option<Person>
    ensures { result ≡ holder_named what.now }
{
    match what {
        What::Created(made) => Some(made.spec.holder),
        What::Holder { person } => Some(*person),
        _ => None,
    }
}

/// The capital that the last award left, after a content: the one that it leaves, else the one
/// before.
fn remaining_by(before: Option<Cents>, what: &What) -> Option<Cents>
    ensures { result ≡ remaining_by before what.now }
{
    match what {
        What::Remains { capital } => Some(*capital),
        _ => before,
    }
}

/// Whether a content spends the right's reservation.
fn is_exercise(what: &What) -> bool
    ensures { result ≡ is_exercise what.now }
{
    match what {
        What::Exercised { .. } => true,
        _ => false,
    }
}
