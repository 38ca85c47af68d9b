//! What stands ahead of a seizure (ZVG § 44).
ghost use Rattle.std.specs.Prelude.{◌≡◌, ◌+◌, ◌*◌, ◌<◌, ◌≤◌, true, if◌then◌else◌, IfSome, sum_by};
ghost use Rattle.gb_base.specs.Limits.{most_cents, most_sum};
ghost use Rattle.auction_classes.specs.LowestBid.{cover_of_base, personal_amount};
ghost use Rattle.auction_classes.specs.Computable.{CanCover, CanCoverServed};
ghost use Rattle.auction_classes.specs.inner.Covers.{cover_by, lesser};

use crate::SeizedFor;
use act_model::Basis;
use rank_slots::Slots;

/// The least cover, in cents, of those of these seizures that are served, on the line of class 4;
/// None where none is served.
pub(crate) fn cover_of_base(slots: &Slots, seizures: &[SeizedFor]) -> Option<u64>
    requires amounts { sum_by (λ z. personal_amount z.basis) seizures.now < most_sum }
    requires kept { CanCoverServed slots.now.filled seizures.now }
    ensures value { result ≡ cover_of_base slots.now.filled seizures.now }
    ensures bound { IfSome result (λ cover. cover < 2 * most_sum) }
{
    let mut least = None;
    let mut before = 0;
    for seizure in seizures {
        least = least_with(least, slots, before, seizure);
        before += personal_amount(seizure.basis);
    }
    least
}

/// The lesser of a cover and that of a seizure, where it is served.
fn least_with(least: Option<u64>, slots: &Slots, before: u64, seizure: &SeizedFor) -> Option<u64>
    requires before { before < most_sum }
    requires kept { seizure.now.served ≡ true → CanCover slots.now.filled seizure.now.basis }
    requires bound { IfSome least (λ cover. cover < 2 * most_sum) }
    ensures value { result ≡ (if seizure.now.served then lesser least (cover_by slots.now.filled before seizure.now.basis) else least) }
    ensures bound { IfSome result (λ cover. cover < 2 * most_sum) }
{
    if seizure.served {
        lesser(least, cover_by(slots, before, seizure.basis))
    } else {
        least
    }
}

/// The lesser of two covers, where the first is there.
fn lesser(least: Option<u64>, cover: u64) -> Option<u64>
    requires least { IfSome least (λ n. n < 2 * most_sum) }
    requires cover { cover < 2 * most_sum }
    ensures value { result ≡ lesser least cover }
    ensures bound { IfSome result (λ n. n < 2 * most_sum) }
{
    match least {
        Some(so_far) => Some(so_far.min(cover)),
        None => Some(cover),
    }
}

/// What stands ahead of a seizure from class 4 on, where personal creditors seized for so much
/// before it.
fn cover_by(slots: &Slots, before: u64, basis: Basis) -> u64
    requires before { before < most_sum }
    requires kept { CanCover slots.now.filled basis }
    ensures value { result ≡ cover_by slots.now.filled before basis }
    ensures bound { result < 2 * most_sum }
{
    match basis {
        Basis::Personal { .. } => slots.length() + before,
        Basis::FromRight { right } => slots.threshold(right),
    }
}

/// What a personal creditor seizes for, in cents; 0 where the seizure is from a right.
pub(crate) fn personal_amount(basis: Basis) -> u64
    ensures value { result ≡ personal_amount basis }
    ensures bound { result ≤ most_cents }
{
    match basis {
        Basis::Personal { claim, .. } => claim.get(),
        Basis::FromRight { .. } => 0,
    }
}
