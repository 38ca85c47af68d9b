//! The claims of a sale in the order of a plan (ZVG §§ 10 to 12, 110).
ghost use Rattle.std.specs.Prelude.{◌≡◌, ◌+◌, ◌≤◌, ◌++◌, ◌∷◌, [], None, Some, length, vec_capacity, vec_len};
ghost use Rattle.std.specs.List.{last_or};
ghost use Rattle.auction_classes.specs.Claims.{are_both, are_of_one_filing, by_class, claim_after, in_order, in_row, of_class, ranks_with};

use crate::claim_items::{Claim, ClaimItem};
use crate::rights_found::are_both;
use gb_base::{RightId, push_copy};

/// Writes these claims in order, in place of what stood there: the timely ones class by class, and
/// then the late ones. Takes no memory.
pub(crate) fn write_in_order(ordered: &mut Vec<Claim>, claims: &[Claim])
    requires room { length claims.now ≤ vec_capacity ordered.old }
    ensures claims { ordered.new.items ≡ in_order claims.now }
    ensures few { vec_len ordered.new ≤ length claims.now }
    ensures capacity { vec_capacity ordered.new ≡ vec_capacity ordered.old }
{
    ordered.clear();
    add_by_class(ordered, claims, false);
    add_by_class(ordered, claims, true);
}

/// Adds the timely ones of these claims, or the late ones, class by class. With those that the list
/// has they are no more than these claims.
fn add_by_class(ordered: &mut Vec<Claim>, claims: &[Claim], late: bool)
    requires few { vec_len ordered.old + length (by_class late claims.now) ≤ length claims.now }
    requires room { vec_len ordered.old + length (by_class late claims.now) ≤ vec_capacity ordered.old }
    ensures claims { ordered.new.items ≡ ordered.old.items ++ by_class late claims.now }
    ensures len { vec_len ordered.new ≡ vec_len ordered.old + length (by_class late claims.now) }
    ensures capacity { vec_capacity ordered.new ≡ vec_capacity ordered.old }
{
    for class in 1..=8 {
        // Once all claims are written, no class that is left has any.
        if ordered.len() < claims.len() {
            add_class(ordered, claims, late, class);
        }
    }
}

/// Adds those of a class that are timely, or those that are late.
fn add_class(ordered: &mut Vec<Claim>, claims: &[Claim], late: bool, class: u8)
    requires room { vec_len ordered.old + length (of_class late claims.now class) ≤ vec_capacity ordered.old }
    ensures claims { ordered.new.items ≡ ordered.old.items ++ of_class late claims.now class }
    ensures len { vec_len ordered.new ≡ vec_len ordered.old + length (of_class late claims.now class) }
    ensures capacity { vec_capacity ordered.new ≡ vec_capacity ordered.old }
{
    for claim in claims {
        add_of_class(ordered, claim, late, class);
    }
}

/// Adds a claim, where it is of a class and timely, or late.
fn add_of_class(ordered: &mut Vec<Claim>, claim: &Claim, late: bool, class: u8)
    requires room { vec_len ordered.old + length (of_class late (claim.now ∷ []) class) ≤ vec_capacity ordered.old }
    ensures claims { ordered.new.items ≡ ordered.old.items ++ of_class late (claim.now ∷ []) class }
    ensures len { vec_len ordered.new ≡ vec_len ordered.old + length (of_class late (claim.now ∷ []) class) }
    ensures capacity { vec_capacity ordered.new ≡ vec_capacity ordered.old }
{
    if are_both(late, claim.late) && claim.class == class {
        push_copy(ordered, claim);
    }
}

/// Writes these claims in their row, in place of what stood there, each with whether it ranks with
/// the one before it. Takes no memory.
pub(crate) fn write_row(items: &mut Vec<ClaimItem>, claims: &[Claim])
    requires room { length claims.now ≤ vec_capacity items.old }
    ensures items { items.new.items ≡ in_row claims.now }
    ensures len { length items.new.items ≡ length claims.now }
    ensures capacity { vec_capacity items.new ≡ vec_capacity items.old }
{
    items.clear();
    for i in 0..claims.len() {
        push_copy(items, &claim_after(&claims[..i], &claims[i]));
    }
}

/// A claim in its row after those before it, with whether it ranks with the last of them.
fn claim_after(before: &[Claim], claim: &Claim) -> ClaimItem
    ensures { result ≡ claim_after (last_or None before.now) claim.now }
{
    ClaimItem {
        class: claim.class,
        late: claim.late,
        right: claim.right,
        person: claim.person,
        interest: claim.interest,
        capital: claim.capital,
        with_previous: ranks_with_last(before, claim),
    }
}

/// Whether a claim ranks equally with the last of those before it.
fn ranks_with_last(before: &[Claim], claim: &Claim) -> bool
    ensures { result ≡ ranks_with (last_or None before.now) claim.now }
{
    match before.last() {
        Some(last) => are_equal_in_rank(last, claim),
        None => false,
    }
}

/// Whether two claims that follow one another rank equally: both are of one class, both timely or
/// both late, and of rights of one group of one filing (GBO § 45(1), (3)).
fn are_equal_in_rank(before: &Claim, claim: &Claim) -> bool
    ensures { result ≡ ranks_with (Some before.now) claim.now }
{
    before.class == claim.class
        && (are_both(before.late, claim.late)
            && (are_of_one_filing(&before.right, &claim.right) && before.group == claim.group))
}

/// Whether both are rights, and of one filing.
fn are_of_one_filing(a: &Option<RightId>, b: &Option<RightId>) -> bool
    ensures { result ≡ are_of_one_filing a.now b.now }
{
    match (a, b) {
        (Some(x), Some(y)) => x.receipt() == y.receipt(),
        _ => false,
    }
}
