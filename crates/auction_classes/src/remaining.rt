//! What remains of a right when the land is awarded (ZVG § 52).
ghost use Rattle.std.specs.Prelude.{◌≡◌, ◌*◌, ◌≤◌, true, find, sum_by};
ghost use Rattle.std.specs.List.{list_all};
ghost use Rattle.std.specs.Option.{option_copied, option_map_or};
ghost use Rattle.gb_base.specs.RightNo.{same_right};
ghost use Rattle.rank_slots.specs.Payments.{reaches_end};
ghost use Rattle.auction_classes.specs.Computable.{AreOnLine};
ghost use Rattle.rank_slots.specs.Groups.{keeps_place};
ghost use Rattle.auction_classes.specs.LowestBid.{is_paid_enough, reaches_group, reaches_knot, remaining, remaining_by_pay, remaining_of};

use crate::{Claims, RightClaimed};
use gb_base::RightId;
use rank_slots::{Place, Slots};

impl Claims {
    /// What remains of a right of class 4, in cents, where the base's cover has so much on the line:
    /// what the right gets of it less its interest. 0 of one of division II that does not get its
    /// whole claim, and of one of a group or a knot whose end the cover does not reach. Takes no
    /// memory.
    pub fn remaining(&self, slots: &Slots, cover: u64, right: RightId) -> u64
        requires filled { slots.now.filled ≡ self.now.claimed.line_four }
        ensures { result ≡ remaining self.now.claimed cover right }
    {
        remaining_among(slots, cover, &self.lists.rights, right)
    }
}

/// What remains of a right that is one of these; 0 of another.
fn remaining_among(slots: &Slots, cover: u64, rights: &[RightClaimed], right: RightId) -> u64
    requires kept { AreOnLine slots.now.filled rights.now }
    ensures { result ≡ option_map_or (remaining_of slots.now.filled cover) (find (λ x. same_right x.right right) rights.now) 0 }
{
    match claimed_for(rights, right) {
        Some(claimed) => remaining_of(slots, cover, claimed),
        None => 0,
    }
}

/// What remains of all these rights together.
pub(crate) fn remaining_in_all(slots: &Slots, cover: u64, rights: &[RightClaimed]) -> u128
    requires kept { AreOnLine slots.now.filled rights.now }
    ensures { result ≡ sum_by (remaining_of slots.now.filled cover) rights.now }
{
    let mut cents = 0;
    for claimed in rights {
        cents += u128::from(remaining_of(slots, cover, claimed));
    }
    cents
}

/// What is claimed for a right; None where it is not among these.
fn claimed_for(rights: &[RightClaimed], right: RightId) -> Option<&RightClaimed>
    ensures { option_copied result ≡ find (λ x. same_right x.right right) rights.now }
{
    rights.iter().find(|claimed| claimed.right == right)
}

/// What remains of a right. Nothing is left of one that gets no more than its interest, whatever the
/// cover reaches, so that is not asked then.
fn remaining_of(slots: &Slots, cover: u64, claimed: &RightClaimed) -> u64
    requires kept { keeps_place slots.now.filled.places claimed.now.right ≡ true }
    ensures { result ≡ remaining_of slots.now.filled cover claimed.now }
{
    let got = slots.pay(claimed.right, cover);
    if got > claimed.interest {
        remaining_by_pay(slots, cover, claimed, got)
    } else {
        0
    }
}

/// What remains of a right that gets so much.
fn remaining_by_pay(slots: &Slots, cover: u64, claimed: &RightClaimed, got: u64) -> u64
    ensures { result ≡ remaining_by_pay slots.now.filled cover claimed.now got }
{
    if is_paid_enough(slots, claimed, got)
        && (reaches_group(slots, claimed.right, cover)
            && reaches_knot(slots, claimed.right, cover))
    {
        got.saturating_sub(claimed.interest)
    } else {
        0
    }
}

/// Whether a right that gets so much may remain: one of division II only where it gets its whole
/// claim.
fn is_paid_enough(slots: &Slots, claimed: &RightClaimed, got: u64) -> bool
    ensures { result ≡ is_paid_enough slots.now.filled claimed.now got }
{
    claimed.in_division_three || slots.claim_of(claimed.right) <= got
}

/// Whether the cover reaches the end of the right's group, where others are of it too.
fn reaches_group(slots: &Slots, right: RightId, cover: u64) -> bool
    ensures { result ≡ reaches_group slots.now.filled right cover }
{
    let group = slots.group(right);
    group.len() == 1 || reaches_all(slots, group, cover)
}

/// Whether the cover reaches the ends of all these rights.
fn reaches_all(slots: &Slots, group: &[Place], cover: u64) -> bool
    ensures { result ≡ list_all (λ p. reaches_end slots.now.filled p.right cover) group.now }
{
    group
        .iter()
        .all(|place| slots.reaches_end(place.right, cover))
}

/// Whether the cover reaches the end of both rights of the knot that ties the right, if one does.
fn reaches_knot(slots: &Slots, right: RightId, cover: u64) -> bool
    ensures { result ≡ reaches_knot slots.now.filled right cover }
{
    match slots.knot_of(right) {
        Some(knot) => slots.reaches_end(knot.reserved, cover)
            && slots.reaches_end(knot.exercised, cover),
        None => true,
    }
}
