//! Paying the rights of classes 4 and 6 along their lines (ZVG §§ 10(1) nos. 4 and 6, 11, 52).
ghost use Rattle.std.specs.Prelude.{◌≡◌, ◌+◌, ◌-◌, ◌<◌, ◌≤◌, false, true, All, length, map, vec_capacity, vec_len};
ghost use Rattle.rank_slots.specs.CanFill.{CanFill};
ghost use Rattle.rank_slots.specs.Groups.{keeps_place};
ghost use Rattle.auction_classes.specs.PayableClaims.{IsAmountClaimed, claims_in};
ghost use Rattle.proceeds_split.specs.Plan.{cash_of, class_four, class_six, four_line, six_line};
ghost use Rattle.proceeds_split.specs.inner.Payments.{Pays};
ghost use Rattle.proceeds_split.specs.inner.RightsPaid.{IsOnLine, IsTakenOut};

use crate::class_claims::claims_of;
use crate::payments::Payments;
use crate::plan_lines::line_of;
use crate::{PlanLine, PlanPart};
use auction_classes::{ClaimItem, Claims, Lowest};
use gb_base::RightId;
use rank_slots::Slots;

/// Pays the rights of class 4: each gets its part of what is left and of all that remains, along
/// the line, less what remains of it.
pub(crate) fn pay_class_four(
    payments: &mut Payments,
    claims: &Claims,
    slots: &Slots,
    lowest: Lowest,
)
    requires filled { slots.now.filled ≡ claims.now.claimed.line_four }
    requires lowest { IsTakenOut claims.now.claimed lowest }
    requires room { vec_len payments.old.lines + length (claims_in false 4 claims.now.claimed.items) ≤ vec_capacity payments.old.lines }
    ensures { Pays (length (claims_in false 4 claims.now.claimed.items)) (class_four claims.now.claimed lowest.cover) payments.old payments.new }
{
    let rights = claims_of(claims, false, 4);
    pay_fours(payments, claims, slots, lowest, &rights);
}

/// Pays these rights of class 4.
fn pay_fours(
    payments: &mut Payments,
    claims: &Claims,
    slots: &Slots,
    lowest: Lowest,
    rights: &[ClaimItem],
)
    requires filled { slots.now.filled ≡ claims.now.claimed.line_four }
    requires fits { CanFill claims.now.claimed.line_four }
    requires lowest { IsTakenOut claims.now.claimed lowest }
    requires each { All IsAmountClaimed rights.now }
    requires on_line { All (IsOnLine claims.now.claimed.line_four) rights.now }
    requires room { vec_len payments.old.lines + length rights.now ≤ vec_capacity payments.old.lines }
    ensures { Pays (length rights.now) (λ money. map (four_line claims.now.claimed lowest.cover money) rights.now) payments.old payments.new }
{
    let money = payments.left;
    for claim in rights {
        payments.pay(&four_line(claims, slots, lowest, money, claim));
    }
}

/// The line of a claim of class 4, where so much money is left.
fn four_line(
    claims: &Claims,
    slots: &Slots,
    lowest: Lowest,
    money: u64,
    claim: &ClaimItem,
) -> PlanLine
    requires filled { slots.now.filled ≡ claims.now.claimed.line_four }
    requires fits { CanFill claims.now.claimed.line_four }
    requires lowest { IsTakenOut claims.now.claimed lowest }
    requires amount { IsAmountClaimed claim.now }
    requires on_line { IsOnLine claims.now.claimed.line_four claim.now }
    ensures { result ≡ four_line claims.now.claimed lowest.cover money claim.now }
{
    match claim.right {
        Some(right) => {
            let got = cash_of(claims, slots, lowest, money, right);
            let remains = claims.remaining(slots, lowest.cover, right);
            line_of(PlanPart::Class(4), claim, got, remains)
        }
        None => line_of(PlanPart::Class(4), claim, 0, 0),
    }
}

/// What a right of class 4 gets in cash, where so much money is left. Beyond the end of the line
/// more money gives no right more, so the sum may stop at the greatest number.
fn cash_of(claims: &Claims, slots: &Slots, lowest: Lowest, money: u64, right: RightId) -> u64
    requires filled { slots.now.filled ≡ claims.now.claimed.line_four }
    requires fits { CanFill claims.now.claimed.line_four }
    requires lowest { IsTakenOut claims.now.claimed lowest }
    requires kept { keeps_place claims.now.claimed.line_four.places right ≡ true }
    ensures { result ≡ cash_of claims.now.claimed lowest.cover money right }
{
    let along = money.saturating_add(lowest.total - lowest.cash);
    let remains = claims.remaining(slots, lowest.cover, right);
    slots.pay(right, along).saturating_sub(remains)
}

/// Pays the rights of class 6 along their line.
pub(crate) fn pay_class_six(payments: &mut Payments, claims: &Claims, slots: &Slots)
    requires filled { slots.now.filled ≡ claims.now.claimed.line_six }
    requires room { vec_len payments.old.lines + length (claims_in false 6 claims.now.claimed.items) ≤ vec_capacity payments.old.lines }
    ensures { Pays (length (claims_in false 6 claims.now.claimed.items)) (class_six claims.now.claimed) payments.old payments.new }
{
    let rights = claims_of(claims, false, 6);
    pay_sixes(payments, slots, &rights);
}

/// Pays these rights of class 6.
fn pay_sixes(payments: &mut Payments, slots: &Slots, rights: &[ClaimItem])
    requires each { All IsAmountClaimed rights.now }
    requires on_line { All (IsOnLine slots.now.filled) rights.now }
    requires room { vec_len payments.old.lines + length rights.now ≤ vec_capacity payments.old.lines }
    ensures { Pays (length rights.now) (λ money. map (six_line slots.now.filled money) rights.now) payments.old payments.new }
{
    let money = payments.left;
    for claim in rights {
        payments.pay(&six_line(slots, money, claim));
    }
}

/// The line of a claim of class 6, where so much money is left.
fn six_line(slots: &Slots, money: u64, claim: &ClaimItem) -> PlanLine
    requires amount { IsAmountClaimed claim.now }
    requires on_line { IsOnLine slots.now.filled claim.now }
    ensures { result ≡ six_line slots.now.filled money claim.now }
{
    let got = match claim.right {
        Some(right) => slots.pay(right, money),
        None => 0,
    };
    line_of(PlanPart::Class(6), claim, got, 0)
}
