//! Distributing the money of an award.
ghost use Rattle.std.specs.Prelude.{◌≡◌, ◌+◌, ◌≤◌, Some, false, true, IfOk, length, sum_by, vec_capacity, vec_len};
ghost use Rattle.auction_classes.specs.LowestBid.{lowest_bid};
ghost use Rattle.auction_classes.specs.PayableClaims.{claims_in};
ghost use Rattle.proceeds_split.specs.Plan.{class_five, class_in_proportion, in_turn, late_in_proportion, late_in_rank, paid, parts, plan_of};
ghost use Rattle.proceeds_split.specs.inner.Parts.{ahead, ahead_len, behind, behind_len, late, late_len, plan_len};
ghost use Rattle.proceeds_split.specs.inner.Payments.{Pays};
ghost use Rattle.proceeds_split.specs.inner.RightsPaid.{IsTakenOut};

use crate::class_claims::claims_of;
use crate::payments::Payments;
use crate::rights_paid::{pay_class_four, pay_class_six};
use crate::{Plan, PlanPart};
use auction_classes::{Claims, Lowest};
use gb_base::NoMemory;
use rank_slots::Slots;
use std::alloc::Global;

/// The plan by which so much money is distributed among the claims of a sale whose lowest bid is
/// this: costs, classes 1 and 3, the rights of class 4 in cash as far as they do not remain, classes
/// 5 to 8, late claims, and the former owners, each from what those before it left (ZVG §§ 10 to 12,
/// 52, 109, 110). All of the money is paid. NoMemory where memory for the lines runs out. Nothing is
/// said of the line that the slots have afterwards.
pub fn split(
    alloc: Global,
    claims: &Claims,
    slots: &mut Slots,
    lowest: Lowest,
    money: u64,
) -> Result<Plan, NoMemory>
    requires lowest { lowest_bid claims.now.claimed ≡ Some lowest }
    requires places_four { length claims.now.claimed.line_four.places ≤ slots.old.place_room }
    requires swaps_four { length claims.now.claimed.line_four.swaps ≤ slots.old.swap_room }
    requires places_six { length claims.now.claimed.line_six.places ≤ slots.old.place_room }
    requires swaps_six { length claims.now.claimed.line_six.swaps ≤ slots.old.swap_room }
    requires money { lowest.cash ≤ money }
    ensures plan { IfOk result (λ plan. plan ≡ plan_of claims.now.claimed lowest money) }
    ensures sum { IfOk result (λ plan. sum_by paid plan ≡ money) }
    ensures place_room { slots.new.place_room ≡ slots.old.place_room }
    ensures swap_room { slots.new.swap_room ≡ slots.old.swap_room }
    ensures memory { slots.new.capacity ≡ slots.old.capacity }
{
    let lines = 1 + claims.items().len() + claims.owners().len();
    let mut payments = Payments::with_room(alloc, lines, money)?;
    pay_all(&mut payments, claims, slots, lowest);
    Ok(Plan::new(payments.lines))
}

/// Pays all parts in turn.
fn pay_all(payments: &mut Payments, claims: &Claims, slots: &mut Slots, lowest: Lowest)
    requires lowest { IsTakenOut claims.now.claimed lowest }
    requires places_four { length claims.now.claimed.line_four.places ≤ slots.old.place_room }
    requires swaps_four { length claims.now.claimed.line_four.swaps ≤ slots.old.swap_room }
    requires places_six { length claims.now.claimed.line_six.places ≤ slots.old.place_room }
    requires swaps_six { length claims.now.claimed.line_six.swaps ≤ slots.old.swap_room }
    requires room { vec_len payments.old.lines + plan_len claims.now.claimed ≤ vec_capacity payments.old.lines }
    ensures lines { Pays (plan_len claims.now.claimed) (in_turn (parts claims.now.claimed lowest.cover)) payments.old payments.new }
    ensures place_room { slots.new.place_room ≡ slots.old.place_room }
    ensures swap_room { slots.new.swap_room ≡ slots.old.swap_room }
    ensures memory { slots.new.capacity ≡ slots.old.capacity }
{
    pay_ahead(payments, claims);
    claims.fill_line(slots, 4);
    pay_class_four(payments, claims, slots, lowest);
    pay_class_five(payments, claims);
    claims.fill_line(slots, 6);
    pay_class_six(payments, claims, slots);
    pay_behind(payments, claims);
    pay_late(payments, claims);
    payments.pay_owners(claims.owners());
}

/// Pays what stands ahead of the rights: costs, advances and public charges.
fn pay_ahead(payments: &mut Payments, claims: &Claims)
    requires room { vec_len payments.old.lines + ahead_len claims.now.claimed ≤ vec_capacity payments.old.lines }
    ensures { Pays (ahead_len claims.now.claimed) (in_turn (ahead claims.now.claimed)) payments.old payments.new }
{
    payments.pay_costs(claims.costs());
    pay_class_in_proportion(payments, claims, 1);
    pay_class_in_proportion(payments, claims, 3);
}

/// Pays the personal creditors in order of seizure.
fn pay_class_five(payments: &mut Payments, claims: &Claims)
    requires room { vec_len payments.old.lines + length (claims_in false 5 claims.now.claimed.items) ≤ vec_capacity payments.old.lines }
    ensures { Pays (length (claims_in false 5 claims.now.claimed.items)) (class_five claims.now.claimed) payments.old payments.new }
{
    payments.pay_first_come(PlanPart::Class(5), &claims_of(claims, false, 5));
}

/// Pays what stands behind the rights: older public charges and older arrears.
fn pay_behind(payments: &mut Payments, claims: &Claims)
    requires room { vec_len payments.old.lines + behind_len claims.now.claimed ≤ vec_capacity payments.old.lines }
    ensures { Pays (behind_len claims.now.claimed) (in_turn (behind claims.now.claimed)) payments.old payments.new }
{
    pay_class_in_proportion(payments, claims, 7);
    payments.pay_in_rank(PlanPart::Class(8), &claims_of(claims, false, 8));
}

/// Pays the late claims.
fn pay_late(payments: &mut Payments, claims: &Claims)
    requires room { vec_len payments.old.lines + late_len claims.now.claimed ≤ vec_capacity payments.old.lines }
    ensures { Pays (late_len claims.now.claimed) (in_turn (late claims.now.claimed)) payments.old payments.new }
{
    pay_late_in_proportion(payments, claims, 1);
    pay_late_in_proportion(payments, claims, 3);
    pay_late_in_rank(payments, claims, 4);
    pay_late_in_proportion(payments, claims, 7);
    pay_late_in_rank(payments, claims, 8);
}

/// Pays the timely claims of a class in proportion.
fn pay_class_in_proportion(payments: &mut Payments, claims: &Claims, class: u8)
    requires room { vec_len payments.old.lines + length (claims_in false class claims.now.claimed.items) ≤ vec_capacity payments.old.lines }
    ensures { Pays (length (claims_in false class claims.now.claimed.items)) (class_in_proportion claims.now.claimed class) payments.old payments.new }
{
    payments.pay_in_proportion(PlanPart::Class(class), &claims_of(claims, false, class));
}

/// Pays the late claims of a class in proportion.
fn pay_late_in_proportion(payments: &mut Payments, claims: &Claims, class: u8)
    requires room { vec_len payments.old.lines + length (claims_in true class claims.now.claimed.items) ≤ vec_capacity payments.old.lines }
    ensures { Pays (length (claims_in true class claims.now.claimed.items)) (late_in_proportion claims.now.claimed class) payments.old payments.new }
{
    payments.pay_in_proportion(PlanPart::Late(class), &claims_of(claims, true, class));
}

/// Pays the late claims of a class by rank.
fn pay_late_in_rank(payments: &mut Payments, claims: &Claims, class: u8)
    requires room { vec_len payments.old.lines + length (claims_in true class claims.now.claimed.items) ≤ vec_capacity payments.old.lines }
    ensures { Pays (length (claims_in true class claims.now.claimed.items)) (late_in_rank claims.now.claimed class) payments.old payments.new }
{
    payments.pay_in_rank(PlanPart::Late(class), &claims_of(claims, true, class));
}
