//! Orders in which a round settles a journal, and some that it refuses.
use crate::journals::assigned_and_charged;
use crate::registers::{by_a_round, in_order, register_of, say_the_same};
use gb_base::ReceiptNo;
use std::alloc::Global;
use std::process::Abort;
use test_items::receipt;

/// Whether a round in this order leaves of that journal what the one registrar leaves.
fn leaves_the_same(rt: &impl Abort, alloc: Global, order: &[ReceiptNo]) -> bool {
    let journal = assigned_and_charged(rt, alloc);
    let wanted = register_of(rt, alloc, &journal);
    match in_order(rt, alloc, &journal, order) {
        Some(left) => say_the_same(rt, alloc, &journal, &wanted, &left),
        None => false,
    }
}

/// Whether a round of that journal refuses this order.
fn is_refused(rt: &impl Abort, alloc: Global, order: &[ReceiptNo]) -> bool {
    let journal = assigned_and_charged(rt, alloc);
    in_order(rt, alloc, &journal, order).is_none()
}

/// The assignment of one charge and the creation of another may be settled in either order, but the
/// assignment not before the charge that it names. No list with a number twice, or one too few, is an order.
#[test]
fn orders_of_a_small_journal(rt: HostRuntime) {
    let [one, two, three, four] = [receipt(1), receipt(2), receipt(3), receipt(4)];
    for order in [[one, two, three, four], [one, two, four, three]] {
        assert!(&rt; leaves_the_same(&rt, rt.alloc(), &order));
    }
    for order in [[one, three, two, four], [one, two, three, three]] {
        assert!(&rt; is_refused(&rt, rt.alloc(), &order));
    }
    assert!(&rt; is_refused(&rt, rt.alloc(), &[one, two, three]));
}

/// Without desks and without an order a round settles in the order of receipts.
#[test]
fn a_round_without_desks(rt: HostRuntime) {
    let journal = assigned_and_charged(&rt, rt.alloc());
    let wanted = register_of(&rt, rt.alloc(), &journal);
    let left = by_a_round(&rt, rt.alloc(), &journal);
    assert!(&rt; say_the_same(&rt, rt.alloc(), &journal, &wanted, &left));
}
