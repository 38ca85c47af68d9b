//! Gates at the desks: for which items they are called, and that a gate that stays long changes nothing.
ghost use Rattle.std.specs.Prelude.{◌≤◌};

use crate::crowded_journals::crowded_journal;
use crate::gates::{Slow, WatchingGate};
use crate::journals::{assigned_and_charged, of_lapses, of_many_folios, sold_beside_a_cure};
use crate::registers::{by_a_round_of, in_order, left_by, register_of, say_the_same};
use act_model::Journal;
use conflict_queue::Docket;
use gb_base::ReceiptNo;
use registrar::Register;
use std::process::Abort;
use std::sync::Wait;
use std::thread::Threads;
use test_items::{folio, receipt};

/// A gate that stays long at these items is passed by one, two and eight desks.
fn is_passed<R: AllocGlobal + Threads + Wait + Sync + Abort>(
    rt: &R,
    journal: &Journal,
    slow: &Slow,
) {
    for desks in [1, 2, 8] {
        is_passed_by(rt, journal, desks, slow);
    }
}

/// A gate that stays long is passed by so many desks, and by as many of a round, which has a board and
/// locks also where one desk would settle the journal.
fn is_passed_by<R: AllocGlobal + Threads + Wait + Sync + Abort>(
    rt: &R,
    journal: &Journal,
    desks: u16,
    slow: &Slow,
)
    requires { (1 ≤ desks) × (desks ≤ 64) }
{
    let docket = docket_of(rt, journal);
    let gate = gate_of(rt, &docket, slow);
    let left = left_by(rt, journal, desks, &gate);
    is_left_alike(rt, journal, &left, &gate);
    let gate = gate_of(rt, &docket, slow);
    let left = by_a_round_of(rt, journal, desks, &gate);
    is_left_alike(rt, journal, &left, &gate);
}

fn docket_of<R: AllocGlobal + Abort>(rt: &R, journal: &Journal) -> Docket {
    Docket::build(rt.alloc(), journal).ok().expect(rt, "memory")
}

fn gate_of<'a, R: AllocGlobal + Abort>(
    rt: &R,
    docket: &'a Docket,
    slow: &'a Slow,
) -> WatchingGate<'a> {
    WatchingGate::new(rt.alloc(), docket, slow)
        .ok()
        .expect(rt, "memory")
}

/// The register is the one that the one registrar leaves, and the gate was called once for each item,
/// and of two items with a key in common for the earlier one first.
fn is_left_alike<R: AllocGlobal + Abort>(
    rt: &R,
    journal: &Journal,
    left: &Register,
    gate: &WatchingGate<'_>,
) {
    let alloc = rt.alloc();
    let wanted = register_of(rt, alloc, journal);
    assert!(rt; say_the_same(rt, alloc, journal, &wanted, left));
    let order = gate.order(alloc).ok().expect(rt, "memory");
    assert_eq!(rt; gate.calls(), journal.len() as usize);
    assert!(rt; has_each_once(order.as_slice(), journal.len()));
    assert!(rt; in_order(rt, alloc, journal, order.as_slice()).is_some());
}

/// Whether the numbers up to this one stand in a list, each once.
fn has_each_once(list: &[ReceiptNo], most: u32) -> bool {
    for number in 0..most {
        if list.iter().filter(|item| item.get() - 1 == number).count() != 1 {
            return false;
        }
    }
    true
}

#[test]
fn a_gate_is_called_once_for_each_item(rt: HostRuntime) {
    is_passed(&rt, &Journal::new(rt.alloc()), &Slow::Never);
    is_passed(&rt, &of_lapses(&rt, rt.alloc()), &Slow::Never);
    is_passed(&rt, &assigned_and_charged(&rt, rt.alloc()), &Slow::Never);
    is_passed(&rt, &sold_beside_a_cure(&rt, rt.alloc()), &Slow::Never);
    for seed in 0..4 {
        is_passed(&rt, &crowded_journal(rt.alloc(), seed, 8, 60), &Slow::Never);
    }
}

/// With 2,000 folios, too, a round has room for all locks: where it had none, no gate would be called.
#[test]
fn a_gate_is_called_in_each_of_many_folios(rt: HostRuntime) {
    let journal = of_many_folios(&rt, rt.alloc(), 2_000);
    is_passed_by(&rt, &journal, 4, &Slow::Never);
}

/// A gate stays long at each item in turn, so that the others of the folio wait for it; at all of a folio; at drawn
/// ones; and where all items are of one folio, so that only one desk has something to do at a time.
#[test]
fn a_gate_that_stays_long_changes_nothing(rt: HostRuntime) {
    let journal = sold_beside_a_cure(&rt, rt.alloc());
    for number in 1..11 {
        is_passed(&rt, &journal, &Slow::At(receipt(number)));
    }
    is_passed(&rt, &journal, &Slow::In(folio(7)));
    is_passed(&rt, &journal, &Slow::In(folio(8)));
    for seed in 10..14 {
        let crowded = crowded_journal(rt.alloc(), seed, 5, 60);
        is_passed(&rt, &crowded, &Slow::In(folio(1)));
        is_passed(&rt, &crowded, &Slow::In(folio(3)));
        is_passed(&rt, &crowded, &Slow::Drawn(seed));
        let of_one_folio = crowded_journal(rt.alloc(), seed, 1, 40);
        is_passed(&rt, &of_one_folio, &Slow::In(folio(1)));
    }
}
