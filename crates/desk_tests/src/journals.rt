//! Journals of the tests, receipt by receipt.
ghost use Rattle.std.specs.Prelude.{◌≤◌};
ghost use Rattle.gb_base.specs.DayMinute.{IsStampDay};

use act_model::{Item, Journal};
use gb_base::Day;
use std::alloc::Global;
use std::process::Abort;
use test_items::{
    assignment, award, call, charge, consent, cure, day, distribution, filed, filing, lapse,
    opening, plain_consent, receipt, received, right, seizure_by, two,
};

/// The item becomes the next receipt of the journal, on this day.
pub fn receive(rt: &impl Abort, journal: &mut Journal, on: Day, item: &Item)
    requires { IsStampDay on }
{
    let next = receipt(journal.len() + 1);
    assert_eq!(rt; received(journal, on, item), Some(next));
}

/// A folio is opened for owner 10.
pub fn opened(of: u32) -> Item
    requires { 1 ≤ of }
{
    filed(10, opening(of, 10), &[consent(1, 10)])
}

/// Owner 10 files a land charge of 1,000.00 for 20 in a folio.
fn charged(of: u32) -> Item
    requires { 1 ≤ of }
{
    filed(10, charge(of, 100_000, 20), &[consent(1, 10)])
}

/// So many folios, each opened by a filing of its own.
pub fn of_many_folios(rt: &impl Abort, alloc: Global, count: u32) -> Journal {
    let mut journal = Journal::new(alloc);
    for index in 0..count {
        receive(rt, &mut journal, day(2, 1), &opened(index + 1));
    }
    journal
}

/// Folio 7 with a land charge 2.1 of 20. Receipt 3 assigns it to 23, by consent of its holder, and
/// receipt 4 creates another charge.
pub fn assigned_and_charged(rt: &impl Abort, alloc: Global) -> Journal {
    let mut journal = Journal::new(alloc);
    receive(rt, &mut journal, day(2, 1), &opened(7));
    receive(rt, &mut journal, day(3, 1), &charged(7));
    let assigned = filed(20, assignment(7, right(2, 1), 23), &[consent(1, 20)]);
    receive(rt, &mut journal, day(4, 1), &assigned);
    receive(rt, &mut journal, day(5, 1), &charged(7));
    journal
}

/// Receipts 1 to 3 lapse numbers that no filing has, so none of them touches a key.
pub fn of_lapses(rt: &impl Abort, alloc: Global) -> Journal {
    let mut journal = Journal::new(alloc);
    for number in [1, 2, 9] {
        receive(rt, &mut journal, day(3, 1), &lapse(number));
    }
    journal
}

/// Receipts 1 and 2 open folios 7 and 8, and 3 charges both. Receipt 4 lapses a number that no
/// filing has. Folio 7 is seized by receipt 5, and sold by 7 and 8; 10 distributes. Meanwhile
/// receipt 6 files a charge in folio 8 without a certified consent, and 9 cures that.
pub fn sold_beside_a_cure(rt: &impl Abort, alloc: Global) -> Journal {
    let mut journal = Journal::new(alloc);
    let both = two(charge(7, 100_000, 20), charge(8, 200_000, 21));
    let in_both = Item::Filing(filing(10, both, &[consent(1, 10), consent(2, 10)]));
    receive(rt, &mut journal, day(1, 2), &opened(7));
    receive(rt, &mut journal, day(1, 2), &opened(8));
    receive(rt, &mut journal, day(1, 3), &in_both);
    receive(rt, &mut journal, day(1, 3), &lapse(4));
    receive(
        rt,
        &mut journal,
        day(3, 1),
        &seizure_by(7, 61, 5_000, day(3, 1)),
    );
    let plain = filed(10, charge(8, 300_000, 22), &[plain_consent(1, 10)]);
    receive(rt, &mut journal, day(6, 3), &plain);
    receive(rt, &mut journal, day(6, 3), &call(7, 1_000));
    receive(rt, &mut journal, day(6, 3), &award(7, 30, 12_000_000));
    receive(rt, &mut journal, day(6, 4), &cure(6, &[consent(1, 10)]));
    receive(rt, &mut journal, day(6, 4), &distribution(7));
    journal
}
