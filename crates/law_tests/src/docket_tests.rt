//! What items touch, and what was at a key before, in a small journal. No text that the program
//! writes shows keys.
ghost use Rattle.std.specs.Prelude.{◌≤◌};

use act_model::{Act, Item, Journal};
use conflict_queue::{Docket, touches};
use gb_base::Key;
use std::alloc::Global;
use std::process::Abort;
use std::test::Fail;
use test_items::{
    advance, assignment, call, case_key, charge, cure, day, filed, lapse, opening, receipt,
    received, right, right_key, seizure_from, title_key,
};

/// The item becomes the next receipt, on 1 March.
fn receive(rt: &impl Abort, journal: &mut Journal, item: &Item) {
    let next = receipt(journal.len() + 1);
    assert_eq!(rt; received(journal, day(3, 1), item), Some(next));
}

/// The filing of one act without documents.
fn filing(act: Act) -> Item {
    filed(10, act, &[])
}

/// The key of the right that act 1 of a filing creates in folio 7.
fn right_of(filing: u32) -> Key
    requires { 1 ≤ filing }
{
    right_key(7, right(filing, 1))
}

/// Receipts 2 and 5 create charges in folio 7, with a seizure and a registration between them; 6 calls
/// to bid, 7 assigns the second charge, and 8 cures its creation. Receipt 9 names a later number, and
/// 10 what is no filing.
fn sale(rt: &impl Abort, alloc: Global) -> Journal {
    let mut journal = Journal::new(alloc);
    receive(rt, &mut journal, &filing(opening(7, 10)));
    receive(rt, &mut journal, &filing(charge(7, 10_000_000, 20)));
    receive(rt, &mut journal, &seizure_from(7, right(2, 1), day(3, 1)));
    receive(rt, &mut journal, &advance(7, 51, 30_000));
    receive(rt, &mut journal, &filing(charge(7, 10_000_000, 20)));
    receive(rt, &mut journal, &call(7, 250_000));
    receive(rt, &mut journal, &filing(assignment(7, right(5, 1), 21)));
    receive(rt, &mut journal, &cure(5, &[]));
    receive(rt, &mut journal, &lapse(99));
    receive(rt, &mut journal, &lapse(4));
    journal
}

/// Whether these are the keys of item n, in the docket and by themselves.
fn has_keys(
    rt: &impl Abort,
    alloc: Global,
    journal: &Journal,
    docket: &Docket,
    n: u32,
    keys: &[Key],
) -> bool
    requires { 1 ≤ n }
{
    let item = receipt(n);
    assert!(rt; item.get() <= journal.len());
    assert!(rt; item.get() as usize <= docket.len());
    let touched = touches(alloc, journal, item).ok().expect(rt, "memory");
    touched.as_slice() == keys && docket.keys(item) == keys
}

/// The number of the item that was at the key before item n; 0 where there is none.
fn previous(rt: &impl Abort, docket: &Docket, n: u32, key: Key) -> u32
    requires { 1 ≤ n }
{
    let item = receipt(n);
    assert!(rt; item.get() as usize <= docket.len());
    match docket.previous(item, key) {
        Some(before) => before.get(),
        None => 0,
    }
}

/// A seizure and a call touch the title, the sale and the rights that were created before them; a
/// registration the sale alone; a cure what its filing touches.
#[test]
fn what_the_items_of_a_sale_touch(rt: HostRuntime) -> Result<(), Fail> {
    let alloc = rt.alloc();
    let journal = sale(&rt, alloc);
    let docket = Docket::build(alloc, &journal)?;
    let seized = [title_key(7), right_of(2), case_key(7)];
    let called = [title_key(7), right_of(2), right_of(5), case_key(7)];
    let cured = [title_key(7), right_of(5)];
    assert!(rt; has_keys(&rt, alloc, &journal, &docket, 3, &seized));
    assert!(rt; has_keys(&rt, alloc, &journal, &docket, 4, &[case_key(7)]));
    assert!(rt; has_keys(&rt, alloc, &journal, &docket, 6, &called));
    assert!(rt; has_keys(&rt, alloc, &journal, &docket, 7, &[right_of(5)]));
    assert!(rt; has_keys(&rt, alloc, &journal, &docket, 8, &cured));
    assert!(rt; has_keys(&rt, alloc, &journal, &docket, 9, &[]));
    assert!(rt; has_keys(&rt, alloc, &journal, &docket, 10, &[]));
    Ok(())
}

#[test]
fn what_was_at_their_keys_before(rt: HostRuntime) -> Result<(), Fail> {
    let journal = sale(&rt, rt.alloc());
    let docket = Docket::build(rt.alloc(), &journal)?;
    assert_eq!(rt; previous(&rt, &docket, 1, title_key(7)), 0);
    assert_eq!(rt; previous(&rt, &docket, 6, title_key(7)), 5);
    assert_eq!(rt; previous(&rt, &docket, 6, right_of(2)), 3);
    assert_eq!(rt; previous(&rt, &docket, 6, case_key(7)), 4);
    assert_eq!(rt; previous(&rt, &docket, 8, right_of(5)), 7);
    Ok(())
}
