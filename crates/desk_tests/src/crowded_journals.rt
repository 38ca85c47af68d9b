//! Drawn journals in which much can be done at once: many items in some folios, of which some are in
//! two folios and some in none.
ghost use Rattle.std.specs.Prelude.{◌≤◌};
ghost use Rattle.gb_base.specs.DayMinute.{IsStampDay};

use crate::journals::opened;
use act_model::{Doc, Item, Journal};
use gb_base::Day;
use std::alloc::Global;
use test_items::{
    Draws, advance, assignment, award, call, charge, consent, cure, day, distribution, extension,
    filed, filing, lapse, last_of_february, plain_consent, received, right, seizure_by, two,
};

/// The journal of this seed. First so many folios are opened, from folio 1 on; then come so many
/// drawn items, one a day, so that deadlines end between them.
pub fn crowded_journal(alloc: Global, seed: u64, folios: u32, items: u32) -> Journal
    requires some { 1 ≤ folios }
    requires few { folios ≤ 64 }
    requires items { items ≤ 200 }
{
    let mut draws = Draws::new(seed);
    let mut journal = Journal::new(alloc);
    for before in 0..folios {
        received(&mut journal, last_of_february(), &opened(before + 1));
    }
    for turn in 0..items {
        let item = drawn_item(&mut draws, folios, journal.len().max(1));
        received(&mut journal, day_of(turn), &item);
    }
    journal
}

/// The days from 1 March on, without the last ones of each month.
fn day_of(turn: u32) -> Day
    requires { turn ≤ 200 }
    ensures { IsStampDay result }
{
    day(3 + (turn / 28) as u8, 1 + (turn % 28) as u8)
}

/// The item that comes after so many receipts.
fn drawn_item(draws: &mut Draws, folios: u32, receipts: u32) -> Item
    requires folios { 1 ≤ folios }
    requires receipts { 1 ≤ receipts }
{
    match draws.below(9) {
        0 | 1 => drawn_charge(draws, folios, receipts),
        2 | 3 => drawn_pair(draws, folios, receipts),
        4 => drawn_assignment(draws, folios, receipts),
        5 => cure(
            drawn_number(draws, receipts),
            &[consent(1, 10), consent(2, 10)],
        ),
        6 => lapse(drawn_number(draws, receipts.saturating_mul(2))),
        7 => extension(drawn_number(draws, receipts), 30),
        _ => drawn_sale(draws, folios),
    }
}

/// A number up to this one.
fn drawn_number(draws: &mut Draws, most: u32) -> u32
    requires { 1 ≤ most }
    ensures { 1 ≤ result }
{
    1 + draws.below(most)
}

/// The folio in which the item after so many receipts creates a right, so that a later item finds
/// that right.
fn folio_of(receipts: u32, folios: u32) -> u32
    requires { 1 ≤ folios }
    ensures { 1 ≤ result }
{
    1 + receipts % folios
}

/// The consent of owner 10 to an act, one time in four in plain form.
fn drawn_consent(draws: &mut Draws, act: u8) -> Doc {
    if draws.one_in(4) {
        plain_consent(act, 10)
    } else {
        consent(act, 10)
    }
}

fn drawn_charge(draws: &mut Draws, folios: u32, receipts: u32) -> Item
    requires { 1 ≤ folios }
{
    let of = folio_of(receipts, folios);
    filed(10, charge(of, 100_000, 20), &[drawn_consent(draws, 1)])
}

/// Land charges in two folios, which may be one.
fn drawn_pair(draws: &mut Draws, folios: u32, receipts: u32) -> Item
    requires { 1 ≤ folios }
{
    let first = charge(folio_of(receipts, folios), 100_000, 20);
    let second = charge(drawn_number(draws, folios), 200_000, 20);
    let docs = [drawn_consent(draws, 1), drawn_consent(draws, 2)];
    Item::Filing(filing(10, two(first, second), &docs))
}

/// The assignment of the right that an earlier receipt may have created.
fn drawn_assignment(draws: &mut Draws, folios: u32, receipts: u32) -> Item
    requires folios { 1 ≤ folios }
    requires receipts { 1 ≤ receipts }
{
    let number = drawn_number(draws, receipts);
    let of = folio_of(number - 1, folios);
    filed(20, assignment(of, right(number, 1), 21), &[consent(1, 20)])
}

fn drawn_sale(draws: &mut Draws, folios: u32) -> Item
    requires { 1 ≤ folios }
{
    let of = drawn_number(draws, folios);
    match draws.below(5) {
        0 => seizure_by(of, 30, 50_000, day(3, 1)),
        1 => advance(of, 31, 20_000),
        2 => call(of, 10_000),
        3 => award(of, 40, 500_000),
        _ => distribution(of),
    }
}
