//! How rights of a line stand to one another, and the longest line.
ghost use Rattle.std.specs.Prelude.{◌≤◌};

use crate::fitting::MOST_SUM;
use crate::lines::{filled, joined, knot, paid, place, relation, right, swap, threshold};
use gb_base::NoMemory;
use rank_slots::{Place, Relation, Slots};
use std::alloc::Global;
use std::process::Abort;
use std::test::Fail;

/// How right x stands to right y.
fn stands(rt: &impl Abort, slots: &Slots, x: u32, how: Relation, y: u32)
    requires x { 1 ≤ x }
    requires y { 1 ≤ y }
{
    assert_eq!(rt; relation(rt, slots, right(x), right(y)), how);
}

/// Right 1 recedes behind 3 and then behind 2, 5 took up the reservation of 4, and 6 and 7 are
/// equal.
#[test]
fn how_two_rights_stand(rt: HostRuntime) {
    let places = [
        place(1, 100),
        place(2, 50),
        place(3, 80),
        place(4, 10),
        place(5, 10),
        place(6, 7),
        joined(7, 3),
    ];
    let swaps = [swap(1, 3), swap(1, 2)];
    let slots = filled(&rt, rt.alloc(), &places, &swaps, &[knot(4, 5)]);
    stands(&rt, &slots, 3, Relation::Ahead, 1);
    stands(&rt, &slots, 1, Relation::Behind, 2);
    stands(&rt, &slots, 2, Relation::Ahead, 3);
    stands(&rt, &slots, 5, Relation::Ahead, 4);
    stands(&rt, &slots, 4, Relation::Behind, 5);
    stands(&rt, &slots, 7, Relation::Equal, 6);
    stands(&rt, &slots, 7, Relation::Behind, 1);
    stands(&rt, &slots, 1, Relation::Equal, 1);
}

/// The most cents of a line.
const MOST_CENTS: u64 = MOST_SUM - 1;

/// The claim of each right but the last, in cents. 256 of them would be one cent too many.
const CLAIM: u64 = 3_906_250_000_000_000;

/// The most places, whose claims come to as many cents as a line may have.
fn most_places(alloc: Global) -> Result<Vec<Place>, NoMemory> {
    let mut places = Vec::new(alloc);
    for n in 1..256 {
        places.push(place(n, CLAIM))?;
    }
    places.push(place(256, CLAIM - 1))?;
    Ok(places)
}

/// The last right has the cents of the first but one, and the first those of the last.
#[test]
fn the_longest_line_pays_its_last_cent(rt: HostRuntime) -> Result<(), Fail> {
    let places = most_places(rt.alloc())?;
    let slots = filled(&rt, rt.alloc(), &places, &[swap(1, 256)], &[knot(2, 255)]);
    assert_eq!(rt; slots.length(), MOST_CENTS);
    assert_eq!(rt; slots.pieces().len(), 257);
    assert_eq!(rt; paid(&rt, &slots, right(256), CLAIM), CLAIM - 1);
    assert_eq!(rt; paid(&rt, &slots, right(1), MOST_CENTS - 1), CLAIM - 1);
    assert_eq!(rt; paid(&rt, &slots, right(2), MOST_CENTS), CLAIM);
    assert_eq!(rt; threshold(&rt, &slots, right(2)), 2 * CLAIM);
    Ok(())
}
