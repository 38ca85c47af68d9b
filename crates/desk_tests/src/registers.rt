//! The registers that desks, a round and the one registrar leave of a journal, and whether two of
//! them say the same.
ghost use Rattle.std.specs.Prelude.{◌≡◌, ◌≤◌, length};

use crate::entries::agree_at;
use act_model::{Journal, JournalName};
use conflict_queue::Docket;
use desk_pool::{Round, settle_at_desks};
use gb_base::ReceiptNo;
use gb_outside::DeskGate;
use registrar::{Register, alone};
use std::alloc::Global;
use std::marker::Brand;
use std::process::Abort;
use std::sync::Wait;
use std::thread::Threads;

/// The register that the one registrar leaves.
pub fn register_of(rt: &impl Abort, alloc: Global, journal: &Journal) -> Register {
    alone(alloc, journal).ok().expect(rt, "memory")
}

/// The register that so many desks leave, with this gate.
pub fn left_by<R: AllocGlobal + Threads + Wait + Sync + Abort, G: DeskGate>(
    rt: &R,
    journal: &Journal,
    desks: u16,
    gate: &G,
) -> Register
    requires { (1 ≤ desks) × (desks ≤ 64) }
{
    settle_at_desks(rt, journal, desks, gate)
        .ok()
        .expect(rt, "memory")
}

/// The register that a round leaves in this order; None where it refuses the order.
pub fn in_order(
    rt: &impl Abort,
    alloc: Global,
    journal: &Journal,
    order: &[ReceiptNo],
) -> Option<Register> {
    named_in_order::<Brand, _>(rt, alloc, journal, order)
}

fn named_in_order<N: JournalName, R: Abort>(
    rt: &R,
    alloc: Global,
    journal: &Journal,
    order: &[ReceiptNo],
) -> Option<Register>
    requires { journal.now.receipts ≡ N.receipts }
{
    let round = Round::<N>::prepare(alloc, journal)
        .ok()
        .expect(rt, "memory");
    round.in_order(order)
}

/// The register that a round leaves without desks.
pub fn by_a_round(rt: &impl Abort, alloc: Global, journal: &Journal) -> Register {
    named_by_a_round::<Brand, _>(rt, alloc, journal)
}

fn named_by_a_round<N: JournalName, R: Abort>(rt: &R, alloc: Global, journal: &Journal) -> Register
    requires { journal.now.receipts ≡ N.receipts }
{
    let round = Round::<N>::prepare(alloc, journal)
        .ok()
        .expect(rt, "memory");
    round.alone()
}

/// The register that a round of so many desks leaves, with this gate. The round has a board and locks
/// also where only one desk is asked for.
pub fn by_a_round_of<R: AllocGlobal + Threads + Wait + Sync + Abort, G: DeskGate>(
    rt: &R,
    journal: &Journal,
    desks: u16,
    gate: &G,
) -> Register
    requires { (1 ≤ desks) × (desks ≤ 64) }
{
    named_by_a_round_of::<Brand, R, G>(rt, journal, desks, gate)
}

fn named_by_a_round_of<
    N: JournalName + Send + Sync,
    R: AllocGlobal + Threads + Wait + Sync + Abort,
    G: DeskGate,
>(rt: &R, journal: &Journal, desks: u16, gate: &G) -> Register
    requires named { journal.now.receipts ≡ N.receipts }
    requires desks { (1 ≤ desks) × (desks ≤ 64) }
{
    let round = Round::<N>::prepare(rt.alloc(), journal)
        .ok()
        .expect(rt, "memory");
    round.run(rt, desks, gate)
}

/// Whether two registers of a journal say the same of each item, have the same entries at each key
/// that an item touches, and the same open folios.
pub fn say_the_same(
    rt: &impl Abort,
    alloc: Global,
    journal: &Journal,
    first: &Register,
    second: &Register,
) -> bool {
    first.folios() == second.folios()
        && verdicts_text(rt, alloc, first).as_str() == verdicts_text(rt, alloc, second).as_str()
        && agree_at_keys(rt, alloc, journal, first, second)
}

/// `Verdict` has no equality, and its `Debug` text has every field.
fn verdicts_text(rt: &impl Abort, alloc: Global, register: &Register) -> String {
    let verdicts = register.verdicts();
    format!(in alloc; "{verdicts:?}").ok().expect(rt, "memory")
}

fn agree_at_keys(
    rt: &impl Abort,
    alloc: Global,
    journal: &Journal,
    first: &Register,
    second: &Register,
) -> bool {
    let docket = Docket::build(alloc, journal).ok().expect(rt, "memory");
    for index in 0..journal.len() {
        let item = ReceiptNo::new(index + 1).expect(rt, "a number");
        if !agree_at_item(rt, alloc, &docket, first, second, item) {
            return false;
        }
    }
    true
}

/// Whether the same entries stand at each key of this item that no earlier item touches.
fn agree_at_item(
    rt: &impl Abort,
    alloc: Global,
    docket: &Docket,
    first: &Register,
    second: &Register,
    item: ReceiptNo,
) -> bool
    requires { item ≤ length docket.now }
{
    for key in docket.keys(item) {
        let is_first = docket.previous(item, *key).is_none();
        let agree = agree_at(alloc, first, second, key)
            .ok()
            .expect(rt, "memory");
        if is_first && !agree {
            return false;
        }
    }
    true
}
