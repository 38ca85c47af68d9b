//! What an item brings, added to the parts of a register (GBO §§ 16 to 18).
ghost use Rattle.std.specs.Prelude.{◌≡◌, ◌<◌, ◌≤◌, ℕ, Some, length, Contains, IsSome, IsTrue};
ghost use Rattle.std.specs.Option.{option_map_or};
ghost use Rattle.std.specs.Result.{result_err, result_ok};
ghost use Rattle.registrar.specs.declared.verdicts.Verdict.TheVariants as verdict;
ghost use Rattle.gb_base.specs.declared.keys.Key.{Key};
ghost use Rattle.act_model.specs.Touches.{filing_at, keys_of_filing};
ghost use Rattle.folio_sections.specs.Adding.{AddsList, HasRoom};
ghost use Rattle.registrar.specs.Enters.{enters};
ghost use Rattle.consent_rules.specs.Judging.{KnowsExchanges};
ghost use Rattle.interim_orders.specs.Orders.{state_of};
ghost use Rattle.interim_orders.specs.declared.states.FilingState.TheVariants.{Pending};
ghost use Rattle.registrar.specs.Brings.{brought_by_cure, brought_by_filing, brought_in_state, lowest_said, verdict_on_award, verdict_on_extension, verdict_on_lapse, verdict_unless};
ghost use Rattle.registrar.specs.Rooms.{IsForFolio, IsRoomy};
ghost use Rattle.registrar.specs.inner.Steps.{CanStep, Settles, filing_item, lapse_item};
ghost use Rattle.act_model.specs.declared.items.Item.TheVariants.{Award, Cure, Distribute, Extend, OpenBids, Register, Seize};

use crate::{Scratch, Verdict};
use act_model::{Basis, Docs, Filing, Item, Journal, Matter, Registration, filing_at};
use auction_classes::Lowest;
use consent_rules::{Judgement, judge};
use entry_rules::enter;
use folio_sections::Parts;
use gb_base::{Cents, Day, FolioId, Person, ReceiptNo, Section};
use interim_orders::{
    Extension, FilingState, Lapse, close_order, enter_notices, extend, lapse, open_order, state,
};
use sale_rules::{AwardRefusal, award, distribute, open_bids, register, seize};

/// Adds what this item of the journal brings, and says what becomes of it.
pub(crate) fn settle<P: Parts>(
    parts: &mut P,
    scratch: &mut Scratch,
    journal: &Journal,
    item: ReceiptNo,
    received: &Item,
) -> Verdict
    requires step { CanStep journal.now.receipts item received.now (P.holds parts.old) (P.at parts.old) (P.room parts.old) }
    requires scratch { IsRoomy journal.now.receipts item (P.at parts.old) received.now scratch.old }
    ensures settles { Settles journal.now.receipts item (received.now) (P.holds parts.old) (P.at parts.old) (P.at parts.new) (P.room parts.old) (P.room parts.new) result }
    ensures held { P.holds parts.new ≡ P.holds parts.old }
    ensures scratch { scratch.new ≡ scratch.old }
{
    match received {
        Item::Filing(filing) => settle_received(parts, journal, item, filing),
        Item::Cure { filing, docs } => settle_cure(parts, journal, item, *filing, docs),
        Item::Lapse { filing } => settle_lapse(parts, journal, item, *filing),
        Item::Extend { filing, days } => settle_extension(parts, journal, item, *filing, *days),
        Item::Seize {
            folio,
            basis,
            served,
        } => settle_seizure(parts, journal, item, *folio, basis, *served),
        Item::Register { folio, what } => {
            settle_registration(parts, journal, item, *folio, what)
        }
        Item::OpenBids { folio, costs } => {
            settle_call(parts, scratch, journal, item, *folio, *costs)
        }
        Item::Award { folio, buyer, bid } => {
            settle_award(parts, scratch, journal, item, *folio, *buyer, *bid)
        }
        Item::Distribute { folio } => settle_distribution(parts, journal, item, *folio),
    }
}

/// A filing is judged as it is received.
fn settle_received<P: Parts>(
    parts: &mut P,
    journal: &Journal,
    item: ReceiptNo,
    filing: &Filing,
) -> Verdict
    requires { CanStep journal.now.receipts item (filing_item filing.now) (P.holds parts.old) (P.at parts.old) (P.room parts.old) }
    ensures settles { Settles journal.now.receipts item (filing_item filing.now) (P.holds parts.old) (P.at parts.old) (P.at parts.new) (P.room parts.old) (P.room parts.new) result }
    ensures held { P.holds parts.new ≡ P.holds parts.old }
{
    let judgement = judge(parts, journal, item, item);
    settle_filing(parts, journal, item, judgement)
}

/// A cure has the filing that it names judged again, where that filing waits.
fn settle_cure<P: Parts>(
    parts: &mut P,
    journal: &Journal,
    item: ReceiptNo,
    filing: ReceiptNo,
    docs: &Docs,
) -> Verdict
    requires { CanStep journal.now.receipts item (Cure filing docs.now) (P.holds parts.old) (P.at parts.old) (P.room parts.old) }
    ensures settles { Settles journal.now.receipts item (Cure filing docs.now) (P.holds parts.old) (P.at parts.old) (P.at parts.new) (P.room parts.old) (P.room parts.new) result }
    ensures held { P.holds parts.new ≡ P.holds parts.old }
{
    judge_again(parts, journal, item, filing)
}

/// A lapse ends the waiting of the filing that it names, where its deadline is over.
fn settle_lapse<P: Parts>(
    parts: &mut P,
    journal: &Journal,
    item: ReceiptNo,
    filing: ReceiptNo,
) -> Verdict
    requires { CanStep journal.now.receipts item (lapse_item filing) (P.holds parts.old) (P.at parts.old) (P.room parts.old) }
    ensures settles { Settles journal.now.receipts item (lapse_item filing) (P.holds parts.old) (P.at parts.old) (P.at parts.new) (P.room parts.old) (P.room parts.new) result }
    ensures held { P.holds parts.new ≡ P.holds parts.old }
{
    verdict_on_lapse(lapse(parts, journal, item))
}

/// An extension gives the filing that it names a later deadline, where the one that stands is not over.
fn settle_extension<P: Parts>(
    parts: &mut P,
    journal: &Journal,
    item: ReceiptNo,
    filing: ReceiptNo,
    days: u16,
) -> Verdict
    requires { CanStep journal.now.receipts item (Extend filing days) (P.holds parts.old) (P.at parts.old) (P.room parts.old) }
    ensures settles { Settles journal.now.receipts item (Extend filing days) (P.holds parts.old) (P.at parts.old) (P.at parts.new) (P.room parts.old) (P.room parts.new) result }
    ensures held { P.holds parts.new ≡ P.holds parts.old }
{
    verdict_on_extension(extend(parts, journal, item))
}

/// Land is seized, or the seizure is refused (ZVG § 20).
fn settle_seizure<P: Parts>(
    parts: &mut P,
    journal: &Journal,
    item: ReceiptNo,
    folio: FolioId,
    basis: &Basis,
    served: Day,
) -> Verdict
    requires { CanStep journal.now.receipts item (Seize folio basis.now served) (P.holds parts.old) (P.at parts.old) (P.room parts.old) }
    ensures settles { Settles journal.now.receipts item (Seize folio basis.now served) (P.holds parts.old) (P.at parts.old) (P.at parts.new) (P.room parts.old) (P.room parts.new) result }
    ensures held { P.holds parts.new ≡ P.holds parts.old }
{
    verdict_unless(
        seize(parts, journal, item, folio, basis).err(),
        Verdict::Seized,
    )
}

/// A claim is registered, or the registration is refused (ZVG § 37).
fn settle_registration<P: Parts>(
    parts: &mut P,
    journal: &Journal,
    item: ReceiptNo,
    folio: FolioId,
    what: &Registration,
) -> Verdict
    requires { CanStep journal.now.receipts item (Register folio what.now) (P.holds parts.old) (P.at parts.old) (P.room parts.old) }
    ensures settles { Settles journal.now.receipts item (Register folio what.now) (P.holds parts.old) (P.at parts.old) (P.at parts.new) (P.room parts.old) (P.room parts.new) result }
    ensures held { P.holds parts.new ≡ P.holds parts.old }
{
    verdict_unless(
        register(parts, journal, item, folio, what).err(),
        Verdict::Registered,
    )
}

/// Bidders are called, or the call is refused (ZVG § 66).
fn settle_call<P: Parts>(
    parts: &mut P,
    scratch: &mut Scratch,
    journal: &Journal,
    item: ReceiptNo,
    folio: FolioId,
    costs: Cents,
) -> Verdict
    requires step { CanStep journal.now.receipts item (OpenBids folio costs) (P.holds parts.old) (P.at parts.old) (P.room parts.old) }
    requires scratch { IsForFolio journal.now.receipts item folio (P.at parts.old) scratch.old }
    ensures settles { Settles journal.now.receipts item (OpenBids folio costs) (P.holds parts.old) (P.at parts.old) (P.at parts.new) (P.room parts.old) (P.room parts.new) result }
    ensures held { P.holds parts.new ≡ P.holds parts.old }
    ensures scratch { scratch.new ≡ scratch.old }
{
    verdict_on_call(open_bids(parts, scratch, journal, item, folio, costs))
}

/// The land is awarded, or the award is refused (ZVG § 81).
fn settle_award<P: Parts>(
    parts: &mut P,
    scratch: &mut Scratch,
    journal: &Journal,
    item: ReceiptNo,
    folio: FolioId,
    buyer: Person,
    bid: Cents,
) -> Verdict
    requires step { CanStep journal.now.receipts item (Award folio buyer bid) (P.holds parts.old) (P.at parts.old) (P.room parts.old) }
    requires scratch { IsForFolio journal.now.receipts item folio (P.at parts.old) scratch.old }
    ensures settles { Settles journal.now.receipts item (Award folio buyer bid) (P.holds parts.old) (P.at parts.old) (P.at parts.new) (P.room parts.old) (P.room parts.new) result }
    ensures held { P.holds parts.new ≡ P.holds parts.old }
    ensures scratch { scratch.new ≡ scratch.old }
{
    verdict_on_award(
        bid.get(),
        award(parts, scratch, journal, item, folio, buyer, bid),
    )
}

/// The proceeds are distributed, or the distribution is refused (ZVG § 105).
fn settle_distribution<P: Parts>(
    parts: &mut P,
    journal: &Journal,
    item: ReceiptNo,
    folio: FolioId,
) -> Verdict
    requires { CanStep journal.now.receipts item (Distribute folio) (P.holds parts.old) (P.at parts.old) (P.room parts.old) }
    ensures settles { Settles journal.now.receipts item (Distribute folio) (P.holds parts.old) (P.at parts.old) (P.at parts.new) (P.room parts.old) (P.room parts.new) result }
    ensures held { P.holds parts.new ≡ P.holds parts.old }
{
    verdict_on_distribution(distribute(parts, journal, item, folio))
}

/// A filing is entered, rejected or set to wait, as it is judged.
fn settle_filing<P: Parts>(
    parts: &mut P,
    journal: &Journal,
    filing: ReceiptNo,
    judgement: Judgement,
) -> Verdict
    requires filing { IsSome (filing_at journal.now.receipts filing) }
    requires received { filing ≤ length journal.now.receipts }
    requires held { (k : Key) → Contains (keys_of_filing journal.now.receipts filing) k → IsTrue (P.holds parts.old k) }
    requires room { HasRoom (P.room parts.old) (brought_by_filing journal.now.receipts filing (P.at parts.old) judgement).entries }
    ensures verdict { result ≡ (brought_by_filing journal.now.receipts filing (P.at parts.old) judgement).verdict }
    ensures added { AddsList (P.at parts.old) (P.at parts.new) (P.room parts.old) (P.room parts.new)
        (brought_by_filing journal.now.receipts filing (P.at parts.old) judgement).entries }
    ensures held { P.holds parts.new ≡ P.holds parts.old }
{
    match judgement {
        Judgement::Enter => {
            let matter = Matter {
                journal,
                item: filing,
                number: filing,
                filing: filing_at(journal, filing).unwrap(),
            };
            enter_with_notices(parts, &matter);
            Verdict::Entered
        }
        Judgement::Reject(section) => Verdict::Rejected(section),
        Judgement::Interim(defects) => {
            let until = open_order(parts, journal, filing);
            Verdict::Interim { until, defects }
        }
    }
}

/// A filing that waits is judged again, with the cure.
fn judge_again<P: Parts>(
    parts: &mut P,
    journal: &Journal,
    item: ReceiptNo,
    filing: ReceiptNo,
) -> Verdict
    requires received { item ≤ length journal.now.receipts }
    requires held { filing < item → (k : Key) → Contains (keys_of_filing journal.now.receipts filing) k → IsTrue (P.holds parts.old k) }
    requires room { HasRoom (P.room parts.old)
        (brought_in_state journal.now.receipts filing item (P.at parts.old) (state_of journal.now.receipts filing item (P.at parts.old))).entries }
    requires exchanges { (until : ℕ) → state_of journal.now.receipts filing item (P.at parts.old) ≡ Pending until → KnowsExchanges journal.now.receipts filing (P.at parts.old) }
    ensures verdict { result ≡ (brought_in_state journal.now.receipts filing item (P.at parts.old) (state_of journal.now.receipts filing item (P.at parts.old))).verdict }
    ensures added { AddsList (P.at parts.old) (P.at parts.new) (P.room parts.old) (P.room parts.new)
        (brought_in_state journal.now.receipts filing item (P.at parts.old) (state_of journal.now.receipts filing item (P.at parts.old))).entries }
    ensures held { P.holds parts.new ≡ P.holds parts.old }
{
    match state(parts, journal, item, filing) {
        FilingState::Pending { .. } => {
            let with_cures = Matter {
                journal,
                item,
                number: filing,
                filing: filing_at(journal, filing).unwrap(),
            };
            // `judge` takes the filing first, and then up to which receipt documents count.
            let judgement = judge(parts, journal, filing, item);
            settle_waiting(parts, &with_cures, judgement)
        }
        FilingState::NotPending => Verdict::NotPending,
    }
}

/// A filing that waits, and is judged again with a cure, is entered, rejected or waits on.
fn settle_waiting<P: Parts>(parts: &mut P, matter: &Matter, judgement: Judgement) -> Verdict
    requires filing { filing_at matter.now.journal.now.receipts matter.now.number ≡ Some matter.now.filing.now }
    requires received { matter.now.item ≤ length matter.now.journal.now.receipts }
    requires held { (k : Key) → Contains (keys_of_filing matter.now.journal.now.receipts matter.now.number) k → IsTrue (P.holds parts.old k) }
    requires room { HasRoom (P.room parts.old) (brought_by_cure matter.now.journal.now.receipts matter.now.number matter.now.item (P.at parts.old) judgement).entries }
    ensures verdict { result ≡ (brought_by_cure matter.now.journal.now.receipts matter.now.number matter.now.item (P.at parts.old) judgement).verdict }
    ensures added { AddsList (P.at parts.old) (P.at parts.new) (P.room parts.old) (P.room parts.new)
        (brought_by_cure matter.now.journal.now.receipts matter.now.number matter.now.item (P.at parts.old) judgement).entries }
    ensures held { P.holds parts.new ≡ P.holds parts.old }
{
    match judgement {
        Judgement::Enter => {
            enter_with_notices(parts, matter);
            close_order(parts, matter.journal, matter.item, matter.number);
            Verdict::Cured
        }
        Judgement::Reject(section) => {
            close_order(parts, matter.journal, matter.item, matter.number);
            Verdict::CureRejected(section)
        }
        Judgement::Interim(defects) => Verdict::StillOpen(defects),
    }
}

/// Enters a filing by the item with which it is judged: official notices for those that wait, its places,
/// and the contents of its acts.
fn enter_with_notices<P: Parts>(parts: &mut P, matter: &Matter)
    requires filing { filing_at matter.now.journal.now.receipts matter.now.number ≡ Some matter.now.filing.now }
    requires received { matter.now.item ≤ length matter.now.journal.now.receipts }
    requires held { (k : Key) → Contains (keys_of_filing matter.now.journal.now.receipts matter.now.number) k → IsTrue (P.holds parts.old k) }
    requires room { HasRoom (P.room parts.old) (enters matter.now.journal.now.receipts matter.now.number matter.now.item (P.at parts.old)) }
    ensures added { AddsList (P.at parts.old) (P.at parts.new) (P.room parts.old) (P.room parts.new)
        (enters matter.now.journal.now.receipts matter.now.number matter.now.item (P.at parts.old)) }
    ensures held { P.holds parts.new ≡ P.holds parts.old }
{
    enter_notices(parts, matter.journal, matter.item, matter.number);
    enter(parts, matter.journal, matter.item, matter.number);
}

/// What becomes of a lapse, by the answer to it.
fn verdict_on_lapse(answer: Lapse) -> Verdict
    ensures { result ≡ verdict_on_lapse answer }
{
    match answer {
        Lapse::Rejected => Verdict::Lapsed,
        Lapse::TooEarly(until) => Verdict::TooEarly(until),
        Lapse::NotPending => Verdict::NotPending,
    }
}

/// What becomes of an extension, by the answer to it.
fn verdict_on_extension(answer: Extension) -> Verdict
    ensures { result ≡ verdict_on_extension answer }
{
    match answer {
        Extension::Extended(until) => Verdict::Extended { until },
        Extension::TooLate(until) => Verdict::TooLate(until),
        Extension::NotLater(_) => Verdict::Rejected(Section::Gbo18),
        Extension::NotPending => Verdict::NotPending,
    }
}

/// What becomes of an item of a forced sale: it is rejected under a section, or gets this verdict.
fn verdict_unless(refused: Option<Section>, let_in: Verdict) -> Verdict
    ensures { result ≡ verdict_unless refused let_in }
{
    match refused {
        Some(section) => Verdict::Rejected(section),
        None => let_in,
    }
}

/// What becomes of a call to bid: it is rejected, or says the lowest bid.
fn verdict_on_call(answer: Result<Lowest, Section>) -> Verdict
    ensures { result ≡ verdict_unless (result_err answer) (lowest_said (result_ok answer)) }
{
    match answer {
        Ok(lowest) => Verdict::Lowest {
            total: lowest.total,
            cash: lowest.cash,
        },
        Err(section) => Verdict::Rejected(section),
    }
}

/// What becomes of a distribution: it is rejected, or says the money, in cents.
fn verdict_on_distribution(answer: Result<u64, Section>) -> Verdict
    ensures { result ≡ verdict_unless (result_err answer) (verdict.Distributed (option_map_or (λ cents. cents) (result_ok answer) 0)) }
{
    match answer {
        Ok(money) => Verdict::Distributed { money },
        Err(section) => Verdict::Rejected(section),
    }
}

/// What becomes of an award at this bid, in cents.
fn verdict_on_award(bid: u64, answer: Result<(), AwardRefusal>) -> Verdict
    ensures { result ≡ verdict_on_award bid (result_err answer) }
{
    match answer {
        Ok(()) => Verdict::Awarded,
        Err(AwardRefusal::Ground(section)) => Verdict::Rejected(section),
        Err(AwardRefusal::BidTooLow { cash }) => Verdict::BidTooLow { bid, cash },
    }
}
