//! Filings and the other items.
ghost use Rattle.std.specs.Prelude.{◌≤◌, length};
ghost use Rattle.gb_base.specs.Limits.{most_cents};
ghost use Rattle.act_model.specs.Limits.{most_docs};

use crate::{cents, documents, folio, one, person, receipt};
use act_model::{Act, Acts, Basis, Doc, Filing, Item, Registration};
use gb_base::{Day, RightId};

/// A filing of these acts, under no condition.
pub fn filing(applicant: u32, acts: Acts, docs: &[Doc]) -> Filing
    requires applicant { 1 ≤ applicant }
    requires docs { length docs.now ≤ most_docs }
{
    Filing {
        applicant: person(applicant),
        conditional: false,
        acts,
        docs: documents(docs),
    }
}

/// A filing of one act.
pub fn filing_of(applicant: u32, act: Act, docs: &[Doc]) -> Filing
    requires applicant { 1 ≤ applicant }
    requires docs { length docs.now ≤ most_docs }
{
    filing(applicant, one(act), docs)
}

/// The item that is a filing of one act.
pub fn filed(applicant: u32, act: Act, docs: &[Doc]) -> Item
    requires applicant { 1 ≤ applicant }
    requires docs { length docs.now ≤ most_docs }
{
    Item::Filing(filing_of(applicant, act, docs))
}

/// A cure of a filing by these documents.
pub fn cure(of: u32, docs: &[Doc]) -> Item
    requires filing { 1 ≤ of }
    requires docs { length docs.now ≤ most_docs }
{
    Item::Cure {
        filing: receipt(of),
        docs: documents(docs),
    }
}

/// A lapse of this number.
pub fn lapse(of: u32) -> Item
    requires { 1 ≤ of }
{
    Item::Lapse {
        filing: receipt(of),
    }
}

/// An extension of the deadline of the filing of this number by so many days.
pub fn extension(of: u32, days: u16) -> Item
    requires { 1 ≤ of }
{
    Item::Extend {
        filing: receipt(of),
        days,
    }
}

// ---- the forced sale

/// A seizure of a folio for a personal creditor's claim of so many cents.
pub fn seizure_by(of: u32, creditor: u32, claim: u64, served: Day) -> Item
    requires folio { 1 ≤ of }
    requires creditor { 1 ≤ creditor }
    requires claim { claim ≤ most_cents }
{
    let basis = Basis::Personal {
        creditor: person(creditor),
        claim: cents(claim),
    };
    Item::Seize {
        folio: folio(of),
        basis,
        served,
    }
}

/// A seizure of a folio from a right.
pub fn seizure_from(of: u32, right: RightId, served: Day) -> Item
    requires { 1 ≤ of }
{
    Item::Seize {
        folio: folio(of),
        basis: Basis::FromRight { right },
        served,
    }
}

/// The registration of an advance of so many cents.
pub fn advance(of: u32, by: u32, amount: u64) -> Item
    requires folio { 1 ≤ of }
    requires person { 1 ≤ by }
    requires amount { amount ≤ most_cents }
{
    let what = Registration::Advance {
        person: person(by),
        amount: cents(amount),
    };
    Item::Register {
        folio: folio(of),
        what,
    }
}

/// The call to bid.
pub fn call(of: u32, costs: u64) -> Item
    requires folio { 1 ≤ of }
    requires costs { costs ≤ most_cents }
{
    Item::OpenBids {
        folio: folio(of),
        costs: cents(costs),
    }
}

/// The award to a buyer.
pub fn award(of: u32, buyer: u32, bid: u64) -> Item
    requires folio { 1 ≤ of }
    requires buyer { 1 ≤ buyer }
    requires bid { bid ≤ most_cents }
{
    Item::Award {
        folio: folio(of),
        buyer: person(buyer),
        bid: cents(bid),
    }
}

/// The distribution of the proceeds.
pub fn distribution(of: u32) -> Item
    requires { 1 ≤ of }
{
    Item::Distribute { folio: folio(of) }
}
