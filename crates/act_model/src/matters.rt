//! A filing, and the item with which it is judged.
//! Why so: docs/DECISIONS.md, "A filing and the item with which it is judged are one value".
use crate::{Filing, Journal};
use gb_base::ReceiptNo;

/// A filing of a journal, as it is judged with an item: with itself, or with a later cure of it.
/// Whoever makes a matter hands in the filing that stands at its number.
#[derive(Clone, Copy)]
pub struct Matter<'a> {
    /// The journal in which both have their numbers.
    pub journal: &'a Journal,
    /// The receipt of the item with which the filing is judged. The cures up to it count.
    pub item: ReceiptNo,
    /// The receipt of the filing.
    pub number: ReceiptNo,
    /// What that receipt holds.
    pub filing: &'a Filing,
}
