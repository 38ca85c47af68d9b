//! Items as they are received.
use crate::Item;
use gb_base::Stamp;

/// An item as it was received: no two receipts of a journal have the same sender and reference.
#[derive(Debug, Drop)]
pub struct Receipt {
    pub stamp: Stamp,
    /// Who sent the item, as the office numbers senders.
    pub sender: u32,
    /// The sender's own number for the item.
    pub reference: u64,
    pub item: Item,
}
