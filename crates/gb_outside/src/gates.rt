//! The gate of a desk.
use gb_base::ReceiptNo;

/// Stands at each desk: called with an item while the desk holds the item's folios, before the
/// item's entries are made. It returns nothing that the desk uses.
pub trait DeskGate: Sync {
    /// The desk is about to make the entries of this item.
    fn at(&self, item: ReceiptNo);
}
