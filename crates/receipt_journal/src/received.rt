//! A book's answers to an item.
use gb_base::ReceiptNo;

/// A book's answer to an item.
#[derive(Clone, Copy, Debug, PartialEq, Eq)]
pub enum Received {
    /// The item is receipt n, and is on the disk.
    Accepted(ReceiptNo),
    /// The same item stands as receipt n under this sender and reference.
    Repeated(ReceiptNo),
    /// Another item stands as receipt n under this sender and reference.
    Differs(ReceiptNo),
    /// The journal has 200,000 receipts, or its file would pass 134,217,728 bytes.
    Full,
    /// The disk failed. The book answers `MustReopen` from now on; opened again, the journal has
    /// the receipt or not.
    Disk,
    /// An earlier item was answered `Disk`.
    MustReopen,
    /// Memory ran out.
    Memory,
}
