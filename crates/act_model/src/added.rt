//! The journal's answers.
use gb_base::ReceiptNo;

/// What a journal answers to an item.
#[derive(Clone, Copy, Debug, PartialEq, Eq)]
pub enum Added {
    /// The item is received under this number.
    Accepted(ReceiptNo),
    /// The same item stands under this number already.
    Repeated(ReceiptNo),
    /// Another item of this sender and reference stands under this number.
    Differs(ReceiptNo),
    /// The journal holds as many receipts as it may.
    Full,
    /// No memory was found.
    Memory,
}
