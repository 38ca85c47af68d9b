//! Why a book could not be opened.

/// Why a book could not be opened.
#[derive(Clone, Copy, Debug, PartialEq, Eq)]
pub enum BookFault {
    /// The disk failed.
    Disk,
    /// The file is no journal, and not one that a stop left unmade.
    NotJournal,
    /// The frame whose gate stands at `at` is no record of the journal before it: it is no
    /// spelling of a receipt, repeats a sender and reference, lowers the stamp, or is the
    /// 200,001st; or no whole frame follows that gate.
    BadRecord { at: u64 },
    /// Memory ran out for the receipts.
    Memory,
}
