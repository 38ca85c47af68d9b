//! How a folio is read: as it stands, or as it stood before a receipt.
//! Why so: docs/DECISIONS.md, "A line is read as it stood before a receipt".
use gb_base::{FolioId, ReceiptNo};

/// A folio as it is read from the parts of a register. At a key that the parts do not hold nothing
/// is read.
#[derive(Drop)]
pub struct FolioReading<'a, P> {
    /// The parts, from which the rights of the folio are read.
    pub parts: &'a P,
    pub folio: FolioId,
    /// The receipt before which the reading stops: what it and later ones entered is not read. None
    /// reads the folio as it stands.
    pub before: Option<ReceiptNo>,
}
