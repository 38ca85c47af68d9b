//! The classes of rights in a forced sale (ZVG § 10(1) nos. 4 and 6).
ghost use Rattle.std.specs.Prelude.{◌≡◌};
ghost use Rattle.auction_classes.specs.inner.Findings.{class_by};
ghost use Rattle.auction_classes.specs.inner.LinesRead.{is_of_class};

use gb_base::{ReceiptNo, RightId};

/// Class 4 or 6 of a sale.
#[derive(Drop)]
pub(crate) struct RightClass {
    /// The receipt of the first seizure, which decides of which of the two classes a right is.
    pub seized: ReceiptNo,
    pub number: u8,
}

impl RightClass {
    /// Whether a right is of the class.
    pub fn has(&self, right: RightId) -> bool
        ensures { result ≡ is_of_class self.now right }
    {
        class_by(self.seized, right) == self.number
    }
}

/// The class of a right, where the first seizure has this receipt.
pub(crate) fn class_by(seized: ReceiptNo, right: RightId) -> u8
    ensures { result ≡ class_by seized right }
{
    if right.receipt() < seized { 4 } else { 6 }
}
