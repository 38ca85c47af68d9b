//! A gate that is always open.
use crate::DeskGate;
use gb_base::ReceiptNo;

/// A gate that lets each item pass at once.
#[derive(Clone, Copy, Debug, Default)]
pub struct OpenGate;

impl DeskGate for OpenGate {
    fn at(&self, _item: ReceiptNo) {}
}
