//! Receipts, whole.
ghost use Rattle.std.specs.Prelude.{◌≡◌, ◌≢◌, ◌↔◌, IfSome, IsNone, IfOk, OnOk, IsTrue, ◌≤◌, length, ◌++◌};
ghost use Rattle.act_model.specs.WellFormed.{well_formed};
ghost use Rattle.act_model.specs.declared.receipts.Receipt.{Receipt};
ghost use Rattle.act_codec.specs.Spelling.{longest_spelling, spelling, stamp_bytes};
ghost use Rattle.act_codec.specs.Values.{IsStamp, IsReceiptValue, IsReceipt};
ghost use Rattle.act_codec.specs.inner.Reading.{Gives, Found, read_stamp, read_receipt, read_whole};

use crate::items::{put_item, read_item};
use crate::reader::Reader;
use crate::writer::Writer;
use act_model::{Receipt, well_formed};
use gb_base::{NoMemory, Stamp};
use std::alloc::Global;

/// The most bytes that a spelling may have: room for them is taken at once.
fn most_bytes() -> usize
    ensures { result ≡ longest_spelling }
{
    522
}

#[tactic(auto, unfolding(crate::specs::inner::Reading::read_stamp))]
fn read_stamp(from: &mut Reader) -> Option<Stamp>
    ensures read { Gives result from.new (read_stamp from.old) }
    ensures found { Found result from.old from.new stamp_bytes IsStamp }
{
    let day = from.day()?;
    Stamp::new(day, from.u16()?)
}

#[tactic(auto, unfolding(crate::specs::inner::Reading::read_receipt))]
fn read_receipt(from: &mut Reader) -> Option<Receipt>
    ensures read { Gives result from.new (read_receipt from.old) }
    ensures found { Found result from.old from.new spelling IsReceiptValue }
{
    Some(Receipt {
        stamp: read_stamp(from)?,
        sender: from.u32()?,
        reference: from.u64()?,
        item: read_item(from)?,
    })
}

#[tactic(auto, unfolding(crate::specs::inner::Reading::read_whole))]
fn read_whole(bytes: &[u8]) -> Option<Receipt>
    ensures read { result ≡ read_whole bytes.now }
    ensures found { IfSome result (λ r. IsReceipt r × (bytes.now ≡ spelling r)) }
{
    let mut from = Reader::new(bytes);
    let receipt = read_receipt(&mut from)?;
    if from.is_at_end() && well_formed(&receipt.item) {
        Some(receipt)
    } else {
        None
    }
}

/// The receipt whose spelling the bytes are; None exactly where they are no receipt's.
///
/// ```
/// let spelling = encode(alloc, &receipt)?;
/// assert!(decode(&spelling) == Some(receipt));
/// assert!(decode(&spelling[1..]).is_none());
/// ```
pub fn decode(bytes: &[u8]) -> Option<Receipt>
    ensures found { IfSome result (λ r. IsReceipt r × (bytes.now ≡ spelling r)) }
    ensures none { IsNone result ↔ ((r : Receipt) → IsReceipt r → bytes.now ≢ spelling r) }
{
    read_whole(bytes)
}

fn put_stamp(to: &mut Writer, stamp: Stamp) -> Result<(), NoMemory>
    ensures wrote { OnOk result (to.new ≡ to.old ++ stamp_bytes stamp) }
    ensures held { OnOk result (IsStamp stamp) }
{
    to.day(stamp.day())?;
    to.u16(stamp.minute())?;
    Ok(())
}

fn put_receipt(to: &mut Writer, receipt: &Receipt) -> Result<(), NoMemory>
    ensures wrote { OnOk result (to.new ≡ to.old ++ spelling receipt.now) }
    ensures held { OnOk result (IsReceiptValue receipt.now) }
{
    put_stamp(to, receipt.stamp)?;
    to.u32(receipt.sender)?;
    to.u64(receipt.reference)?;
    put_item(to, &receipt.item)?;
    Ok(())
}

/// The spelling of a receipt of a well-formed item, which has at most 522 bytes.
///
/// ```
/// if well_formed(&receipt.item) {
///     log.append(disk, &encode(alloc, &receipt)?)?;
/// }
/// ```
pub fn encode(alloc: Global, receipt: &Receipt) -> Result<Vec<u8>, NoMemory>
    requires { IsTrue (well_formed receipt.now.item) }
    ensures spelled { IfOk result (λ v. v.items ≡ spelling receipt.now) }
    ensures short { IfOk result (λ v. length v.items ≤ longest_spelling) }
    // So `decode` gives this receipt back.
    ensures is_receipt { OnOk result (IsReceipt receipt.now) }
{
    let mut to = Writer::new(alloc, most_bytes())?;
    put_receipt(&mut to, receipt)?;
    Ok(to.finish())
}
