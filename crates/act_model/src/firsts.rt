//! The first receipts that bring what is looked for.
ghost use Rattle.std.specs.Prelude.{◌≡◌, if◌then◌else◌, Some, IsTrue, OnOk};
ghost use Rattle.std.specs.Option.{option_or};
ghost use Rattle.std.specs.Ordering.{is_eq};
ghost use Rattle.act_model.specs.declared.firsts.DocumentOf.{DocumentOf};
ghost use Rattle.act_model.specs.inner.Firsts.{document_cmp, first, is_held};

use crate::Sought;
use gb_base::{NoMemory, ReceiptNo};
use std::collections::BTreeMap;

/// What is looked for among the documents that cures bring for a filing.
#[derive(Clone, Copy, Debug, PartialEq, Eq, PartialOrd, Ord)]
pub struct DocumentOf {
    pub filing: ReceiptNo,
    pub sought: Sought,
}

/// The first receipt that brings what the key asks for; None where none does.
#[tactic(auto, unfolding(crate::specs::inner::Firsts::document_cmp))]
pub fn first(firsts: &BTreeMap<DocumentOf, Option<ReceiptNo>>, key: DocumentOf) -> Option<ReceiptNo>
    ensures { result ≡ first firsts.now key }
{
    match firsts.get(&key) {
        Some(first) => *first,
        None => None,
    }
}

/// Makes an empty place for what is looked for, where there is no place yet.
#[tactic(auto, unfolding(crate::specs::inner::Firsts::document_cmp))]
pub fn make_room(
    firsts: &mut BTreeMap<DocumentOf, Option<ReceiptNo>>,
    filing: ReceiptNo,
    sought: Sought,
) -> Result<(), NoMemory>
    ensures firsts { (q : DocumentOf) → first firsts.new q ≡ first firsts.old q }
    ensures held { (q : DocumentOf) → IsTrue (is_held firsts.old q) → IsTrue (is_held firsts.new q) }
    ensures made { OnOk result ((q : DocumentOf) → IsTrue (is_eq (document_cmp (record { filing = filing; sought = sought }) q)) → IsTrue (is_held firsts.new q)) }
{
    let key = DocumentOf { filing, sought };
    match firsts.get(&key) {
        Some(_) => Ok(()),
        None => {
            firsts.insert(key, None)?;
            Ok(())
        }
    }
}

/// Puts a receipt into the key's place, unless one stands there already.
#[tactic(auto, unfolding(crate::specs::inner::Firsts::document_cmp))]
pub fn set_first(
    firsts: &mut BTreeMap<DocumentOf, Option<ReceiptNo>>,
    key: DocumentOf,
    n: ReceiptNo,
)
    requires { IsTrue (is_held firsts.old key) }
    ensures firsts { (q : DocumentOf) → first firsts.new q ≡ if is_eq (document_cmp key q) then option_or (first firsts.old key) (Some n) else first firsts.old q }
    ensures held { (q : DocumentOf) → IsTrue (is_held firsts.old q) → IsTrue (is_held firsts.new q) }
{
    if let Some(first) = firsts.get_mut(&key) {
        *first = first.or(Some(n));
    }
}
