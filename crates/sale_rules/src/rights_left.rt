//! What an award leaves of the rights that are live (ZVG §§ 52, 91).
ghost use Rattle.std.specs.Prelude.{◌≡◌, ◌≤◌, true, flat_map, length};
ghost use Rattle.std.specs.List.{AllByRecursion};
ghost use Rattle.gb_base.specs.declared.keys.Key.TheVariants.{Right};
ghost use Rattle.folio_line.specs.AllRights.{AscendByNumber};
ghost use Rattle.folio_sections.specs.Adding.{AddsList};
ghost use Rattle.folio_sections.specs.Rights.{is_live};
ghost use Rattle.gb_base.specs.Limits.{most_cents};
ghost use Rattle.sale_rules.specs.SaleEntries.{left_with};
ghost use Rattle.sale_rules.specs.inner.RightsLeft.{CanBeEntered, left_by};

use act_model::Journal;
use auction_classes::Claims;
use folio_sections::{Parts, What, add, entry_by};
use gb_base::{Cents, FolioId, Key, ReceiptNo, RightId};
use rank_slots::Slots;

/// What an award leaves of the rights of its folio.
#[derive(Drop)]
pub(crate) struct RightsLeft<'a> {
    pub(crate) journal: &'a Journal,
    /// The award.
    pub(crate) item: ReceiptNo,
    pub(crate) folio: FolioId,
    /// The claims in the sale.
    pub(crate) claims: &'a Claims,
    /// They are filled with the line of class 4.
    pub(crate) slots: &'a Slots,
    /// How much the base's cover has on that line, in cents.
    pub(crate) cover: u64,
}

/// Enters, at each of these rights that is live, what is left of it.
pub(crate) fn enter_rights_left<P: Parts>(parts: &mut P, left: &RightsLeft, ids: &[RightId])
    requires received { left.now.item ≤ length left.now.journal.now.receipts }
    requires filled { left.now.slots.now.filled ≡ left.now.claims.now.claimed.line_four }
    requires ascend { AscendByNumber ids.now }
    requires rights { AllByRecursion (CanBeEntered left.now (P.holds parts.old) (P.room parts.old)) ids.now }
    ensures added { AddsList (P.at parts.old) (P.at parts.new) (P.room parts.old) (P.room parts.new)
        (flat_map (left_by left.now (P.at parts.old)) ids.now) }
    ensures held { P.holds parts.new ≡ P.holds parts.old }
{
    for id in ids {
        enter_right_left(parts, left, *id);
    }
}

/// Enters what is left of a right, where it is live.
fn enter_right_left<P: Parts>(parts: &mut P, left: &RightsLeft, id: RightId)
    requires received { left.now.item ≤ length left.now.journal.now.receipts }
    requires filled { left.now.slots.now.filled ≡ left.now.claims.now.claimed.line_four }
    requires right { CanBeEntered left.now (P.holds parts.old) (P.room parts.old) id }
    ensures added { AddsList (P.at parts.old) (P.at parts.new) (P.room parts.old) (P.room parts.new)
        (left_by left.now (P.at parts.old) id) }
    ensures held { P.holds parts.new ≡ P.holds parts.old }
{
    if is_live(parts, left.folio, id) {
        let what = left_with(left.claims.remaining(left.slots, left.cover, id));
        add(
            parts,
            entry_by(left.journal, left.item, Key::Right(left.folio, id), what),
        );
    }
}

/// Whether a right is live.
fn is_live<P: Parts>(parts: &P, folio: FolioId, id: RightId) -> bool
    requires { P.holds parts.now (Right folio id) ≡ true }
    ensures { result ≡ is_live (P.at parts.now (Right folio id)) }
{
    parts.right(folio, id).unwrap().live()
}

/// What is entered at a right of which so much is left (ZVG §§ 52, 91).
fn left_with(cents: u64) -> What
    requires { cents ≤ most_cents }
    ensures { result ≡ left_with cents }
{
    if cents == 0 {
        What::Expired
    } else {
        What::Remains {
            capital: Cents::new(cents).unwrap(),
        }
    }
}
