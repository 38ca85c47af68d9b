//! What items touch, and where entries stand.
//! Why so: docs/DECISIONS.md, "Keys are equal as their order reads them".
ghost use Rattle.std.specs.Prelude.{◌≡◌};
ghost use Rattle.std.proofs.Common.{rules};
ghost use Rattle.std.specs.Cmp.{partial_order_from_own_ties};
ghost use Rattle.std.specs.Cmp.Rules.{comparing};
ghost use Rattle.std.specs.Ordering.{as_partial_cmp};

use crate::{FolioId, RightId};
use std::cmp::Ordering;

/// What items touch, and where entries stand: a folio's title, one of its rights, or its forced sale.
/// Keys are ordered by folio, then title, rights by number, sale.
#[derive(Clone, Copy, Debug)]
pub enum Key {
    /// The first part and division I of a folio: inventory and owners.
    Title(FolioId),
    /// A right in division II or III of a folio.
    Right(FolioId, RightId),
    /// The forced sale of a folio.
    Case(FolioId),
}

impl Key {
    ghost use Rattle.gb_base.specs.Keys.{folio_of_key, part_of_key, right_of_key};

    /// The folio.
    pub fn folio(self) -> FolioId
        ensures { result ≡ folio_of_key self }
    {
        match self {
            Key::Title(folio) => folio,
            Key::Right(folio, _) => folio,
            Key::Case(folio) => folio,
        }
    }

    /// Where the key stands among the parts of its folio.
    fn part(self) -> u8
        ensures { result ≡ part_of_key self }
    {
        match self {
            Key::Title(_) => 0,
            Key::Right(_, _) => 1,
            Key::Case(_) => 2,
        }
    }

    /// The receipt and the act of the right; zeros where the key is of none.
    fn right(self) -> (u32, u8)
        ensures receipt { result.0 ≡ (right_of_key self).receipt }
        ensures act { result.1 ≡ (right_of_key self).act }
    {
        match self {
            Key::Right(_, right) => (right.receipt().get(), right.act()),
            Key::Title(_) => (0, 0),
            Key::Case(_) => (0, 0),
        }
    }
}

/// The title of folio 1, which fills the unused slots of a bounded list.
impl Default for Key {
    ghost use Rattle.gb_base.specs.declared.keys.Key.TheVariants.{Title};

    ghost is_default = { λ key. key ≡ Title 1 };

    fn default() -> Key {
        Key::Title(FolioId::default())
    }
}

impl PartialEq for Key {
    ghost use Rattle.gb_base.specs.Keys.{same_key};

    ghost eq = { same_key };

    ghost laws = { Prim.search (comparing, rules) };

    fn eq(&self, other: &Key) -> bool {
        self.folio() == other.folio()
            && self.part() == other.part()
            && self.right() == other.right()
    }
}

impl Eq for Key {
    ghost laws = { Prim.search (comparing, rules) };
}

impl Ord for Key {
    ghost use Rattle.gb_base.specs.Keys.{key_cmp};

    ghost cmp = { key_cmp };

    ghost total = { Prim.search (comparing, rules) };

    ghost matches_partial_cmp = { Prim.search (comparing, rules) };

    ghost matches_eq = { Prim.search (comparing, rules) };

    fn cmp(&self, other: &Key) -> Ordering {
        // Most keys that a search compares are of different folios.
        match self.folio().cmp(&other.folio()) {
            Ordering::Equal => self
                .part()
                .cmp(&other.part())
                .then(self.right().cmp(&other.right())),
            apart => apart,
        }
    }
}

impl PartialOrd for Key {
    ghost use Rattle.gb_base.specs.Keys.{key_cmp};

    ghost partial_cmp = { as_partial_cmp key_cmp };

    ghost laws = { partial_order_from_own_ties (Prim.search (comparing, rules) depth 8)
        (Prim.search (comparing, rules) depth 8) };

    fn partial_cmp(&self, other: &Key) -> Option<Ordering> {
        Some(self.cmp(other))
    }
}
