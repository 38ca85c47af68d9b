//! The case and the title of a forced sale, as they stood before a receipt.
ghost use Rattle.std.specs.Prelude.{◌≡◌, IsTrue};
ghost use Rattle.gb_base.specs.declared.keys.Key.TheVariants.{Case, Title};
ghost use Rattle.folio_sections.specs.Fronts.{NeverFall, below};

use folio_sections::{CaseFront, Parts, TitleFront};
use gb_base::{FolioId, ReceiptNo};

/// The forced sale of a folio, as it stood before receipt n.
pub(crate) fn case_below<P: Parts>(parts: &P, n: ReceiptNo, folio: FolioId) -> CaseFront<'_>
    requires held { IsTrue (P.holds parts.now (Case folio)) }
    requires rise { NeverFall (P.at parts.now (Case folio)) }
    ensures { result ≡ below n (P.at parts.now (Case folio)) }
{
    parts.case(folio).unwrap().below(n)
}

/// The title of a folio, as it stood before receipt n.
pub(crate) fn title_below<P: Parts>(parts: &P, n: ReceiptNo, folio: FolioId) -> TitleFront<'_>
    requires held { IsTrue (P.holds parts.now (Title folio)) }
    requires rise { NeverFall (P.at parts.now (Title folio)) }
    ensures { result ≡ below n (P.at parts.now (Title folio)) }
{
    parts.title(folio).unwrap().below(n)
}
