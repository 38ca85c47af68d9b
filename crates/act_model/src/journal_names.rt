//! Names of journals, as types.
use std::marker::Brand;

/// A journal, as a type that no value has. Several locks keep things that nobody sees all at once:
/// where their types have one name, all of them speak of one journal.
pub trait JournalName {
    ghost use Rattle.std.specs.Prelude.{List};
    ghost use Rattle.act_model.specs.declared.receipts.Receipt.{Receipt};

    /// The receipts of the journal.
    ghost receipts: { List Receipt };
}

/// The name that a caller picks for the journal that it has at hand.
impl JournalName for Brand {
    ghost use Rattle.std.specs.Prelude.{[]};

    ghost receipts = { [] };
}
