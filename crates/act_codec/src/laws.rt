//! What holds of the spelling for every receipt.
ghost use Rattle.std.specs.Prelude.{◌≡◌};
ghost use Rattle.act_model.specs.declared.receipts.Receipt.{Receipt};
ghost use Rattle.act_codec.specs.Spelling.{spelling};
ghost use Rattle.act_codec.specs.Values.{IsReceipt};

/// No two receipts share one spelling.
pub fn one_spelling()
    ensures { (r s : Receipt) → IsReceipt r → IsReceipt s → spelling r ≡ spelling s → r ≡ s }
{}
