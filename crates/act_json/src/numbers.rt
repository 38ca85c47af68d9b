//! Numbers of persons, folios and receipts, and amounts.
ghost use Rattle.std.specs.Prelude.{◌≡◌, ◌<◌, [], IfErr, IfOk};
ghost use Rattle.act_json.specs.Grammar.{serial};
ghost use Rattle.act_json.specs.inner.Values.{view};

use crate::Path;
use crate::reading::{FromJson, read_whole};
use gb_base::{Cents, FolioId, Person, ReceiptNo};
use json::Value;

/// The greatest number of a person, a folio or a receipt.
const LAST_SERIAL: u64 = 4_294_967_295;

/// The number of a person, a folio or a receipt.
fn serial(value: &Value<'_>) -> Result<u32, Path>
    ensures exact { result ≡ serial (view value.now) }
    ensures short { IfErr result (λ path. path ≡ []) }
    ensures positive { IfOk result (λ n. 0 < n) }
{
    let n = read_whole(value, 1, LAST_SERIAL)?;
    Ok(n as u32)
}

impl FromJson for Person {
    ghost use Rattle.act_json.specs.Grammar.{serial};

    ghost reads = { serial };

    ghost longest = { 0 };

    fn read(value: &Value<'_>) -> Result<Person, Path> {
        let n = serial(value)?;
        Ok(Person::new(n).unwrap())
    }
}

impl FromJson for FolioId {
    ghost use Rattle.act_json.specs.Grammar.{serial};

    ghost reads = { serial };

    ghost longest = { 0 };

    fn read(value: &Value<'_>) -> Result<FolioId, Path> {
        let n = serial(value)?;
        Ok(FolioId::new(n).unwrap())
    }
}

impl FromJson for ReceiptNo {
    ghost use Rattle.act_json.specs.Grammar.{serial};

    ghost reads = { serial };

    ghost longest = { 0 };

    fn read(value: &Value<'_>) -> Result<ReceiptNo, Path> {
        let n = serial(value)?;
        Ok(ReceiptNo::new(n).unwrap())
    }
}

impl FromJson for Cents {
    ghost use Rattle.act_json.specs.Grammar.{amount};
    ghost use Rattle.act_model.specs.WellFormed.{is_amount};

    ghost reads = { amount };

    ghost longest = { 0 };

    ghost keeps = { is_amount };

    fn read(value: &Value<'_>) -> Result<Cents, Path> {
        let n = read_whole(value, 1, Cents::MAX)?;
        Ok(Cents::new(n).unwrap())
    }
}
