//! The records of a CSV text in memory, one after the other.
use csv::{ByteRecord, Reader, ReaderBuilder};
use gb_base::NoMemory;
use std::alloc::{AllocError, Global};
use std::marker::Model;

/// Reads the records of a text one after the other. They may have any number of fields, and the
/// first is a record like the others.
#[derive(Drop)]
pub struct Records<'a> {
    reader: Reader<&'a [u8]>,
}

impl<'a> Model for Records<'a> {
    ghost use Rattle.std.specs.Prelude.{List, ℕ, ◌≡◌, false};
    ghost use Rattle.csv.specs.Reading.{has_failed};
    ghost use Rattle.opening_lists.specs.inner.CsvRecords.{records_left, IsSetUp};

    ghost Value = { List (List (List ℕ)) };

    ghost view = { λ a. records_left a.reader };

    ghost invariant = { λ a. has_failed a.reader ≡ false → IsSetUp a.reader };
}

impl<'a> Records<'a> {
    ghost use Rattle.std.specs.Prelude.{◌≡◌, ◌∷◌, [], true, false, IfOk, IsErr};
    ghost use Rattle.csv.specs.Reading.{default_config, records, strip_bom};
    ghost use Rattle.csv.specs.Records.{fields_of};

    /// The records of this text, all still to come.
    pub fn new(alloc: Global, text: &'a [u8]) -> Records<'a>
        ensures { result ≡ records default_config (strip_bom text.now) }
    {
        let reader = ReaderBuilder::new()
            .has_headers(false)
            .flexible(true)
            .from_reader(alloc, text);
        Records { reader }
    }

    /// Reads the next record, and says whether there was one. Once memory has run out (`NoMemory`) no
    /// record comes any more.
    pub fn read(&mut self, row: &mut ByteRecord) -> Result<bool, NoMemory>
        ensures next { IfOk result (λ found. found ≡ true → self.old ≡ fields_of row.new ∷ self.new) }
        ensures end { IfOk result (λ found. found ≡ false → self.old ≡ []) }
        ensures failed { IsErr result → self.new ≡ [] }
    {
        // Bytes in memory are read without a fault, and no length of a record is refused.
        let Ok(found) = self.reader.read_byte_record(row) else {
            return Err(AllocError);
        };
        Ok(found)
    }
}
