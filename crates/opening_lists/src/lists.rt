//! An opening list: what its records ask, one after the other.
ghost use Rattle.std.specs.Prelude.{◌≡◌, IfOk, IsTrue};
ghost use Rattle.csv.specs.Records.{fields_of};
ghost use Rattle.opening_lists.specs.OpeningLists.{row_request};
ghost use Rattle.intake_requests.specs.Asking.{asks_well};

use crate::csv_records::Records;
use crate::openings::{filing_for, is_header, read_opening};
use csv::ByteRecord;
use gb_base::NoMemory;
use intake_requests::{Request, SenderReference};
use std::alloc::Global;
use std::marker::Model;

/// Where the reading of a list stands.
#[derive(Clone, Copy, Debug, PartialEq, Eq)]
pub enum Stage {
    /// The first record was no header, which is still to be said.
    WrongHeader,
    /// Rows may come.
    Rows,
    /// Nothing comes any more.
    End,
}

/// Reads an opening list, and gives what its records ask one after the other. In contracts it is
/// what is still asked.
#[derive(Drop)]
pub struct OpeningList<'a> {
    sender: u32,
    records: Records<'a>,
    row: ByteRecord,
    stage: Stage,
}

impl<'a> Model for OpeningList<'a> {
    ghost use Rattle.std.specs.Prelude.{List};
    ghost use Rattle.intake_requests.specs.declared.requests.Request.{Request};
    ghost use Rattle.opening_lists.specs.inner.Rows.{requests_at};

    ghost Value = { List Request };

    ghost view = { λ a. requests_at a.stage a.sender a.records };
}

impl<'a> OpeningList<'a> {
    ghost use Rattle.std.specs.Prelude.{◌≡◌, ◌∷◌, [], IfOk, IfSome, IfNone, IsErr, IsTrue};
    ghost use Rattle.opening_lists.specs.OpeningLists.{row_requests};
    ghost use Rattle.intake_requests.specs.Asking.{asks_well};

    /// The list of these bytes, from this sender. May run out of memory (`NoMemory`), as may `next`.
    #[tactic(auto, unfolding(crate::specs::OpeningLists::row_requests))]
    pub fn new(alloc: Global, sender: u32, bytes: &'a [u8]) -> Result<OpeningList<'a>, NoMemory>
        ensures { IfOk result (λ list. list ≡ row_requests sender bytes.now) }
    {
        let mut records = Records::new(alloc, bytes);
        let mut row = ByteRecord::new(alloc);
        let stage = if !records.read(&mut row)? {
            Stage::End
        } else if is_header(&row) {
            Stage::Rows
        } else {
            Stage::WrongHeader
        };
        Ok(OpeningList {
            sender,
            records,
            row,
            stage,
        })
    }

    /// What is asked next; None at the end. After an error nothing is asked any more.
    pub fn next(&mut self, alloc: Global) -> Result<Option<Request>, NoMemory>
        ensures next { IfOk result (λ next. IfSome next (λ request. self.old ≡ request ∷ self.new)) }
        ensures end { IfOk result (λ next. IfNone next ((self.old ≡ []) × (self.new ≡ []))) }
        ensures failed { IsErr result → self.new ≡ [] }
        ensures well_formed { IfOk result (λ next. IfSome next (λ request. IsTrue (asks_well request))) }
    {
        let stage = self.stage;
        self.stage = Stage::End;
        match stage {
            Stage::WrongHeader => Ok(Some(Request::refused(alloc, b"malformed header\n")?)),
            Stage::Rows => {
                if !self.records.read(&mut self.row)? {
                    return Ok(None);
                }
                let request = request_of_row(alloc, self.sender, &self.row)?;
                self.stage = Stage::Rows;
                Ok(Some(request))
            }
            Stage::End => Ok(None),
        }
    }
}

/// What a row asks.
fn request_of_row(alloc: Global, sender: u32, row: &ByteRecord) -> Result<Request, NoMemory>
    ensures value { IfOk result (λ request. request ≡ row_request sender (fields_of row.now)) }
    ensures well_formed { IfOk result (λ request. IsTrue (asks_well request)) }
{
    match read_opening(row) {
        Some(opening) => Ok(Request::Receive {
            stamp: None,
            from: SenderReference {
                sender,
                reference: u64::from(opening.folio.get()),
            },
            item: filing_for(&opening),
        }),
        None => Request::refused(alloc, b"malformed row\n"),
    }
}
