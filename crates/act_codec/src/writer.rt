//! Bytes that are written.
ghost use Rattle.std.specs.Prelude.{◌≡◌, ◌<◌, ◌^◌, [], IfOk, ◌++◌, OnOk};
ghost use Rattle.act_codec.specs.Spelling.{u8_bytes, u16_bytes, u32_bytes, u64_bytes};
ghost use Rattle.act_codec.specs.Values.{IsNumber, IsDay, IsCents};

use gb_base::{Cents, Day, FolioId, NoMemory, Person, ReceiptNo};
use std::alloc::Global;
use std::marker::Model;

/// Bytes that are written from left to right. In contracts it is the bytes written so far.
#[derive(Drop)]
pub struct Writer {
    bytes: Vec<u8>,
}

impl Model for Writer {
    ghost use Rattle.std.specs.Prelude.{List, ℕ};

    ghost Value = { List ℕ };

    ghost view = { λ a. a.bytes.items };
}

impl Writer {
    /// A writer with room for so many bytes at first.
    pub fn new(alloc: Global, room: usize) -> Result<Writer, NoMemory>
        ensures { IfOk result (λ writer. writer ≡ []) }
    {
        Ok(Writer {
            bytes: Vec::with_capacity(alloc, room)?,
        })
    }

    /// The bytes.
    pub fn finish(self) -> Vec<u8>
        ensures { result.items ≡ self }
    {
        let Writer { bytes } = self;
        bytes
    }

    /// Writes one byte.
    pub fn u8(&mut self, n: u8) -> Result<(), NoMemory>
        ensures wrote { OnOk result (self.new ≡ self.old ++ u8_bytes n) }
        ensures held { OnOk result (n < 2 ^ 8) }
    {
        self.bytes.push(n)?;
        Ok(())
    }

    /// Writes two bytes.
    #[tactic(auto, unfolding(crate::specs::Spelling::u16_bytes))]
    pub fn u16(&mut self, n: u16) -> Result<(), NoMemory>
        ensures wrote { OnOk result (self.new ≡ self.old ++ u16_bytes n) }
        ensures held { OnOk result (n < 2 ^ 16) }
    {
        self.bytes.extend_from_slice(&n.to_be_bytes())
    }

    /// Writes four bytes.
    #[tactic(auto, unfolding(crate::specs::Spelling::u32_bytes))]
    pub fn u32(&mut self, n: u32) -> Result<(), NoMemory>
        ensures wrote { OnOk result (self.new ≡ self.old ++ u32_bytes n) }
        ensures held { OnOk result (n < 2 ^ 32) }
    {
        self.bytes.extend_from_slice(&n.to_be_bytes())
    }

    /// Writes eight bytes.
    #[tactic(auto, unfolding(crate::specs::Spelling::u64_bytes))]
    pub fn u64(&mut self, n: u64) -> Result<(), NoMemory>
        ensures wrote { OnOk result (self.new ≡ self.old ++ u64_bytes n) }
        ensures held { OnOk result (n < 2 ^ 64) }
    {
        self.bytes.extend_from_slice(&n.to_be_bytes())
    }

    /// Writes a folio.
    pub fn folio(&mut self, folio: FolioId) -> Result<(), NoMemory>
        ensures wrote { OnOk result (self.new ≡ self.old ++ u32_bytes folio) }
        ensures held { OnOk result (IsNumber folio) }
    {
        self.u32(folio.get())
    }

    /// Writes a person.
    pub fn person(&mut self, person: Person) -> Result<(), NoMemory>
        ensures wrote { OnOk result (self.new ≡ self.old ++ u32_bytes person) }
        ensures held { OnOk result (IsNumber person) }
    {
        self.u32(person.get())
    }

    /// Writes the number of a receipt.
    pub fn receipt(&mut self, receipt: ReceiptNo) -> Result<(), NoMemory>
        ensures wrote { OnOk result (self.new ≡ self.old ++ u32_bytes receipt) }
        ensures held { OnOk result (IsNumber receipt) }
    {
        self.u32(receipt.get())
    }

    /// Writes a day.
    pub fn day(&mut self, day: Day) -> Result<(), NoMemory>
        ensures wrote { OnOk result (self.new ≡ self.old ++ u32_bytes day) }
        ensures held { OnOk result (IsDay day) }
    {
        self.u32(day.number())
    }

    /// Writes an amount.
    pub fn cents(&mut self, cents: Cents) -> Result<(), NoMemory>
        ensures wrote { OnOk result (self.new ≡ self.old ++ u64_bytes cents) }
        ensures held { OnOk result (IsCents cents) }
    {
        self.u64(cents.get())
    }
}
