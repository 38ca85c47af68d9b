//! Bytes that are read.
ghost use Rattle.std.specs.Prelude.{◌≡◌, ◌==◌, ◌<◌, ◌^◌, length};
ghost use Rattle.std.specs.Int.{w16, w32, w64};
ghost use Rattle.act_codec.specs.Spelling.{u8_bytes, u16_bytes, u32_bytes, u64_bytes};
ghost use Rattle.act_codec.specs.Values.{IsNumber, IsDay, IsCents};
ghost use Rattle.act_codec.specs.inner.Reading.{Gives, Found, read_u8, read_number, read_id, read_day, read_cents};

use gb_base::{Cents, Day, FolioId, Person, ReceiptNo};
use std::marker::Model;

/// Bytes that are read from left to right. In contracts it is the bytes that are left.
#[derive(Drop)]
pub struct Reader<'a> {
    left: &'a [u8],
}

impl<'a> Model for Reader<'a> {
    ghost use Rattle.std.specs.Prelude.{List, ℕ};

    ghost Value = { List ℕ };

    ghost view = { λ a. a.left.now };
}

impl<'a> Reader<'a> {
    /// A reader of these bytes.
    pub fn new(bytes: &'a [u8]) -> Reader<'a>
        ensures { result ≡ bytes.now }
    {
        Reader { left: bytes }
    }

    /// Whether no byte is left.
    pub fn is_at_end(&self) -> bool
        ensures { result ≡ (length self.now == 0) }
    {
        self.left.is_empty()
    }

    /// The next byte; None at the end.
    pub fn u8(&mut self) -> Option<u8>
        ensures read { Gives result self.new (read_u8 self.old) }
        ensures found { Found result self.old self.new u8_bytes (λ n. n < 2 ^ 8) }
    {
        let (first, rest) = self.left.split_first()?;
        self.left = rest;
        Some(*first)
    }

    /// The number of the next two bytes; None where fewer are left.
    #[tactic(auto, unfolding(crate::specs::inner::Reading::read_number, crate::specs::Spelling::u16_bytes))]
    pub fn u16(&mut self) -> Option<u16>
        ensures read { Gives result self.new (read_number w16 self.old) }
        ensures found { Found result self.old self.new u16_bytes (λ n. n < 2 ^ 16) }
    {
        match self.left {
            [a, b, rest @ ..] => {
                self.left = rest;
                Some(u16::from_be_bytes([*a, *b]))
            }
            _ => None,
        }
    }

    /// The number of the next four bytes; None where fewer are left.
    #[tactic(auto, unfolding(crate::specs::inner::Reading::read_number, crate::specs::Spelling::u32_bytes))]
    pub fn u32(&mut self) -> Option<u32>
        ensures read { Gives result self.new (read_number w32 self.old) }
        ensures found { Found result self.old self.new u32_bytes (λ n. n < 2 ^ 32) }
    {
        match self.left {
            [a, b, c, d, rest @ ..] => {
                self.left = rest;
                Some(u32::from_be_bytes([*a, *b, *c, *d]))
            }
            _ => None,
        }
    }

    /// The number of the next eight bytes; None where fewer are left.
    #[tactic(auto, unfolding(crate::specs::inner::Reading::read_number, crate::specs::Spelling::u64_bytes))]
    pub fn u64(&mut self) -> Option<u64>
        ensures read { Gives result self.new (read_number w64 self.old) }
        ensures found { Found result self.old self.new u64_bytes (λ n. n < 2 ^ 64) }
    {
        match self.left {
            [a, b, c, d, e, f, g, h, rest @ ..] => {
                self.left = rest;
                Some(u64::from_be_bytes([*a, *b, *c, *d, *e, *f, *g, *h]))
            }
            _ => None,
        }
    }

    /// A folio; None where none begins here.
    #[tactic(auto, unfolding(crate::specs::inner::Reading::read_id))]
    pub fn folio(&mut self) -> Option<FolioId>
        ensures read { Gives result self.new (read_id self.old) }
        ensures found { Found result self.old self.new u32_bytes IsNumber }
    {
        FolioId::new(self.u32()?)
    }

    /// A person; None where none begins here.
    #[tactic(auto, unfolding(crate::specs::inner::Reading::read_id))]
    pub fn person(&mut self) -> Option<Person>
        ensures read { Gives result self.new (read_id self.old) }
        ensures found { Found result self.old self.new u32_bytes IsNumber }
    {
        Person::new(self.u32()?)
    }

    /// The number of a receipt; None where none begins here.
    #[tactic(auto, unfolding(crate::specs::inner::Reading::read_id))]
    pub fn receipt(&mut self) -> Option<ReceiptNo>
        ensures read { Gives result self.new (read_id self.old) }
        ensures found { Found result self.old self.new u32_bytes IsNumber }
    {
        ReceiptNo::new(self.u32()?)
    }

    /// A day; None where none begins here.
    #[tactic(auto, unfolding(crate::specs::inner::Reading::read_day))]
    pub fn day(&mut self) -> Option<Day>
        ensures read { Gives result self.new (read_day self.old) }
        ensures found { Found result self.old self.new u32_bytes IsDay }
    {
        Day::new(self.u32()?)
    }

    /// An amount; None where none begins here.
    #[tactic(auto, unfolding(crate::specs::inner::Reading::read_cents))]
    pub fn cents(&mut self) -> Option<Cents>
        ensures read { Gives result self.new (read_cents self.old) }
        ensures found { Found result self.old self.new u64_bytes IsCents }
    {
        Cents::new(self.u64()?)
    }
}
