//! Numbers that name something, from 1. In contracts each is its number.
ghost use Rattle.std.specs.Prelude.{◌≡◌, ◌<◌, ◌≤◌, ◌↔◌, IsNone, IsSome, IfSome};
ghost use Rattle.gb_base.specs.Limits.{most_acts};

use std::marker::Model;

/// The number of a folio, one sheet of the register (GBO § 3), from 1.
#[derive(Clone, Copy, Debug, PartialEq, Eq, PartialOrd, Ord)]
pub struct FolioId(u32);

impl Model for FolioId {
    ghost use Rattle.std.specs.Prelude.{ℕ, ◌<◌};

    ghost Value = { ℕ };

    ghost view = { λ a. a.0 };

    ghost invariant = { λ a. 0 < a.0 };

    ghost inverse = { λ n. record { 0 = n } };
}

impl FolioId {
    /// The folio of this number; None at 0.
    pub fn new(n: u32) -> Option<FolioId>
        ensures none { IsNone result ↔ (n ≡ 0) }
        ensures value { IfSome result (λ folio. folio ≡ n) }
    {
        if n == 0 { None } else { Some(FolioId(n)) }
    }

    /// The number.
    pub fn get(self) -> u32
        ensures value { result ≡ self }
        ensures positive { 0 < self }
    {
        self.0
    }
}

/// Folio 1, which fills the unused slots of a bounded list.
impl Default for FolioId {
    ghost is_default = { λ folio. folio ≡ 1 };

    fn default() -> FolioId {
        FolioId(1)
    }
}

/// The number of a natural or legal person, from 1.
#[derive(Clone, Copy, Debug, PartialEq, Eq, PartialOrd, Ord)]
pub struct Person(u32);

impl Model for Person {
    ghost use Rattle.std.specs.Prelude.{ℕ, ◌<◌};

    ghost Value = { ℕ };

    ghost view = { λ a. a.0 };

    ghost invariant = { λ a. 0 < a.0 };

    ghost inverse = { λ n. record { 0 = n } };
}

impl Person {
    /// The person of this number; None at 0.
    pub fn new(n: u32) -> Option<Person>
        ensures none { IsNone result ↔ (n ≡ 0) }
        ensures value { IfSome result (λ person. person ≡ n) }
    {
        if n == 0 { None } else { Some(Person(n)) }
    }

    /// The number.
    pub fn get(self) -> u32
        ensures value { result ≡ self }
        ensures positive { 0 < self }
    {
        self.0
    }
}

/// Person 1, which fills the unused slots of a bounded list.
impl Default for Person {
    ghost is_default = { λ person. person ≡ 1 };

    fn default() -> Person {
        Person(1)
    }
}

/// The number of a receipt in the journal, from 1 (GBO § 13).
#[derive(Clone, Copy, Debug, PartialEq, Eq, PartialOrd, Ord)]
pub struct ReceiptNo(u32);

impl Model for ReceiptNo {
    ghost use Rattle.std.specs.Prelude.{ℕ, ◌<◌};

    ghost Value = { ℕ };

    ghost view = { λ a. a.0 };

    ghost invariant = { λ a. 0 < a.0 };

    ghost inverse = { λ n. record { 0 = n } };
}

impl ReceiptNo {
    /// The receipt of this number; None at 0.
    pub fn new(n: u32) -> Option<ReceiptNo>
        ensures none { IsNone result ↔ (n ≡ 0) }
        ensures value { IfSome result (λ receipt. receipt ≡ n) }
    {
        if n == 0 { None } else { Some(ReceiptNo(n)) }
    }

    /// The number.
    pub fn get(self) -> u32
        ensures value { result ≡ self }
        ensures positive { 0 < self }
    {
        self.0
    }
}

/// Receipt 1, which fills the unused slots of a bounded list.
impl Default for ReceiptNo {
    ghost is_default = { λ receipt. receipt ≡ 1 };

    fn default() -> ReceiptNo {
        ReceiptNo(1)
    }
}

/// The number of a right: the receipt of the filing that creates it, and the number of the
/// creating act in that filing, from 1 to 8.
#[derive(Clone, Copy, Debug, PartialEq, Eq, PartialOrd, Ord)]
pub struct RightId {
    receipt: ReceiptNo,
    act: u8,
}

impl Model for RightId {
    ghost use Rattle.std.specs.Prelude.{◌≤◌};
    ghost use Rattle.gb_base.specs.Limits.{most_acts};
    ghost use Rattle.gb_base.specs.RightNo.{RightNo};

    ghost Value = { RightNo };

    ghost view = { λ a. record { receipt = a.receipt; act = a.act } };

    ghost invariant = { λ a. (1 ≤ a.act) × (a.act ≤ most_acts) };

    ghost inverse = { λ id. record { receipt = id.receipt; act = id.act } };
}

impl RightId {
    /// The right of this receipt and act; None outside the acts 1 to 8.
    pub fn new(receipt: ReceiptNo, act: u8) -> Option<RightId>
        ensures some { IsSome result ↔ ((1 ≤ act) × (act ≤ most_acts)) }
        ensures value { IfSome result (λ id. (id.receipt ≡ receipt) × (id.act ≡ act)) }
    {
        if 1 <= act && act <= 8 {
            Some(RightId { receipt, act })
        } else {
            None
        }
    }

    /// The receipt of the filing that creates the right.
    pub fn receipt(self) -> ReceiptNo
        ensures { result ≡ self.receipt }
    {
        self.receipt
    }

    /// The number of the creating act in its filing, from 1 to 8.
    pub fn act(self) -> u8
        ensures value { result ≡ self.act }
        ensures from_one { 1 ≤ self.act }
        ensures to_eight { self.act ≤ most_acts }
    {
        self.act
    }
}

/// Right 1.1, which fills the unused slots of a bounded list.
impl Default for RightId {
    ghost is_default = { λ id. (id.receipt ≡ 1) × (id.act ≡ 1) };

    fn default() -> RightId {
        RightId {
            receipt: ReceiptNo::default(),
            act: 1,
        }
    }
}
