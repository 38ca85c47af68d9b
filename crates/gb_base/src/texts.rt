//! How values are printed. Contracts see the bytes.
ghost use Rattle.std.specs.Prelude.{◌≡◌, Some};
ghost use Rattle.std.specs.Fmt.{decimal};
ghost use Rattle.gb_base.specs.Texts.{euro, right_text, section_text};

use crate::{Cents, FolioId, Person, ReceiptNo, RightId, Section};
use std::fmt;

impl fmt::Display for FolioId {
    ghost output = { λ folio. Some (decimal folio) };

    fn fmt<W: fmt::Write>(&self, f: &mut fmt::Formatter<W>) -> fmt::Result {
        write!(f, "{}", self.get())
    }
}

impl fmt::Display for Person {
    ghost output = { λ person. Some (decimal person) };

    fn fmt<W: fmt::Write>(&self, f: &mut fmt::Formatter<W>) -> fmt::Result {
        write!(f, "{}", self.get())
    }
}

impl fmt::Display for ReceiptNo {
    ghost output = { λ receipt. Some (decimal receipt) };

    fn fmt<W: fmt::Write>(&self, f: &mut fmt::Formatter<W>) -> fmt::Result {
        write!(f, "{}", self.get())
    }
}

/// The receipt of the filing and the act, as `2.1`.
impl fmt::Display for RightId {
    ghost output = { λ id. Some (right_text id) };

    fn fmt<W: fmt::Write>(&self, f: &mut fmt::Formatter<W>) -> fmt::Result {
        write!(f, "{}.{}", self.receipt(), self.act())
    }
}

/// A sum of cents as it is printed, also above what one amount may be.
#[derive(Clone, Copy)]
pub struct Euros {
    pub cents: u128,
}

/// Whole euros, a point and two digits.
impl fmt::Display for Euros {
    ghost output = { λ amount. Some (euro amount.cents) };

    fn fmt<W: fmt::Write>(&self, f: &mut fmt::Formatter<W>) -> fmt::Result {
        let (euros, cents) = (self.cents / 100, self.cents % 100);
        write!(f, "{}.{}{}", euros, cents / 10, cents % 10)
    }
}

/// Whole euros, a point and two digits.
impl fmt::Display for Cents {
    ghost output = { λ cents. Some (euro cents) };

    fn fmt<W: fmt::Write>(&self, f: &mut fmt::Formatter<W>) -> fmt::Result {
        let cents = u128::from(self.get());
        write!(f, "{}", Euros { cents })
    }
}

/// The law and the number, as `GBO 19`.
impl fmt::Display for Section {
    ghost output = { λ section. Some (section_text section) };

    fn fmt<W: fmt::Write>(&self, f: &mut fmt::Formatter<W>) -> fmt::Result {
        f.write_str(self.name())
    }
}

impl Section {
    /// The law and the number.
    pub fn name(self) -> &'static str
        ensures { result.now ≡ section_text self }
    {
        match self {
            Section::Gbo3 => "GBO 3",
            Section::Gbo13 => "GBO 13",
            Section::Gbo16 => "GBO 16",
            Section::Gbo18 => "GBO 18",
            Section::Gbo19 => "GBO 19",
            Section::Gbo20 => "GBO 20",
            Section::Gbo27 => "GBO 27",
            Section::Gbo29 => "GBO 29",
            Section::Gbo39 => "GBO 39",
            Section::Bgb873 => "BGB 873",
            Section::Bgb876 => "BGB 876",
            Section::Bgb880 => "BGB 880",
            Section::Bgb881 => "BGB 881",
            Section::Bgb883 => "BGB 883",
            Section::Bgb1059 => "BGB 1059",
            Section::Grest22 => "GrEStG 22",
            Section::Zvg15 => "ZVG 15",
            Section::Zvg23 => "ZVG 23",
            Section::Zvg43 => "ZVG 43",
            Section::Zvg66 => "ZVG 66",
            Section::Zvg81 => "ZVG 81",
            Section::Zvg113 => "ZVG 113",
            Section::Limit => "limit",
        }
    }
}
