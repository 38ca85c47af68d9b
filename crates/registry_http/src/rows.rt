//! The table of routes: the method and the path of each row, by which a route is searched and printed.
//! scripts/check-openapi.py compares it with the page.
ghost use Rattle.std.specs.Prelude.{◌≡◌, Some};
ghost use Rattle.registry_http.specs.Routes.{method_in, path_at};
ghost use Rattle.registry_http.specs.inner.RowPaths.{number_text};

use std::fmt;

/// A row of the table of routes: a route whose number is still to be read.
#[derive(Clone, Copy)]
pub(crate) enum Row {
    Post,
    Receipt,
    Folio,
    Ranks,
    Plan,
    PlanCsv,
    Report,
}

impl Row {
    /// The method of this row.
    pub(crate) fn method(&self) -> &'static str
        ensures { result.now ≡ method_in self.now }
    {
        match self {
            Row::Post => "POST",
            _ => "GET",
        }
    }
}

/// What stands in a path in the place of its number.
#[derive(Clone, Copy)]
pub(crate) enum PathNumber {
    /// The name by which the search knows the number.
    Named,
    Is(u32),
}

impl fmt::Display for PathNumber {
    ghost output = { λ number. Some (number_text number) };

    fn fmt<W: fmt::Write>(&self, f: &mut fmt::Formatter<W>) -> fmt::Result {
        match self {
            PathNumber::Named => f.write_str("{number}"),
            PathNumber::Is(number) => write!(f, "{number}"),
        }
    }
}

/// The path of a row with its number, or with the name of the number.
#[derive(Clone, Copy)]
pub(crate) struct RowPath {
    pub(crate) row: Row,
    pub(crate) number: PathNumber,
}

impl fmt::Display for RowPath {
    ghost output = { λ path. Some (path_at path.row (number_text path.number)) };

    fn fmt<W: fmt::Write>(&self, f: &mut fmt::Formatter<W>) -> fmt::Result {
        let number = &self.number;
        match self.row {
            Row::Post => f.write_str("/receipts"),
            Row::Receipt => write!(f, "/receipts/{number}"),
            Row::Folio => write!(f, "/folios/{number}"),
            Row::Ranks => write!(f, "/folios/{number}/ranks"),
            Row::Plan => write!(f, "/plans/{number}"),
            Row::PlanCsv => write!(f, "/plans/{number}/csv"),
            Row::Report => f.write_str("/report"),
        }
    }
}
