//! The routes: each is a row of the table, with its number.
//! Why so: docs/DECISIONS.md, "A path has a route where it is spelled as the route prints it".
ghost use Rattle.std.specs.Prelude.{◌≡◌, Some};
ghost use Rattle.registry_http.specs.Routes.{method_of, path_at, path_of, row_of};
ghost use Rattle.registry_http.specs.inner.RowPaths.{number_text};

use crate::rows::{PathNumber, Row, RowPath};
use gb_base::{FolioId, ReceiptNo};
use std::fmt;

/// What a request asks for, by its method and its path.
#[derive(Clone, Copy, Debug, PartialEq, Eq)]
pub enum Route {
    /// `POST /receipts`: receive the item in the body.
    Post,
    /// `GET /receipts/{n}`: the verdict line of receipt n.
    Receipt(ReceiptNo),
    /// `GET /folios/{f}`: the extract of folio f (GBO § 12).
    Folio(FolioId),
    /// `GET /folios/{f}/ranks`: the rank table of folio f (BGB § 879).
    Ranks(FolioId),
    /// `GET /plans/{n}`: the plan of distribution of receipt n (ZVG § 113).
    Plan(ReceiptNo),
    /// `GET /plans/{n}/csv`: the plan of distribution of receipt n as CSV.
    PlanCsv(ReceiptNo),
    /// `GET /report`: the report.
    Report,
}

impl Route {
    /// The row of this route, and its number; the name where it has none, since its path shows neither.
    fn parts(&self) -> (Row, PathNumber)
        ensures row { result.0 ≡ row_of self.now }
        ensures path { path_at result.0 (number_text result.1) ≡ path_of self.now }
    {
        match self {
            Route::Post => (Row::Post, PathNumber::Named),
            Route::Receipt(number) => (Row::Receipt, PathNumber::Is(number.get())),
            Route::Folio(folio) => (Row::Folio, PathNumber::Is(folio.get())),
            Route::Ranks(folio) => (Row::Ranks, PathNumber::Is(folio.get())),
            Route::Plan(number) => (Row::Plan, PathNumber::Is(number.get())),
            Route::PlanCsv(number) => (Row::PlanCsv, PathNumber::Is(number.get())),
            Route::Report => (Row::Report, PathNumber::Named),
        }
    }

    /// The method of this route.
    pub(crate) fn method(&self) -> &'static str
        ensures { result.now ≡ method_of self.now }
    {
        let (row, _) = self.parts();
        row.method()
    }
}

/// The path of the route.
impl fmt::Display for Route {
    ghost output = { λ route. Some (path_of route) };

    fn fmt<W: fmt::Write>(&self, f: &mut fmt::Formatter<W>) -> fmt::Result {
        let (row, number) = self.parts();
        let path = RowPath { row, number };
        write!(f, "{path}")
    }
}
