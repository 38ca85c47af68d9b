//! The route that a request asks for.
ghost use Rattle.std.specs.Prelude.{◌≡◌, ◌≢◌, ◌^◌, ◌<◌, ℕ, Some, Err, IfOk, IfSome, IsNone, OnErr};
ghost use Rattle.matchit.specs.Params.{walk};
ghost use Rattle.registry_http.specs.Routes.{path_of, method_of, IsRoute, IsRouteNumber};
ghost use Rattle.registry_http.specs.inner.Finding.{the_table, Adds, IsNumberPart, FitsRoute};
ghost use Rattle.registry_http.specs.declared.finding.RouteFault.TheVariants.{NotFound, WrongMethod, Memory};

use crate::routes::Route;
use crate::rows::{PathNumber, Row, RowPath};
use gb_base::{FolioId, ReceiptNo};
use http::Method;
use matchit::{InsertError, Params, Router};
use std::alloc::{AllocError, Global};
use std::marker::Model;
use std::str;

/// Why a request has no route.
#[derive(Clone, Copy, Debug, PartialEq, Eq)]
pub enum RouteFault {
    /// No route has the path.
    NotFound,
    /// A route has the path, with another method.
    WrongMethod,
    /// No memory was found.
    Memory,
}

impl From<AllocError> for RouteFault {
    ghost from_gives = { λ _ e. e ≡ Memory };

    fn from(_: AllocError) -> RouteFault {
        RouteFault::Memory
    }
}

/// The paths of the table are good and do not conflict, so an insert fails only for lack of memory.
impl From<InsertError> for RouteFault {
    ghost from_gives = { λ _ e. e ≡ Memory };

    fn from(_: InsertError) -> RouteFault {
        RouteFault::Memory
    }
}

/// Adds a row to the table, by its path with the name of the number.
fn add(alloc: Global, table: &mut Router<Row>, row: Row) -> Result<(), InsertError>
    ensures { IfOk result (Adds row table.old table.new) }
{
    let path = RowPath {
        row,
        number: PathNumber::Named,
    };
    let text = format!(in alloc; "{path}")?;
    table.insert(text.as_str(), row)
}

/// The table of routes.
fn new_table(alloc: Global) -> Result<Router<Row>, InsertError>
    ensures { IfOk result (λ table. table ≡ the_table) }
{
    let mut table = Router::new(alloc);
    add(alloc, &mut table, Row::Post)?;
    add(alloc, &mut table, Row::Receipt)?;
    add(alloc, &mut table, Row::Folio)?;
    add(alloc, &mut table, Row::Ranks)?;
    add(alloc, &mut table, Row::Plan)?;
    add(alloc, &mut table, Row::PlanCsv)?;
    add(alloc, &mut table, Row::Report)?;
    Ok(table)
}

/// The number in a path, where it is one.
fn path_number(params: &Params<'_, '_>) -> Option<u32>
    ensures { (n : ℕ) → n < 2 ^ 32
        → IsNumberPart n (walk params.now.pattern.now params.now.text.now params.now.path.now params.now.names.now 0 0)
        → result ≡ Some n }
{
    params.get("number")?.parse().ok()
}

/// The receipt that a path names.
fn receipt_in(params: &Params<'_, '_>) -> Option<ReceiptNo>
    ensures number { (n : ℕ) → IsRouteNumber n
        → IsNumberPart n (walk params.now.pattern.now params.now.text.now params.now.path.now params.now.names.now 0 0)
        → result ≡ Some n }
    ensures range { IfSome result IsRouteNumber }
{
    ReceiptNo::new(path_number(params)?)
}

/// The folio that a path names.
fn folio_in(params: &Params<'_, '_>) -> Option<FolioId>
    ensures number { (n : ℕ) → IsRouteNumber n
        → IsNumberPart n (walk params.now.pattern.now params.now.text.now params.now.path.now params.now.names.now 0 0)
        → result ≡ Some n }
    ensures range { IfSome result IsRouteNumber }
{
    FolioId::new(path_number(params)?)
}

/// The route of a row, with the number in its path.
fn read_row(row: Row, params: &Params<'_, '_>) -> Option<Route>
    ensures fits { (route : Route) → IsRoute route
        → FitsRoute route row (walk params.now.pattern.now params.now.text.now params.now.path.now params.now.names.now 0 0)
        → result ≡ Some route }
    ensures range { IfSome result IsRoute }
{
    match row {
        Row::Post => Some(Route::Post),
        Row::Receipt => Some(Route::Receipt(receipt_in(params)?)),
        Row::Folio => Some(Route::Folio(folio_in(params)?)),
        Row::Ranks => Some(Route::Ranks(folio_in(params)?)),
        Row::Plan => Some(Route::Plan(receipt_in(params)?)),
        Row::PlanCsv => Some(Route::PlanCsv(receipt_in(params)?)),
        Row::Report => Some(Route::Report),
    }
}

/// The table of routes. It is made once and finds the routes of many requests.
#[derive(Drop)]
pub struct Routes {
    table: Router<Row>,
}

impl Model for Routes {
    ghost use Rattle.std.specs.Prelude.{◌≡◌};
    ghost use Rattle.registry_http.specs.inner.Finding.{the_table};

    ghost Value = { Unit {0} };

    ghost view = { λ _. tt };

    ghost invariant = { λ a. a.table ≡ the_table };
}

impl Routes {
    /// The table of routes. It may run out of memory, and fails in no other way.
    pub fn new(alloc: Global) -> Result<Routes, RouteFault>
        ensures { OnErr result (result ≡ Err Memory) }
    {
        let table = new_table(alloc)?;
        Ok(Routes { table })
    }

    /// The route of a path.
    fn find(&self, alloc: Global, path: &[u8]) -> Result<Option<Route>, RouteFault>
        ensures some { IfOk result (λ found. IfSome found (λ route. IsRoute route × (path.now ≡ path_of route))) }
        ensures none { IfOk result (λ found. IsNone found → (route : Route) → IsRoute route → path.now ≢ path_of route) }
        ensures fault { OnErr result (result ≡ Err Memory) }
    {
        let Ok(path) = str::from_utf8(path) else {
            return Ok(None);
        };
        let Ok(found) = self.table.at(path) else {
            return Ok(None);
        };
        let Some(route) = read_row(*found.value, &found.params) else {
            return Ok(None);
        };
        // A route has one path: its number has no sign and no leading zero.
        let spelled = format!(in alloc; "{route}")?;
        if spelled.as_str() == path {
            Ok(Some(route))
        } else {
            Ok(None)
        }
    }

    /// The route of a method and a path. A path that is not UTF-8 has none.
    pub fn route(&self, alloc: Global, method: &Method, path: &[u8]) -> Result<Route, RouteFault>
        ensures found { IfOk result (λ route. IsRoute route × (path.now ≡ path_of route) × (method.now ≡ method_of route)) }
        ensures not_found { result ≡ Err NotFound → (route : Route) → IsRoute route → path.now ≢ path_of route }
        ensures wrong_method { result ≡ Err WrongMethod
            → (route : Route) × IsRoute route × (path.now ≡ path_of route) × (method.now ≢ method_of route) }
    {
        let Some(route) = self.find(alloc, path)? else {
            return Err(RouteFault::NotFound);
        };
        if method.as_str() == route.method() {
            Ok(route)
        } else {
            Err(RouteFault::WrongMethod)
        }
    }
}

/// The route of a method and a path, by a table that is made for this one. A path that is not UTF-8
/// has none.
pub fn route(alloc: Global, method: &Method, path: &[u8]) -> Result<Route, RouteFault>
    ensures found { IfOk result (λ route. IsRoute route × (path.now ≡ path_of route) × (method.now ≡ method_of route)) }
    ensures not_found { result ≡ Err NotFound → (route : Route) → IsRoute route → path.now ≢ path_of route }
    ensures wrong_method { result ≡ Err WrongMethod
        → (route : Route) × IsRoute route × (path.now ≡ path_of route) × (method.now ≢ method_of route) }
{
    Routes::new(alloc)?.route(alloc, method, path)
}
