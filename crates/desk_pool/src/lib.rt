//! Desks that settle a journal at once, and leave the register of the one registrar.
//!
//! - The call: `at_desks`, which asks `one_desk` whether threads serve, and `together` for desks
//!   beside one another. A round (`rounds`) is a journal that is settled.
//! - Beforehand: `preparing` makes all that a round needs, so that settling takes no memory:
//!   `counted`, `key_rooms` and `folio_parts` the parts with their room, `building_queues` and
//!   `folio_queues` the items of each folio, `sale_scratches` and `folio_scratches` what lowest bids
//!   are computed in, `ready_desks` and `seats` the desks.
//! - At work: `desks` with `boards` (whose turn it is), `touched_folios`, `pairs` and `nowhere` (the
//!   folios of an item), `shared_rounds` (what desks share), and `orders` (which orders are permitted).
//! - Behind the locks: `locking`, `locked_folios` and `folio_row`, with `marks` and `marked_folios` by
//!   which a folio comes back to its place.
//! - Afterwards: `finishing`, with `taking_parts`, `taking_over`, `open_folios` and `register_frames`.
#![tactic(auto)]

mod at_desks;
mod boards;
mod building_queues;
mod counted;
mod desks;
mod finishing;
mod folio_parts;
mod folio_queues;
mod folio_row;
mod folio_scratches;
mod key_rooms;
pub mod laws;
mod locked_folios;
mod locking;
mod marked_folios;
mod marks;
mod nowhere;
mod one_desk;
mod open_folios;
mod orders;
mod pairs;
mod preparing;
mod ready_desks;
mod register_frames;
mod rounds;
mod sale_scratches;
mod seats;
mod shared_rounds;
mod taking_over;
mod taking_parts;
mod together;
mod touched_folios;

pub use at_desks::settle_at_desks;
pub use rounds::Round;
