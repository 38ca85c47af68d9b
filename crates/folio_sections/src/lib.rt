//! The parts of a folio: what stands at its title, at its rights and at its forced sale, and what
//! is read from them.
//!
//! - `map_parts`, with its folder: the table of parts, each at its key.
//! - All else: what stands at one key, and what is read from it.
//!
//! Why so: docs/DECISIONS.md, "A definition stands in the crate whose code it defines".
#![tactic(auto)]

mod adding;
mod case_front;
mod case_numbers;
mod case_part;
mod entries;
mod entry_list;
mod filing_list;
mod fronts;
mod keyed;
mod list_room;
mod map_parts;
mod parts;
mod right_front;
mod right_part;
mod right_state;
mod state_marks;
mod title_front;
mod title_part;
mod title_places;
mod waiters;

pub use adding::{add, entry_by};
pub use case_front::CaseFront;
pub use case_part::CasePart;
pub use entries::{Created, Entry, RightForm, What};
pub use keyed::{entries_at, is_held, next_unnoticed_at, pending_at};
pub use map_parts::MapParts;
pub use parts::Parts;
pub use right_front::RightFront;
pub use right_part::RightPart;
pub use title_front::TitleFront;
pub use title_part::TitlePart;
pub use title_places::{TitlePlace, behind, own_place};
