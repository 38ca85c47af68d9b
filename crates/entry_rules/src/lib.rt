//! What the entry of a filing brings, but for official notices: its place in each folio in which
//! it creates a right, and then the contents of its acts (GBO §§ 16(2), 45).
#![tactic(auto)]

mod adding;
mod contents;
mod creations;
mod entering;
pub mod laws;
mod placing;

pub use entering::enter;

/// The most entries that the entry of a filing brings at one key: at a title its place and the
/// owners that it gives, at a right its creation and what one act says of it. A well-formed filing
/// gives a folio owners at most once, and names a right at most once.
pub const MOST_ENTERED: usize = 2;
