//! Filings with curable defects: the order under which they wait, the official notices that keep
//! their places meanwhile, the extension of their deadline, and the end of their waiting (GBO § 18).
#![tactic(auto)]

mod answers;
mod extensions;
mod lapses;
pub mod laws;
mod notices;
mod orders;
mod states;

pub use answers::{Extension, Lapse};
pub use extensions::extend;
pub use lapses::lapse;
pub use notices::enter_notices;
pub use orders::{close_order, open_order};
pub use states::{FilingState, state};
