//! The one registrar: what each item brings about, and the register of a whole journal.
#![tactic(auto)]

mod folios;
pub mod laws;
mod making_room;
mod one_registrar;
mod register;
mod settled;
mod settling;
mod steps;
mod verdicts;

pub use one_registrar::alone;
pub use register::Register;
pub use sale_rules::Scratch;
pub use steps::step;
pub use verdicts::Verdict;
