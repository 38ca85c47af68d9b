//! How a filing is judged on the register as it stands: who must consent, on which grounds it is
//! rejected, and which defects may be cured (GBO § 18).
#![tactic(auto)]

mod applying;
mod consent;
mod consenters;
mod defects;
mod grounds;
mod judgements;
mod judging;
mod lacks;
mod needed;
mod obstacles;
mod parts_read;
mod persons;
mod waiting;
mod walk_starts;

pub use judgements::{Defect, Defects, Judgement};
pub use judging::judge;
