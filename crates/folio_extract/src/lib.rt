//! The texts of a register: verdict lines, extracts, rank tables, plans, and the report.
#![tactic(auto)]

mod cent_lines;
mod exchange_lines;
mod extracts;
mod folio_reads;
mod plan_lines;
mod plan_lists;
mod plans;
mod rank_lines;
mod rank_tables;
mod reports;
mod right_lines;
mod shared_reports;
mod summaries;
mod verdict_lines;
mod waiting;
mod waiting_lines;

pub use extracts::extract;
pub use plans::{plan_csv, plan_text};
pub use rank_tables::rank_table;
pub use reports::report;
pub use shared_reports::report_at_desks;
pub use summaries::summary;
pub use verdict_lines::verdict_line;
