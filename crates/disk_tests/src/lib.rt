//! Tests of gb_outside and journal_disk, by what these crates export.
#![tactic(auto)]

#[cfg(test)]
mod full_file_tests;
#[cfg(test)]
mod object_tests;
