//! Tests of folio_sections and rank_slots, by what they export.
#![tactic(auto)]

#[cfg(test)]
mod fitting;
#[cfg(test)]
mod line_tests;
#[cfg(test)]
mod lines;
#[cfg(test)]
mod map_tests;
