//! Tests of what items touch, by what `conflict_queue` exports.
#![tactic(auto)]

#[cfg(test)]
mod docket_tests;
