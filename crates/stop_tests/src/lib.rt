//! Tests of receiving over a disk that stops, by the office's calls over objects in memory.
#![tactic(auto)]

#[cfg(test)]
mod stop_tests;
