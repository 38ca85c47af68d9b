//! Tests of intake, connections and registry_office, by the office's calls over objects in memory.
#![tactic(auto)]

#[cfg(test)]
mod connection_tests;
#[cfg(test)]
mod endings;
#[cfg(test)]
mod gate_tests;
#[cfg(test)]
mod links;
#[cfg(test)]
mod receiving_tests;
#[cfg(test)]
mod serving_tests;
#[cfg(test)]
mod settling_tests;
