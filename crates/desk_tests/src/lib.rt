//! Tests of gates at desks and of given orders, by what `desk_pool` exports.
#![tactic(auto)]

#[cfg(test)]
mod crowded_journals;
#[cfg(test)]
mod entries;
#[cfg(test)]
mod gate_tests;
#[cfg(test)]
mod gates;
#[cfg(test)]
mod journals;
#[cfg(test)]
mod order_tests;
#[cfg(test)]
mod registers;
