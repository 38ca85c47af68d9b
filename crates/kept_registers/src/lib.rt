//! What every register that comes about keeps, whatever was filed, and what follows from it: the
//! order of rights.
#![tactic(auto)]

pub mod laws;
