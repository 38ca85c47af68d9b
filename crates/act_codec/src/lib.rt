//! Receipts as bytes: each receipt has one spelling.
#![tactic(auto)]

mod acts;
mod documents;
mod items;
pub mod laws;
mod reader;
mod receipts;
mod rights;
mod sales;
mod writer;

pub use receipts::{decode, encode};
