//! Items as lines of JSON: a line is an item, or its first wrong path is named.
#![tactic(auto)]

mod acts;
mod arrays;
mod dates;
mod documents;
mod items;
mod lines;
mod numbers;
mod numerals;
mod paths;
mod reading;
mod rights;
mod sales;
mod values;
mod words;

pub use lines::{LineFault, read_item, read_stamped};
pub use paths::Path;
