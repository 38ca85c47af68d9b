//! A book with the register of its journal, and the texts that routes read of them.
#![tactic(auto)]

mod books;
mod settling;
mod texts;

pub use books::SettledBook;
