//! Whether the same stands at a key in two registers.
use folio_sections::{Entry, Parts, entries_at};
use gb_base::{Key, NoMemory};
use std::alloc::Global;

/// Whether the same entries stand at a key in both. `Entry` has no equality, and its `Debug` text
/// has every field.
pub fn agree_at<P: Parts, Q: Parts>(
    alloc: Global,
    first: &P,
    second: &Q,
    key: &Key,
) -> Result<bool, NoMemory> {
    let here = entries_text(alloc, entries_at(first, key))?;
    let there = entries_text(alloc, entries_at(second, key))?;
    Ok(here.as_str() == there.as_str())
}

fn entries_text(alloc: Global, entries: Option<&[Entry]>) -> Result<String, NoMemory> {
    Ok(format!(in alloc; "{entries:?}")?)
}
