//! When memory runs out.
//! Why so: docs/DECISIONS.md, "`NoMemory` is std's `AllocError`".
//! Why so: docs/DECISIONS.md, "What allocates takes `Global`".
use std::alloc::AllocError;

/// Memory has run out: none was found for what a call had to allocate.
pub type NoMemory = AllocError;
