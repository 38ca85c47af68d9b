//! The journal file's layout: a mark, a heading, frames, and a gate that is not open.

/// The offset of the first gate: the mark and the heading stand before it.
pub(crate) const FIRST_GATE: u64 = 9;

/// The mark of a made file: its byte 0.
pub(crate) const MARK: u8 = 0x47;

/// What stands between the mark and the first gate.
pub(crate) const HEADING: [u8; 8] = *b"GBJOURN1";

/// The gate that ends the frames. Any value but that of an open one ends them too.
pub(crate) const CLOSED: u8 = 0;

/// The gate of a frame that stands.
pub(crate) const OPEN: u8 = 1;

/// The most bytes of a body.
pub(crate) const LONGEST_BODY: usize = 1024;

/// How many bytes a frame has before its body: a gate and a length.
pub(crate) const FRAME_HEAD: usize = 5;

/// No gate of a journal that was appended to stands at this offset or beyond.
pub(crate) const FILE_LIMIT: u64 = 1 << 27;
