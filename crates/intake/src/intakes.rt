//! How an input is written, where its items are received onto the disk.

/// How the input is written.
#[derive(Clone, Copy, Debug, PartialEq, Eq)]
pub enum Intake {
    /// Lines, each with an item that the clock stamps.
    Lines,
    /// An opening list, sent by this sender.
    OpeningList { sender: u32 },
}
