//! A frame of the file.
use std::marker::Model;

/// A frame of the file: a body that was appended, and the offset of its gate.
#[derive(Debug, Drop)]
pub struct Frame {
    /// The offset of the frame's gate in the file.
    pub at: u64,
    /// The bytes that were appended, 1 to 1,024 of them.
    pub body: Vec<u8>,
}

impl Model for Frame {
    ghost use Rattle.journal_disk.specs.FrameAt.{FrameAt};

    ghost Value = { FrameAt };

    ghost view = { λ a. record { at = a.at; body = a.body.items } };
}
