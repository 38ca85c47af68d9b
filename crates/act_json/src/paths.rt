//! Paths in a line.
ghost use Rattle.std.specs.Prelude.{◌≡◌, ◌+◌, ◌<◌, ◌≤◌, [], length};
ghost use Rattle.act_json.specs.Reading.{below};

use arrayvec::ArrayVec;
use std::marker::Model;

/// The way to a value in a line: names of members and indexes in arrays, joined by points.
#[derive(Debug, Drop)]
pub struct Path {
    bytes: ArrayVec<u8, 32>,
}

impl Model for Path {
    ghost use Rattle.std.specs.Prelude.{List, ℕ, ◌≤◌, length};

    ghost Value = { List ℕ };

    ghost view = { λ a. a.bytes.items };

    ghost invariant = { λ a. length a.bytes.items ≤ 32 };
}

impl Path {
    /// The path's text, in ASCII.
    pub fn text(&self) -> &[u8]
        ensures value { result.now ≡ self.now }
        ensures short { length self.now ≤ 32 }
    {
        self.bytes.as_slice()
    }

    /// The empty path: that of the value where reading began.
    pub(crate) fn here() -> Path
        ensures { result ≡ [] }
    {
        Path {
            bytes: ArrayVec::new(),
        }
    }

    /// The path of the part of this name.
    pub(crate) fn of(name: &str) -> Path
        requires { length name.now ≤ 32 }
        ensures { result ≡ name.now }
    {
        let mut bytes = ArrayVec::new();
        let _ = bytes.try_extend_from_slice(name.as_bytes());
        Path { bytes }
    }

    /// The path seen from the value that has the part of this name.
    #[tactic(auto, using(crate::proofs::Names::length_below))]
    pub(crate) fn below(&self, name: &str) -> Path
        requires { length name.now + length self.now < 32 }
        ensures value { result ≡ below name.now self.now }
        ensures length { length result ≤ length name.now + 1 + length self.now }
    {
        Path {
            bytes: joined(name.as_bytes(), self.bytes.as_slice()),
        }
    }
}

fn joined(name: &[u8], path: &[u8]) -> ArrayVec<u8, 32>
    requires { length name.now + length path.now < 32 }
    ensures { result.items ≡ below name.now path.now }
{
    let mut bytes = ArrayVec::new();
    let _ = bytes.try_extend_from_slice(name);
    match path {
        [] => bytes,
        [_, ..] => {
            let _ = bytes.try_extend_from_slice(b".");
            let _ = bytes.try_extend_from_slice(path);
            bytes
        }
    }
}
