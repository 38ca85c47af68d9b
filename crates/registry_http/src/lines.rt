//! How far the lines of a head have come.
ghost use Rattle.std.specs.Prelude.{◌≡◌};
ghost use Rattle.registry_http.specs.inner.Lines.{after_byte, after_bytes, are_over};

/// How far the lines of a head have come. So the end of a head is found without a second look at
/// any byte.
#[derive(Clone, Copy)]
pub enum Lines {
    /// There are at most empty lines.
    Ahead,
    /// There are at most empty lines, and then a CR.
    AheadCr,
    /// A line is still without its end.
    Inside,
    /// A line has ended.
    Ended,
    /// A line has ended, and then a CR came.
    EndedCr,
    /// An empty line came after a line.
    Over,
}

impl Lines {
    /// One more byte comes.
    fn after(self, byte: u8) -> Lines
        ensures { result ≡ after_byte self byte }
    {
        match (self, byte) {
            (Lines::Ahead | Lines::AheadCr, b'\n') => Lines::Ahead,
            (Lines::Ahead, b'\r') => Lines::AheadCr,
            (Lines::Inside, b'\n') => Lines::Ended,
            (Lines::Ended, b'\r') => Lines::EndedCr,
            (Lines::Ended | Lines::EndedCr, b'\n') | (Lines::Over, _) => Lines::Over,
            _ => Lines::Inside,
        }
    }

    /// How far the lines are after all these bytes.
    pub(crate) fn after_all(self, bytes: &[u8]) -> Lines
        ensures { result ≡ after_bytes self bytes.now }
    {
        let mut lines = self;
        for byte in bytes {
            if lines.are_over() {
                return lines;
            }
            lines = lines.after(*byte);
        }
        lines
    }

    /// Whether an empty line came after a line.
    pub(crate) fn are_over(self) -> bool
        ensures { result ≡ are_over self }
    {
        matches!(self, Lines::Over)
    }
}
