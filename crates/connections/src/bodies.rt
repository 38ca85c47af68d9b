//! The bodies of replies.

/// The body of a reply.
#[derive(Debug, Drop)]
pub(crate) enum Body {
    /// Words that need no memory, with their LF.
    Words(&'static str),
    /// A text, or words with a number or a path.
    Text(Vec<u8>),
}
