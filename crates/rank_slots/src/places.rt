//! What a line is filled with, and what it is made of.

use gb_base::RightId;

/// The most places of a line.
pub(crate) const MOST_PLACES: usize = 256;

/// The place of a right in a line, with its claim.
#[derive(Clone, Copy, Debug, PartialEq, Eq)]
pub struct Place {
    pub right: RightId,
    /// In cents, from 1.
    pub claim: u64,
    /// Whether it joins the place before it in one group of equal rank (GBO § 45(1), (3)).
    pub with_previous: bool,
    /// Whether its cents are taken out once all exchanges are made.
    pub dropped: bool,
}

/// An exchange of rank (BGB § 880).
#[derive(Clone, Copy, Debug, PartialEq, Eq)]
pub struct Swap {
    /// The right that recedes.
    pub recede: RightId,
    /// The right that gets the first of both rights' cents.
    pub rise: RightId,
}

/// Two rights that a reservation ties (BGB § 881).
#[derive(Clone, Copy, Debug, PartialEq, Eq)]
pub struct Knot {
    /// The right whose reservation is spent.
    pub reserved: RightId,
    /// The right that was entered to precede it; its place is that of its own filing.
    pub exercised: RightId,
}

/// Neighbouring cents of a line that are one right's.
#[derive(Clone, Copy, Debug, PartialEq, Eq)]
pub struct Piece {
    pub right: RightId,
    /// How many, from 1.
    pub cents: u64,
}
