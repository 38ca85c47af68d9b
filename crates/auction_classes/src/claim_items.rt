//! What is claimed in a forced sale.

use act_model::Basis;
use gb_base::{Person, RightId};

/// A claim in a forced sale, in cents (ZVG § 10). Its default is of no class.
#[derive(Clone, Copy, Debug, Default, PartialEq, Eq)]
pub struct ClaimItem {
    /// Its class, from 1 to 8 without 2.
    pub class: u8,
    /// Whether it was registered after the call to bid (ZVG § 110).
    pub late: bool,
    /// The right that it is of; None for advances, public charges and personal creditors.
    pub right: Option<RightId>,
    /// Who is paid.
    pub person: Person,
    /// The interest in it, for timely claims of rights in their class; else 0.
    pub interest: u64,
    /// The capital of a right in its class; else the whole claim.
    pub capital: u64,
    /// Whether it ranks equally with the claim before it: both of one class, both timely or both
    /// late, and of rights of one group.
    pub with_previous: bool,
}

/// A seizure, as it is needed to compute the lowest bid (ZVG § 44).
#[derive(Clone, Copy, Debug)]
pub struct SeizedFor {
    /// What it rests on.
    pub basis: Basis,
    /// Whether it was served in time, and what it rests on still stands (ZVG §§ 43(2), 44(2)).
    pub served: bool,
}

/// A live right of class 4, as it is needed to compute what remains of it (ZVG § 52).
#[derive(Clone, Copy, Debug)]
pub struct RightClaimed {
    pub right: RightId,
    /// In cents.
    pub interest: u64,
    pub in_division_three: bool,
}

/// A claim before it stands in its row, in cents.
#[derive(Clone, Copy)]
pub(crate) struct Claim {
    /// From 1 to 8 without 2.
    pub class: u8,
    pub late: bool,
    /// None for advances, public charges and personal creditors.
    pub right: Option<RightId>,
    /// The group of the right in its filing (GBO § 45(3)); 0 where it is of none.
    pub group: u8,
    pub person: Person,
    pub interest: u64,
    pub capital: u64,
}
