//! The lines of a plan.
ghost use Rattle.std.specs.Prelude.{◌≡◌, ◌+◌, ◌<◌, ◌^◌};
ghost use Rattle.proceeds_split.specs.Plan.{line_of, owner_line, paid};

use auction_classes::ClaimItem;
use gb_base::{Person, RightId};

/// What a line of a plan is for.
#[derive(Clone, Copy, Debug, PartialEq, Eq)]
pub enum PlanPart {
    /// The costs of the proceedings (ZVG § 109).
    Costs,
    /// A timely claim of this class (ZVG § 10).
    Class(u8),
    /// A late claim, which is paid after all timely ones (ZVG § 110), under the number of its class.
    Late(u8),
    /// A former owner, who gets a part of what is left.
    Owner,
}

/// A line of a plan, in cents (ZVG §§ 113, 114).
#[derive(Clone, Copy, Debug, PartialEq, Eq)]
pub struct PlanLine {
    pub part: PlanPart,
    /// The right to which the claim belongs; None for costs, advances, public charges, personal
    /// creditors and owners.
    pub right: Option<RightId>,
    /// Who is paid; None for the costs.
    pub person: Option<Person>,
    /// What is claimed: interest and capital together. Of an owner it is what is paid.
    pub claim: u64,
    /// What is paid on the interest of a right in its class, which comes first (ZVG § 12); else 0.
    pub interest: u64,
    /// What is paid on its capital, or on any other claim.
    pub capital: u64,
    /// What remains of a right in class 4, so that it is not paid (ZVG § 52); else 0.
    pub remains: u64,
}

impl PlanLine {
    /// What is paid: interest and capital together, in cents. In a plan it is always in range.
    pub fn paid(&self) -> u64
        ensures { paid self.now < 2 ^ 64 → result ≡ paid self.now }
    {
        self.interest.saturating_add(self.capital)
    }
}

/// The line of a claim that gets so much, and of which so much remains.
pub(crate) fn line_of(part: PlanPart, claim: &ClaimItem, got: u64, remains: u64) -> PlanLine
    requires { claim.now.interest + claim.now.capital < 2 ^ 64 }
    ensures { result ≡ line_of part claim.now got remains }
{
    let interest = got.min(claim.interest);
    PlanLine {
        part,
        right: claim.right,
        person: Some(claim.person),
        claim: claim.interest + claim.capital,
        interest,
        capital: got - interest,
        remains,
    }
}

/// The line of a former owner who gets so much.
pub(crate) fn owner_line(person: Person, got: u64) -> PlanLine
    ensures { result ≡ owner_line person got }
{
    PlanLine {
        part: PlanPart::Owner,
        right: None,
        person: Some(person),
        claim: got,
        interest: 0,
        capital: got,
        remains: 0,
    }
}
