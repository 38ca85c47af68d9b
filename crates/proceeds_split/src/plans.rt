//! The plan.
ghost use Rattle.std.specs.Prelude.{◌≡◌, ◌<◌, ◌^◌, sum_by};
ghost use Rattle.proceeds_split.specs.Plan.{paid};

use crate::PlanLine;
use std::marker::Model;

/// The plan by which the money of an award is distributed (ZVG §§ 109 to 114). In contracts it is
/// the list of its lines.
#[derive(Debug, Drop)]
pub struct Plan {
    lines: Vec<PlanLine>,
}

impl Model for Plan {
    ghost use Rattle.std.specs.Prelude.{◌<◌, ◌^◌, List, sum_by};
    ghost use Rattle.proceeds_split.specs.Plan.{paid};
    ghost use Rattle.proceeds_split.specs.declared.plan_lines.PlanLine.{PlanLine};

    ghost Value = { List PlanLine };

    ghost view = { λ a. a.lines.items };

    ghost invariant = { λ a. sum_by paid a.lines.items < 2 ^ 64 };
}

impl Plan {
    /// A plan of these lines.
    pub(crate) fn new(lines: Vec<PlanLine>) -> Plan
        requires { sum_by paid lines.items < 2 ^ 64 }
        ensures { result ≡ lines.items }
    {
        Plan { lines }
    }

    /// The lines in the order in which they are paid. What they pay together is in range. Takes no
    /// memory.
    pub fn lines(&self) -> &[PlanLine]
        ensures value { result.now ≡ self.now }
        ensures sum { sum_by paid result.now < 2 ^ 64 }
    {
        &self.lines
    }
}
