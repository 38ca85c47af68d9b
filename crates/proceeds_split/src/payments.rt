//! Paying claims one group after the other: each from what those before it left.
ghost use Rattle.std.specs.Prelude.{◌≡◌, ◌+◌, ◌<◌, ◌≤◌, ◌∷◌, [], All, IfOk, length, sum_by, vec_capacity, vec_len};
ghost use Rattle.gb_base.specs.Limits.{most_sharing, most_sum};
ghost use Rattle.auction_classes.specs.PayableClaims.{IsAmountClaimed, amount_claimed};
ghost use Rattle.proceeds_split.specs.Plan.{costs_lines, first_come, in_proportion, in_rank, owner_share, to_owners};
ghost use Rattle.proceeds_split.specs.inner.Payments.{AddsLines, IsBegun, Pays};

use crate::class_claims::{amount_claimed, amounts_of};
use crate::plan_lines::{line_of, owner_line};
use crate::{PlanLine, PlanPart};
use auction_classes::ClaimItem;
use gb_base::{NoMemory, Person, push_copy, share};
use std::alloc::Global;

/// The lines of a plan so far, and the money that they leave, in cents.
#[derive(Drop)]
pub(crate) struct Payments {
    pub lines: Vec<PlanLine>,
    pub left: u64,
}

impl Payments {
    /// Nothing is paid of the money yet, with room for so many lines. May run out of memory
    /// (`NoMemory`).
    pub fn with_room(alloc: Global, lines: usize, money: u64) -> Result<Payments, NoMemory>
        ensures { IfOk result (IsBegun lines money) }
    {
        Ok(Payments {
            lines: Vec::with_capacity(alloc, lines)?,
            left: money,
        })
    }

    /// Pays a line.
    pub fn pay(&mut self, line: &PlanLine)
        requires room { vec_len self.old.lines < vec_capacity self.old.lines }
        ensures { AddsLines 1 (line.now ∷ []) self.old self.new }
    {
        push_copy(&mut self.lines, line);
        self.left = self
            .left
            .saturating_sub(line.interest)
            .saturating_sub(line.capital);
    }

    /// Pays the costs of the proceedings (ZVG § 109).
    pub fn pay_costs(&mut self, costs: u64)
        requires room { vec_len self.old.lines < vec_capacity self.old.lines }
        ensures { Pays 1 (costs_lines costs) self.old self.new }
    {
        self.pay(&PlanLine {
            part: PlanPart::Costs,
            right: None,
            person: None,
            claim: costs,
            interest: 0,
            capital: self.left.min(costs),
            remains: 0,
        });
    }

    /// Pays claims of equal rank in proportion (ZVG § 10(1)).
    pub fn pay_in_proportion(&mut self, part: PlanPart, claims: &[ClaimItem])
        requires few { length claims.now ≤ most_sharing }
        requires each { All IsAmountClaimed claims.now }
        requires sum { sum_by amount_claimed claims.now < most_sum }
        requires room { vec_len self.old.lines + length claims.now ≤ vec_capacity self.old.lines }
        ensures { Pays (length claims.now) (in_proportion part claims.now) self.old self.new }
    {
        let money = self.left;
        let amounts = amounts_of(claims);
        for i in 0..claims.len() {
            let got = share(money, &amounts, i);
            self.pay(&line_of(part, &claims[i], got, 0));
        }
    }

    /// Pays claims one after the other (ZVG § 11(2)).
    pub fn pay_first_come(&mut self, part: PlanPart, claims: &[ClaimItem])
        requires each { All IsAmountClaimed claims.now }
        requires room { vec_len self.old.lines + length claims.now ≤ vec_capacity self.old.lines }
        ensures { Pays (length claims.now) (first_come part claims.now) self.old self.new }
    {
        for claim in claims {
            let got = self.left.min(amount_claimed(claim));
            self.pay(&line_of(part, claim, got, 0));
        }
    }

    /// Pays claims of rights by rank, those of equal rank in proportion (ZVG § 11(1)).
    pub fn pay_in_rank(&mut self, part: PlanPart, claims: &[ClaimItem])
        requires few { length claims.now ≤ most_sharing }
        requires each { All IsAmountClaimed claims.now }
        requires sum { sum_by amount_claimed claims.now < most_sum }
        requires room { vec_len self.old.lines + length claims.now ≤ vec_capacity self.old.lines }
        ensures { Pays (length claims.now) (in_rank part claims.now) self.old self.new }
    {
        if claims.is_empty() {
            return;
        }
        let mut start = 0;
        for i in 1..claims.len() {
            if !claims[i].with_previous {
                self.pay_in_proportion(part, &claims[start..i]);
                start = i;
            }
        }
        self.pay_in_proportion(part, &claims[start..]);
    }

    /// Pays what is left to the former owners in equal parts, and one cent more to each of the first
    /// until nothing is left.
    pub fn pay_owners(&mut self, owners: &[Person])
        requires room { vec_len self.old.lines + length owners.now ≤ vec_capacity self.old.lines }
        ensures { Pays (length owners.now) (to_owners owners.now) self.old self.new }
    {
        let money = self.left;
        for i in 0..owners.len() {
            let got = owner_share(money, owners.len() as u64, i as u64);
            self.pay(&owner_line(owners[i], got));
        }
    }
}

/// What owner i of so many gets of the money.
fn owner_share(money: u64, many: u64, i: u64) -> u64
    requires { i < many }
    ensures { result ≡ owner_share many money i }
{
    let whole = money / many;
    if i < money % many { whole + 1 } else { whole }
}
