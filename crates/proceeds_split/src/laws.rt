//! Laws of the definitions that contracts cite. Each function does nothing; its contract is the
//! law.
ghost use Rattle.std.specs.Prelude.{◌≡◌, ◌≤◌, ℕ, Some, sum_by};
ghost use Rattle.auction_classes.specs.LowestBid.{lowest_bid};
ghost use Rattle.auction_classes.specs.PayableClaims.{IsPayable};
ghost use Rattle.auction_classes.specs.SaleClaims.{SaleClaims};
ghost use Rattle.auction_classes.specs.declared.lowest_bids.Lowest.{Lowest};
ghost use Rattle.auction_classes.specs.Computable.{IsComputable};
ghost use Rattle.proceeds_split.specs.Plan.{paid, plan_of};

/// A plan pays out just the money, whatever the claims are that can be computed with and paid,
/// where the money reaches the part in cash of the lowest bid (ZVG §§ 49, 109).
pub fn whole()
    ensures { (c : SaleClaims) (lowest : Lowest) (money : ℕ) → IsPayable c → IsComputable c
        → lowest_bid c ≡ Some lowest → lowest.cash ≤ money → sum_by paid (plan_of c lowest money) ≡ money }
{}
