//! The claims of a class, among those of a sale.
ghost use Rattle.std.specs.Prelude.{◌≡◌, ◌<◌, ◌≤◌, All, length, map, sum_by};
ghost use Rattle.gb_base.specs.Limits.{most_sharing, most_sum};
ghost use Rattle.auction_classes.specs.Claims.{are_both};
ghost use Rattle.auction_classes.specs.PayableClaims.{IsAmountClaimed, IsPayable, amount_claimed, claims_in, is_in_class};
ghost use Rattle.auction_classes.specs.Computable.{IsComputable};

use arrayvec::ArrayVec;
use auction_classes::{ClaimItem, Claims};

/// How many claims may share money.
pub(crate) const MOST_SHARING: usize = 256;

/// The timely claims of a sale that are of a class, or the late ones (ZVG §§ 10, 110).
pub(crate) fn claims_of(claims: &Claims, late: bool, class: u8) -> ArrayVec<ClaimItem, MOST_SHARING>
    ensures value { result.items ≡ claims_in late class claims.now.claimed.items }
    ensures few { length result.items ≤ most_sharing }
    ensures each { All IsAmountClaimed result.items }
    ensures sum { sum_by amount_claimed result.items < most_sum }
    ensures payable { IsPayable claims.now.claimed }
    ensures computable { IsComputable claims.now.claimed }
{
    claims_in(claims.items(), late, class)
}

/// Those of these claims that are of a class, and late or timely as asked.
fn claims_in(items: &[ClaimItem], late: bool, class: u8) -> ArrayVec<ClaimItem, MOST_SHARING>
    requires few { length (claims_in late class items.now) ≤ most_sharing }
    ensures { result.items ≡ claims_in late class items.now }
{
    let mut claims = ArrayVec::new();
    for item in items {
        if is_in_class(item, late, class) {
            claims.push(*item);
        }
    }
    claims
}

/// Whether a claim is of a class, and late or timely as asked.
fn is_in_class(claim: &ClaimItem, late: bool, class: u8) -> bool
    ensures { result ≡ is_in_class late class claim.now }
{
    are_both(late, claim.late) && claim.class == class
}

/// Whether both are late, or both are timely.
fn are_both(late: bool, other: bool) -> bool
    ensures { result ≡ are_both late other }
{
    if late { other } else { !other }
}

/// What each of these claims comes to.
pub(crate) fn amounts_of(claims: &[ClaimItem]) -> ArrayVec<u64, MOST_SHARING>
    requires few { length claims.now ≤ most_sharing }
    requires each { All IsAmountClaimed claims.now }
    ensures { result.items ≡ map amount_claimed claims.now }
{
    let mut amounts = ArrayVec::new();
    for claim in claims {
        amounts.push(amount_claimed(claim));
    }
    amounts
}

/// What is claimed: interest and capital together.
pub(crate) fn amount_claimed(claim: &ClaimItem) -> u64
    requires { IsAmountClaimed claim.now }
    ensures { result ≡ amount_claimed claim.now }
{
    claim.interest + claim.capital
}
