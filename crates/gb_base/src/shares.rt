//! How money is shared in proportion among claims of equal rank.
ghost use Rattle.std.specs.Prelude.{◌≡◌, ◌*◌, ◌/◌, ◌<◌, ◌≤◌, length, sum, All};
ghost use Rattle.gb_base.specs.Limits.{most_sharing, most_sum};
ghost use Rattle.gb_base.specs.Shares.{claim_at, left_over, share};

/// What claim i gets of this money, in cents: the whole claim where the money reaches the sum of
/// the claims; else the whole cents of its proportional part, and each of the first claims one of
/// the cents that are left over.
pub fn share(money: u64, claims: &[u64], i: usize) -> u64
    requires index { i < length claims.now }
    requires few { length claims.now ≤ most_sharing }
    requires claims { All (λ c. 1 ≤ c) claims.now }
    requires sum { sum claims.now < most_sum }
    ensures value { result ≡ share money claims.now i }
    ensures within { result ≤ claim_at claims.now i }
{
    let total: u64 = claims.iter().sum();
    if money >= total {
        return claims[i];
    }
    let part = whole_part(money, total, claims[i]);
    if (i as u64) < left_over(money, total, claims) {
        part + 1
    } else {
        part
    }
}

/// The whole cents of a claim's part of the money, in proportion to the sum of the claims.
fn whole_part(money: u64, total: u64, claim: u64) -> u64
    requires short { money < total }
    requires within { claim ≤ total }
    ensures value { result ≡ money * claim / total }
{
    (u128::from(money) * u128::from(claim) / u128::from(total)) as u64
}

/// The cents that the whole parts leave over.
fn left_over(money: u64, total: u64, claims: &[u64]) -> u64
    requires total { total ≡ sum claims.now }
    requires short { money < total }
    ensures { result ≡ left_over money claims.now }
{
    let mut left = money;
    for &claim in claims {
        left -= whole_part(money, total, claim);
    }
    left
}
