//! The ranks of a folio's rights, which stand in the order of their filings and groups (BGB § 879).
//! Why so: docs/DECISIONS.md, "The rank table rests on the order of places".
ghost use Rattle.std.specs.Prelude.{◌≡◌, ◌+◌, ◌<◌, ◌≤◌, ◌^◌, ◌++◌, None, OnOk};
ghost use Rattle.std.specs.String.{string_bytes};
ghost use Rattle.folio_extract.specs.inner.RankWalk.{rank_behind, ranked_lines};

use folio_line::{CreatedRight, has_same_place};
use gb_base::NoMemory;

/// Adds each right with its rank.
pub(crate) fn add_rank_lines(text: &mut String, rights: &[CreatedRight]) -> Result<(), NoMemory>
    ensures { OnOk result (string_bytes text.new ≡ string_bytes text.old ++ ranked_lines 0 None rights.now) }
{
    let mut rank = 0;
    let mut before = None;
    for right in rights {
        rank = rank_behind(rank, before, right);
        writeln!(text, "rank {rank} {}", right.id)?;
        before = Some(*right);
    }
    Ok(())
}

/// The rank of a right, from that of the right before it.
fn rank_behind(rank: usize, before: Option<CreatedRight>, right: &CreatedRight) -> usize
    requires { rank + 1 < 2 ^ 64 }
    ensures value { result ≡ rank_behind rank before right.now }
    ensures bound { result ≤ rank + 1 }
{
    match before {
        Some(before) if has_same_place(&before, right) => rank,
        _ => rank + 1,
    }
}
