//! The pieces of a line: neighbouring cents of one right are joined.
ghost use Rattle.std.specs.Prelude.{◌≡◌, ◌+◌, ◌<◌, ◌≤◌, ◌++◌, ◌&&◌, nat_lt, not, count_by, drop, length, replicate, sum_by, take, vec_capacity, vec_len};
ghost use Rattle.std.specs.List.{list_any, position_or_len};
ghost use Rattle.gb_base.specs.RightNo.{same_right};
ghost use Rattle.gb_base.specs.Limits.{most_sum};
ghost use Rattle.rank_slots.specs.Payments.{cents_ahead, is_of_group};
ghost use Rattle.rank_slots.specs.inner.Pieces.{AreJoined, line_of};

use crate::groups::holds;
use crate::{Piece, Place};
use gb_base::RightId;

/// Adds cents of a right at the end.
pub(crate) fn add_cents(pieces: &mut Vec<Piece>, right: RightId, cents: u64)
    requires joined { AreJoined pieces.old.items }
    requires room { vec_len pieces.old < vec_capacity pieces.old }
    requires sum { sum_by (λ p. p.cents) pieces.old.items + cents < most_sum }
    ensures line { line_of pieces.new.items ≡ line_of pieces.old.items ++ replicate cents right }
    ensures joined { AreJoined pieces.new.items }
    ensures len { vec_len pieces.new ≤ vec_len pieces.old + 1 }
    ensures none { cents ≡ 0 → vec_len pieces.new ≡ vec_len pieces.old }
    ensures sum { sum_by (λ p. p.cents) pieces.new.items ≡ sum_by (λ p. p.cents) pieces.old.items + cents }
    ensures capacity { vec_capacity pieces.new ≡ vec_capacity pieces.old }
{
    if cents == 0 {
        return;
    }
    match pieces.last_mut() {
        Some(last) if last.right == right => last.cents += cents,
        _ => pieces.push_reserved(Piece { right, cents }),
    }
}

/// How many cents the pieces have.
pub(crate) fn total(pieces: &[Piece]) -> u64
    requires { sum_by (λ p. p.cents) pieces.now < most_sum }
    ensures value { result ≡ length (line_of pieces.now) }
    ensures sum { result ≡ sum_by (λ p. p.cents) pieces.now }
{
    let mut cents = 0;
    for piece in pieces {
        cents += piece.cents;
    }
    cents
}

/// How many of the first t cents are this group's.
pub(crate) fn cents_within(pieces: &[Piece], group: &[Place], t: u64) -> u64
    requires { sum_by (λ p. p.cents) pieces.now < most_sum }
    ensures value { result ≡ count_by (is_of_group group.now) (take t (line_of pieces.now)) }
    ensures bound { result < most_sum }
{
    let mut left = t;
    let mut cents = 0;
    for piece in pieces {
        let paid = left.min(piece.cents);
        if holds(group, piece.right) {
            cents += paid;
        }
        left -= paid;
    }
    cents
}

/// How many cents stand ahead of this group.
pub(crate) fn cents_ahead(pieces: &[Piece], group: &[Place]) -> u64
    requires joined { AreJoined pieces.now }
    requires sum { sum_by (λ p. p.cents) pieces.now < most_sum }
    ensures value { result ≡ cents_ahead group.now (line_of pieces.now) }
    ensures bound { result < most_sum }
{
    total(&pieces[..pieces_ahead(pieces, group)])
}

/// How many pieces stand ahead of this group's first.
fn pieces_ahead(pieces: &[Piece], group: &[Place]) -> usize
    ensures value { result ≡ position_or_len (λ p. is_of_group group.now p.right) pieces.now }
    ensures within { result ≤ length pieces.now }
{
    pieces
        .iter()
        .take_while(|piece| !holds(group, piece.right))
        .count()
}

/// Whether the first t cents reach the last cent of this right.
pub(crate) fn reaches_end(pieces: &[Piece], right: RightId, t: u64) -> bool
    ensures { result ≡ not (list_any (same_right right) (drop t (line_of pieces.now))) }
{
    let mut left = t;
    for piece in pieces {
        if has_cents_behind(piece, right, left) {
            return false;
        }
        left = left.saturating_sub(piece.cents);
    }
    true
}

/// Whether the piece is this right's, and has more than t cents.
fn has_cents_behind(piece: &Piece, right: RightId, t: u64) -> bool
    ensures { result ≡ (nat_lt t piece.now.cents && same_right right piece.now.right) }
{
    t < piece.cents && piece.right == right
}
