//! The cents that the rights of a folio take in turn, piece by piece.
ghost use Rattle.std.specs.Prelude.{◌≡◌, ◌+◌, ◌<◌, ◌≤◌, ◌^◌, ◌++◌, OnOk, codes, flat_map, length, sum_by};
ghost use Rattle.std.specs.String.{string_bytes};
ghost use Rattle.gb_base.specs.Texts.{right_text};
ghost use Rattle.gb_base.specs.Limits.{most_sum};
ghost use Rattle.rank_slots.specs.Groups.{shares_group};
ghost use Rattle.folio_extract.specs.CentTexts.{group_text, line_text, piece_line};
ghost use Rattle.folio_extract.specs.inner.PieceRuns.{run_len};

use gb_base::NoMemory;
use rank_slots::{Piece, Place, Slots};

/// Adds the cents of a line. Neighbouring pieces of one group are printed as one.
pub(crate) fn add_cent_lines(text: &mut String, slots: &Slots) -> Result<(), NoMemory>
    ensures { OnOk result (string_bytes text.new ≡ string_bytes text.old ++ line_text slots.now.filled) }
{
    let mut rest = slots.pieces();
    let mut from = 1;
    while let Some(first) = rest.first() {
        let (own, others) = rest.split_at(run_len(slots, rest));
        let cents = total(own);
        add_piece(text, from, cents, slots.group(first.right))?;
        rest = others;
        from += cents;
    }
    Ok(())
}

/// How many pieces at the front each share the group of the one before.
fn run_len(slots: &Slots, pieces: &[Piece]) -> usize
    requires { 0 < length pieces.now }
    ensures value { result ≡ run_len slots.now.filled.places pieces.now }
    ensures some { 1 ≤ result }
    ensures within { result ≤ length pieces.now }
{
    let mut len = 1;
    while len < pieces.len() && shares_group(slots, &pieces[len - 1], &pieces[len]) {
        len += 1;
    }
    len
}

/// Whether two pieces are of one group.
fn shares_group(slots: &Slots, piece: &Piece, other: &Piece) -> bool
    ensures { result ≡ shares_group slots.now.filled.places piece.now.right other.now.right }
{
    slots
        .group(piece.right)
        .iter()
        .any(|place| place.right == other.right)
}

/// How many cents these pieces have.
fn total(pieces: &[Piece]) -> u64
    requires { sum_by (λ p. p.cents) pieces.now < most_sum }
    ensures { result ≡ sum_by (λ p. p.cents) pieces.now }
{
    let mut cents = 0;
    for piece in pieces {
        cents += piece.cents;
    }
    cents
}

/// Adds the line of a group, which takes so many cents from this one on.
fn add_piece(text: &mut String, from: u64, cents: u64, group: &[Place]) -> Result<(), NoMemory>
    requires some { 1 ≤ cents }
    requires bound { from + cents < 2 ^ 64 }
    ensures { OnOk result (string_bytes text.new ≡ string_bytes text.old ++ piece_line from cents group.now) }
{
    write!(text, "cents {from}-{} ", from + cents - 1)?;
    add_group_text(text, group)?;
    text.push_str("\n")
}

/// Adds a right by its number, and rights of equal rank as a group.
fn add_group_text(text: &mut String, group: &[Place]) -> Result<(), NoMemory>
    ensures { OnOk result (string_bytes text.new ≡ string_bytes text.old ++ group_text group.now) }
{
    match group {
        [] => Ok(()),
        [only] => write!(text, "{}", only.right),
        group => add_group(text, group),
    }
}

/// Adds the word `group`, and the numbers of its rights.
fn add_group(text: &mut String, group: &[Place]) -> Result<(), NoMemory>
    ensures { OnOk result (string_bytes text.new
        ≡ string_bytes text.old ++ (codes "group" ++ flat_map (λ p. codes " " ++ right_text p.right) group.now)) }
{
    text.push_str("group")?;
    for place in group {
        write!(text, " {}", place.right)?;
    }
    Ok(())
}
