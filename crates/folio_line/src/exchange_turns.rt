//! Exchanges in turn: by item and act.
ghost use Rattle.std.specs.Prelude.{◌≡◌, ◌≤◌, length, map, true, vec_capacity};
ghost use Rattle.std.specs.List.{AllByRecursion};
ghost use Rattle.folio_line.specs.Exchanges.{in_turn};
ghost use Rattle.folio_line.specs.inner.Turns.{has_turn, turns_of};

use crate::exchanges::Exchange;

/// An exchange with its number in the order of the rights that rise. So no two have one turn, and
/// a sort that takes no memory keeps those of one act in their order.
#[derive(Clone, Copy, Debug)]
pub(crate) struct Turn {
    exchange: Exchange,
    number: usize,
}

/// Puts exchanges in turn: by item and act, and those of one act in their order. Takes no memory.
pub(crate) fn put_in_turn(exchanges: &mut Vec<Exchange>, turns: &mut Vec<Turn>)
    requires turns { AllByRecursion (λ x. has_turn x ≡ true) exchanges.old.items }
    requires own_room { length exchanges.old.items ≤ vec_capacity exchanges.old }
    requires room { length exchanges.old.items ≤ vec_capacity turns.old }
    ensures items { exchanges.new.items ≡ in_turn exchanges.old.items }
    ensures exchange_capacity { vec_capacity exchanges.new ≡ vec_capacity exchanges.old }
    ensures turn_capacity { vec_capacity turns.new ≡ vec_capacity turns.old }
{
    number(turns, exchanges);
    turns.sort_unstable_by_key(|turn: &Turn| (turn.exchange.item, turn.exchange.act, turn.number));
    write_back(exchanges, turns);
}

/// Numbers these exchanges.
fn number(turns: &mut Vec<Turn>, exchanges: &[Exchange])
    requires { length exchanges.now ≤ vec_capacity turns.old }
    ensures items { turns.new.items ≡ turns_of 0 exchanges.now }
    ensures capacity { vec_capacity turns.new ≡ vec_capacity turns.old }
{
    turns.clear();
    for exchange in exchanges {
        turns.push_reserved(Turn {
            exchange: *exchange,
            number: turns.len(),
        });
    }
}

/// Writes the exchanges as they stand in turn.
fn write_back(exchanges: &mut Vec<Exchange>, turns: &[Turn])
    requires { length turns.now ≤ vec_capacity exchanges.old }
    ensures items { exchanges.new.items ≡ map (λ t. t.exchange) turns.now }
    ensures capacity { vec_capacity exchanges.new ≡ vec_capacity exchanges.old }
{
    exchanges.clear();
    for turn in turns {
        exchanges.push_reserved(turn.exchange);
    }
}
