//! The states of a right after some of its entries, so that no reader walks all entries.
//! Why so: docs/DECISIONS.md, "A right keeps its state after each sixteenth entry".
ghost use Rattle.std.specs.Prelude.{◌≡◌, ◌+◌, ◌≤◌, ◌&&◌, nat_lt, [], ◌∷◌, ◌++◌, if◌then◌else◌, length, take, vec_len, vec_capacity};
ghost use Rattle.folio_sections.specs.inner.Marks.{AreMarks, is_at_mark, state_at};
ghost use Rattle.folio_sections.specs.inner.States.{IsRightState};

use crate::Entry;
use crate::list_room::{keep_room, push_where_room};
use crate::right_state::{NEVER_CREATED, RightState, state_on};
use std::alloc::Global;

/// How many entries stand between one mark and the next.
const ENTRIES_PER_MARK: usize = 16;

/// The states of a right after each sixteenth of its first entries.
#[derive(Drop)]
pub(crate) struct StateMarks {
    states: Vec<RightState>,
}

impl StateMarks {
    /// The marks of no entries.
    pub fn new(alloc: Global) -> StateMarks
        ensures { result.states.items ≡ [] }
    {
        StateMarks {
            states: Vec::new(alloc),
        }
    }

    /// Keeps room for the marks of n entries that come after so many, where memory for it is found.
    /// Marks only spare a walk, so it is no failure where memory runs out: a mark without room is
    /// not noted.
    pub fn reserve(&mut self, entries: usize, n: usize)
        ensures { self.new.states.items ≡ self.old.states.items }
    {
        if n >= ENTRIES_PER_MARK - entries % ENTRIES_PER_MARK {
            let _ = keep_room(&mut self.states, n / ENTRIES_PER_MARK + 1);
        }
    }

    /// Notes the state after so many entries, where the next mark is due after just so many and
    /// there is room. Once a mark found no room, none is noted until they are cleared.
    pub fn note(&mut self, entries: usize, state: &RightState)
        ensures { self.new.states.items ≡ if is_at_mark entries (vec_len self.old.states + 1) && nat_lt (vec_len self.old.states) (vec_capacity self.old.states) then self.old.states.items ++ state.now ∷ [] else self.old.states.items }
    {
        if is_at_mark(entries, self.states.len() + 1) {
            push_where_room(&mut self.states, state);
        }
    }

    /// Takes all of them away, and keeps their room.
    pub fn clear(&mut self)
        ensures { self.new.states.items ≡ [] }
    {
        self.states.clear();
    }

    /// The state after the first so many of these entries: it is taken from the last mark that is
    /// not after them, and a walk goes on from there.
    pub fn state_ahead(&self, entries: &[Entry], ahead: usize) -> RightState
        requires marks { AreMarks self.now.states.items entries.now }
        requires within { ahead ≤ length entries.now }
        ensures { IsRightState result (take ahead entries.now) }
    {
        let mark = (ahead / ENTRIES_PER_MARK).min(self.states.len());
        state_on(self.at(mark), &entries[ENTRIES_PER_MARK * mark..ahead])
    }

    /// The state at the mark of this number; at mark 0 it is that of no entries.
    fn at(&self, mark: usize) -> RightState
        requires { mark ≤ vec_len self.now.states }
        ensures { result ≡ state_at mark self.now.states.items }
    {
        match self.states[..mark].last() {
            Some(state) => *state,
            None => NEVER_CREATED,
        }
    }
}

/// Whether the mark of number k stands after just so many entries.
fn is_at_mark(entries: usize, k: usize) -> bool
    ensures { result ≡ is_at_mark entries k }
{
    entries % ENTRIES_PER_MARK == 0 && entries / ENTRIES_PER_MARK == k
}
