//! A door in memory, by which tests and proofs see what was written to each connection.
ghost use Rattle.std.specs.Prelude.{◌≡◌, Some, [], All, IfOk};
ghost use Rattle.gb_outside.specs.InMemory.{IsUnused, bytes_waiting, pairs_served};

use crate::calls::Calls;
use crate::{Door, Listener, MemLink};
use gb_base::NoMemory;
use std::alloc::Global;
use std::marker::Model;
use std::vec::IntoIter;

/// A door through which the links of a list come in order, and which keeps those that are taken
/// back. Accepts of chosen numbers fail.
#[derive(Drop)]
pub struct MemListener<'a> {
    waiting: IntoIter<MemLink<'a>>,
    served: Vec<MemLink<'a>>,
    out: usize,
    calls: Calls<'a>,
    faults: u64,
}

impl<'a> Model for MemListener<'a> {
    ghost use Rattle.std.specs.Prelude.{◌≤◌, ◌+◌, All, length, vec_len};
    ghost use Rattle.std.specs.Vec.{vec_capacity};
    ghost use Rattle.std.specs.Vec.Iter.{into_iter_items};
    ghost use Rattle.gb_outside.specs.InMemory.{LinksInOut, IsUnused};

    ghost Value = { LinksInOut };

    ghost view = { λ a. record { waiting = into_iter_items a.waiting; served = a.served.items; out = a.out; plan = a.calls; faults = a.faults } };

    ghost invariant = { λ a. All IsUnused (into_iter_items a.waiting)
        × (length (into_iter_items a.waiting) + a.out + vec_len a.served ≤ vec_capacity a.served) };
}

impl<'a> MemListener<'a> {
    /// A listener to which these links come, of which no call was made. `fail` has the numbers,
    /// from 1, of the accepts that are to fail.
    pub fn new(
        alloc: Global,
        links: Vec<MemLink<'a>>,
        fail: &'a [u32],
    ) -> Result<MemListener<'a>, NoMemory>
        requires unused { All IsUnused links.items }
        ensures waiting { IfOk result (λ door. ⟦<MemListener<'a> as Listener>⟧.waiting door ≡ Some (bytes_waiting links.entry.items)) }
        ensures served { IfOk result (λ door. ⟦<MemListener<'a> as Listener>⟧.served door ≡ Some []) }
        ensures out { IfOk result (λ door. ⟦<MemListener<'a> as Listener>⟧.out door ≡ 0) }
        ensures faults { IfOk result (λ door. ⟦<MemListener<'a> as Listener>⟧.faults door ≡ 0) }
        ensures links { IfOk result (λ door. door.waiting ≡ links.entry.items) }
        ensures plan { IfOk result (λ door. door.plan ≡ record { made = 0; failing = fail.now }) }
    {
        let served = Vec::with_capacity(alloc, links.len())?;
        Ok(MemListener {
            waiting: links.into_iter(),
            served,
            out: 0,
            calls: Calls::new(fail),
            faults: 0,
        })
    }

    /// The links taken back, in order.
    pub fn served(&self) -> &[MemLink<'a>]
        ensures links { result.now ≡ self.now.served }
        ensures told { ⟦<MemListener<'a> as Listener>⟧.served self.now ≡ Some (pairs_served result.now) }
    {
        &self.served
    }
}

impl<'a> Listener for MemListener<'a> {
    type Link = MemLink<'a>;

    ghost use Rattle.std.specs.Prelude.{◌≡◌, ◌+◌, ◌≤◌, ◌++◌, ◌∷◌, [], Some, IsSome};
    ghost use Rattle.gb_outside.specs.Doors.{Accepts, Serves, out_after, accept_failed};
    ghost use Rattle.gb_outside.specs.Faults.{Counts, faults_after};
    ghost use Rattle.gb_outside.specs.InMemory.{fails_next, after_call, accept_answer, links_left, bytes_waiting, pairs_served};

    ghost waiting = { λ s. Some (bytes_waiting s.waiting) };

    ghost served = { λ s. Some (pairs_served s.served) };

    ghost out = { λ s. s.out };

    ghost faults = { λ s. s.faults };

    fn accept(&mut self) -> Door<MemLink<'a>>
        ensures links { Accepts (λ link. Some link.left) (λ link. Some link.written) (λ link. link.faults)
            (Some (pairs_served self.old.served))
            (Some (bytes_waiting self.old.waiting)) (Some (bytes_waiting self.new.waiting)) result }
        ensures served { Some (pairs_served self.new.served)
            ≡ Some (pairs_served self.old.served) }
        ensures out { IsSome (Some (pairs_served self.old.served)) → self.new.out ≡ out_after self.old.out result }
        ensures cause { Counts self.old.faults self.new.faults (accept_failed result) }
        ensures once { self.new.faults ≡ faults_after self.old.faults (accept_failed result) }
        ensures answer { result ≡ accept_answer (fails_next self.old.plan) self.old.waiting }
        ensures left { self.new.waiting ≡ links_left (fails_next self.old.plan) self.old.waiting }
        ensures kept { self.new.served ≡ self.old.served }
        ensures plan { self.new.plan ≡ after_call self.old.plan }
    {
        if self.calls.next_fails() {
            self.faults = self.faults.saturating_add(1);
            return Door::Failed;
        }
        match self.waiting.next() {
            Some(link) => {
                self.out += 1;
                Door::Open(link)
            }
            None => Door::Closed,
        }
    }

    fn done(&mut self, link: MemLink<'a>)
        requires { IsSome (Some (pairs_served self.old.served)) → 1 ≤ self.old.out }
        ensures served { Serves (Some (pairs_served self.old.served))
            (Some (pairs_served self.new.served)) (Some link.entry.written) link.entry.faults }
        ensures waiting { Some (bytes_waiting self.new.waiting) ≡ Some (bytes_waiting self.old.waiting) }
        ensures out { IsSome (Some (pairs_served self.old.served)) → self.new.out + 1 ≡ self.old.out }
        ensures cause { self.new.faults ≡ self.old.faults }
        ensures kept { self.new.served ≡ self.old.served ++ link.entry ∷ [] }
        ensures left { self.new.waiting ≡ self.old.waiting }
        ensures plan { self.new.plan ≡ self.old.plan }
    {
        self.out -= 1;
        self.served.push_reserved(link);
    }
}
