//! The line of a folio in lists that have room, so that it is read without memory.
//! Why so: docs/DECISIONS.md, "A line is read as it stood before a receipt".
ghost use Rattle.std.specs.Prelude.{◌≡◌, ◌≤◌, IfOk, [], length};
ghost use Rattle.folio_line.specs.AllRights.{AreAllRights};
ghost use Rattle.folio_line.specs.FolioLine.{IsEmpty, IsLineOf, all_rises};
ghost use Rattle.folio_line.specs.FolioReading.{CanBeRead, reads};
ghost use Rattle.folio_line.specs.FolioRights.{live_rights};

use crate::FolioReading;
use crate::exchange_turns::{Turn, put_in_turn};
use crate::exchanges::{Exchange, write_counted};
use crate::exercises::write_exercises;
use crate::folio_rights::{CreatedRight, write_by_group, write_live, write_receding};
use folio_sections::Parts;
use gb_base::{NoMemory, RightId};
use rank_slots::Knot;
use std::alloc::Global;
use std::marker::Model;

/// The line of a folio: the rights that stand on it, the exchanges among them that count, and the
/// exercised reservations that count. In contracts it is these lists, what they have room for, and
/// how much memory they have.
#[derive(Debug, Drop)]
pub struct FolioLine {
    right_room: usize,
    exchange_room: usize,
    rights: Vec<CreatedRight>,
    live: Vec<CreatedRight>,
    exchanges: Vec<Exchange>,
    exercises: Vec<Knot>,
    /// Where rights are written by filing and act, before they are put by group.
    by_act: Vec<CreatedRight>,
    /// Where exchanges are put in turn.
    turns: Vec<Turn>,
}

impl Model for FolioLine {
    ghost use Rattle.std.specs.Prelude.{◌≤◌, ◌+◌, vec_capacity};
    ghost use Rattle.folio_line.specs.FolioLine.{LineState};

    ghost Value = { LineState };

    ghost view = { λ a. record {
      rights = a.rights.items;
      live = a.live.items;
      exchanges = a.exchanges.items;
      exercises = a.exercises.items;
      right_room = a.right_room;
      exchange_room = a.exchange_room;
      capacity = vec_capacity a.rights + vec_capacity a.live + vec_capacity a.exchanges + vec_capacity a.exercises + vec_capacity a.by_act + vec_capacity a.turns;
    } };

    ghost invariant = { λ a.
        (a.right_room ≤ vec_capacity a.rights) × (a.right_room ≤ vec_capacity a.live) × (a.right_room ≤ vec_capacity a.exercises)
        × (a.right_room ≤ vec_capacity a.by_act) × (a.exchange_room ≤ vec_capacity a.exchanges) × (a.exchange_room ≤ vec_capacity a.turns) };
}

impl FolioLine {
    /// An empty line, with room for so many rights and so many exchanges. May run out of memory
    /// (`NoMemory`); no other call of a line takes any.
    pub fn with_room(alloc: Global, rights: usize, exchanges: usize) -> Result<FolioLine, NoMemory>
        ensures rights { IfOk result (λ line. rights ≤ line.right_room) }
        ensures exchanges { IfOk result (λ line. exchanges ≤ line.exchange_room) }
        ensures empty { IfOk result IsEmpty }
    {
        Ok(FolioLine {
            right_room: rights,
            exchange_room: exchanges,
            rights: Vec::with_capacity(alloc, rights)?,
            live: Vec::with_capacity(alloc, rights)?,
            exchanges: Vec::with_capacity(alloc, exchanges)?,
            exercises: Vec::with_capacity(alloc, rights)?,
            by_act: Vec::with_capacity(alloc, rights)?,
            turns: Vec::with_capacity(alloc, exchanges)?,
        })
    }

    /// Reads the line of a folio, among these rights, in place of what stood there. Takes no memory.
    ///
    /// Charges 2.1, 3.1 and 4.1 stand in the folio, 2.1 recedes behind 4.1 by receipt 5, and receipt
    /// 6 cancels 2.1 by consent. Before receipt 5 the line has the three rights and no exchange.
    /// After receipt 6 it has them with the exchange, and 2.1 is no longer live.
    pub fn read<P: Parts>(&mut self, reading: &FolioReading<P>, ids: &[RightId])
        requires read { CanBeRead P.holds P.at reading.now }
        requires all { AreAllRights ids.now (reads P.holds P.at reading.now) reading.now.folio }
        requires rights { length ids.now ≤ self.old.right_room }
        requires exchanges { length (all_rises (reads P.holds P.at reading.now) reading.now.folio ids.now) ≤ self.old.exchange_room }
        ensures line { IsLineOf (reads P.holds P.at reading.now) reading.now.folio self.new }
        ensures right_room { self.new.right_room ≡ self.old.right_room }
        ensures exchange_room { self.new.exchange_room ≡ self.old.exchange_room }
        ensures memory { self.new.capacity ≡ self.old.capacity }
    {
        write_live(&mut self.live, &mut self.by_act, reading, ids);
        write_exercises(&mut self.exercises, reading, &self.by_act);
        write_counted(&mut self.exchanges, reading, &self.live);
        put_in_turn(&mut self.exchanges, &mut self.turns);
        write_receding(&mut self.by_act, reading, &self.exchanges, ids);
        write_by_group(&mut self.rights, &self.by_act);
    }

    /// Reads the live rights of a folio, among these, in place of those that stood there; of what else
    /// stands on the line nothing is said then. Takes no memory.
    pub fn read_live<P: Parts>(&mut self, reading: &FolioReading<P>, ids: &[RightId])
        requires read { CanBeRead P.holds P.at reading.now }
        requires all { AreAllRights ids.now (reads P.holds P.at reading.now) reading.now.folio }
        requires rights { length ids.now ≤ self.old.right_room }
        ensures live { self.new.live ≡ live_rights (reads P.holds P.at reading.now) reading.now.folio }
        ensures right_room { self.new.right_room ≡ self.old.right_room }
        ensures exchange_room { self.new.exchange_room ≡ self.old.exchange_room }
        ensures memory { self.new.capacity ≡ self.old.capacity }
    {
        write_live(&mut self.live, &mut self.by_act, reading, ids);
    }

    /// The rights that are live, and those that recede in exchanges that count, by filing, group and
    /// act.
    pub fn rights(&self) -> &[CreatedRight]
        ensures { result.now ≡ self.now.rights }
    {
        &self.rights
    }

    /// Those of the rights that are live, by filing, group and act.
    pub fn live(&self) -> &[CreatedRight]
        ensures { result.now ≡ self.now.live }
    {
        &self.live
    }

    /// The exchanges that count, by item and act: the right that rises is live, and the cents of the
    /// one that recedes stay (BGB § 880).
    pub fn exchanges(&self) -> &[Exchange]
        ensures { result.now ≡ self.now.exchanges }
    {
        &self.exchanges
    }

    /// The exercised reservations that count, by the exercised right: both rights are live (BGB
    /// § 881).
    pub fn exercises(&self) -> &[Knot]
        ensures { result.now ≡ self.now.exercises }
    {
        &self.exercises
    }
}
