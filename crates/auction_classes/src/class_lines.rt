//! The line of a class of rights, along which its money is shared (BGB §§ 879 to 881, ZVG § 11).
ghost use Rattle.std.specs.Prelude.{◌≡◌, ◌≤◌, All, IfOk, length, vec_capacity};
ghost use Rattle.folio_line.specs.FolioReading.{CanBeRead, reads};
ghost use Rattle.rank_slots.specs.Filled.{empty};
ghost use Rattle.auction_classes.specs.inner.LinesRead.{HasLineRoom, HasLowInterest, HasRoomForAll, KeepsLineRoom, exercises_within, line_read, swaps_read};
ghost use Rattle.auction_classes.specs.Computable.{filled_of};

use crate::class_places::write_places;
use crate::right_classes::RightClass;
use crate::rights_found::RightFound;
use folio_line::{Exchange, FolioLine, FolioReading};
use folio_sections::Parts;
use gb_base::NoMemory;
use rank_slots::{Knot, Place, Swap};
use std::alloc::Global;

/// What the line of a class is filled with.
#[derive(Drop)]
pub(crate) struct ClassLine {
    pub places: Vec<Place>,
    pub swaps: Vec<Swap>,
    pub knots: Vec<Knot>,
}

impl ClassLine {
    /// An empty line, with room for so many rights and so many exchanges. May run out of memory
    /// (`NoMemory`).
    pub fn with_room(alloc: Global, rights: usize, exchanges: usize) -> Result<ClassLine, NoMemory>
        ensures empty { IfOk result (λ line. filled_of line ≡ empty) }
        ensures room { IfOk result (HasLineRoom rights exchanges) }
    {
        Ok(ClassLine {
            places: Vec::with_capacity(alloc, rights)?,
            swaps: Vec::with_capacity(alloc, exchanges)?,
            knots: Vec::with_capacity(alloc, rights)?,
        })
    }

    /// Writes the line of a class from the folio's line as it is read, and from what is found of its
    /// live rights in their order, in place of what stood there. Takes no memory.
    pub fn fill<P: Parts>(
        &mut self,
        reading: &FolioReading<P>,
        class: &RightClass,
        line: &FolioLine,
        found: &[RightFound],
    )
        requires read { CanBeRead P.holds P.at reading.now }
        requires interest { All HasLowInterest found.now }
        requires room { HasRoomForAll line.now self.old }
        ensures filled { filled_of self.new ≡ line_read class.now (reads P.holds P.at reading.now) reading.now.folio found.now line.now }
        ensures places { length self.new.places.items ≤ length line.now.rights }
        ensures swaps { length self.new.swaps.items ≤ length line.now.exchanges }
        ensures room { KeepsLineRoom self.old self.new }
    {
        write_swaps(&mut self.swaps, class, line.exchanges());
        write_knots(&mut self.knots, class, line.exercises());
        write_places(
            &mut self.places,
            reading,
            class,
            &self.swaps,
            line.rights(),
            found,
        );
    }
}

/// Writes those of these exchanges both of whose rights are of the class, in place of what stood
/// there (BGB § 880).
fn write_swaps(swaps: &mut Vec<Swap>, class: &RightClass, exchanges: &[Exchange])
    requires room { length exchanges.now ≤ vec_capacity swaps.old }
    ensures items { swaps.new.items ≡ swaps_read class.now exchanges.now }
    ensures few { length swaps.new.items ≤ length exchanges.now }
    ensures capacity { vec_capacity swaps.new ≡ vec_capacity swaps.old }
{
    swaps.clear();
    for exchange in exchanges {
        if class.has(exchange.recede) && class.has(exchange.rise) {
            swaps.push_reserved(Swap {
                recede: exchange.recede,
                rise: exchange.rise,
            });
        }
    }
}

/// Writes those of these exercised reservations both of whose rights are of the class, in place of
/// what stood there (BGB § 881).
fn write_knots(knots: &mut Vec<Knot>, class: &RightClass, exercises: &[Knot])
    requires room { length exercises.now ≤ vec_capacity knots.old }
    ensures items { knots.new.items ≡ exercises_within class.now exercises.now }
    ensures capacity { vec_capacity knots.new ≡ vec_capacity knots.old }
{
    knots.clear();
    for exercise in exercises {
        if class.has(exercise.reserved) && class.has(exercise.exercised) {
            knots.push_reserved(*exercise);
        }
    }
}
