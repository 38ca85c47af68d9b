//! Folios are put behind locks, and come back to their places.
//! Why so: docs/DECISIONS.md, "Folios carry marks behind their locks".
ghost use Rattle.std.specs.Prelude.{◌≡◌, ◌+◌, IfErr, IfOk, length, vec_len};
ghost use Rattle.desk_pool.specs.inner.FolioMarks.{count_here};
ghost use Rattle.desk_pool.specs.inner.FoliosInRow.{AreInRow, AreSomeInRow};

use crate::marked_folios::{MarkedFolio, PlacedFolio, RowName};
use act_model::JournalName;
use bumpalo::Bump;
use gb_base::NoMemory;
use std::alloc::Global;
use std::sync::Mutex;

/// Takes the folios of the named row from their places and puts each behind a lock of its own. The
/// locks lie in the arena; where it has no room for them (NoMemory), the folios stay where they are.
pub(crate) fn put_behind_locks<'a, N: JournalName, W: RowName>(
    arena: &'a Bump<Global>,
    places: &mut [Option<MarkedFolio<N>>],
) -> Result<Vec<Mutex<PlacedFolio<N, W>>, &'a Bump<Global>>, NoMemory>
    requires { AreInRow W.RowName.row places.old }
    ensures locks { IfOk result (λ locks. vec_len locks ≡ length W.RowName.row) }
    ensures away { IfOk result (λ locks. AreSomeInRow W.RowName.row places.new 0) }
    ensures stay { IfErr result (λ e. places.new ≡ places.old) }
{
    let mut locks = Vec::with_capacity(arena, places.len())?;
    for place in 0..places.len() {
        if let Some(marked) = places[place].take() {
            locks.push_reserved(Mutex::new(PlacedFolio::new(marked, place)));
        }
    }
    Ok(locks)
}

/// Puts the folios of the named row back, each at its place, in whatever order their locks stand.
pub(crate) fn put_back<N: JournalName, W: RowName>(
    mut locks: Vec<Mutex<PlacedFolio<N, W>>, &Bump<Global>>,
    places: &mut [Option<MarkedFolio<N>>],
)
    requires locks { vec_len locks ≡ length W.RowName.row }
    requires away { AreSomeInRow W.RowName.row places.old 0 }
    ensures { AreInRow W.RowName.row places.new }
{
    while let Some(lock) = locks.pop() {
        put_one_back(lock.into_inner(), places);
    }
}

/// Puts a folio back at its place, where none stands yet: it would have the same mark.
fn put_one_back<N: JournalName, W: RowName>(
    placed: PlacedFolio<N, W>,
    places: &mut [Option<MarkedFolio<N>>],
)
    requires { AreSomeInRow W.RowName.row places.old (count_here places.old) }
    ensures { AreSomeInRow W.RowName.row places.new (count_here places.old + 1) }
{
    let PlacedFolio { marked, place, .. } = placed;
    let here = &mut places[place];
    match here.take() {
        Some(other) => marked.mark.never_twice(other.mark),
        None => *here = Some(marked),
    }
}
