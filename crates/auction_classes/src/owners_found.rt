//! The former owners, who get what is left (ZVG §§ 109, 112).
ghost use Rattle.std.specs.Prelude.{◌≡◌, ◌≤◌, IsSome, length, vec_capacity};
ghost use Rattle.act_model.specs.Limits.{most_owners};
ghost use Rattle.folio_sections.specs.Titles.{owners};
ghost use Rattle.auction_classes.specs.Claims.{owners_named};

use folio_sections::TitleFront;
use gb_base::{Person, copy_into};

/// Writes the owners whom a title names, in their order, in place of those that stood there; none
/// where it names nobody. Where owners are named there is at least one. Takes no memory.
pub(crate) fn write_owners(list: &mut Vec<Person>, title: &TitleFront)
    requires room { most_owners ≤ vec_capacity list.old }
    ensures items { list.new.items ≡ owners_named title.now }
    ensures some { IsSome (owners title.now) → 1 ≤ length list.new.items }
    ensures capacity { vec_capacity list.new ≡ vec_capacity list.old }
{
    match title.owners() {
        Some(owners) => copy_into(list, owners.list()),
        None => list.clear(),
    }
}
