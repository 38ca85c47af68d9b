//! Room in the lists of a part.
ghost use Rattle.std.specs.Prelude.{◌≡◌, ◌+◌, ◌≤◌, nat_lt, [], ◌∷◌, ◌++◌, if◌then◌else◌, vec_len, vec_capacity, IsOk, OnOk};

use gb_base::NoMemory;

/// Keeps room for n values more. The first room is for just as many, since most keys never have
/// more entries. Later room is at least doubled, so that a list that grows is moved seldom.
pub(crate) fn keep_room<T>(list: &mut Vec<T>, n: usize) -> Result<(), NoMemory>
    ensures items { list.new.items ≡ list.old.items }
    ensures len { vec_len list.new ≡ vec_len list.old }
    ensures room { OnOk result (vec_len list.new + n ≤ vec_capacity list.new) }
    ensures kept { vec_capacity list.old ≤ vec_capacity list.new }
    ensures succeeds { vec_len list.old + n ≤ vec_capacity list.old → IsOk result }
{
    if list.capacity() == 0 {
        list.reserve_exact(n)
    } else {
        list.reserve(n)
    }
}

/// Puts a value at the end, where there is room.
pub(crate) fn push_where_room<T: Copy>(list: &mut Vec<T>, value: &T)
    ensures { list.new.items ≡ if nat_lt (vec_len list.old) (vec_capacity list.old) then list.old.items ++ value.now ∷ [] else list.old.items }
{
    if list.len() < list.capacity() {
        list.push_reserved(*value);
    }
}
