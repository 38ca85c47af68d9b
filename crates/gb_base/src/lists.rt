//! Copies of values, into lists that have room.
ghost use Rattle.std.specs.Prelude.{◌≡◌, ◌+◌, ◌<◌, ◌≤◌, ◌++◌, ◌∷◌, [], length, vec_capacity, vec_len};

/// Adds a copy of a value at the end of a list that has room. Takes no memory.
pub fn push_copy<T: Copy>(list: &mut Vec<T>, value: &T)
    requires { vec_len list.old < vec_capacity list.old }
    ensures items { list.new.items ≡ list.old.items ++ value.now ∷ [] }
    ensures len { vec_len list.new ≡ vec_len list.old + 1 }
    ensures capacity { vec_capacity list.new ≡ vec_capacity list.old }
{
    list.push_reserved(*value);
}

/// Fills a list that has room for these values with copies of them, in place of its own. Takes no
/// memory.
pub fn copy_into<T: Copy>(list: &mut Vec<T>, from: &[T])
    requires { length from.now ≤ vec_capacity list.old }
    ensures items { list.new.items ≡ from.now }
    ensures capacity { vec_capacity list.new ≡ vec_capacity list.old }
{
    list.clear();
    for item in from {
        list.push_reserved(*item);
    }
}
