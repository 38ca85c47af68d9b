//! The rights of class 4, as they are needed to compute what remains of them (ZVG § 52).
ghost use Rattle.std.specs.Prelude.{◌≡◌, ◌+◌, ◌<◌, ◌≤◌, ◌++◌, ◌∷◌, ◌==◌, [], length, vec_capacity, vec_len};
ghost use Rattle.auction_classes.specs.SaleClaims.{of_class_four, right_claimed};

use crate::RightClaimed;
use crate::rights_found::RightFound;
use gb_base::push_copy;

/// Writes those of these rights that are of class 4, in place of what stood there. Takes no memory.
pub(crate) fn write_right_claims(list: &mut Vec<RightClaimed>, rights: &[RightFound])
    requires room { length rights.now ≤ vec_capacity list.old }
    ensures items { list.new.items ≡ of_class_four rights.now }
    ensures capacity { vec_capacity list.new ≡ vec_capacity list.old }
{
    list.clear();
    for right in rights {
        add_right_claimed(list, right);
    }
}

/// Adds a right, where it is of class 4.
fn add_right_claimed(list: &mut Vec<RightClaimed>, right: &RightFound)
    requires room { vec_len list.old < vec_capacity list.old }
    ensures items { list.new.items ≡ list.old.items ++ of_class_four (right.now ∷ []) }
    ensures few { vec_len list.new ≤ vec_len list.old + 1 }
    ensures capacity { vec_capacity list.new ≡ vec_capacity list.old }
{
    if right.class == 4 {
        push_copy(list, &right_claimed(right));
    }
}

/// A right, as it is needed to compute what remains of it.
fn right_claimed(right: &RightFound) -> RightClaimed
    ensures { result ≡ right_claimed right.now }
{
    RightClaimed {
        right: right.right.id,
        interest: right.interest,
        in_division_three: right.right.made.spec.kind.is_in_division_three(),
    }
}
