//! Marks by which things are told apart that look alike.
//! Why so: docs/DECISIONS.md, "Folios carry marks behind their locks".
ghost use Rattle.std.specs.Prelude.{◌≡◌};

use std::marker::Brand;
use std::sync::ledger::{Blank, Ledger};

/// A mark; no other mark has its name. It has no bytes, and names stand in contracts
/// alone.
#[derive(Drop)]
pub(crate) struct Mark {
    /// A whole token of a ledger that is never opened: no other has its name.
    token: Blank,
    pub ghost whole: { token.parts ≡ 1 },
}

impl Mark {
    /// A mark with a name that no other has.
    pub fn new() -> Mark {
        Mark {
            token: Blank::new(1),
        }
    }

    /// Nobody has two marks of one name: from them anything would follow.
    pub fn never_twice(self, other: Mark)
        requires { self.token.name ≡ other.token.name }
        ensures { ⊥ }
    {
        open_both::<Brand>(self.token, other.token);
    }
}

/// Nobody has two tokens that would open one ledger: from them anything would follow.
fn open_both<L: Ledger>(one: Blank, other: Blank)
    requires one { (one.name ≡ L.name) × (one.parts ≡ L.parts) }
    requires other { (other.name ≡ L.name) × (other.parts ≡ L.parts) }
    requires whole { L.parts ≡ 1 }
    ensures { ⊥ }
{
    let (_, mut share) = one.open::<L>();
    let (_, more) = other.open::<L>();
    // Together they are two parts of a ledger that has one.
    share.merge(more);
}
