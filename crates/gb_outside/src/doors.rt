//! The door that links come through.
use crate::Link;

/// What a listener answers.
#[derive(Drop)]
pub enum Door<L> {
    /// A link came.
    Open(L),
    /// No more links come.
    Closed,
    /// The listener failed.
    Failed,
}

/// The door that links come through, one after another.
pub trait Listener {
    ghost use Rattle.std.specs.Prelude.{◌≡◌, ℕ, ◌+◌, ◌≤◌, List, Option, IsSome};
    ghost use Rattle.gb_outside.specs.Faults.{Counts};
    ghost use Rattle.gb_outside.specs.Doors.{Accepts, Serves, out_after, accept_failed};

    /// The links that come.
    type Link: Link;

    /// For each link still to come the bytes that it will give, where the listener tells them.
    ghost waiting: { Self → Option (List (List ℕ)) };

    /// For each link taken back, in order, the bytes written to it and its count of faults, where
    /// the listener tells them.
    ghost served: { Self → Option (List (List ℕ × ℕ)) };

    /// How many links were accepted and not yet taken back.
    ghost out: { Self → ℕ };

    /// How often the listener has failed.
    ghost faults: { Self → ℕ };

    /// The next link.
    fn accept(&mut self) -> Door<Self::Link>
        ensures links { Accepts Self.Link.left Self.Link.written Self.Link.faults (served self.old) (waiting self.old) (waiting self.new) result }
        ensures served { served self.new ≡ served self.old }
        ensures out { IsSome (served self.old) → out self.new ≡ out_after (out self.old) result }
        ensures cause { Counts (faults self.old) (faults self.new) (accept_failed result) };

    /// Takes back a link whose connection has ended.
    fn done(&mut self, link: Self::Link)
        requires { IsSome (served self.old) → 1 ≤ out self.old }
        ensures served { Serves (served self.old) (served self.new) (Self.Link.written link) (Self.Link.faults link) }
        ensures waiting { waiting self.new ≡ waiting self.old }
        ensures out { IsSome (served self.old) → out self.new + 1 ≡ out self.old }
        ensures cause { faults self.new ≡ faults self.old };
}
