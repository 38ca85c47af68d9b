//! A listener that never fails.
ghost use Rattle.std.specs.Prelude.{◌≡◌, Some, None, [], map, unwrap_or};
ghost use Rattle.gb_outside.specs.declared.sure_listener.SureListener.{SureListener};

use crate::{Door, Link, Listener, SureLink};
use std::vec::IntoIter;

/// A door through which the links of a list come, in order and with no fault. It keeps nothing
/// of the links taken back.
#[derive(Drop)]
pub struct SureListener<'a> {
    links: IntoIter<SureLink<'a>>,
}

impl<'a> SureListener<'a> {
    /// A listener to which these links come.
    pub fn new(links: Vec<SureLink<'a>>) -> SureListener<'a>
        ensures waiting { ⟦<SureListener<'a> as Listener>⟧.waiting result
            ≡ Some (map (λ link. unwrap_or (⟦<SureLink<'a> as Link>⟧.left link) []) links.entry.items) }
        ensures untold { (door : SureListener) → ⟦<SureListener<'a> as Listener>⟧.served door ≡ None }
        ensures sure { (door : SureListener) → ⟦<SureListener<'a> as Listener>⟧.faults door ≡ 0 }
    {
        SureListener {
            links: links.into_iter(),
        }
    }
}

impl<'a> Listener for SureListener<'a> {
    type Link = SureLink<'a>;

    ghost use Rattle.std.specs.Prelude.{Some, None, map};
    ghost use Rattle.std.specs.Vec.Iter.{into_iter_items};

    ghost waiting = { λ s. Some (map (λ link. link.bytes.now) (into_iter_items s.links)) };

    ghost served = { λ _. None };

    ghost out = { λ _. 0 };

    ghost faults = { λ _. 0 };

    fn accept(&mut self) -> Door<SureLink<'a>> {
        match self.links.next() {
            Some(link) => Door::Open(link),
            None => Door::Closed,
        }
    }

    fn done(&mut self, _link: SureLink<'a>) {}
}
