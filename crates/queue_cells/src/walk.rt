// A walk over the messages of a queue.
ghost use Rattle.std.specs.Prelude.{◌≡◌};
ghost use Rattle.queue_cells.specs.inside.Walk.{IsQueue, messages};
ghost use Rattle.std.specs.Iterator.{YieldsFirstBy, item_count};

use crate::cells::{Cell, Ends};
use slab::Slab;
use std::marker::Model;

/// The messages of a queue, seen as the list of those that are left.
#[derive(Drop)]
pub struct Iter<'a, T> {
    pub(crate) cells: &'a Slab<Cell<T>>,
    pub(crate) key: usize,
    pub(crate) left: usize,
}

impl<'a, T> Model for Iter<'a, T> {
    ghost use Rattle.std.specs.Prelude.{List, map, length, ◌≡◌};

    ghost Value = { List T };

    ghost use Rattle.queue_cells.specs.inside.Walk.{walk};

    ghost view = { λ it. map (λ p. p.1) (walk it.cells.now.slots it.left it.key) };

    ghost invariant = { λ it. length (walk it.cells.now.slots it.left it.key) ≡ it.left };
}

// The messages of the queue with these ends.
pub(crate) fn walk_from<'a, T>(cells: &'a Slab<Cell<T>>, ends: Ends) -> Iter<'a, T>
    requires { IsQueue cells.now.slots ends }
    ensures { result ≡ messages cells.now.slots ends }
{
    Iter {
        cells,
        key: ends.head,
        left: ends.count,
    }
}

impl<'a, T> Iterator for Iter<'a, T> {
    type Item = &'a T;

    ghost next_gives = { YieldsFirstBy (λ item. item.now) (λ rest. rest) };

    ghost remaining = { item_count (λ rest. rest) };

    fn next(&mut self) -> Option<&'a T> {
        if self.left == 0 {
            return None;
        }
        let cells = self.cells;
        let cell = &cells[self.key];
        self.key = cell.next;
        self.left -= 1;
        Some(&cell.message)
    }
}
