// Queues as linked cells of one slab.
ghost use Rattle.std.specs.Prelude.{◌≡◌, ◌≢◌, ◌+◌, ◌<◌, ◌≤◌, ℕ, Some};
ghost use Rattle.slab.specs.Slab.{get, HasRoomFor, slab_len};
ghost use Rattle.queue_cells.specs.declared.cells.Cell.{Cell};
ghost use Rattle.queue_cells.specs.inside.Walk.{IsQueue, uses, walked, leading, Chained, Unchained};

use slab::Slab;

// A message, and the key of the cell behind it. What the last cell of a queue leads to is never
// read.
#[derive(Drop)]
pub(crate) struct Cell<T> {
    pub(crate) message: T,
    pub(crate) next: usize,
}

// Where a queue begins and ends, and how many messages it has. Without one, head and tail are
// never read.
#[derive(Clone, Copy)]
pub(crate) struct Ends {
    pub(crate) head: usize,
    pub(crate) tail: usize,
    pub(crate) count: usize,
}

// Makes this cell lead to another key.
fn link<T>(cells: &mut Slab<Cell<T>>, key: usize, next: usize)
    ensures linked { (cell : Cell T) → get cells.old key ≡ Some cell →
        get cells.new key ≡ Some (leading cell next) }
    ensures others { (k : ℕ) → k ≢ key → get cells.new k ≡ get cells.old k }
    ensures len { slab_len cells.new ≡ slab_len cells.old }
    ensures capacity { cells.new.capacity ≡ cells.old.capacity }
{
    if let Some(cell) = cells.get_mut(key) {
        cell.next = next;
    }
}

// Chains a message to the end of a queue.
pub(crate) fn chain<T>(cells: &mut Slab<Cell<T>>, ends: Ends, message: T) -> Ends
    requires room { HasRoomFor cells.old 1 }
    requires queue { IsQueue cells.old.slots ends }
    requires once { (k : ℕ) → uses k (walked cells.old.slots ends) ≤ 1 }
    requires short { ends.count ≤ slab_len cells.old }
    ensures chained { Chained cells.old.slots cells.new.slots ends result message }
    ensures len { slab_len cells.new ≡ slab_len cells.old + 1 }
    ensures capacity { cells.new.capacity ≡ cells.old.capacity }
{
    let key = cells.insert_reserved(Cell { message, next: 0 });
    let _total = cells.len();
    if ends.count == 0 {
        return Ends {
            head: key,
            tail: key,
            count: 1,
        };
    }
    link(cells, ends.tail, key);
    Ends {
        head: ends.head,
        tail: key,
        count: ends.count + 1,
    }
}

// Takes the front of a queue.
pub(crate) fn unchain<T>(cells: &mut Slab<Cell<T>>, ends: Ends) -> (T, Ends)
    requires some { 0 < ends.count }
    requires queue { IsQueue cells.old.slots ends }
    requires once { (k : ℕ) → uses k (walked cells.old.slots ends) ≤ 1 }
    ensures unchained { Unchained cells.old.slots cells.new.slots ends result.1 result.0 }
    ensures len { slab_len cells.new + 1 ≡ slab_len cells.old }
    ensures room { HasRoomFor cells.new 1 }
    ensures capacity { cells.new.capacity ≡ cells.old.capacity }
{
    let Cell { message, next } = cells.remove(ends.head);
    let after = Ends {
        head: next,
        tail: ends.tail,
        count: ends.count - 1,
    };
    (message, after)
}
