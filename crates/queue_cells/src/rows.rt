// What is told of a group, and the ends of its queues.
ghost use Rattle.std.specs.Prelude.{◌≡◌, ◌<◌, map, length, slice_set, IfOk};
ghost use Rattle.queue_cells.specs.Grouped.{ForGroup};
ghost use Rattle.queue_cells.specs.inside.Rows.{is_held};

use crate::cells::Ends;
use chem_model::Memory;
use status_words::Status;
use std::alloc::Global;
use std::marker::Model;

// What is told of a group, the ends of its queues, and which of them hold a message.
#[derive(Drop)]
pub(crate) struct Row<G> {
    pub(crate) told: G,
    pub(crate) ends: Vec<Ends>,
    pub(crate) status: Status,
}

// Puts other ends in the place of a queue's, and tells the status.
pub(crate) fn replace<G>(row: &mut Row<G>, chan: u32, ends: Ends)
    requires within { chan < length row.old.ends.items }
    requires status { row.old.status ≡ map is_held row.old.ends.items }
    ensures told { row.new.told ≡ row.old.told }
    ensures ends { row.new.ends.items ≡ slice_set row.old.ends.items chan ends }
    ensures status { row.new.status ≡ slice_set row.old.status chan (is_held ends) }
{
    row.ends[chan as usize] = ends;
    if ends.count == 0 {
        row.status.clear(chan);
    } else {
        row.status.set(chan);
    }
}

/// A group to come, whose queues are empty: it has all the memory that it takes. Contracts see what
/// is told of it, and how many queues it has.
#[derive(Drop)]
pub struct Idle<G> {
    pub(crate) row: Row<G>,
}

impl<G> Model for Idle<G> {
    ghost use Rattle.std.specs.Prelude.{length};
    ghost use Rattle.queue_cells.specs.Grouped.{ForGroup, for_group_code};

    ghost Value = { ForGroup G };

    ghost coded = { for_group_code G.code };

    ghost use Rattle.queue_cells.specs.inside.Rows.{IsIdle};

    ghost view = { λ i. record { told = i.row.told; width = length i.row.status } };

    ghost invariant = { λ i. IsIdle i.row };
}

impl<G: Drop> Idle<G> {
    /// A group to come with so many queues.
    pub fn new(alloc: Global, told: G, width: u32) -> Result<Idle<G>, Memory>
        ensures told { IfOk result (λ idle. idle.told ≡ told) }
        ensures width { IfOk result (λ idle. idle.width ≡ width) }
    {
        let status = Status::with_bits(alloc, width)?;
        let none = Ends {
            head: 0,
            tail: 0,
            count: 0,
        };
        let ends = vec![in alloc; none; width as usize]?;
        Ok(Idle {
            row: Row { told, ends, status },
        })
    }
}
