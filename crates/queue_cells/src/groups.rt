// Groups of queues, over one slab of cells.
ghost use Rattle.std.specs.Prelude.{◌≡◌, ◌≤◌, ◌<◌, ◌+◌, ◌∷◌, ◌++◌, ◌↔◌, [], length, Some};
ghost use Rattle.std.specs.Prelude.{slice_get, remove, option_copied, IsOk, IsTrue, OnOk, OnErr};
ghost use Rattle.queue_cells.specs.Grouped.{lists_at, queue_in, with_queue, with_last, waiting};
ghost use Rattle.queue_cells.specs.Grouped.{idle_group, but_where, waiting_where, AllHeld};
ghost use Rattle.queue_cells.specs.inside.Grouped.{emptied};
ghost use Rattle.queue_cells.specs.Messages.{messages_in};
ghost use Rattle.status_words.specs.Words.{number_of_words};

use crate::cells::{Cell, chain, unchain};
use crate::choosing::Selects;
use crate::rows::{Idle, Row, replace};
use crate::walk::{Iter, walk_from};
use chem_model::Memory;
use slab::Slab;
use status_words::Bits;
use std::alloc::Global;
use std::marker::Model;

/// Groups of queues, with something told of each group. The messages of all stand in the cells of
/// one slab. Contracts see the groups in order, each as what is told of it and the messages of each
/// of its queues in order of arrival; how many more messages fit without an allocation, in whatever
/// queues; and how many more groups do.
#[derive(Drop)]
pub struct Groups<G, T> {
    cells: Slab<Cell<T>>,
    rows: Vec<Row<G>>,
}

impl<G, T> Model for Groups<G, T> {
    ghost use Rattle.std.specs.Prelude.{map, ◌-◌, vec_len, vec_capacity};
    ghost use Rattle.queue_cells.specs.Grouped.{Grouped, grouped_code};

    ghost Value = { Grouped G T };

    ghost coded = { grouped_code G.code T.code };

    ghost use Rattle.slab.specs.Slab.{slab_len};
    ghost use Rattle.queue_cells.specs.inside.Rows.{queued, AreRows};

    ghost view = { λ q. record {
      groups = map (queued q.cells.slots) q.rows.items;
      spare = q.cells.capacity - slab_len q.cells;
      spare_groups = vec_capacity q.rows - vec_len q.rows;
    } };

    ghost invariant = { λ q. AreRows q.cells q.rows.items };
}

impl<G: Drop, T: Drop> Groups<G, T> {
    /// No group.
    pub fn new(alloc: Global) -> Groups<G, T>
        ensures { result.groups ≡ [] }
    {
        Groups {
            cells: Slab::new(alloc),
            rows: Vec::new(alloc),
        }
    }

    /// How many groups there are.
    pub fn len(&self) -> usize
        ensures { result ≡ length self.now.groups }
    {
        self.rows.len()
    }

    /// How many messages stand in all queues.
    pub fn messages(&self) -> usize
        ensures { result ≡ messages_in self.now.groups }
    {
        self.cells.len()
    }

    /// What is told of a group.
    pub fn told(&self, group: usize) -> &G
        requires { group < length self.now.groups }
        ensures { slice_get self.now.groups group
            ≡ Some (record { told = result.now; lists = lists_at self.now.groups group }) }
    {
        let row = &self.rows[group];
        &row.told
    }

    /// How many queues a group has.
    pub fn width(&self, group: usize) -> u32
        requires { group < length self.now.groups }
        ensures { result ≡ length (lists_at self.now.groups group) }
    {
        self.rows[group].status.bits()
    }

    /// The front of a queue, if it has a message.
    pub fn front(&self, group: usize, chan: u32) -> Option<&T>
        requires group { group < length self.now.groups }
        requires chan { chan < length (lists_at self.now.groups group) }
        ensures { option_copied result ≡ slice_get (queue_in self.now.groups group chan) 0 }
    {
        let ends = self.rows[group].ends[chan as usize];
        if ends.count == 0 {
            return None;
        }
        let cell = &self.cells[ends.head];
        Some(&cell.message)
    }

    /// The messages of a queue in order of arrival.
    pub fn queue(&self, group: usize, chan: u32) -> Iter<'_, T>
        requires group { group < length self.now.groups }
        requires chan { chan < length (lists_at self.now.groups group) }
        ensures { result ≡ queue_in self.now.groups group chan }
    {
        let ends = self.rows[group].ends[chan as usize];
        walk_from(&self.cells, ends)
    }

    /// Whether each number of the mask, which is as many words as the group's queues want, is that
    /// of a queue that holds a message.
    pub fn covers(&self, group: usize, mask: &[u64]) -> bool
        requires group { group < length self.now.groups }
        requires words { length mask.now
            ≡ number_of_words (length (lists_at self.now.groups group)) }
        ensures { IsTrue result ↔ AllHeld (lists_at self.now.groups group) mask.now }
    {
        let row = &self.rows[group];
        row.status.covers(mask)
    }

    /// The same of a mask that has those of its words alone that aren't 0: it looks at these.
    pub fn covers_bits(&self, group: usize, mask: &Bits) -> bool
        requires group { group < length self.now.groups }
        requires words { length mask.now
            ≡ number_of_words (length (lists_at self.now.groups group)) }
        ensures { IsTrue result ↔ AllHeld (lists_at self.now.groups group) mask.now }
    {
        let row = &self.rows[group];
        row.status.covers_bits(mask)
    }

    /// Makes room for more messages, in whatever queues.
    pub fn reserve(&mut self, more: usize) -> Result<(), Memory>
        ensures room { OnOk result (more ≤ self.new.spare) }
        ensures succeeds { more ≤ self.old.spare → IsOk result }
        ensures groups { self.new.groups ≡ self.old.groups }
        ensures spare { self.old.spare ≤ self.new.spare }
        ensures spare_groups { self.new.spare_groups ≡ self.old.spare_groups }
    {
        let _capacity = self.cells.capacity();
        self.cells.reserve(more)?;
        Ok(())
    }

    /// Appends a message to a queue. It takes no memory.
    pub fn push_reserved(&mut self, group: usize, chan: u32, message: T)
        requires group { group < length self.old.groups }
        requires chan { chan < length (lists_at self.old.groups group) }
        requires room { 1 ≤ self.old.spare }
        ensures groups { self.new.groups ≡ with_last self.old.groups group chan message }
        ensures spare { self.new.spare + 1 ≡ self.old.spare }
        ensures spare_groups { self.new.spare_groups ≡ self.old.spare_groups }
    {
        let ends = self.rows[group].ends[chan as usize];
        let longer = chain(&mut self.cells, ends, message);
        replace(&mut self.rows[group], chan, longer);
    }

    /// Takes the front of a queue. It takes no memory, and leaves room for one message more.
    pub fn take_front(&mut self, group: usize, chan: u32) -> T
        requires group { group < length self.old.groups }
        requires chan { chan < length (lists_at self.old.groups group) }
        requires some { 0 < length (queue_in self.old.groups group chan) }
        ensures front { queue_in self.old.groups group chan
            ≡ result ∷ queue_in self.new.groups group chan }
        ensures groups { self.new.groups
            ≡ with_queue self.old.groups group chan (queue_in self.new.groups group chan) }
        ensures spare { self.new.spare ≡ self.old.spare + 1 }
        ensures spare_groups { self.new.spare_groups ≡ self.old.spare_groups }
    {
        let ends = self.rows[group].ends[chan as usize];
        let (message, shorter) = unchain(&mut self.cells, ends);
        replace(&mut self.rows[group], chan, shorter);
        message
    }

    /// Drops the messages of a queue. It takes no memory, and leaves room for as many more.
    pub fn clear(&mut self, group: usize, chan: u32)
        requires group { group < length self.old.groups }
        requires chan { chan < length (lists_at self.old.groups group) }
        ensures groups { self.new.groups ≡ with_queue self.old.groups group chan [] }
        ensures spare { self.new.spare
            ≡ self.old.spare + length (queue_in self.old.groups group chan) }
        ensures spare_groups { self.new.spare_groups ≡ self.old.spare_groups }
    {
        'messages: while self.front(group, chan).is_some() {
            self.take_front(group, chan);
        }
    }

    /// Makes room for more groups.
    pub fn reserve_groups(&mut self, more: usize) -> Result<(), Memory>
        ensures room { OnOk result (more ≤ self.new.spare_groups) }
        ensures succeeds { more ≤ self.old.spare_groups → IsOk result }
        ensures groups { self.new.groups ≡ self.old.groups }
        ensures spare { self.new.spare ≡ self.old.spare }
        ensures spare_groups { self.old.spare_groups ≤ self.new.spare_groups }
    {
        self.rows.reserve(more)?;
        Ok(())
    }

    /// Adds a group whose queues are empty. It takes no memory.
    pub fn add_reserved(&mut self, idle: Idle<G>)
        requires { 1 ≤ self.old.spare_groups }
        ensures groups { self.new.groups ≡ self.old.groups ++ idle_group idle.told idle.width ∷ [] }
        ensures spare { self.new.spare ≡ self.old.spare }
        ensures spare_groups { self.new.spare_groups + 1 ≡ self.old.spare_groups }
    {
        let Idle { row } = idle;
        self.rows.push_reserved(row);
    }

    /// Adds a group with so many queues, which are empty.
    pub fn add(&mut self, alloc: Global, told: G, width: u32) -> Result<(), Memory>
        ensures ok { OnOk result (
            self.new.groups ≡ self.old.groups ++ idle_group told width ∷ []) }
        ensures err { OnErr result (self.new.groups ≡ self.old.groups) }
        ensures spare { self.new.spare ≡ self.old.spare }
        ensures spare_groups { self.old.spare_groups ≤ self.new.spare_groups + 1 }
    {
        let idle = Idle::new(alloc, told, width)?;
        self.reserve_groups(1)?;
        self.add_reserved(idle);
        Ok(())
    }

    /// Drops a group with its messages, and later groups move down. It takes no memory, and leaves
    /// room for as many messages more and for one group more.
    pub fn remove(&mut self, group: usize)
        requires { group < length self.old.groups }
        ensures groups { self.new.groups ≡ remove self.old.groups group }
        ensures spare { self.new.spare ≡ self.old.spare + waiting (lists_at self.old.groups group) }
        ensures spare_groups { self.new.spare_groups ≡ self.old.spare_groups + 1 }
    {
        self.empty(group);
        self.rows.remove(group);
    }

    // Drops the messages of a group. It takes no memory, and leaves room for as many more.
    fn empty(&mut self, group: usize)
        requires { group < length self.old.groups }
        ensures groups { self.new.groups ≡ emptied self.old.groups group }
        ensures spare { self.new.spare ≡ self.old.spare + waiting (lists_at self.old.groups group) }
        ensures spare_groups { self.new.spare_groups ≡ self.old.spare_groups }
    {
        let width = self.width(group);
        for chan in 0..width {
            self.clear(group, chan);
        }
    }

    /// Drops each group that the test selects, with its messages, and the others close up. It takes
    /// no memory, and leaves room for as many messages and groups more. It is one pass over the
    /// groups.
    pub fn remove_where<S: Selects<G>>(&mut self, gone: &S)
        ensures groups { self.new.groups ≡ but_where (S.is_selected gone.now) self.old.groups }
        ensures spare { self.new.spare
            ≡ self.old.spare + waiting_where (S.is_selected gone.now) self.old.groups }
        ensures spare_groups { self.new.spare_groups + length self.new.groups
            ≡ self.old.spare_groups + length self.old.groups }
    {
        let len = self.len();
        for group in 0..len {
            if gone.selects(self.told(group)) {
                self.empty(group);
            }
        }
        self.rows.retain(|row| !gone.selects(&row.told));
    }
}
