// What all passes held in the end.
ghost use Rattle.std.specs.Prelude.{◌≡◌, IfOk, IfSome};
ghost use Rattle.std.specs.Option.{option_copied};
ghost use Rattle.shared_net.specs.Causes.{IsCause};

use crate::differs::Differs;
use crate::receipt::{Receipts, copy_receipts};
use chem_model::{Items, Memory};
use std::alloc::Global;
use std::marker::Model;

/// What the pass of one worker held.
#[derive(Drop)]
pub struct Worked {
    pub number: u32,
    pub idle: u32,
    pub full: bool,
    pub receipts: Receipts,
}

pub type WorkedList = Items<Worked>;

impl Worked {
    /// A row that is equal to this one.
    pub fn copy(&self, alloc: Global) -> Result<Worked, Memory>
        ensures { IfOk result (λ copy. copy ≡ self.now) }
    {
        let receipts = copy_receipts(alloc, &self.receipts)?;
        Ok(Worked {
            number: self.number,
            idle: self.idle,
            full: self.full,
            receipts,
        })
    }
}

/// A list that is equal to this one.
pub fn copy_worked(alloc: Global, list: &WorkedList) -> Result<WorkedList, Memory>
    ensures { IfOk result (λ copy. copy ≡ list.now) }
{
    let mut members = Items::new(alloc);
    for member in list.as_slice() {
        members.push(member.copy(alloc)?)?;
    }
    Ok(members)
}

/// What each worker's pass held in the end, in the order of the passes, and why that doesn't agree
/// with the book, where it doesn't. Only the end of a run makes one.
#[derive(Drop)]
pub struct Report {
    workers: WorkedList,
    differs: Option<Differs>,
}

impl Model for Report {
    ghost use Rattle.std.specs.Prelude.{IfSome};
    ghost use Rattle.shared_net.specs.Reports.{Reported, reported_code};
    ghost use Rattle.shared_net.specs.Causes.{IsCause};

    ghost Value = { Reported };

    ghost coded = { reported_code };

    ghost view = { λ r. record { workers = r.workers; differs = r.differs } };

    ghost invariant = { λ r. IfSome r.differs (IsCause r.workers) };
}

impl Report {
    pub(crate) fn new(workers: WorkedList, differs: Option<Differs>) -> Report
        requires { IfSome differs (IsCause workers) }
        ensures { result ≡ record { workers = workers; differs = differs } }
    {
        Report { workers, differs }
    }

    /// One row a pass.
    pub fn worked(&self) -> &WorkedList
        ensures rows { result.now ≡ self.now.workers }
        ensures cause { IfSome self.now.differs (IsCause result.now) }
    {
        &self.workers
    }

    /// Why the rows don't agree with the book. None where they do.
    pub fn differs(&self) -> Option<&Differs>
        ensures differs { option_copied result ≡ self.now.differs }
        ensures cause { IfSome self.now.differs (IsCause self.now.workers) }
    {
        self.differs.as_ref()
    }
}
