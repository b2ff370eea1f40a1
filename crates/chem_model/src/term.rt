// Processes and definitions as trees.
ghost use Rattle.std.specs.Prelude.{◌≡◌, IfOk};
ghost use Rattle.chem_model.specs.Process.{processes, definitions};

use crate::items::Items;
use crate::memory::Memory;
use crate::name::{Pats, Ref, Refs};
use std::alloc::Global;
use std::marker::Model;

/// A process.
#[cycle(term)]
#[derive(Drop)]
pub struct Proc {
    node: ProcNode,
}

/// A process, one level deep.
#[cycle(term)]
#[derive(Drop)]
pub enum ProcNode {
    /// A message on a name.
    Msg { on: Ref, args: Refs },
    /// A parallel composition. The empty one is the inert process.
    Par(Procs),
    /// `def D in P`.
    Def { defs: Defs, body: Box<Proc> },
    /// The request to move the location it stands at.
    Go { target: Ref, cont: Ref },
    /// The request to be told of a failure.
    Fail { target: Ref, cont: Ref },
    /// The request to halt the location it stands at.
    Halt,
}

/// A definition.
#[cycle(term)]
#[derive(Drop)]
pub struct Defn {
    node: DefnNode,
}

/// A definition, one level deep.
#[cycle(term)]
#[derive(Drop)]
pub enum DefnNode {
    /// A join pattern and what replaces the messages that match it.
    Rule {
        pats: Pats,
        body: Box<Proc>,
    },
    /// A location with its definitions and its process.
    Place {
        name: Ref,
        defs: Defs,
        body: Box<Proc>,
    },
}

pub type Procs = Items<Proc>;

pub type Defs = Items<Defn>;

impl Model for Proc {
    ghost use Rattle.chem_model.specs.Process.{Process};
    ghost use Rattle.chem_model.specs.ProcessCode.{coded_process};
    ghost use Rattle.chem_model.specs.ProcessSize.{process_depth};

    ghost Value = { Process };

    ghost coded = { coded_process };

    ghost use Rattle.chem_model.specs.Nodes.{process_of};

    ghost view = { λ a. process_of a.node };

    ghost size = { process_depth };

    ghost use Rattle.chem_model.specs.Falls.{depth_le-process};

    ghost size_decreases = { λ a h. depth_le-process a.node };
}

impl Model for Defn {
    ghost use Rattle.chem_model.specs.Process.{Definition};
    ghost use Rattle.chem_model.specs.ProcessCode.{coded_definition};
    ghost use Rattle.chem_model.specs.ProcessSize.{definition_depth};

    ghost Value = { Definition };

    ghost coded = { coded_definition };

    ghost use Rattle.chem_model.specs.Nodes.{definition_of};

    ghost view = { λ a. definition_of a.node };

    ghost size = { definition_depth };

    ghost use Rattle.chem_model.specs.Falls.{depth_le-definition};

    ghost size_decreases = { λ a h. depth_le-definition a.node };
}

impl Proc {
    ghost use Rattle.chem_model.specs.Nodes.{process_of};
    ghost use Rattle.chem_model.specs.Process as t;

    /// The process, one level deep.
    pub fn node(&self) -> &ProcNode
        ensures { process_of result.now ≡ self.now }
    {
        &self.node
    }

    pub fn msg(on: Ref, args: Refs) -> Proc
        ensures { result ≡ t.Msg on args }
    {
        Proc {
            node: ProcNode::Msg { on, args },
        }
    }

    pub fn par(members: Procs) -> Proc
        ensures { result ≡ t.Par (processes members) }
    {
        Proc {
            node: ProcNode::Par(members),
        }
    }

    pub fn def(alloc: Global, defs: Defs, body: Proc) -> Result<Proc, Memory>
        ensures { IfOk result (λ made. made ≡ t.Def (definitions defs) body) }
    {
        let body = Box::new(alloc, body)?;
        Ok(Proc {
            node: ProcNode::Def { defs, body },
        })
    }

    pub fn go(target: Ref, cont: Ref) -> Proc
        ensures { result ≡ t.Go target cont }
    {
        Proc {
            node: ProcNode::Go { target, cont },
        }
    }

    pub fn fail(target: Ref, cont: Ref) -> Proc
        ensures { result ≡ t.Fail target cont }
    {
        Proc {
            node: ProcNode::Fail { target, cont },
        }
    }

    pub fn halt() -> Proc
        ensures { result ≡ t.Halt }
    {
        Proc {
            node: ProcNode::Halt,
        }
    }

    /// A process that is equal to this one.
    #[cycle(copy)]
    pub fn copy(&self, alloc: Global) -> Result<Proc, Memory>
        ensures { IfOk result (λ copy. copy ≡ self.now) }
    {
        match &self.node {
            ProcNode::Msg { on, args } => {
                let args = args.copy(alloc)?;
                Ok(Proc::msg(*on, args))
            }
            ProcNode::Par(members) => {
                let members = members.copy(alloc)?;
                Ok(Proc::par(members))
            }
            ProcNode::Def { defs, body } => {
                let defs = defs.copy(alloc)?;
                let body = body.copy(alloc)?;
                Proc::def(alloc, defs, body)
            }
            ProcNode::Go { target, cont } => Ok(Proc::go(*target, *cont)),
            ProcNode::Fail { target, cont } => Ok(Proc::fail(*target, *cont)),
            ProcNode::Halt => Ok(Proc::halt()),
        }
    }
}

impl Defn {
    ghost use Rattle.chem_model.specs.Nodes.{definition_of};
    ghost use Rattle.chem_model.specs.Process as t;

    /// The definition, one level deep.
    pub fn node(&self) -> &DefnNode
        ensures { definition_of result.now ≡ self.now }
    {
        &self.node
    }

    pub fn rule(alloc: Global, pats: Pats, body: Proc) -> Result<Defn, Memory>
        ensures { IfOk result (λ made. made ≡ t.Rule pats body) }
    {
        let body = Box::new(alloc, body)?;
        Ok(Defn {
            node: DefnNode::Rule { pats, body },
        })
    }

    pub fn place(alloc: Global, name: Ref, defs: Defs, body: Proc) -> Result<Defn, Memory>
        ensures { IfOk result (λ made. made ≡ t.Place name (definitions defs) body) }
    {
        let body = Box::new(alloc, body)?;
        Ok(Defn {
            node: DefnNode::Place { name, defs, body },
        })
    }

    /// A definition that is equal to this one.
    #[cycle(copy)]
    pub fn copy(&self, alloc: Global) -> Result<Defn, Memory>
        ensures { IfOk result (λ copy. copy ≡ self.now) }
    {
        match &self.node {
            DefnNode::Rule { pats, body } => {
                let pats = pats.copy(alloc)?;
                let body = body.copy(alloc)?;
                Defn::rule(alloc, pats, body)
            }
            DefnNode::Place { name, defs, body } => {
                let defs = defs.copy(alloc)?;
                let body = body.copy(alloc)?;
                Defn::place(alloc, *name, defs, body)
            }
        }
    }
}

impl Items<Proc> {
    /// A list that is equal to this one.
    #[cycle(copy)]
    pub fn copy(&self, alloc: Global) -> Result<Procs, Memory>
        ensures { IfOk result (λ copy. copy ≡ self.now) }
    {
        let mut list = Items::new(alloc);
        for member in self.as_slice() {
            let copy = member.copy(alloc)?;
            list.push(copy)?;
        }
        Ok(list)
    }
}

impl Items<Defn> {
    /// A list that is equal to this one.
    #[cycle(copy)]
    pub fn copy(&self, alloc: Global) -> Result<Defs, Memory>
        ensures { IfOk result (λ copy. copy ≡ self.now) }
    {
        let mut list = Items::new(alloc);
        for member in self.as_slice() {
            let copy = member.copy(alloc)?;
            list.push(copy)?;
        }
        Ok(list)
    }
}
