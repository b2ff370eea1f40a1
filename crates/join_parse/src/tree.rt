// Processes, definitions, places and sites as they stand in a text.
ghost use Rattle.std.specs.Prelude.{◌≡◌, IfOk};
ghost use Rattle.join_parse.specs.Source.{processes, definitions};

use crate::word::{Arg, Args, PatTrees, Word, copy_args, copy_operands, copy_pair, copy_patterns};
use chem_model::{Items, Memory};
use std::alloc::Global;
use std::marker::Model;

/// A process.
#[cycle(tree)]
#[derive(Drop)]
pub struct ProcTree {
    node: ProcNode,
}

/// A process, one level deep.
#[cycle(tree)]
#[derive(Drop)]
pub enum ProcNode {
    /// The inert process.
    Zero,
    /// A message on a name.
    Msg {
        on: Word,
        args: Args,
    },
    /// The request to move the location it stands at.
    Go {
        target: Word,
        cont: Word,
    },
    /// The request to be told of a failure.
    Fail {
        target: Word,
        cont: Word,
    },
    /// The request to halt the location it stands at.
    Halt,
    /// The sum of two numbers, sent on a channel.
    Add {
        left: Arg,
        right: Arg,
        cont: Word,
    },
    /// A message on one of two channels: on the first where two numbers are the same, and else on
    /// the second.
    Same {
        left: Arg,
        right: Arg,
        yes: Word,
        no: Word,
    },
    /// Processes in parentheses.
    Group(ProcTrees),
    /// `def D in P`.
    Def {
        defs: DefTrees,
        body: ProcTrees,
    },
}

/// A definition.
#[cycle(tree)]
#[derive(Drop)]
pub struct DefTree {
    node: DefNode,
}

/// A definition, one level deep.
#[cycle(tree)]
#[derive(Drop)]
pub enum DefNode {
    /// A join pattern and what replaces the messages that match it.
    Rule { pats: PatTrees, body: ProcTrees },
    /// A location that isn't a site.
    Place(PlaceTree),
}

/// A site, or a place within one: its name, its definitions and its process. `opener` is the place
/// of the keyword `site`, or of the place's name.
#[cycle(tree)]
#[derive(Drop)]
pub struct PlaceTree {
    pub opener: u32,
    pub name: Word,
    pub defs: DefTrees,
    pub body: ProcTrees,
}

/// Processes in parallel.
pub type ProcTrees = Items<ProcTree>;

pub type DefTrees = Items<DefTree>;

pub type PlaceTrees = Items<PlaceTree>;

impl Model for ProcTree {
    ghost use Rattle.join_parse.specs.Source.{Process};
    ghost use Rattle.join_parse.specs.SourceCode.{coded_process};
    ghost use Rattle.join_parse.specs.SourceSize.{process_depth};

    ghost Value = { Process };

    ghost coded = { coded_process };

    ghost use Rattle.join_parse.specs.Nodes.{process_of};

    ghost view = { λ a. process_of a.node };

    ghost size = { process_depth };

    ghost use Rattle.join_parse.specs.Falls.{depth_le-process};

    ghost size_decreases = { λ a h. depth_le-process a.node };
}

impl Model for DefTree {
    ghost use Rattle.join_parse.specs.Source.{Definition};
    ghost use Rattle.join_parse.specs.SourceCode.{coded_definition};
    ghost use Rattle.join_parse.specs.SourceSize.{definition_depth};

    ghost Value = { Definition };

    ghost coded = { coded_definition };

    ghost use Rattle.join_parse.specs.Nodes.{definition_of};

    ghost view = { λ a. definition_of a.node };

    ghost size = { definition_depth };

    ghost use Rattle.join_parse.specs.Falls.{depth_le-definition};

    ghost size_decreases = { λ a h. depth_le-definition a.node };
}

impl ProcTree {
    ghost use Rattle.join_parse.specs.Nodes.{process_of};
    ghost use Rattle.join_parse.specs.Source as t;

    /// The process, one level deep.
    pub fn node(&self) -> &ProcNode
        ensures { process_of result.now ≡ self.now }
    {
        &self.node
    }

    pub fn zero() -> ProcTree
        ensures { result ≡ t.Zero }
    {
        ProcTree {
            node: ProcNode::Zero,
        }
    }

    pub fn msg(on: Word, args: Args) -> ProcTree
        ensures { result ≡ t.Msg on args }
    {
        ProcTree {
            node: ProcNode::Msg { on, args },
        }
    }

    pub fn go(target: Word, cont: Word) -> ProcTree
        ensures { result ≡ t.Go target cont }
    {
        ProcTree {
            node: ProcNode::Go { target, cont },
        }
    }

    pub fn fail(target: Word, cont: Word) -> ProcTree
        ensures { result ≡ t.Fail target cont }
    {
        ProcTree {
            node: ProcNode::Fail { target, cont },
        }
    }

    pub fn halt() -> ProcTree
        ensures { result ≡ t.Halt }
    {
        ProcTree {
            node: ProcNode::Halt,
        }
    }

    pub fn add(left: Arg, right: Arg, cont: Word) -> ProcTree
        ensures { result ≡ t.Add left right cont }
    {
        ProcTree {
            node: ProcNode::Add { left, right, cont },
        }
    }

    pub fn same(left: Arg, right: Arg, yes: Word, no: Word) -> ProcTree
        ensures { result ≡ t.Same left right yes no }
    {
        ProcTree {
            node: ProcNode::Same {
                left,
                right,
                yes,
                no,
            },
        }
    }

    pub fn group(members: ProcTrees) -> ProcTree
        ensures { result ≡ t.Group (processes members) }
    {
        ProcTree {
            node: ProcNode::Group(members),
        }
    }

    pub fn def(defs: DefTrees, body: ProcTrees) -> ProcTree
        ensures { result ≡ t.Def (definitions defs) (processes body) }
    {
        ProcTree {
            node: ProcNode::Def { defs, body },
        }
    }

    /// A process that is equal to this one.
    #[cycle(copy)]
    pub fn copy(&self, alloc: Global) -> Result<ProcTree, Memory>
        ensures { IfOk result (λ copy. copy ≡ self.now) }
    {
        match &self.node {
            ProcNode::Zero => Ok(ProcTree::zero()),
            ProcNode::Msg { on, args } => {
                let on = on.copy(alloc)?;
                let args = copy_args(alloc, args)?;
                Ok(ProcTree::msg(on, args))
            }
            ProcNode::Go { target, cont } => {
                let (target, cont) = copy_pair(alloc, target, cont)?;
                Ok(ProcTree::go(target, cont))
            }
            ProcNode::Fail { target, cont } => {
                let (target, cont) = copy_pair(alloc, target, cont)?;
                Ok(ProcTree::fail(target, cont))
            }
            ProcNode::Halt => Ok(ProcTree::halt()),
            ProcNode::Add { left, right, cont } => {
                let (left, right) = copy_operands(alloc, left, right)?;
                Ok(ProcTree::add(left, right, cont.copy(alloc)?))
            }
            ProcNode::Same {
                left,
                right,
                yes,
                no,
            } => {
                let (left, right) = copy_operands(alloc, left, right)?;
                let (yes, no) = copy_pair(alloc, yes, no)?;
                Ok(ProcTree::same(left, right, yes, no))
            }
            ProcNode::Group(members) => {
                let members = copy_processes(alloc, members)?;
                Ok(ProcTree::group(members))
            }
            ProcNode::Def { defs, body } => {
                let defs = copy_definitions(alloc, defs)?;
                let body = copy_processes(alloc, body)?;
                Ok(ProcTree::def(defs, body))
            }
        }
    }
}

impl DefTree {
    ghost use Rattle.join_parse.specs.Nodes.{definition_of};
    ghost use Rattle.join_parse.specs.Source as t;

    /// The definition, one level deep.
    pub fn node(&self) -> &DefNode
        ensures { definition_of result.now ≡ self.now }
    {
        &self.node
    }

    pub fn rule(pats: PatTrees, body: ProcTrees) -> DefTree
        ensures { result ≡ t.Rule pats (processes body) }
    {
        DefTree {
            node: DefNode::Rule { pats, body },
        }
    }

    pub fn place(place: PlaceTree) -> DefTree
        ensures { result
            ≡ t.Place place.opener place.name (definitions place.defs) (processes place.body) }
    {
        DefTree {
            node: DefNode::Place(place),
        }
    }

    /// A definition that is equal to this one.
    #[cycle(copy)]
    pub fn copy(&self, alloc: Global) -> Result<DefTree, Memory>
        ensures { IfOk result (λ copy. copy ≡ self.now) }
    {
        match &self.node {
            DefNode::Rule { pats, body } => {
                let pats = copy_patterns(alloc, pats)?;
                let body = copy_processes(alloc, body)?;
                Ok(DefTree::rule(pats, body))
            }
            DefNode::Place(place) => {
                let place = place.copy(alloc)?;
                Ok(DefTree::place(place))
            }
        }
    }
}

impl PlaceTree {
    /// A place that is equal to this one.
    #[cycle(copy)]
    pub fn copy(&self, alloc: Global) -> Result<PlaceTree, Memory>
        ensures { IfOk result (λ copy. copy ≡ self.now) }
    {
        let name = self.name.copy(alloc)?;
        let defs = copy_definitions(alloc, &self.defs)?;
        let body = copy_processes(alloc, &self.body)?;
        Ok(PlaceTree {
            opener: self.opener,
            name,
            defs,
            body,
        })
    }
}

/// A list that is equal to this one.
#[cycle(copy)]
pub fn copy_processes(alloc: Global, list: &ProcTrees) -> Result<ProcTrees, Memory>
    ensures { IfOk result (λ copy. copy ≡ list.now) }
{
    let mut members = Items::new(alloc);
    for member in list.as_slice() {
        let copy = member.copy(alloc)?;
        members.push(copy)?;
    }
    Ok(members)
}

/// A list that is equal to this one.
#[cycle(copy)]
pub fn copy_definitions(alloc: Global, list: &DefTrees) -> Result<DefTrees, Memory>
    ensures { IfOk result (λ copy. copy ≡ list.now) }
{
    let mut members = Items::new(alloc);
    for member in list.as_slice() {
        let copy = member.copy(alloc)?;
        members.push(copy)?;
    }
    Ok(members)
}

/// A list that is equal to this one.
pub fn copy_places(alloc: Global, list: &PlaceTrees) -> Result<PlaceTrees, Memory>
    ensures { IfOk result (λ copy. copy ≡ list.now) }
{
    let mut members = Items::new(alloc);
    for member in list.as_slice() {
        members.push(member.copy(alloc)?)?;
    }
    Ok(members)
}
