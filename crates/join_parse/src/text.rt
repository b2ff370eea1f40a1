// The tree of a whole text.
ghost use Rattle.std.specs.Prelude.{◌≡◌, IfOk};

use crate::tree::{PlaceTrees, copy_places};
use crate::word::{SeenTrees, copy_declarations};
use chem_model::Memory;
use std::alloc::Global;
use std::marker::Model;

/// The tree of a text: its version, its declarations of observed names, and its sites.
///
/// Each tree keeps the facts of `IsTree`: its version is 1 or 2, and it is a tree of that version's
/// grammar; it is at most 200 levels deep in the first version and 400 in the second; its names are
/// identifiers of the version, and its sentence has at most 1,048,576 tokens. Whoever writes one
/// proves them, and whoever reads a field knows them.
#[derive(Drop)]
pub struct Tree {
    pub version: u32,
    pub seen: SeenTrees,
    pub sites: PlaceTrees,
}

impl Model for Tree {
    ghost use Rattle.join_parse.specs.Grammar.{TreeOfText};
    ghost use Rattle.join_parse.specs.TreeFacts.{IsTree};
    ghost use Rattle.join_parse.specs.TreeCode.{tree_code};

    ghost Value = { TreeOfText };

    ghost coded = { tree_code };

    ghost view = { λ t. record { version = t.version; seen = t.seen; sites = t.sites } };

    ghost invariant = { λ t.
        IsTree (record { version = t.version; seen = t.seen; sites = t.sites }) };
}

impl Tree {
    /// A tree that is equal to this one.
    pub fn copy(&self, alloc: Global) -> Result<Tree, Memory>
        ensures { IfOk result (λ copy. copy ≡ self.now) }
    {
        let seen = copy_declarations(alloc, &self.seen)?;
        let sites = copy_places(alloc, &self.sites)?;
        Ok(Tree {
            version: self.version,
            seen,
            sites,
        })
    }
}
