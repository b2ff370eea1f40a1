// The tree and the code of a run, each in one copy that the network and its sites share.
ghost use Rattle.std.specs.Prelude.{◌≡◌, IfOk, IfSome};

use chem_model::Memory;
use env_store::Code;
use loc_tree::LocTree;
use std::alloc::Global;
use std::marker::Model;
use std::ops::Deref;
use std::sync::Arc;

/// A tree that is shared, seen as the tree.
#[derive(Drop)]
pub struct SharedTree {
    inner: Arc<LocTree>,
}

impl Model for SharedTree {
    ghost use Rattle.std.specs.Arc.{arc_value};
    ghost use Rattle.loc_tree.specs.Tree.{Tree};

    ghost Value = { Tree };

    ghost view = { λ s. arc_value s.inner };
}

impl SharedTree {
    /// The tree, to be shared.
    pub fn new(alloc: Global, tree: LocTree) -> Result<SharedTree, Memory>
        ensures { IfOk result (λ shared. shared ≡ tree) }
    {
        let inner = Arc::new(alloc, tree)?;
        Ok(SharedTree { inner })
    }

    /// The same tree, for one more who has it.
    pub fn share(&self) -> Result<SharedTree, Memory>
        ensures { IfOk result (λ shared. shared ≡ self.now) }
    {
        let inner = Arc::try_clone(&self.inner)?;
        Ok(SharedTree { inner })
    }

    /// The tree.
    pub fn tree(&self) -> &LocTree
        ensures { result.now ≡ self.now }
    {
        Deref::deref(&self.inner)
    }

    /// The tree, to be changed, where nobody else has it.
    pub fn change(&mut self) -> Option<&mut LocTree>
        ensures { IfSome result (λ tree. tree.now ≡ self.old) }
    {
        Arc::get_mut(&mut self.inner)
    }
}

/// Code that is shared, seen as the code.
#[derive(Drop)]
pub struct SharedCode {
    inner: Arc<Code>,
}

impl Model for SharedCode {
    ghost use Rattle.std.specs.Arc.{arc_value};
    ghost use Rattle.env_store.specs.CodeParts.{CodeParts};
    ghost use Rattle.env_store.specs.CodeStored.{code_stored};

    ghost Value = { CodeParts };

    ghost coded = { code_stored };

    ghost view = { λ s. arc_value s.inner };
}

impl SharedCode {
    /// A copy of the code, to be shared.
    pub fn new(alloc: Global, code: &Code) -> Result<SharedCode, Memory>
        ensures { IfOk result (λ shared. shared ≡ code.now) }
    {
        let copy = code.copy(alloc)?;
        let inner = Arc::new(alloc, copy)?;
        Ok(SharedCode { inner })
    }

    /// The same code, for one more who has it.
    pub fn share(&self) -> Result<SharedCode, Memory>
        ensures { IfOk result (λ shared. shared ≡ self.now) }
    {
        let inner = Arc::try_clone(&self.inner)?;
        Ok(SharedCode { inner })
    }

    /// The code.
    pub fn code(&self) -> &Code
        ensures { result.now ≡ self.now }
    {
        Deref::deref(&self.inner)
    }
}
