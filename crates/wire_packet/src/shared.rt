// An environment that groups share.
ghost use Rattle.std.specs.Prelude.{◌≡◌, ◌<◌, ◌^◌, IfOk, length};

use chem_model::{Memory, Name, Names};
use std::alloc::Global;
use std::marker::Model;
use std::ops::Deref;
use std::sync::Arc;

/// An environment that all groups of a block share. Contracts see it as the list of its names.
#[derive(Debug, Drop)]
pub struct SharedEnv {
    list: Arc<Names>,
}

impl Model for SharedEnv {
    ghost use Rattle.std.specs.Prelude.{List};
    ghost use Rattle.std.specs.Coded.{coded_list};
    ghost use Rattle.std.specs.Arc.{arc_value};
    ghost use Rattle.chem_model.specs.declared.name.Name.{Name};
    ghost use Rattle.chem_model.specs.contracts.name.Name as name;

    ghost Value = { List Name };

    ghost coded = { coded_list name.the_row.coded };

    ghost view = { λ e. arc_value e.list };
}

impl SharedEnv {
    /// The environment with these names.
    pub fn new(alloc: Global, names: Names) -> Result<SharedEnv, Memory>
        ensures { IfOk result (λ env. env ≡ names) }
    {
        let list = Arc::new(alloc, names)?;
        Ok(SharedEnv { list })
    }

    /// The same environment, for one group more. It copies no name.
    pub fn share(&self) -> Result<SharedEnv, Memory>
        ensures { IfOk result (λ env. env ≡ self.now) }
    {
        let list = Arc::try_clone(&self.list)?;
        Ok(SharedEnv { list })
    }

    /// The names.
    pub fn names(&self) -> &Names
        ensures { result.now ≡ self.now }
    {
        Deref::deref(&self.list)
    }

    /// The names in order.
    pub fn as_slice(&self) -> &[Name]
        ensures members { result.now ≡ self.now }
        ensures short { length self.now < 2 ^ 32 }
    {
        self.names().as_slice()
    }

    /// How many names there are.
    pub fn len(&self) -> usize
        ensures count { result ≡ length self.now }
        ensures short { length self.now < 2 ^ 32 }
    {
        self.names().len()
    }
}
