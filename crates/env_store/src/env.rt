// Environments.
ghost use Rattle.std.specs.Prelude.{◌≡◌, ◌++◌, IfOk, length};
ghost use Rattle.chem_model.specs.declared.name.Ref.TheVariants.{Known};
ghost use Rattle.env_store.specs.Running.{ref_at};
ghost use Rattle.env_store.specs.CodeFacts.{IsInEnv};

use crate::code::Slot;
use chem_model::{Memory, Name, Names};
use std::alloc::Global;

/// An environment: the names of its places.
pub type Env = Names;

/// The name in a slot: the name of that place of the environment, or the known name.
pub fn lookup(env: &Env, slot: &Slot) -> Name
    requires { IsInEnv (length env.now) slot.now }
    ensures { ref_at env.now slot.now ≡ Known result }
{
    match slot {
        Slot::Env(at) => env.as_slice()[*at as usize],
        Slot::Known(name) => *name,
    }
}

/// The one list followed by the other.
pub fn extend(alloc: Global, env: &Env, more: &Names) -> Result<Env, Memory>
    ensures { IfOk result (λ both. both ≡ env.now ++ more.now) }
{
    let mut both = env.copy(alloc)?;
    both.extend_from_slice(more.as_slice())?;
    Ok(both)
}
