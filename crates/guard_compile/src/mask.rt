// Masks: words of 64 bits.
ghost use Rattle.std.specs.Prelude.{◌≡◌, IfOk};
ghost use Rattle.guard_compile.specs.Written.{mask_of};

use chem_model::{Memory, Nums};
use env_store::Bits;
use std::alloc::Global;

// The words of a set of channels, where the level has so many.
pub(crate) fn mask(alloc: Global, count: u32, channels: &Nums) -> Result<Bits, Memory>
    ensures { IfOk result (λ words. words ≡ mask_of count channels.now) }
{
    let mut words = Bits::zeros(alloc, (count as usize).div_ceil(64));
    for channel in channels.as_slice() {
        words.set(*channel)?;
    }
    Ok(words)
}
