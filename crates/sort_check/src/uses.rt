// The sort of each spelling, by the lines that use sorts.
ghost use Rattle.std.specs.Prelude.{◌≡◌, [], IfOk, OnOk};
ghost use Rattle.sort_check.specs.inside.Told.{in_map, Overrides, TellsAs};

use chem_model::Memory;
use sort_laws::{SortArg, SortUse};
use std::alloc::Global;
use std::collections::BTreeMap;
use std::marker::Model;

// The sorts of spellings, each found by its bytes in an ordered map: texts choose the spellings,
// and no choice makes it slow.
#[derive(Drop)]
pub struct Uses<'a> {
    sorts: BTreeMap<&'a [u8], u32>,
}

impl<'a> Model for Uses<'a> {
    ghost use Rattle.std.specs.Prelude.{List, ℕ};

    ghost Value = { List (List ℕ × ℕ) };

    ghost use Rattle.sort_check.specs.inside.Told.{spelled};

    ghost view = { λ u. spelled u.sorts.entries };
}

impl<'a> Uses<'a> {
    fn new(alloc: Global) -> Uses<'a>
        ensures { result ≡ [] }
    {
        Uses {
            sorts: BTreeMap::new(alloc),
        }
    }

    // The sort of a spelling, where it has one.
    pub fn find(&self, text: &[u8]) -> Option<SortArg>
        ensures { result ≡ in_map self.now text.now }
    {
        match self.sorts.get(text).copied() {
            Some(sort) => Some(SortArg::Named(sort)),
            None => None,
        }
    }

    // Gives the line's spelling the line's sort, whatever it had.
    fn put(&mut self, line: &'a SortUse) -> Result<(), Memory>
        ensures { OnOk result (Overrides self.old line.now self.new) }
    {
        self.sorts.insert(line.spell.as_slice(), line.sort)?;
        Ok(())
    }
}

// The sorts of spellings by these lines. The last line is put in first, so that of two lines of
// one spelling the first counts.
pub fn uses_of<'a>(alloc: Global, lines: &'a [SortUse]) -> Result<Uses<'a>, Memory>
    ensures { IfOk result (TellsAs lines.now) }
{
    let mut uses = Uses::new(alloc);
    let mut left = lines.len();
    while left > 0 {
        left -= 1;
        uses.put(&lines[left])?;
    }
    Ok(uses)
}
