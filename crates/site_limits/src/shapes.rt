// What the groups of one level have in common, for the levels of which a site has groups.
ghost use Rattle.std.specs.Prelude.{◌≡◌, ◌++◌, ◌∷◌, [], IfOk, OnOk, OnErr};
ghost use Rattle.std.specs.List.{list_all};
ghost use Rattle.site_limits.specs.Shapes.{shape_of, has_shape, is_shaped, is_in_levels};

use chem_model::{Memory, Nums};
use env_store::Code;
use site_shelves::{Told, same_counts};
use std::alloc::Global;

/// A level's number, the argument counts of its channels, how many guards it has, and the length of
/// its groups' environments.
#[derive(Drop)]
pub struct Shape {
    pub level: u32,
    pub counts: Nums,
    pub guards: u32,
    pub depth: usize,
}

fn shape_of(alloc: Global, told: &Told) -> Result<Shape, Memory>
    ensures { IfOk result (λ shape. shape ≡ shape_of told.now) }
{
    let counts = told.counts.copy(alloc)?;
    Ok(Shape {
        level: told.inst.level,
        counts,
        guards: told.guards,
        depth: told.inst.env.len(),
    })
}

/// Adds the shape of a group.
pub fn add_shape(alloc: Global, shapes: &mut Vec<Shape>, told: &Told) -> Result<(), Memory>
    ensures ok { OnOk result (shapes.new.items ≡ shapes.old.items ++ shape_of told.now ∷ []) }
    ensures err { OnErr result (shapes.new.items ≡ shapes.old.items) }
{
    let shape = shape_of(alloc, told)?;
    shapes.push(shape)?;
    Ok(())
}

fn has_shape(told: &Told, shape: &Shape) -> bool
    ensures { result ≡ has_shape told.now shape.now }
{
    shape.level == told.inst.level
        && same_counts(shape.counts.as_slice(), told.counts.as_slice())
        && shape.guards == told.guards
        && shape.depth == told.inst.env.len()
}

/// Whether the group has one of these shapes.
pub fn is_shaped(shapes: &[Shape], told: &Told) -> bool
    ensures { result ≡ is_shaped shapes.now told.now }
{
    for shape in shapes {
        if has_shape(told, shape) {
            return true;
        }
    }
    false
}

fn is_in_levels(code: &Code, shape: &Shape) -> bool
    ensures { result ≡ is_in_levels code.now shape.now }
{
    match code.levels.as_slice().get(shape.level as usize) {
        Some(level) => {
            same_counts(level.counts.as_slice(), shape.counts.as_slice())
                && level.guards == shape.guards
                && level.depth as usize == shape.depth
        }
        None => false,
    }
}

/// Whether each of these shapes is that of its level of the code.
pub fn are_in_levels(code: &Code, shapes: &[Shape]) -> bool
    ensures { result ≡ list_all (is_in_levels code.now) shapes.now }
{
    for shape in shapes {
        if !is_in_levels(code, shape) {
            return false;
        }
    }
    true
}
