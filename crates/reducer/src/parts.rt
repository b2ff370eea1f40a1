// Parts of the code.
ghost use Rattle.std.specs.Prelude.{◌≡◌, ◌+◌, ◌<◌, ◌^◌, length, slice_get, Some};
ghost use Rattle.env_store.specs.CodeFacts.{IsCode};

use env_store::{Code, Guard, Level};

/// The guard with this number.
pub fn guard_at(code: &Code, number: u32) -> &Guard
    requires { number < length code.now.guards }
    ensures at { slice_get code.now.guards number ≡ Some result.now }
    ensures is { IsCode code.now }
{
    &code.guards.as_slice()[number as usize]
}

// The level with this number. Its guards have numbers of 32 bits.
pub(crate) fn level_at(code: &Code, number: u32) -> &Level
    requires { number < length code.now.levels }
    ensures at { slice_get code.now.levels number ≡ Some result.now }
    ensures is { IsCode code.now }
    ensures fits { result.now.first + result.now.guards < 2 ^ 32 }
{
    let _guards = code.guards.len();
    let level = &code.levels.as_slice()[number as usize];
    let _first = level.first;
    level
}

/// The facts of code hold. It does nothing.
pub fn code_is_kept(code: &Code)
    ensures { IsCode code.now }
{
    let _guards = &code.guards;
}
