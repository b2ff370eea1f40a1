// The scopes around a place of a text.
ghost use Rattle.std.specs.Prelude.{◌≡◌, ◌∷◌, []};
ghost use Rattle.scope_names.specs.Frames.{in_env, inner};

use crate::scope::{Entry, Scope};
use std::marker::Model;

/// A scope, and those around it.
#[derive(Drop)]
pub struct Env<'e> {
    scope: &'e Scope<'e>,
    outer: Option<&'e Env<'e>>,
}

impl<'e> Model for Env<'e> {
    ghost use Rattle.std.specs.Prelude.{List, ℕ, length};
    ghost use Rattle.scope_names.specs.declared.scope.Entry.{Entry};

    ghost Value = { List (List (List ℕ × Entry)) };

    ghost use Rattle.scope_names.specs.Frames.{scopes_around};

    ghost view = { λ e. scopes_around e.scope.now e.outer };

    ghost size = { length };

    ghost use Rattle.std.proofs.Common.{arith};

    ghost size_decreases = { λ a h. Prim.grind (arith) };
}

impl<'e> Env<'e> {
    /// A scope with no other around it.
    pub fn outermost(scope: &'e Scope<'e>) -> Env<'e>
        ensures { result ≡ scope.now ∷ [] }
    {
        Env { scope, outer: None }
    }

    /// A scope within these.
    pub fn within(scope: &'e Scope<'e>, outer: &'e Env<'e>) -> Env<'e>
        ensures { result ≡ scope.now ∷ outer.now }
    {
        Env {
            scope,
            outer: Some(outer),
        }
    }

    /// What the innermost scope with that spelling makes of it.
    pub fn resolve(&self, name: &[u8]) -> Option<Entry>
        ensures { result ≡ in_env name.now self.now }
    {
        match self.scope.find(name) {
            Some(entry) => Some(entry),
            None => match self.outer {
                Some(outer) => outer.resolve(name),
                None => None,
            },
        }
    }
}
