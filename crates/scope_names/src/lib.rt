//! Names in scope: what each spelling of one scope stands for, and the scopes around a place.
#![tactic(auto)]

mod env;
mod scope;

pub use env::Env;
pub use scope::{Entry, Scope, Sort};
