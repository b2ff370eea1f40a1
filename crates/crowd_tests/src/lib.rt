//! Tests of books beside the plain program: worked texts alone and in crowds, texts that are kept
//! long, and many agents, groups and rules at once.
#![tactic(auto)]

#[cfg(test)]
mod any;
#[cfg(test)]
mod both;
#[cfg(test)]
mod by_lists;
#[cfg(test)]
mod crowds;
#[cfg(test)]
mod ending;
#[cfg(test)]
mod kept;
#[cfg(test)]
mod many;
#[cfg(test)]
mod pieces;
#[cfg(test)]
mod side_by_side;
