//! Tests of sites: texts that are opened, react, move and fail, as numbers worked out by hand.
#![tactic(auto)]

#[cfg(test)]
mod delivering;
#[cfg(test)]
mod expected;
#[cfg(test)]
mod failing;
#[cfg(test)]
mod falls;
#[cfg(test)]
mod moves;
#[cfg(test)]
mod numbers;
#[cfg(test)]
mod reactions;
#[cfg(test)]
mod refused;
#[cfg(test)]
mod site_by_itself;
