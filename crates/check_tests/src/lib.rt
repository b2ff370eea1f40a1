//! Tests of the commands on logs: what is said of the logs of worked texts, whole and changed, and
//! of bytes that are no log or too many.
#![tactic(auto)]

#[cfg(test)]
mod called;
#[cfg(test)]
mod causes;
#[cfg(test)]
mod changed;
#[cfg(test)]
mod changes;
#[cfg(test)]
mod limit;
#[cfg(test)]
mod no_logs;
#[cfg(test)]
mod plain;
#[cfg(test)]
mod whole;
