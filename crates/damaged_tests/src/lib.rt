//! Tests of bytes that are damaged. Each byte of worked packets, frames and of a log, changed to
//! each other value, is judged by a small reader that follows the formats field by field, and by
//! the product; and a table has damaged packets, frames and logs with the place of their first
//! wrong field.
#![tactic(auto)]

pub mod fields;
pub mod frames;
pub mod logs;
pub mod packets;
#[cfg(test)]
mod rows;
#[cfg(test)]
mod spelled;
#[cfg(test)]
mod tests;
