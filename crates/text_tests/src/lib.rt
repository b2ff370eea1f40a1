//! Tests of what leads from bytes and words to a program: sources and sinks, the words of a line,
//! tokens, trees and programs.
#![tactic(auto)]

#[cfg(test)]
mod bytes;
#[cfg(test)]
mod lines;
#[cfg(test)]
mod programs;
#[cfg(test)]
mod second;
#[cfg(test)]
mod tokens;
#[cfg(test)]
mod trees;
