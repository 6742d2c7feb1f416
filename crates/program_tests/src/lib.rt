//! Tests of the program, by its public calls.
#![tactic(auto)]

#[cfg(test)]
mod expectations;
#[cfg(test)]
mod program;
#[cfg(test)]
mod texts;
