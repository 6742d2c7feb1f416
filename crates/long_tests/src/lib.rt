//! Tests that take long: texts and histories of the greatest sizes, reads and writes that run out, and
//! hundreds of programs on heaps that grow. They are a crate of their own since each gate proves them,
//! and since they begin before all other tests where all are run.
#![tactic(auto)]

#[cfg(test)]
mod dumps;
#[cfg(test)]
mod expectations;
#[cfg(test)]
mod histories;
#[cfg(test)]
mod numbers;
#[cfg(test)]
mod program;
#[cfg(test)]
mod rule;
#[cfg(test)]
mod sessions;
#[cfg(test)]
mod traces;
