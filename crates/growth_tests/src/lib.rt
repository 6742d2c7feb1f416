//! Tests of heaps that grow.
#![tactic(auto)]

#[cfg(test)]
mod calls;
#[cfg(test)]
mod expectations;
#[cfg(test)]
mod growing;
#[cfg(test)]
mod watching;
