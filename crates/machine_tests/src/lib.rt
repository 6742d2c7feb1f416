//! Tests of the register machine, on heaps that collect, that grow, and that never collect.
#![tactic(auto)]

#[cfg(test)]
mod codes;
#[cfg(test)]
mod runs;
