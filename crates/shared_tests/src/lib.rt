//! Tests of the heap that threads share, and of its replicators, by their public calls.
#![tactic(auto)]

#[cfg(test)]
mod beside;
#[cfg(test)]
mod beside_calls;
#[cfg(test)]
mod calls;
#[cfg(test)]
mod closing;
#[cfg(test)]
mod crews;
#[cfg(test)]
mod expectations;
#[cfg(test)]
mod gates;
#[cfg(test)]
mod plays;
#[cfg(test)]
mod replicators;
#[cfg(test)]
mod rings;
#[cfg(test)]
mod settled;
#[cfg(test)]
mod starts;
#[cfg(test)]
mod threads;
#[cfg(test)]
mod traces;
#[cfg(test)]
mod watching;
