//! Tests of the layers of a heap, of the heap and of the heap that collects by itself, and of the
//! allocator that refuses, by their public calls.
#![tactic(auto)]

#[cfg(test)]
mod commands;
#[cfg(test)]
mod expectations;
#[cfg(test)]
mod heaps;
#[cfg(test)]
mod layers;
#[cfg(test)]
mod numbers;
#[cfg(test)]
mod paced;
#[cfg(test)]
mod refusals;
