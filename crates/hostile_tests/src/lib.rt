//! Tests of hostile use: replicas that nobody dealt, long lives in small spaces, threads that get
//! in each other's way, and memory that is refused at each size.
#![tactic(auto)]

#[cfg(test)]
mod account;
#[cfg(test)]
mod both;
#[cfg(test)]
mod expectations;
#[cfg(test)]
mod lives;
#[cfg(test)]
mod numbers;
#[cfg(test)]
mod resizes;
#[cfg(test)]
mod sizes;
#[cfg(test)]
mod threads;
#[cfg(test)]
mod tickets;
