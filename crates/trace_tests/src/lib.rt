//! Tests of traces, dumps, histories, sessions, and of where a line's fault is and how it is shown, by
//! their public calls.
#![tactic(auto)]

#[cfg(test)]
mod blocks;
#[cfg(test)]
mod dumps;
#[cfg(test)]
mod errors;
#[cfg(test)]
mod expectations;
#[cfg(test)]
mod failed_calls;
#[cfg(test)]
mod faults;
#[cfg(test)]
mod histories;
#[cfg(test)]
mod hosts;
#[cfg(test)]
mod parts;
#[cfg(test)]
mod places;
#[cfg(test)]
mod reading_dumps;
#[cfg(test)]
mod sessions;
#[cfg(test)]
mod texts;
#[cfg(test)]
mod traces;
#[cfg(test)]
mod writing;
