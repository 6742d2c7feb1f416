//! Tests of the language.
#![tactic(auto)]

#[cfg(test)]
mod edges;
#[cfg(test)]
mod expectations;
#[cfg(test)]
mod handed_back;
#[cfg(test)]
mod hidden;
#[cfg(test)]
mod later;
#[cfg(test)]
mod procedures;
#[cfg(test)]
mod programs;
#[cfg(test)]
mod raising;
#[cfg(test)]
mod records;
#[cfg(test)]
mod recursive;
#[cfg(test)]
mod sessions;
#[cfg(test)]
mod several;
#[cfg(test)]
mod symbols;
#[cfg(test)]
mod texts;
