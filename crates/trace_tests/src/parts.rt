//! Long texts, made of parts.

use crate::expectations::ample;
use samples::texts::add_numbered;
use std::process::Abort;

/// A part of a text: bytes once, bytes so many times, or a line of each number from 1 up to this
/// one, between two texts.
#[derive(Clone, Copy)]
pub enum Part {
    Once(&'static [u8]),
    Times(u32, &'static [u8]),
    Numbered(u32, &'static str, &'static str),
}

/// Adds bytes to a text so many times.
fn add_times(rt: &impl Abort, text: &mut Vec<u8>, times: u32, bytes: &[u8]) {
    for _ in 0..times {
        ample(rt, text.extend_from_slice(bytes));
    }
}

/// Adds a part to a text.
fn add(rt: &(impl AllocGlobal + Abort), text: &mut Vec<u8>, part: Part) {
    match part {
        Part::Once(bytes) => add_times(rt, text, 1, bytes),
        Part::Times(times, bytes) => add_times(rt, text, times, bytes),
        Part::Numbered(last, before, after) => {
            ample(rt, add_numbered(rt, text, last, (before, after)));
        }
    }
}

/// The text of these parts, one after the other.
pub fn text_of(rt: &(impl AllocGlobal + Abort), parts: &[Part]) -> Vec<u8> {
    let mut text = Vec::new(rt.alloc());
    for &part in parts {
        add(rt, &mut text, part);
    }
    text
}
