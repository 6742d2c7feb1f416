//! Traces: read, printed and run.

mod drawing;
mod leading;
mod reading;
mod recalling;
mod running;
mod trays;
mod view_texts;
mod viewing;
