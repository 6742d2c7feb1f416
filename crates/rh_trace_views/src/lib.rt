//! Runs of traces, seen in other ways: each line with its answer, as objects of JSON, as the
//! history of the run's commands, a line for each cycle that ended, and a picture of the heap after
//! one of the lines. And reports on histories and dumps as JSON.
#![tactic(auto)]

mod all_views;
mod answering;
mod buffer;
mod cycle_lines;
mod cycle_reading;
mod drawing;
mod echo;
mod json;
pub mod laws;
mod noted;
mod partway;
mod recording;
mod reports;
mod sort;
mod told;
mod viewing;

pub use all_views::{Views, Writers, views, writers};
pub use cycle_lines::CycleLines;
pub use cycle_reading::CycleReading;
pub use drawing::draw_trace;
pub use echo::report_echo;
pub use noted::Noted;
pub use partway::engine_at;
pub use reports::{fault_json, put_json_dump, put_json_string, report_json};
pub use rh_choices::Telling;
pub use rh_syntax::put_request_text;
pub use rh_trace::{RunFault, Summary};
pub use told::Told;
