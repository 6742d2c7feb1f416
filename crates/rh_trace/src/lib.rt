//! Runs of traces: a way makes what the lines of a trace are played on, they are played one after
//! the other, and a listener is handed each with its answer. The names of the trace language and of
//! the engine are handed on.
#![tactic(auto)]

mod answer;
mod answers;
mod both;
mod by_way;
mod fixed;
pub mod laws;
mod lines;
mod listener;
mod player;
mod playing;
mod quiet;
mod reading;
mod run_fault;
mod running;
mod stop;
mod summary;
mod way;
mod way_fault;

pub use answer::Answer;
pub use answers::{Answers, put_total};
pub use both::{Both, Pair};
pub use by_way::{run, run_bytes};
pub use fixed::{Fixed, fixed_fault};
pub use lines::run_lines;
pub use listener::Listener;
pub use player::Player;
pub use playing::play_request;
pub use quiet::Quiet;
pub use reading::read_trace;
pub use rh_engine::{
    DealRefusal, Engine, GiveRefusal, JoinRefusal, ResizeRefusal, TicketsRefusal, TrayDeal, Trays,
};
pub use rh_heap_dump::graph;
pub use rh_syntax::{
    Header, Kind, Line, ParseError, Request, Trace, TraceFault, TrayName, command_of,
    header_or_fault, parse, print, print_logged, request_or_fault, tray_name_of, write_answer,
    write_answer_logged, write_command, write_command_logged,
};
pub use rh_text::Write;
pub use run_fault::RunFault;
pub use running::{config_of, run_trace};
pub use stop::Stop;
pub use summary::Summary;
pub use way::Way;
pub use way_fault::{NoFault, Unprepared, WayFault};
