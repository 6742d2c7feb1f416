//! A session on a heap: each line of the trace language is answered as it is typed.
#![tactic(auto)]

mod answering;
mod fault;
mod help;
mod host;
pub mod laws;
mod output_log;
mod own;
mod playing;
mod session;
mod shell;
mod telling;

pub use fault::ShellFault;
pub use host::Host;
pub use output_log::OutputLog;
pub use rh_trace::Summary;
pub use shell::run_shell;
