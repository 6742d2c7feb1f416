//! Whether two paths lead to the same file.

use crate::program::is_standard_input;
use rh_command_line::Views;
use std::fs::metadata;
use std::os::unix::fs::MetadataExt;
use std::rt::Files;

/// The names under which the system has the files of standard input, output and error.
const INPUT: &str = "/dev/stdin";

const OUTPUT: &str = "/dev/stdout";

const ERROR: &str = "/dev/stderr";

/// Whether both names are of one file, no device and no pipe. A name that can't be looked up is of none.
fn is_one_file<R: Files>(rt: &R, name: &str, other: &str) -> bool {
    let Ok(one) = metadata(rt, name) else {
        return false;
    };
    let Ok(other) = metadata(rt, other) else {
        return false;
    };
    one.is_file() && one.dev() == other.dev() && one.ino() == other.ino()
}

/// Whether a text would go to the file that is read, or to one to which standard output or error
/// goes.
pub(crate) fn is_taken<R: Files>(rt: &R, file: &str, out: Option<&str>) -> bool {
    let Some(name) = out else {
        return false;
    };
    if name == "-" {
        return false;
    }
    let read = if is_standard_input(file) { INPUT } else { file };
    is_one_file(rt, name, read) || is_one_file(rt, name, OUTPUT) || is_one_file(rt, name, ERROR)
}

/// Whether a text of the views would go to the file that is read, to one to which standard output or
/// error goes, or to that of the other, by whatever names.
pub(crate) fn are_crossed<R: Files>(rt: &R, file: &str, views: &Views<'_>) -> bool {
    if is_taken(rt, file, views.history) {
        return true;
    }
    if is_taken(rt, file, views.cycles) {
        return true;
    }
    let Some(history) = views.history else {
        return false;
    };
    let Some(cycles) = views.cycles else {
        return false;
    };
    history != "-" && cycles != "-" && is_one_file(rt, history, cycles)
}
