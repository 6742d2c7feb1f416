//! Reads a dump from standard input, and with the argument `copy` writes it to memory: what
//! `bench/dump` times.

use rh_dump::{read_dump, write_dump};

/// Reads a dump, and writes it where that is asked. Answers how many objects it has and how many
/// bytes were written; nothing where the text is no dump or memory was refused.
fn copied(rt: &(impl Input + AllocGlobal), is_copied: bool) -> Option<(u64, usize)> {
    let graph = read_dump(rt.alloc(), &mut rt.reader()).ok()?;
    let mut text = Vec::new(rt.alloc());
    if is_copied {
        write_dump(&graph, &mut text).ok()?;
    }
    Some((graph.objects(), text.len()))
}

/// Runs the bench, which writes the dump too where its argument is `copy`; nothing where it failed,
/// or has another argument.
pub fn run(rt: &(impl Print + Input + AllocGlobal), what: Option<&str>) -> Option<()> {
    let is_copied = match what {
        Some("copy") => true,
        Some(_) => return None,
        None => false,
    };
    let (objects, bytes) = copied(rt, is_copied)?;
    println!(rt; "objects {objects} bytes {bytes}").ok()
}
