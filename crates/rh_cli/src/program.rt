//! The program from its command line to its status.

ghost use Rattle.std.specs.Prelude.{◌≡◌, ◌≢◌, ◌≤◌, ◌⊎◌, ◌↔◌, ℕ, List, Option, map, Ok, Err, IsTrue, IfOk, IfErr, IfSome, codes};
ghost use Rattle.std.specs.Io.Buffered.{writer_contents, writer_inner};
ghost use Rattle.std.specs.Io.KnownBytes.{Consumes};
ghost use Rattle.std.specs.IoError.{error_kind};
ghost use Rattle.std.specs.String.{string_bytes};
ghost use Rattle.std.specs.Vec.Iter.{into_iter_items};
ghost use Rattle.rh_command_line.specs.Ask.{command_and_file, command_and_file_of, is_taken};
ghost use Rattle.rh_cli.specs.Arguments.{IsEarlyFault};
ghost use Rattle.rh_cli.specs.Drive.{Concludes};
ghost use Rattle.rh_commands.specs.Fault.{IsLateStatus, IsUsualFault, status_of};
ghost use Rattle.rh_command_line.specs.declared.ask.Ask.{Ask as AskOf};

use crate::arguments::read_words;
use crate::driving::drive;
use crate::explaining::drive_explained;
use crate::keeping::KeptReader;
use crate::lisp::play_lisp;
use crate::lisp_cycles::play_lisp_with_cycles;
use crate::lisp_session::hold_entries;
use crate::outputs::{outputs_of, text_output};
use crate::prompting::Prompter;
use crate::viewed_driving::{drive_viewed, reads_for};
use rh_choices::{Limits, Telling};
use rh_command_line::{Ask, Subcommand, Views};
use rh_commands::{LineFault, ViewLog, converse, show, tell, tell_as, tell_ending};
use rh_cycle_events::lines_or_events;
use rh_trace_views::writers;
use std::alloc::Global;
use std::env::{self, Args};
use std::fs::File;
use std::io::{self, BufWriter, ErrorKind, Read, Write};
use std::rt::{Env, Files};
use std::sync::Wait;
use std::thread::Threads;

/// How many bytes of answers are gathered before they are written.
const OUTPUT_BYTES: usize = 65_536;

/// What of the program is a terminal.
#[derive(Clone, Copy)]
pub struct Terminals {
    /// Standard input. A session shows a prompt then.
    pub input: bool,
    /// Standard error. A fault is explained then, whatever the command line says of that.
    pub error: bool,
}

/// Reads the command line, does what it asks, and answers the status to end with. Answers, help and
/// the version go to standard output, what went wrong and a session's prompts to `err`. What is done
/// in threads is done in those of `threads`.
pub fn play<R, T, E>(rt: &R, threads: &T, err: &mut E, terminals: Terminals) -> u8
where
    R: Env + Files + Input + Print + AllocGlobal,
    T: Threads + Wait + Sync,
    E: Write,
    ensures { result ≤ 4 }
{
    match carry_out(rt, threads, err, terminals) {
        Ok(status) => status,
        Err(fault) if fault.status() == 0 => show(&fault, &mut io::writer(rt), err),
        Err(fault) => tell(&fault, err),
    }
}

/// Carries out what the command line asks. An `Err` is for what went wrong before that.
fn carry_out<R, T, E>(
    rt: &R,
    threads: &T,
    err: &mut E,
    terminals: Terminals,
) -> Result<u8, LineFault>
where
    R: Env + Files + Input + Print + AllocGlobal,
    T: Threads + Wait + Sync,
    E: Write,
    ensures late { IfOk result (λ status. IsLateStatus status) }
    ensures early { IfErr result (λ fault. IsEarlyFault fault) }
{
    let arguments = arguments_of(rt.alloc(), env::args(rt))?;
    let words = words_of(rt.alloc(), arguments.as_slice())?;
    with_arguments(rt, threads, words.as_slice(), err, terminals)
}

/// The arguments that were read, where they are text and memory isn't refused.
fn arguments_of(alloc: Global, read: io::Result<Args>) -> Result<Vec<String>, LineFault>
    // Refused memory is told as that, while the arguments are read and afterwards.
    ensures memory { IfErr read (λ error. error_kind error ≡ ErrorKind.OutOfMemory
        → result ≡ Err LineFault.OutOfMemory) }
    ensures kept { IfOk read (λ arguments. IfErr result (λ fault. fault ≡ LineFault.OutOfMemory)) }
    // What was read is kept, each argument in its place.
    ensures texts { IfOk read (λ arguments.
        IfOk result (λ texts. texts.items ≡ into_iter_items arguments)) }
    // Whatever else the reading fails with says that an argument isn't text.
    ensures no_text { IfErr read (λ error. error_kind error ≢ ErrorKind.OutOfMemory
        → result ≡ Err LineFault.NoText) }
    ensures kinds { IfErr result (λ fault.
        (fault ≡ LineFault.NoText) ⊎ (fault ≡ LineFault.OutOfMemory)) }
{
    match read {
        Ok(arguments) => Ok(arguments.collect(alloc)?),
        Err(error) => Err(fault_of_reading(&error)),
    }
}

/// The fault that an error in reading the arguments is.
fn fault_of_reading(error: &io::Error) -> LineFault
    ensures memory { error_kind error.now ≡ ErrorKind.OutOfMemory
        → result ≡ LineFault.OutOfMemory }
    ensures no_text { error_kind error.now ≢ ErrorKind.OutOfMemory → result ≡ LineFault.NoText }
    ensures kinds { (result ≡ LineFault.NoText) ⊎ (result ≡ LineFault.OutOfMemory) }
{
    match error.kind() {
        ErrorKind::OutOfMemory => LineFault::OutOfMemory,
        _ => LineFault::NoText,
    }
}

/// The arguments as texts that are lent.
fn words_of<'a>(alloc: Global, arguments: &'a [String]) -> Result<Vec<&'a str>, LineFault>
    ensures words { IfOk result (λ words.
        map (λ a. a.now) words.items ≡ map string_bytes arguments.now) }
    ensures memory { IfErr result (λ fault. fault ≡ LineFault.OutOfMemory) }
{
    let mut words = Vec::new(alloc);
    for argument in arguments {
        words.push(argument.as_str())?;
    }
    Ok(words)
}

/// Carries out what these arguments ask. The first one is the program's name.
fn with_arguments<'a, R, T, E>(
    rt: &R,
    threads: &T,
    arguments: &'a [&'a str],
    err: &mut E,
    terminals: Terminals,
) -> Result<u8, LineFault>
where
    R: Files + Input + Print + AllocGlobal,
    T: Threads + Wait + Sync,
    E: Write,
    // A status comes only where clap's parse of the arguments holds a request.
    ensures asked { IfOk result (λ status. (ask : AskOf)
        × (command_and_file_of (map (λ a. a.now) arguments.now) ≡ Ok (command_and_file ask))) }
    ensures late { IfOk result (λ status. IsLateStatus status) }
    // Arguments that clap takes, and that hold a request, are carried out unless memory was refused
    // or the file can't be opened.
    ensures refused { IfErr result (λ fault. IsTrue (is_taken (map (λ a. a.now) arguments.now))
        → (ask : AskOf)
        → command_and_file_of (map (λ a. a.now) arguments.now) ≡ Ok (command_and_file ask)
        → (fault ≡ LineFault.Open) ⊎ (fault ≡ LineFault.OutOfMemory)) }
    ensures early { IfErr result (λ fault. IsEarlyFault fault) }
{
    let ask = read_words(rt.alloc(), arguments)?;
    with_file(rt, threads, &ask, err, terminals)
}

/// Carries out a request with its file.
pub(crate) fn with_file<R, T, E>(
    rt: &R,
    threads: &T,
    ask: &Ask<'_>,
    err: &mut E,
    terminals: Terminals,
) -> Result<u8, LineFault>
where
    R: Files + Input + Print + AllocGlobal,
    T: Threads + Wait + Sync,
    E: Write,
    ensures late { IfOk result (λ status. IsLateStatus status) }
    ensures refused { IfErr result (λ fault.
        (fault ≡ LineFault.Open) ⊎ (fault ≡ LineFault.OutOfMemory)) }
    // Standard input isn't opened, so that it is never said to have failed.
    ensures input { IfErr result (λ fault. ask.now.file.now ≡ codes "-"
        → fault ≡ LineFault.OutOfMemory) }
{
    if let Subcommand::Session = ask.subcommand {
        return hold_session(rt, err, terminals.input);
    }
    let explains = terminals.error || ask.explain;
    if let Subcommand::Lisp { limits } = ask.subcommand {
        return play_program(rt, ask, limits, err, explains);
    }
    if let Subcommand::LispSession { limits } = ask.subcommand {
        return hold_entries(rt, limits, err, terminals.input, explains);
    }
    if let Some(out) = ask.out {
        return write_text(rt, threads, ask, out, err, explains);
    }
    if !is_plain(&ask.views) {
        return Ok(view(rt, threads, ask, err, explains));
    }
    let mut out = gathering(rt.alloc(), io::writer(rt))?;
    if is_standard_input(ask.file) {
        return Ok(carried_out_of_input(rt, threads, ask, &mut out, err, explains));
    }
    let file = opened(rt, ask.file)?;
    Ok(carried_out(threads, rt.alloc(), ask, file, &mut out, err, explains))
}

/// Carries out a request whose text goes to a file of its own, or to standard output.
fn write_text<R, T, E>(
    rt: &R,
    threads: &T,
    ask: &Ask<'_>,
    out: &str,
    err: &mut E,
    explains: bool,
) -> Result<u8, LineFault>
where
    R: Files + Input + Print + AllocGlobal,
    T: Threads + Wait + Sync,
    E: Write,
    ensures late { IfOk result (λ status. IsLateStatus status) }
    ensures refused { IfErr result (λ fault.
        (fault ≡ LineFault.Open) ⊎ (fault ≡ LineFault.OutOfMemory)) }
    ensures input { IfErr result (λ fault. ask.now.file.now ≡ codes "-"
        → fault ≡ LineFault.OutOfMemory) }
{
    if is_standard_input(ask.file) {
        let output = text_output(rt, ask.file, out);
        return write_text_of(threads, rt.alloc(), ask, rt.reader(), output, err, explains);
    }
    let file = opened(rt, ask.file)?;
    let output = text_output(rt, ask.file, out);
    write_text_of(threads, rt.alloc(), ask, file, output, err, explains)
}

/// Carries out a request whose text goes to this writer, with what the reader gives. Nothing is read
/// where there is no writer, since its file can't be made.
fn write_text_of<T, I, W, E>(
    threads: &T,
    alloc: Global,
    ask: &Ask<'_>,
    reader: I,
    output: Result<W, LineFault>,
    err: &mut E,
    explains: bool,
) -> Result<u8, LineFault>
where
    T: Threads + Wait + Sync,
    I: Read + Drop,
    W: Write + Drop,
    E: Write,
    requires unmade { IfErr output (λ fault.
        (fault ≡ LineFault.Write) ⊎ (fault ≡ LineFault.SameFile)) }
    // What was asked was done, and written to this writer.
    ensures told { IfOk output (λ writer. IfOk result (λ status. IfSome (I.remaining reader)
        (λ input. (written : Option (List ℕ))
        × Concludes ask.now.subcommand input status (W.contents writer) written))) }
    // Without a writer it is the fault that there is none.
    ensures none { IfErr output (λ fault. IfOk result (λ status. status ≡ status_of fault)) }
    ensures late { IfOk result (λ status. IsLateStatus status) }
    ensures refused { IfErr result (λ fault. fault ≡ LineFault.OutOfMemory) }
{
    match output {
        Ok(writer) => carried_out_to(threads, alloc, ask, reader, writer, err, explains),
        Err(fault) => Ok(tell(&fault, err)),
    }
}

/// Carries out a request whose text goes to this writer, with what the reader gives.
fn carried_out_to<T, R, W, E>(
    threads: &T,
    alloc: Global,
    ask: &Ask<'_>,
    reader: R,
    writer: W,
    err: &mut E,
    explains: bool,
) -> Result<u8, LineFault>
where
    T: Threads + Wait + Sync,
    R: Read + Drop,
    W: Write + Drop,
    E: Write,
    // For a reader that tells its bytes: by what is due for the bytes that it had.
    ensures told { IfOk result (λ status. IfSome (R.remaining reader)
        (λ input. (written : Option (List ℕ))
        × Concludes ask.now.subcommand input status (W.contents writer) written)) }
    // Of the bytes that were taken.
    ensures read { IfOk result (λ status. (input : List ℕ) × (left : Option (List ℕ))
        × (written : Option (List ℕ)) × Consumes (R.remaining reader) left input
        × Concludes ask.now.subcommand input status (W.contents writer) written) }
    ensures late { IfOk result (λ status. IsLateStatus status) }
    ensures refused { IfErr result (λ fault. fault ≡ LineFault.OutOfMemory) }
{
    let mut out = gathering(alloc, writer)?;
    Ok(carried_out(threads, alloc, ask, reader, &mut out, err, explains))
}

/// Whether there are answers or a report alone.
fn is_plain(views: &Views<'_>) -> bool {
    let is_told = matches!(views.telling, Telling::Answers);
    is_told && views.cycles.is_none() && views.history.is_none()
}

/// Runs the program of a file, and writes its cycles where that is asked.
fn play_program<R, E>(
    rt: &R,
    ask: &Ask<'_>,
    limits: Limits,
    err: &mut E,
    explains: bool,
) -> Result<u8, LineFault>
where
    R: Files + Input + Print + AllocGlobal,
    E: Write,
    ensures late { IfOk result (λ status. IsLateStatus status) }
    ensures refused { IfErr result (λ fault.
        (fault ≡ LineFault.Open) ⊎ (fault ≡ LineFault.OutOfMemory)) }
    ensures input { IfErr result (λ fault. ask.now.file.now ≡ codes "-"
        → fault ≡ LineFault.OutOfMemory) }
{
    if ask.views.cycles.is_some() {
        return play_lisp_with_cycles(rt, ask, limits, err, explains);
    }
    play_lisp(rt, ask.file, limits, err, explains)
}

/// Carries out a request with what the reader gives, and explains a fault where that is asked.
fn carried_out<T, R, O, E>(
    threads: &T,
    alloc: Global,
    ask: &Ask<'_>,
    reader: R,
    out: &mut O,
    err: &mut E,
    explains: bool,
) -> u8
where
    T: Threads + Wait + Sync,
    R: Read + Drop,
    O: Write,
    E: Write,
    // For a reader that tells its bytes: by what is due for the bytes that it had.
    ensures told { IfSome (R.remaining reader) (λ input.
        Concludes ask.now.subcommand input result (O.contents out.old) (O.contents out.new)) }
    // Of the bytes that were taken.
    ensures read { (input : List ℕ) × (left : Option (List ℕ))
        × Consumes (R.remaining reader) left input
        × Concludes ask.now.subcommand input result (O.contents out.old) (O.contents out.new) }
    ensures late { IsLateStatus result }
{
    if explains {
        let mut kept = KeptReader::new(alloc, reader);
        return drive_explained(threads, alloc, ask, &mut kept, out, err);
    }
    let mut plain = reader;
    drive(threads, alloc, ask, &mut plain, out, err)
}

/// Carries out a request with standard input. It isn't inlined, so that a run of a file clears no
/// memory for that reader.
#[inline(never)]
fn carried_out_of_input<R, T, O, E>(
    rt: &R,
    threads: &T,
    ask: &Ask<'_>,
    out: &mut O,
    err: &mut E,
    explains: bool,
) -> u8
where
    R: Input + AllocGlobal,
    T: Threads + Wait + Sync,
    O: Write,
    E: Write,
    ensures { IsLateStatus result }
{
    carried_out(threads, rt.alloc(), ask, rt.reader(), out, err, explains)
}

/// Answers the lines of a session, and shows a prompt where that is asked.
fn hold_session<R, E>(rt: &R, err: &mut E, prompts: bool) -> Result<u8, LineFault>
where
    R: Files + Input + Print + AllocGlobal,
    E: Write,
    ensures late { IfOk result (λ status. IsLateStatus status) }
    ensures refused { IfErr result (λ fault. fault ≡ LineFault.OutOfMemory) }
{
    let mut out = gathering(rt.alloc(), io::writer(rt))?;
    let mut reader = rt.reader();
    let mut host = Prompter {
        rt,
        err,
        prompts,
        explains: false,
    };
    let held = converse(rt.alloc(), &mut reader, &mut out, &mut host);
    Ok(tell_ending(held, host.err))
}

/// Carries out a request that is viewed, and answers its status. What went wrong is told as the
/// request wants it, a file too that can't be opened or made.
fn view<R, T, E>(rt: &R, threads: &T, ask: &Ask<'_>, err: &mut E, explains: bool) -> u8
where
    R: Files + Input + Print + AllocGlobal,
    T: Threads + Wait + Sync,
    E: Write,
    ensures { IsLateStatus result }
{
    match with_views(rt, threads, ask, err, explains) {
        Ok(status) => status,
        Err(fault) => tell_as(rt.alloc(), ask.views.telling, &fault, err),
    }
}

/// Carries out a request that is viewed, with its file. An `Err` is for what went wrong before
/// that.
fn with_views<R, T, E>(
    rt: &R,
    threads: &T,
    ask: &Ask<'_>,
    err: &mut E,
    explains: bool,
) -> Result<u8, LineFault>
where
    R: Files + Input + Print + AllocGlobal,
    T: Threads + Wait + Sync,
    E: Write,
    ensures late { IfOk result (λ status. IsLateStatus status) }
    ensures early { IfErr result (λ fault. IsUsualFault fault) }
{
    if is_standard_input(ask.file) {
        return with_outputs(rt, threads, ask, rt.reader(), err, explains);
    }
    let file = opened(rt, ask.file)?;
    with_outputs(rt, threads, ask, file, err, explains)
}

/// Carries out a request that is viewed, with what the reader gives. Nothing is read where a file
/// can't be made for a text. Lines of cycles are written as they come, as events where that is asked.
fn with_outputs<R, T, I, E>(
    rt: &R,
    threads: &T,
    ask: &Ask<'_>,
    reader: I,
    err: &mut E,
    explains: bool,
) -> Result<u8, LineFault>
where
    R: Files + Print + AllocGlobal,
    T: Threads + Wait + Sync,
    I: Read + Drop,
    E: Write,
    ensures late { IfOk result (λ status. IsLateStatus status) }
    ensures early { IfErr result (λ fault. IsUsualFault fault) }
{
    let mut kept = kept_if(rt.alloc(), reader, explains);
    with_kept(rt, threads, ask, &mut kept, err, explains)
}

/// Carries out a request that is viewed, with the reader that it is lent.
fn with_kept<R, T, I, E>(
    rt: &R,
    threads: &T,
    ask: &Ask<'_>,
    kept: &mut KeptReader<I, Global>,
    err: &mut E,
    explains: bool,
) -> Result<u8, LineFault>
where
    R: Files + Print + AllocGlobal,
    T: Threads + Wait + Sync,
    I: Read,
    E: Write,
    ensures late { IfOk result (λ status. IsLateStatus status) }
    ensures early { IfErr result (λ fault. IsUsualFault fault) }
{
    let (out, history, cycles) = outputs_of(rt, ask.file, &ask.views)?;
    let (out, history) = gathering_both(rt.alloc(), out, history)?;
    let mut out = writers(out, history, lines_or_events(cycles, ask.views.events));
    let mut log = ViewLog::new(reads_for(ask.subcommand));
    Ok(drive_viewed(
        threads,
        rt.alloc(),
        ask,
        kept,
        &mut log,
        &mut out,
        err,
        explains,
    ))
}

/// A reader of what this one gives, which keeps it where a fault is to be explained.
pub(crate) fn kept_if<I: Read + Drop>(
    alloc: Global,
    reader: I,
    explains: bool,
) -> KeptReader<I, Global> {
    if explains {
        return KeptReader::new(alloc, reader);
    }
    KeptReader::passing(alloc, reader)
}

/// A writer that gathers what is written before the other writes it.
pub(crate) fn gathering<W: Write + Drop>(
    alloc: Global,
    writer: W,
) -> Result<BufWriter<W>, LineFault>
    ensures kept { IfOk result (λ out. writer_inner out ≡ writer) }
    // What it gathers to is what the writer has, since it gathered nothing yet.
    ensures empty { IfOk result (λ out. writer_contents W.contents out ≡ W.contents writer) }
    ensures memory { IfErr result (λ fault. fault ≡ LineFault.OutOfMemory) }
{
    match BufWriter::with_capacity(alloc, OUTPUT_BYTES, writer) {
        Ok(out) => Ok(out),
        Err(_) => Err(LineFault::OutOfMemory),
    }
}

/// Both writers, gathering so.
fn gathering_both<W: Write + Drop>(
    alloc: Global,
    one: W,
    other: W,
) -> Result<(BufWriter<W>, BufWriter<W>), LineFault>
    ensures { IfErr result (λ fault. fault ≡ LineFault.OutOfMemory) }
{
    let one = gathering(alloc, one)?;
    let other = gathering(alloc, other)?;
    Ok((one, other))
}

/// The file of this name, to read it.
pub(crate) fn opened<R: Files>(rt: &R, name: &str) -> Result<R::File, LineFault>
    ensures { IfErr result (λ fault. fault ≡ LineFault.Open) }
{
    match File::open(rt, name) {
        Ok(file) => Ok(file),
        Err(_) => Err(LineFault::Open),
    }
}

/// Whether a file's name says standard input.
pub(crate) fn is_standard_input(file: &str) -> bool
    ensures { IsTrue result ↔ (file.now ≡ codes "-") }
{
    file == "-"
}
