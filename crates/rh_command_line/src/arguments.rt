//! Turns the matches of clap into an `Ask`.

ghost use Rattle.std.specs.Prelude.{◌≡◌, ◌≢◌, ◌≤◌, ◌⊎◌, [], map, option_map, Ok, Err, IsTrue, IfOk, IfErr};
ghost use Rattle.clap.specs.Words.{kind_of, subcommand_rows_of};
ghost use Rattle.rh_command_line.specs.Ask.{command_asked, given_of, is_output, output_texts, telling_of, viewed_by, viewed_in, viewed_of, command_and_file, command_and_file_in, command_and_file_of, command_named, completions_asked, completions_for, error_kinds, explains_in, explains_of, file_or_input, draw_asked, dump_asked, growing_asked, number_within, once, out_in, out_of, run_given, is_crossed, is_same_file, is_set, is_taken, run_asked, lacks_file, threads_asked, why_asked, without_at};
ghost use Rattle.rh_command_line.specs.Fault.{IsClapError, IsDue};
ghost use Rattle.rh_command_line.specs.declared.ask.Ask.{Ask};

use crate::ask::{Ask, Shell, Subcommand, Views};
use crate::commands::{command_line, first_word};
use crate::fault::{CommandLineError, CommandLineFault};
use crate::lisp_arguments::lisp_asked;
use clap::ArgMatches;
use clap::error::ErrorKind;
use rh_choices::Telling;
use rh_text::read_number;
use std::alloc::Global;

/// The replicators of `threads` where it isn't said how many.
const USUAL_REPLICATORS: u32 = 2;

/// The most replicators that can be asked for.
pub const MAX_REPLICATORS: u32 = 8;

/// The most idle words of an increment that can be asked for.
const MAX_IDLE: u32 = 65_535;

/// What the arguments ask for. The first one is the program's name. Clap takes its memory from the
/// global allocator.
///
/// # Errors
///
/// `Arguments` where clap refuses them, or they ask for help or the version; `Incomplete` where
/// clap takes them and they hold no command; `Mark` where `run` has `--mark` without
/// `--paced`, or with a value that is no number below 2^32; `Grow` where it has `--grow` without
/// `--paced` or beside `--mark`, or with a value that is no such number; `Replicators` and then
/// `Idle` where `threads` has such an option with a value that is no number up to 8, or up to
/// 65,535; `Words` and then `Steps` where `lisp` has both `--heap` and `--grow`, or such an option
/// or `--steps` with a value that is no number below 2^32; `Line` where `draw` has `--line` with a
/// value that is no number from 1 below 2^32;
/// `Forms` and then `Object` where `dump` has more than one of its forms, or `--why` with a value that
/// is no such number after an `@` or without one; `Shell` where `completions` is asked for another shell than bash, zsh and fish; `Events` where
/// `--trace-events` stands without `--cycles`, then `Views` where two texts are for standard output, and then `Crossed` where two are for one file, or one for the
/// file that is read; `SessionCycles` where `lisp` has `--cycles` and no file;
/// `OutOfMemory` where memory was refused.
pub fn read_command_line<'a>(
    alloc: Global,
    arguments: &'a [&'a str],
) -> Result<Ask<'a>, CommandLineError>
    // The request has the command and the file that clap's parse of the arguments holds.
    ensures asked { IfOk result (λ ask.
        command_and_file_of (map (λ a. a.now) arguments.now) ≡ Ok (command_and_file ask)) }
    // It asks for explanations exactly where that parse has the flag for them.
    ensures explained { IfOk result (λ ask.
        ask.explain ≡ explains_of (map (λ a. a.now) arguments.now)) }
    // The text goes to the file that it has for it.
    ensures written { IfOk result (λ ask.
        out_of (map (λ a. a.now) arguments.now) ≡ option_map (λ t. t.now) ask.out) }
    // What is done is viewed as that parse says.
    ensures viewed { IfOk result (λ ask.
        viewed_of (map (λ a. a.now) arguments.now) ≡ record {
          telling = ask.views.telling;
          cycles = option_map (λ t. t.now) ask.views.cycles;
          history = option_map (λ t. t.now) ask.views.history;
          events = ask.views.events;
        }) }
    // A request comes only where clap refuses nothing.
    ensures taken { IfOk result (λ ask. error_kinds (map (λ a. a.now) arguments.now) ≡ []) }
    // Arguments that clap takes, and that hold a request, are refused for want of memory alone.
    ensures refused { IfErr result (λ error. IsTrue (is_taken (map (λ a. a.now) arguments.now))
        → (ask : Ask)
        → command_and_file_of (map (λ a. a.now) arguments.now) ≡ Ok (command_and_file ask)
        → error ≡ CommandLineError.OutOfMemory) }
    // What clap takes and is refused is told as what its parse holds instead, or memory was
    // refused.
    ensures due { IfErr result (λ error. IsTrue (is_taken (map (λ a. a.now) arguments.now))
        → (error ≡ CommandLineError.OutOfMemory)
        ⊎ IsDue (command_and_file_of (map (λ a. a.now) arguments.now)) error) }
    // What clap refuses is told as its own error, or memory was refused.
    ensures clap { IfErr result (λ error. error_kinds (map (λ a. a.now) arguments.now) ≢ []
        → IsClapError (error_kinds (map (λ a. a.now) arguments.now)) error) }
    // Whatever is told is that, or what the parse holds in place of a request.
    ensures told { IfErr result (λ error.
        IsClapError (error_kinds (map (λ a. a.now) arguments.now)) error
        ⊎ IsDue (command_and_file_of (map (λ a. a.now) arguments.now)) error) }
{
    let matches = matches_of(alloc, arguments)?;
    match ask_of(&matches) {
        Ok(ask) => Ok(ask),
        Err(fault) => Err(CommandLineError::Fault(fault)),
    }
}

/// Clap's matches of the arguments.
fn matches_of<'a>(
    alloc: Global,
    arguments: &'a [&'a str],
) -> Result<ArgMatches<'a>, CommandLineError>
    ensures held { IfOk result (λ matches.
        command_and_file_of (map (λ a. a.now) arguments.now)
        ≡ command_and_file_in (subcommand_rows_of matches)) }
    ensures explained { IfOk result (λ matches. explains_of (map (λ a. a.now) arguments.now)
        ≡ explains_in (subcommand_rows_of matches)) }
    ensures written { IfOk result (λ matches. out_of (map (λ a. a.now) arguments.now)
        ≡ out_in (subcommand_rows_of matches)) }
    ensures viewed { IfOk result (λ matches. viewed_of (map (λ a. a.now) arguments.now)
        ≡ viewed_in (subcommand_rows_of matches)) }
    ensures taken { IfOk result (λ matches. error_kinds (map (λ a. a.now) arguments.now) ≡ []) }
    ensures refused { IfErr result (λ error. IsTrue (is_taken (map (λ a. a.now) arguments.now))
        → error ≡ CommandLineError.OutOfMemory) }
    ensures told { IfErr result (λ error.
        IsClapError (error_kinds (map (λ a. a.now) arguments.now)) error) }
{
    let command = command_line(alloc, first_word(arguments))?;
    match command.try_get_matches_from(arguments) {
        Ok(matches) => Ok(matches),
        Err(error) => Err(error_of(error)),
    }
}

/// The request that clap's matches hold, or the fault that they hold instead.
fn ask_of<'a>(matches: &ArgMatches<'a>) -> Result<Ask<'a>, CommandLineFault>
    ensures found { IfOk result (λ ask.
        command_and_file_in (subcommand_rows_of matches.now) ≡ Ok (command_and_file ask)) }
    ensures explained { IfOk result (λ ask.
        explains_in (subcommand_rows_of matches.now) ≡ ask.explain) }
    ensures written { IfOk result (λ ask.
        out_in (subcommand_rows_of matches.now) ≡ option_map (λ t. t.now) ask.out) }
    ensures viewed { IfOk result (λ ask.
        viewed_in (subcommand_rows_of matches.now) ≡ record {
          telling = ask.views.telling;
          cycles = option_map (λ t. t.now) ask.views.cycles;
          history = option_map (λ t. t.now) ask.views.history;
          events = ask.views.events;
        }) }
    ensures none { IfErr result (λ fault.
        command_and_file_in (subcommand_rows_of matches.now) ≡ Err fault) }
{
    let Some((name, values)) = matches.subcommand() else {
        return Err(CommandLineFault::Incomplete);
    };
    let subcommand = command_asked(name, values)?;
    Ok(Ask {
        subcommand,
        file: file_or_input(values.get_str("FILE")),
        explain: is_set(values.get_str("explain")),
        out: values.get_str("heapsnapshot"),
        views: views_of(values),
    })
}

/// How what is done is viewed, by the options.
fn views_of<'a>(values: &ArgMatches<'a>) -> Views<'a>
    ensures { viewed_by (given_of values.now) ≡ record {
      telling = result.telling;
      cycles = option_map (λ t. t.now) result.cycles;
      history = option_map (λ t. t.now) result.history;
      events = result.events;
    } }
{
    let telling = telling_of(
        is_set(values.get_str("echo")),
        is_set(values.get_str("json")),
    );
    Views {
        telling,
        cycles: values.get_str("cycles"),
        history: values.get_str("history"),
        events: is_set(values.get_str("trace-events")),
    }
}

/// The file, or standard input of a command that takes none.
fn file_or_input<'a>(given: Option<&'a str>) -> &'a str
    ensures { result.now ≡ file_or_input (option_map (λ t. t.now) given.entry) }
{
    match given {
        Some(file) => file,
        None => "-",
    }
}

/// Whether the value of a flag says that it was set.
fn is_set(value: Option<&str>) -> bool
    ensures { result ≡ is_set (option_map (λ t. t.now) value.entry) }
{
    match value {
        Some(text) => text == "true",
        None => false,
    }
}

/// How what is done is told, by the flags.
fn telling_of(echo: bool, json: bool) -> Telling
    ensures { result ≡ telling_of echo json }
{
    if json {
        return Telling::Json;
    }
    if echo {
        return Telling::Echo;
    }
    Telling::Answers
}

/// Whether the name of a file that is given says standard output.
pub fn is_output(given: Option<&str>) -> bool
    ensures { result ≡ is_output (option_map (λ t. t.now) given.entry) }
{
    match given {
        Some(name) => name == "-",
        None => false,
    }
}

/// 1 where this holds.
fn once(is: bool) -> u32
    ensures value { result ≡ once is }
    ensures few { result ≤ 1 }
{
    if is { 1 } else { 0 }
}

/// How many of the options would have standard output each for its own text.
fn output_texts(given: &ArgMatches<'_>) -> u32
    ensures texts { result ≡ output_texts (given_of given.now) }
{
    let flags = once(is_set(given.get_str("echo")))
        + (once(is_set(given.get_str("json"))) + once(is_set(given.get_str("dot"))));
    once(is_output(given.get_str("cycles"))) + (once(is_output(given.get_str("history"))) + flags)
}

/// Whether what is asked for has no file.
fn lacks_file(is_asked: bool, file: Option<&str>) -> bool
    ensures { result ≡ lacks_file is_asked (option_map (λ t. t.now) file.entry) }
{
    if is_asked { file.is_none() } else { false }
}

/// Whether two files that are given are one, other than standard input and output.
fn is_same_file(one: Option<&str>, other: Option<&str>) -> bool
    ensures { result ≡ is_same_file (option_map (λ t. t.now) one.entry)
        (option_map (λ t. t.now) other.entry) }
{
    let Some(name) = one else {
        return false;
    };
    let Some(other) = other else {
        return false;
    };
    if name == "-" {
        return false;
    }
    name == other
}

/// Whether a text would go to the file that is read, or two texts to one file.
fn is_crossed(given: &ArgMatches<'_>) -> bool
    ensures crossed { result ≡ is_crossed (given_of given.now) }
{
    if is_same_file(given.get_str("cycles"), given.get_str("history")) {
        return true;
    }
    if is_same_file(given.get_str("cycles"), given.get_str("FILE")) {
        return true;
    }
    if is_same_file(given.get_str("heapsnapshot"), given.get_str("FILE")) {
        return true;
    }
    is_same_file(given.get_str("history"), given.get_str("FILE"))
}

/// The command of this name with its options, where at most one text is for standard output, and no
/// text for a file that has another.
fn command_asked(name: &str, given: &ArgMatches<'_>) -> Result<Subcommand, CommandLineFault>
    ensures asked { result ≡ command_asked name.now (given_of given.now) }
{
    if lacks_file(
        is_set(given.get_str("trace-events")),
        given.get_str("cycles"),
    ) {
        return Err(CommandLineFault::Events);
    }
    if output_texts(given) > 1 {
        return Err(CommandLineFault::Views);
    }
    if is_crossed(given) {
        return Err(CommandLineFault::Crossed);
    }
    command_named(name, given)
}

/// The command of this name with its options, of those that are given.
fn command_named(name: &str, given: &ArgMatches<'_>) -> Result<Subcommand, CommandLineFault>
    ensures named { result ≡ command_named name.now (given_of given.now) }
{
    if name == "run" {
        return run_given(
            is_set(given.get_str("paced")),
            given.get_str("mark"),
            given.get_str("grow"),
        );
    }
    if name == "threads" {
        return threads_asked(given.get_str("replicators"), given.get_str("idle"));
    }
    if name == "replay" {
        return Ok(Subcommand::Replay);
    }
    if name == "dump" {
        return dump_asked(
            is_set(given.get_str("dot")),
            is_set(given.get_str("json")),
            given.get_str("heapsnapshot"),
            given.get_str("why"),
        );
    }
    if name == "draw" {
        return draw_asked(given.get_str("line"));
    }
    if name == "shell" {
        return Ok(Subcommand::Session);
    }
    if name == "lisp" {
        return lisp_asked(
            given.get_str("heap"),
            given.get_str("grow"),
            given.get_str("steps"),
            given.get_str("cycles"),
            given.get_str("FILE"),
        );
    }
    if name == "completions" {
        return completions_asked(given.get_str("SHELL"));
    }
    Err(CommandLineFault::Incomplete)
}

/// What is written of a dump: its graph for Graphviz or as a heap snapshot, or the path to an
/// object, where that is asked, and else its counts.
fn dump_asked(
    dot: bool,
    json: bool,
    snapshot: Option<&str>,
    why: Option<&str>,
) -> Result<Subcommand, CommandLineFault>
    ensures asked { result ≡ dump_asked dot json (option_map (λ t. t.now) snapshot.entry)
        (option_map (λ t. t.now) why.entry) }
{
    match snapshot {
        None => match why {
            None if dot => Ok(Subcommand::Dot),
            None => Ok(Subcommand::Dump),
            Some(_) if dot || json => Err(CommandLineFault::Forms),
            Some(object) => why_asked(object),
        },
        Some(_) if dot || json || why.is_some() => Err(CommandLineFault::Forms),
        Some(_) => Ok(Subcommand::Snapshot),
    }
}

/// The path that is asked for, to the object of this number.
fn why_asked(object: &str) -> Result<Subcommand, CommandLineFault>
    ensures asked { result ≡ why_asked object.now }
{
    match read_number(without_at(object.as_bytes())) {
        Some(object) => Ok(Subcommand::Why { object }),
        None => Err(CommandLineFault::Object),
    }
}

/// A text without the `@` that it may begin with.
fn without_at(text: &[u8]) -> &[u8]
    ensures { result.now ≡ without_at text.now }
{
    match text {
        [first, rest @ ..] => { if *first == b'@' { rest } else { text } }
        _ => text,
    }
}

/// The completions that are asked for.
fn completions_asked(shell: Option<&str>) -> Result<Subcommand, CommandLineFault>
    ensures asked { result ≡ completions_asked (option_map (λ t. t.now) shell.entry) }
{
    match shell {
        None => Err(CommandLineFault::Incomplete),
        Some(name) => completions_for(name),
    }
}

/// The completions for the shell of this name.
fn completions_for(name: &str) -> Result<Subcommand, CommandLineFault>
    ensures named { result ≡ completions_for name.now }
{
    if name == "bash" {
        return Ok(Subcommand::Completions { shell: Shell::Bash });
    }
    if name == "zsh" {
        return Ok(Subcommand::Completions { shell: Shell::Zsh });
    }
    if name == "fish" {
        return Ok(Subcommand::Completions { shell: Shell::Fish });
    }
    Err(CommandLineFault::Shell)
}

/// The picture that is asked for: after the last line where none is given.
fn draw_asked(line: Option<&str>) -> Result<Subcommand, CommandLineFault>
    ensures asked { result ≡ draw_asked (option_map (λ t. t.now) line.entry) }
{
    match line {
        None => Ok(Subcommand::Draw { line: None }),
        Some(text) => match read_number(text.as_bytes()) {
            Some(number) => {
                if 1 <= number {
                    return Ok(Subcommand::Draw { line: Some(number) });
                }
                Err(CommandLineFault::Line)
            }
            None => Err(CommandLineFault::Line),
        },
    }
}

/// The run that is asked for. A mark is for paced runs alone.
fn run_asked(is_paced: bool, mark: Option<&str>) -> Result<Subcommand, CommandLineFault>
    ensures asked { result ≡ run_asked is_paced (option_map (λ t. t.now) mark.entry) }
{
    match mark {
        None if is_paced => Ok(Subcommand::RunPaced { mark: None }),
        None => Ok(Subcommand::Run),
        Some(text) if is_paced => match read_number(text.as_bytes()) {
            Some(number) => Ok(Subcommand::RunPaced { mark: Some(number) }),
            None => Err(CommandLineFault::Mark),
        },
        Some(_) => Err(CommandLineFault::Mark),
    }
}

/// The run that is asked for, on a heap that grows where that is given.
fn run_given(
    is_paced: bool,
    mark: Option<&str>,
    grow: Option<&str>,
) -> Result<Subcommand, CommandLineFault>
    ensures asked { result ≡ run_given is_paced (option_map (λ t. t.now) mark.entry)
        (option_map (λ t. t.now) grow.entry) }
{
    match grow {
        None => run_asked(is_paced, mark),
        Some(at_most) => growing_asked(mark, is_paced, at_most),
    }
}

/// The run on a heap that grows to at most so many words. It has no mark, and is paced.
fn growing_asked(
    mark: Option<&str>,
    is_paced: bool,
    at_most: &str,
) -> Result<Subcommand, CommandLineFault>
    ensures asked { result ≡ growing_asked (option_map (λ t. t.now) mark.entry) is_paced
        at_most.now }
{
    match mark {
        None if is_paced => match read_number(at_most.as_bytes()) {
            Some(number) => Ok(Subcommand::RunGrowing { at_most: number }),
            None => Err(CommandLineFault::Grow),
        },
        None => Err(CommandLineFault::Grow),
        Some(_) => Err(CommandLineFault::Grow),
    }
}

/// The run in threads that is asked for.
fn threads_asked(
    replicators: Option<&str>,
    idle: Option<&str>,
) -> Result<Subcommand, CommandLineFault>
    ensures asked { result ≡ threads_asked (option_map (λ t. t.now) replicators.entry)
        (option_map (λ t. t.now) idle.entry) }
{
    let Some(replicators) = number_within(USUAL_REPLICATORS, MAX_REPLICATORS, replicators) else {
        return Err(CommandLineFault::Replicators);
    };
    let Some(idle) = number_within(0, MAX_IDLE, idle) else {
        return Err(CommandLineFault::Idle);
    };
    Ok(Subcommand::Threads { replicators, idle })
}

/// The number that is given, if it is no more than the most, or the usual one where none is given.
fn number_within(usual: u32, most: u32, given: Option<&str>) -> Option<u32>
    ensures { result ≡ number_within usual most (option_map (λ t. t.now) given.entry) }
{
    let Some(text) = given else {
        return Some(usual);
    };
    match read_number(text.as_bytes()) {
        Some(number) if number <= most => Some(number),
        _ => None,
    }
}

/// Why a command line isn't read of which clap tells this error.
fn error_of(error: clap::Error) -> CommandLineError
    ensures memory { kind_of error ≡ ErrorKind.OutOfMemory
        → result ≡ CommandLineError.OutOfMemory }
    // Else it is told as what clap says.
    ensures told { kind_of error ≢ ErrorKind.OutOfMemory
        → result ≡ CommandLineError.Fault (CommandLineFault.Arguments error) }
{
    if error.kind() == ErrorKind::OutOfMemory {
        CommandLineError::OutOfMemory
    } else {
        CommandLineError::Fault(CommandLineFault::Arguments(error))
    }
}
