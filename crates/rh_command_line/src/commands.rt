//! The commands and options as clap takes them, made of the table.

ghost use Rattle.std.specs.Prelude.{◌≡◌, map, false, IfOk};
ghost use Rattle.std.specs.List.{list_any};
ghost use Rattle.std.specs.Str.{bytes_eq};
ghost use Rattle.clap.specs.declared.builder.command.Command.TheViews.{out-Command as fields_of};
ghost use Rattle.clap.specs.Words.{app_of, rule_of};
ghost use Rattle.rh_command_line.specs.Table.{argument_row, command_for, command_row, first_word, has_options, names_command, rheap_app_for, row_rule, with_arguments, with_commands};

use crate::help::after;
use crate::table::{ArgumentRow, CommandRow, Spelling, commands};
use crate::version::VERSION;
use clap::{Arg, ArgAction, Command};
use std::alloc::{AllocError, Global};

/// The command line as clap knows it, where the word is the first. If that names a command, only
/// this command has its options.
pub(crate) fn command_line<'a>(alloc: Global, word: &str) -> Result<Command<'a>, AllocError>
    ensures { IfOk result (λ command. app_of command ≡ rheap_app_for word.now) }
{
    let program = Command::new(alloc, "rheap")
        .about("A garbage-collected heap that moves its objects without its programs seeing it")
        .version(VERSION)
        .subcommand_required(true)
        .bin_name("rheap")?;
    with_commands(alloc, program, word, commands())
}

/// The program with these commands more, as clap knows it, where the word is the first.
fn with_commands<'a>(
    alloc: Global,
    program: Command<'a>,
    word: &str,
    rows: &'a [CommandRow],
) -> Result<Command<'a>, AllocError>
    ensures { IfOk result (λ more. app_of more
        ≡ with_commands word.now (app_of program.entry) (map command_row rows.now)) }
{
    let mut more = program;
    for row in rows {
        more = more.subcommand(command(alloc, word, row)?)?;
    }
    Ok(more)
}

/// The command of this row as clap knows it, where the word is the first.
fn command<'a>(alloc: Global, word: &str, row: &'a CommandRow) -> Result<Command<'a>, AllocError>
    ensures app { IfOk result (λ command.
        app_of command ≡ command_for word.now (command_row row.now)) }
    ensures local { IfOk result (λ command. (fields_of command).has_globals ≡ false) }
{
    let named = Command::new(alloc, row.name).about(row.about);
    if !has_options(word, row.name) {
        return Ok(named);
    }
    with_arguments(alloc, named.after_help(after(row.name)), row.arguments)
}

/// A command with these arguments more, as clap knows it.
fn with_arguments<'a>(
    alloc: Global,
    command: Command<'a>,
    rows: &'a [ArgumentRow],
) -> Result<Command<'a>, AllocError>
    ensures app { IfOk result (λ more.
        app_of more ≡ with_arguments (app_of command.entry) (map argument_row rows.now)) }
    ensures local { (fields_of command.entry).has_globals ≡ false
        → IfOk result (λ more. (fields_of more).has_globals ≡ false) }
{
    let mut more = command;
    for row in rows {
        more = more.arg(argument(alloc, row))?;
    }
    Ok(more)
}

/// The argument of this row as clap knows it.
fn argument<'a>(alloc: Global, row: &'a ArgumentRow) -> Arg<'a>
    ensures rule { rule_of result ≡ row_rule row.now }
    ensures local { result.global ≡ false }
{
    let named = Arg::new(alloc, row.name).help(row.help);
    match row.spelling {
        Spelling::Word { is_required } => named.required(is_required),
        Spelling::Flag => named.long(row.name).action(ArgAction::SetTrue),
        Spelling::Valued { value } => named.long(row.name).value_name(value),
    }
}

/// Whether the command of this name has its options, where the word is the first. It has them if
/// the word names it, or no command.
fn has_options(word: &str, name: &str) -> bool
    ensures { result ≡ has_options word.now name.now }
{
    if names_command(word) {
        return word == name;
    }
    true
}

/// Whether a word is the name of a command.
fn names_command(word: &str) -> bool
    ensures { result ≡ names_command word.now }
{
    is_name(word, commands())
}

/// Whether a word is the name of one of these commands.
fn is_name(word: &str, rows: &[CommandRow]) -> bool
    ensures { result ≡ list_any (λ row. bytes_eq word.now row.name.now) rows.now }
{
    for row in rows {
        if word == row.name {
            return true;
        }
    }
    false
}

/// The first word after the program's name; empty where there is none.
pub(crate) fn first_word<'a>(arguments: &[&'a str]) -> &'a str
    ensures { result.now ≡ first_word (map (λ a. a.now) arguments.now) }
{
    match arguments {
        [_, word, ..] => word,
        _ => "",
    }
}
