//! Where the texts of a request go: standard output, a file, or nowhere.

ghost use Rattle.std.specs.Prelude.{◌≡◌, ◌⊎◌, Some, option_map, IfOk, IfErr};
ghost use Rattle.rh_cli.specs.Outputs.{GoesTo, answers_file};

use crate::one_file::{are_crossed, is_taken};
use crate::output_file::{OutputFile, output_file};
use either::{Either, Left, Right};
use rh_command_line::{Views, is_output};
use rh_commands::LineFault;
use std::io::{self, Printer, Sink};
use std::rt::Files;

/// Where a text goes: standard output, a file, or nowhere.
pub(crate) type Output<'a, R> = Either<
    Printer<'a, R>,
    Either<OutputFile<<R as Files>::File>, Sink>,
>;

/// Where the text goes for which this file is given: nowhere where none is. `Write` comes where the
/// file can't be made.
fn output_of<'a, R>(rt: &'a R, given: Option<&str>) -> Result<Output<'a, R>, LineFault>
where
    R: Files + Print,
    ensures goes { IfOk result (λ output. GoesTo (option_map (λ t. t.now) given.entry) output) }
    ensures write { IfErr result (λ fault. fault ≡ LineFault.Write) }
{
    let Some(name) = given else {
        return Ok(Right(Right(io::sink())));
    };
    if name == "-" {
        return Ok(Left(io::writer(rt)));
    }
    match output_file(rt, name) {
        Ok(file) => Ok(Right(Left(file))),
        Err(_) => Err(LineFault::Write),
    }
}

/// Where the answers go: to standard output, or nowhere where another text goes there.
fn answers_output<'a, R>(rt: &'a R, views: &Views<'_>) -> Result<Output<'a, R>, LineFault>
where
    R: Files + Print,
    ensures goes { IfOk result (λ output. GoesTo (answers_file
        (option_map (λ t. t.now) views.now.cycles) (option_map (λ t. t.now) views.now.history))
        output) }
    ensures write { IfErr result (λ fault. fault ≡ LineFault.Write) }
{
    if is_output(views.cycles) {
        return output_of(rt, None);
    }
    if is_output(views.history) {
        return output_of(rt, None);
    }
    output_of(rt, Some("-"))
}

/// Where a text goes for which this file is given, where the other file is read. Nothing is written
/// where it would go to that file. That a file has the name that is given for it no clause says.
pub(crate) fn text_output<'a, R>(
    rt: &'a R,
    file: &str,
    out: &str,
) -> Result<Output<'a, R>, LineFault>
where
    R: Files + Print,
    ensures goes { IfOk result (λ output. GoesTo (Some out.now) output) }
    ensures refused { IfErr result (λ fault.
        (fault ≡ LineFault.Write) ⊎ (fault ≡ LineFault.SameFile)) }
{
    let output = output_of(rt, Some(out))?;
    if is_taken(rt, file, Some(out)) {
        return Err(LineFault::SameFile);
    }
    Ok(output)
}

/// Where the texts of views go: the answers, the history and the cycles, where this file is read.
/// Nothing is written where one of them would go to the file of another. That a file has the name
/// that is given for it no clause says.
pub(crate) fn outputs_of<'a, R>(
    rt: &'a R,
    file: &str,
    views: &Views<'_>,
) -> Result<(Output<'a, R>, Output<'a, R>, Output<'a, R>), LineFault>
where
    R: Files + Print,
    ensures answers { IfOk result (λ outputs. GoesTo (answers_file
        (option_map (λ t. t.now) views.now.cycles) (option_map (λ t. t.now) views.now.history))
        outputs.0) }
    ensures history { IfOk result (λ outputs.
        GoesTo (option_map (λ t. t.now) views.now.history) outputs.1) }
    ensures cycles { IfOk result (λ outputs.
        GoesTo (option_map (λ t. t.now) views.now.cycles) outputs.2) }
    ensures refused { IfErr result (λ fault.
        (fault ≡ LineFault.Write) ⊎ (fault ≡ LineFault.SameFile)) }
{
    let answers = answers_output(rt, views)?;
    let history = output_of(rt, views.history)?;
    let cycles = output_of(rt, views.cycles)?;
    if are_crossed(rt, file, views) {
        return Err(LineFault::SameFile);
    }
    Ok((answers, history, cycles))
}
