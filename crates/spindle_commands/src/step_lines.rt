//! A line of steps: its step, and the line that answers it.
ghost use Rattle.std.specs.Prelude.{◌≡◌, IfSome};
ghost use Rattle.spindle_commands.specs.StepLines.{name_of, party_of, operand_of, IsLineOf, Says};

use crate::numbers::number;
use spindle_parts::steps::{Reply, Step};
use std::io;
use std::io::Write;

/// The step that a line says, if it says one. The line ends with its newline, or with the input.
pub fn parse_step(line: &[u8]) -> Option<Step>
    ensures { IfSome result (IsLineOf line.now) }
{
    let text = str::from_utf8(line).ok()?;
    match text.strip_suffix('\n') {
        Some(said) => step_said(said),
        None => step_said(text),
    }
}

/// The step that a text says: a name, and a party's number, and for some names one number more,
/// with one space before each number. No other text says a step.
fn step_said(text: &str) -> Option<Step>
    ensures { IfSome result (Says text.now) }
{
    let (name, numbers) = text.split_once(' ')?;
    match numbers.split_once(' ') {
        None => step_of(name, number(numbers)?),
        Some((party, operand)) => step_with(name, number(party)?, number(operand)?),
    }
}

/// The step of this name by the party.
fn step_of(name: &str, party: u32) -> Option<Step>
    ensures name { IfSome result (λ step. name.now ≡ name_of step) }
    ensures party { IfSome result (λ step. party_of step ≡ party) }
    ensures alone { IfSome result (λ step. operand_of step ≡ None) }
{
    match name {
        "join" => Some(Step::Join(party)),
        "rest" => Some(Step::Rest(party)),
        "finish" => Some(Step::Finish(party)),
        "stop" => Some(Step::Stop(party)),
        "see" => Some(Step::See(party)),
        "arrive" => Some(Step::Arrive(party)),
        "leave" => Some(Step::Leave(party)),
        "exit" => Some(Step::Exit(party)),
        "clear" => Some(Step::Clear(party)),
        "end" => Some(Step::End(party)),
        _ => None,
    }
}

/// The step of this name by the party, with a number of jobs or of a counter.
fn step_with(name: &str, party: u32, operand: u32) -> Option<Step>
    ensures name { IfSome result (λ step. name.now ≡ name_of step) }
    ensures party { IfSome result (λ step. party_of step ≡ party) }
    ensures operand { IfSome result (λ step. operand_of step ≡ Some operand) }
{
    match name {
        "publish" => Some(Step::Publish(party, operand)),
        "publish-try" => Some(Step::PublishTry(party, operand)),
        "claim" => Some(Step::Claim(party, operand)),
        _ => None,
    }
}

/// Writes the line that answers a step: the word in eight hexadecimal digits, and a claim's job after a space.
pub fn write_reply<W: Write>(answers: &mut W, reply: Reply) -> io::Result<()> {
    match reply {
        Reply::Word(word) => writeln!(answers, "{word:08x}")?,
        Reply::Job(word, number) => writeln!(answers, "{word:08x} {number}")?,
        Reply::Refused(_) => writeln!(answers, "refused")?,
    }
    answers.flush()
}
