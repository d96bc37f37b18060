//! From words to a command.

ghost use Rattle.std.specs.Prelude.{◌≡◌, ◌≢◌, ◌∷◌, [], codes, false, true, if◌then◌else◌, is_some, map, option_map};
ghost use Rattle.std.specs.Prelude.{slice_get, IfErr, IfOk, Some};
ghost use Rattle.std.specs.Option.{option_map_or};
ghost use Rattle.clap.specs.Words.{found_of, kind_of, rows_of};
ghost use Rattle.relay_line.specs.Explaining.{explained};
ghost use Rattle.relay_line.specs.Line.{EndsAmong, Gives, HasFiles, IsCommandOf, IsDefault, IsLineMet, IsLineOf, met_rows};
ghost use Rattle.relay_line.specs.declared.fault.LineFault.TheVariants.{Memory};
ghost use Rattle.relay_line.specs.Listed.{doing_commands};
ghost use Rattle.relay_line.specs.Rules.{endings, endings_at, endings_kept, endings_met, keeps_rules, keeps_rules_in, kind_status};

use crate::check::faults_of;
use crate::command::{command_of, some_text_of};
use crate::explain::{explanation_in, names_in};
use crate::explanations::EXPLANATIONS;
use crate::fault::LineFault;
use crate::help::{Page, page_named};
use crate::line::{CommandLine, saves_output};
use crate::message::{help_of, message_of, refusal};
use crate::options::{all_commands, program, rows_in};
use clap::error::ErrorKind;
use clap::{ArgMatches, Error};
use dm_encodation::Scheme;
use relay_command::Command;
use std::alloc::{AllocError, Global};
use std::convert::AsStr;

/// The program's version, and the toolchain by which it was proved.
pub const VERSION: &str = "0.9\nrattle-kit-13f logic dac8208d650f15bf";

const NO_REFUSAL: &str = "relay: no refusal has this name; `relay explain` lists them\n";

const NO_COMMAND: &str = "relay: no command stands there; `relay --help` lists them\n";

// What a line that is not taken shows.
fn shown(text: Result<String, AllocError>, status: u8) -> LineFault
    ensures { EndsAmong (status ∷ []) result }
{
    match text {
        Ok(text) => LineFault::Line { text, status },
        Err(_) => LineFault::Memory,
    }
}

// What the parser's refusal shows, or the help or version that it gives, and the status.
fn fault_of(alloc: Global, error: &Error, page: &Page) -> LineFault
    ensures ends { EndsAmong (kind_status (kind_of error.now) ∷ []) result }
    ensures memory { kind_of error.now ≡ ErrorKind.OutOfMemory → result ≡ Memory }
{
    let text = match error.to_string(alloc) {
        Ok(text) if error.kind() != ErrorKind::OutOfMemory => text,
        _ => return LineFault::Memory,
    };
    if error.use_stderr() {
        shown(message_of(alloc, error.kind(), text.as_str(), page), 2)
    } else {
        shown(help_of(alloc, text.as_str()), 0)
    }
}

// What the refusal of a name means, or the names of all.
fn explanation_of(alloc: Global, table: &[&'static str], name: Option<&str>) -> LineFault
    ensures { EndsAmong
        (option_map_or (λ n. if is_some (explained table.now n.now) then 0 else 2) name.entry 0 ∷ []) result }
{
    let Some(name) = name else {
        return shown(names_in(alloc, table), 0);
    };
    match explanation_in(table, name) {
        Some(text) => shown(String::from_str(alloc, text), 0),
        None => shown(String::from_str(alloc, NO_REFUSAL), 2),
    }
}

// The texts of `explain`.
fn explanations() -> &'static [&'static str] {
    &EXPLANATIONS
}

// What a line says whose command no name of the program's is.
fn unknown(alloc: Global) -> LineFault
    ensures { EndsAmong (2 ∷ []) result }
{
    shown(String::from_str(alloc, NO_COMMAND), 2)
}

// The command of a name, with the other files of its line.
#[tactic(auto, using(crate::proofs::Found::first_value_of, crate::proofs::Found::all_values_of))]
fn line_of<'a>(
    alloc: Global,
    name: &str,
    options: &ArgMatches<'a>,
) -> Result<CommandLine<'a>, AllocError>
    requires { keeps_rules_in doing_commands name.now (rows_of (found_of options.now)) ≡ true }
    ensures command { IfOk result (λ line. IsCommandOf (rows_of (found_of options.now)) name.now line.command) }
    ensures files { IfOk result (HasFiles (rows_of (found_of options.now))) }
{
    let command = command_of(name, options);
    let mut images = Vec::new(alloc);
    if let Some(names) = options.get_strs("images") {
        images.extend_from_slice(names)?;
    }
    let saved_as = if saves_output(command) {
        options.get_str("to")
    } else {
        None
    };
    Ok(CommandLine {
        command,
        images,
        saved_as,
    })
}

// What a command gives that does something.
fn line_of_name<'a>(
    alloc: Global,
    name: &str,
    page: &Page,
    options: &ArgMatches<'a>,
) -> Result<CommandLine<'a>, LineFault>
    requires no_explain { name.now ≢ codes "explain" }
    requires no_version { name.now ≢ codes "version" }
    ensures { Gives (endings_kept (keeps_rules name.now (rows_of (found_of options.now))))
        (IsLineMet (Some (name.now, rows_of (found_of options.now)))) result }
{
    let Some(rows) = rows_in(all_commands(), name) else {
        return Err(unknown(alloc));
    };
    let faults = faults_of(alloc, rows, page, name, options)?;
    if faults.is_empty() {
        Ok(line_of(alloc, name, options)?)
    } else {
        Err(shown(refusal(alloc, page, faults.as_str()), 2))
    }
}

// What a command gives, or shows.
fn answer<'a>(
    alloc: Global,
    name: &str,
    page: &Page,
    options: &ArgMatches<'a>,
) -> Result<CommandLine<'a>, LineFault>
    ensures { Gives (endings_at name.now (rows_of (found_of options.now)))
        (IsLineMet (Some (name.now, rows_of (found_of options.now)))) result }
{
    match name {
        "version" => Err(shown(format!(in alloc; "relay {VERSION}\n"), 0)),
        "explain" => {
            let refusal = some_text_of(options, "name");
            Err(explanation_of(alloc, explanations(), refusal))
        }
        _ => line_of_name(alloc, name, page, options),
    }
}

// `words` with its defaults.
fn default_line<'a>(alloc: Global) -> CommandLine<'a>
    ensures { IsDefault result }
{
    CommandLine {
        command: Command::Words {
            side: 10,
            scheme: Scheme::Ascii,
        },
        images: Vec::new(alloc),
        saved_as: None,
    }
}

// What a line gives, by the word after the program's name and the command that the parser met.
fn line_met<'a>(
    alloc: Global,
    page: &Page,
    word: Option<&str>,
    met: Option<(&str, &ArgMatches<'a>)>,
) -> Result<CommandLine<'a>, LineFault>
    ensures { Gives (endings_met (option_map (λ w. w.now) word.entry) (met_rows met.entry)) (IsLineMet (met_rows met.entry)) result }
{
    match (word, met) {
        (None, None) => Ok(default_line(alloc)),
        (Some(word), Some((name, options))) => {
            if word == name {
                answer(alloc, name, page, options)
            } else {
                Err(unknown(alloc))
            }
        }
        // A line that names no command, as `relay --`.
        (Some(_), None) => Err(unknown(alloc)),
        (None, Some(_)) => Err(unknown(alloc)),
    }
}

// The word after the program's name.
fn word_of<S: AsStr>(words: &[S]) -> Option<&str>
    ensures { option_map (λ word. word.now) result ≡ slice_get (map S.text words.now) 1 }
{
    match words.get(1) {
        Some(word) => Some(word.as_str()),
        None => None,
    }
}

/// Reads the program's words, the first of which is its name, as the system hands them over. Without a
/// command it is `words` with its defaults. No option of a command is taken before the command's name.
///
/// # Errors
/// A line that is wrong, or that asks for help, for the version or for what a refusal means: the fault has the text.
#[inline(never)]
pub fn command_line<'a, S: AsStr>(
    alloc: Global,
    words: &'a [S],
) -> Result<CommandLine<'a>, LineFault>
    ensures right { IfOk result (λ _. endings (map S.text words.now) ≡ []) }
    ensures line { IfOk result (IsLineOf (map S.text words.now)) }
    ensures wrong { IfErr result (EndsAmong (endings (map S.text words.now))) }
{
    let program = program(alloc)?;
    let word = word_of(words);
    let page = page_named(word.unwrap_or("relay"));
    let matches = match program.try_get_matches_from(words) {
        Ok(matches) => matches,
        Err(error) => return Err(fault_of(alloc, &error, page)),
    };
    line_met(alloc, page, word, matches.subcommand())
}
