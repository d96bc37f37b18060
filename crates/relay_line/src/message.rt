//! What is said of a line that is not taken, and the helps.

ghost use Rattle.std.specs.Prelude.{◌≡◌, ◌++◌, ℕ, List, codes, string_bytes, IfOk};

use crate::explain::first_line;
use crate::help::Page;
use clap::error::ErrorKind;
use std::alloc::{AllocError, Global};

// What the program's help leaves out of the parser's lines.
const HELP_LINE: &str = "\n  help     Print this message or the help of the given subcommand(s)";

/// What refuses a line, from the lines that say why.
pub fn refusal(alloc: Global, page: &Page, why: &str) -> Result<String, AllocError> {
    let usage = page.usage;
    format!(in alloc; "{why}Usage: {usage}\n`--help` says more.\n")
}

// The part of a text between these two, the first of which begins it; and what follows.
fn between<'t>(text: &'t str, before: &str, after: &str) -> Option<(&'t str, &'t str)> {
    text.strip_prefix(before)?.split_once(after)
}

// What the parser refuses, by its text, as it is told in no other way; and what follows in the text.
fn refused_in<'t>(kind: ErrorKind, text: &'t str) -> Option<(&'t str, &'t str)> {
    match kind {
        ErrorKind::UnknownArgument => between(text, "error: unexpected argument '", "' found\n"),
        ErrorKind::InvalidSubcommand => between(text, "error: unrecognized subcommand '", "'\n"),
        ErrorKind::InvalidValue => between(text, "error: a value is required for '", "' but"),
        ErrorKind::ArgumentConflict => between(text, "error: the argument '", "' cannot"),
        ErrorKind::TooManyValues => {
            let (_, option) = between(text, "error: unexpected value '", "' for '")?;
            option.split_once("' found")
        }
        _ => None,
    }
}

// Why a word may not stand where it does.
fn misplaced(alloc: Global, command: &str, word: &str) -> Result<String, AllocError> {
    let shown = word.escape_debug();
    if !word.starts_with('-') {
        return format!(in alloc; "{shown} is one word too many for `{command}`");
    }
    if command == "relay" {
        return format!(in alloc; "{shown} has to follow a command");
    }
    let more = match word.as_bytes() {
        [_, b'0'..=b'9', ..] => ", and takes no number below 0",
        _ => "",
    };
    format!(in alloc; "`{command}` has no option {shown}{more}")
}

// Why the parser refuses a word or an option. What could end the line is escaped in it.
fn reason_of(
    alloc: Global,
    kind: ErrorKind,
    command: &str,
    refused: &str,
) -> Result<String, AllocError> {
    let shown = refused.split(' ').next().unwrap_or(refused).escape_debug();
    match kind {
        ErrorKind::UnknownArgument => misplaced(alloc, command, refused),
        ErrorKind::InvalidValue => format!(in alloc; "{shown} needs a value"),
        ErrorKind::ArgumentConflict => format!(in alloc; "{shown} may stand only once"),
        ErrorKind::TooManyValues => format!(in alloc; "{shown} takes no value"),
        _ => {
            let shown = refused.escape_debug();
            format!(in alloc; "no command is called `{shown}`")
        }
    }
}

// What the parser advises, if it does, as a line.
fn tip_of(alloc: Global, text: &str) -> Result<String, AllocError> {
    let Some((_, tip)) = text.split_once("  tip: ") else {
        return Ok(String::new(alloc));
    };
    let tip = first_line(tip).replace(alloc, "'", "`")?;
    let tip = tip.as_str().replace(alloc, "subcommand", "command")?;
    let shown = tip.as_str().escape_debug();
    format!(in alloc; "relay: {shown}\n")
}

// The parser's message, which begins with the program's name in place of `error`.
fn renamed(alloc: Global, text: &str) -> Result<String, AllocError>
    ensures { (rest : List ℕ) → text.now ≡ codes "error: " ++ rest
        → IfOk result (λ message. string_bytes message ≡ codes "relay: " ++ rest) }
{
    match text.strip_prefix("error: ") {
        Some(rest) => format!(in alloc; "relay: {rest}"),
        None => String::from_str(alloc, text),
    }
}

/// What the parser says of a line that it refuses, in our words, or in its own where we have none.
pub fn message_of(
    alloc: Global,
    kind: ErrorKind,
    text: &str,
    page: &Page,
) -> Result<String, AllocError> {
    let Some((refused, rest)) = refused_in(kind, text) else {
        return renamed(alloc, text);
    };
    let reason = reason_of(alloc, kind, page.name, refused)?;
    let tip = tip_of(alloc, rest)?;
    let why = format!(in alloc; "relay: {reason}\n{tip}")?;
    refusal(alloc, page, why.as_str())
}

// The headings of the program's help, and where they stand.
const HEADINGS: [(&str, &str); 4] = [
    ("\n  words ", "\nSymbols:\n  words "),
    ("\n  ledger ", "\nPrinters:\n  ledger "),
    ("\n  scan ", "\nDesks:\n  scan "),
    ("\n  world ", "\nOther:\n  world "),
];

/// The parser's help, with a heading above each group of commands.
pub fn help_of(alloc: Global, text: &str) -> Result<String, AllocError> {
    let mut text = text.replace(alloc, HELP_LINE, "")?;
    for (line, with_heading) in HEADINGS {
        text = text.as_str().replace(alloc, line, with_heading)?;
    }
    Ok(text)
}
