//! What the parser leaves to be looked at: each value, the options that a command must have, and which go together.

ghost use Rattle.std.specs.Prelude.{◌≡◌, ◌&&◌, ◌||◌, ◌==◌, IfOk, OnOk, false, map, nat_le, string_len};
ghost use Rattle.std.specs.List.{list_all};
ghost use Rattle.clap.specs.Words.{found_of, rows_of};
ghost use Rattle.relay_line.specs.Parsed.{argument_of, standing_of};
ghost use Rattle.relay_line.specs.declared.options.Values.TheVariants.{Number};
ghost use Rattle.relay_line.specs.Rules.{has, has_all_or_id, has_form, has_one, is_kept, is_set, keeps_all, may_lack, takes};

use crate::help::{Page, said_of};
use crate::options::{Kind, Row, Values};
use crate::said::Said;
use clap::ArgMatches;
use relay_command::scheme_of;
use std::alloc::{AllocError, Global};

const SAVED_DASH: &str =
    "--to takes no `-`: without --to the output is the standard output, and `./-` names a file";

const ALL_DASH: &str = "--all takes no `-`: it saves in a folder, and `./-` names one";

const LEDGER_DASH: &str =
    "`audit` takes no `-`: it reads tickets from the standard input, and `./-` names a file";

const DELIVER_FORM: &str =
    "--id IIII, with or without --to FILE, or --all DIR, with or without --forget";

// Whether a number is one from `least` to `most`.
fn is_between(least: u16, most: u16, number: u16) -> bool
    ensures { result ≡ (nat_le least number && nat_le number most) }
{
    least <= number && number <= most
}

// Whether a text is a number of such a size.
fn is_number(least: u16, most: u16, text: &str) -> bool
    ensures { result ≡ takes (Number least most) text.now }
{
    match text.parse::<u16>() {
        Ok(number) => is_between(least, most, number),
        Err(_) => false,
    }
}

// Whether an argument takes a value.
fn is_taken(values: Values, value: &str) -> bool
    ensures { result ≡ takes values value.now }
{
    match values {
        Values::Text => true,
        Values::Path => value != "",
        Values::NoDash => value != "" && value != "-",
        Values::Number(least, most) => is_number(least, most, value),
        Values::Scheme => scheme_of(value).is_some(),
        Values::Truth => value == "true" || value == "false",
    }
}

// Why an argument takes no `-`.
fn why_no_dash(name: &str) -> &'static str {
    match name {
        "to" => SAVED_DASH,
        "all" => ALL_DASH,
        _ => LEDGER_DASH,
    }
}

// A value, as a refusal shows it: what could end the line is escaped.
fn shown_value(alloc: Global, value: &str) -> Result<String, AllocError> {
    if value.is_empty() {
        return String::from_str(alloc, "an empty word");
    }
    let shown = value.escape_debug();
    format!(in alloc; "{shown}")
}

// Why an argument doesn't take a value.
fn reason_of(alloc: Global, command: &str, row: &Row, value: &str) -> Result<String, AllocError> {
    let Row(name, kind, values) = *row;
    if matches!(values, Values::NoDash) && value == "-" {
        return String::from_str(alloc, why_no_dash(name));
    }
    let given = shown_value(alloc, value)?;
    match values {
        Values::Number(least, most) => {
            format!(in alloc; "--{name} takes a number from {least} to {most}, not {given}")
        }
        Values::Scheme => {
            format!(in alloc; "--{name} takes ascii, c40, text or base256, not {given}")
        }
        _ if matches!(kind, Kind::Words) => {
            format!(in alloc; "`{command}` takes paths, not {given}")
        }
        _ => format!(in alloc; "--{name} takes a path, not {given}"),
    }
}

// Adds a line that says what is wrong.
fn add_fault(faults: &mut String, why: &str) -> Result<(), AllocError>
    ensures { OnOk result ((string_len faults.new == 0) ≡ false) }
{
    faults.push_str("relay: ")?;
    faults.push_str(why)?;
    faults.push('\n')
}

// Adds what is wrong with a value of an argument.
fn add_value(
    alloc: Global,
    faults: &mut String,
    command: &str,
    row: &Row,
    value: &str,
) -> Result<(), AllocError>
    ensures { OnOk result ((string_len faults.new == 0) ≡ ((string_len faults.old == 0) && takes row.now.2 value.now)) }
{
    if is_taken(row.2, value) {
        return Ok(());
    }
    let why = reason_of(alloc, command, row, value)?;
    add_fault(faults, why.as_str())
}

// Adds what is wrong with the values that a line has for an argument.
fn add_values(
    alloc: Global,
    faults: &mut String,
    command: &str,
    row: &Row,
    values: &[&str],
) -> Result<(), AllocError>
    ensures { OnOk result ((string_len faults.new == 0)
        ≡ ((string_len faults.old == 0) && list_all (takes row.now.2) (map (λ value. value.now) values.now))) }
{
    for value in values {
        add_value(alloc, faults, command, row, *value)?;
    }
    Ok(())
}

/// Whether a line has a value for an option.
#[tactic(auto, using(crate::proofs::Found::first_value_of))]
pub fn has(options: &ArgMatches<'_>, name: &str) -> bool
    ensures { result ≡ has (rows_of (found_of options.now)) name.now }
{
    options.get_str(name).is_some()
}

/// Whether a flag stands on a line. For one that does not, the parser writes "false".
#[tactic(auto, using(crate::proofs::Found::first_value_of))]
pub fn is_set(options: &ArgMatches<'_>, name: &str) -> bool
    ensures { result ≡ is_set (rows_of (found_of options.now)) name.now }
{
    match options.get_str(name) {
        Some(text) => text == "true",
        None => false,
    }
}

// Whether it has just one of two.
fn has_one(options: &ArgMatches<'_>, one: &str, other: &str) -> bool
    ensures { result ≡ has_one (rows_of (found_of options.now)) one.now other.now }
{
    has(options, one) != has(options, other)
}

// Whether a line is of one document, or of all.
fn has_all_or_id(options: &ArgMatches<'_>) -> bool
    ensures { result ≡ has_all_or_id (rows_of (found_of options.now)) }
{
    has_one(options, "id", "all") && !(has(options, "all") && has(options, "to"))
}

// Whether the options that exclude or need each other are such as the usage of a command has them.
fn has_form(command: &str, options: &ArgMatches<'_>) -> bool
    ensures { result ≡ has_form (rows_of (found_of options.now)) command.now }
{
    match command {
        "print" => has_one(options, "side", "labels"),
        "give" => !has_one(options, "first", "last") && has_one(options, "first", "count"),
        "deliver" => {
            has_all_or_id(options) && (has(options, "all") || !is_set(options, "forget"))
        }
        "export" => has_all_or_id(options),
        _ => true,
    }
}

// What a command needs that has such options.
fn form_of(command: &str) -> &'static str {
    match command {
        "print" => "--side SIDE or --labels K, and not both",
        "give" => "--first N and --last N, or --count N alone",
        "deliver" => DELIVER_FORM,
        _ => "--id IIII, with or without --to FILE, or --all DIR alone",
    }
}

// Whether an argument may have no value.
fn may_lack(kind: Kind) -> bool
    ensures { result ≡ may_lack (standing_of kind) }
{
    matches!(kind, Kind::Optional | Kind::Word | Kind::Words)
}

// Adds that a command lacks an argument which it has to have, and of which the helps say this.
fn add_lack(
    alloc: Global,
    faults: &mut String,
    command: &str,
    row: &Row,
    said: Said,
    options: &ArgMatches<'_>,
) -> Result<(), AllocError>
    ensures { OnOk result ((string_len faults.new == 0) ≡ ((string_len faults.old == 0)
        && (may_lack (standing_of row.now.1) || has (rows_of (found_of options.now)) row.now.0.now))) }
{
    let (Row(name, kind, _), Said(value, _)) = (*row, said);
    if may_lack(kind) || has(options, name) {
        return Ok(());
    }
    let why = format!(in alloc; "`{command}` needs --{name} {value}")?;
    add_fault(faults, why.as_str())
}

// Adds what is wrong with an argument.
fn add_argument(
    alloc: Global,
    faults: &mut String,
    command: &str,
    row: &Row,
    said: Said,
    options: &ArgMatches<'_>,
) -> Result<(), AllocError>
    ensures { OnOk result ((string_len faults.new == 0)
        ≡ ((string_len faults.old == 0) && is_kept (rows_of (found_of options.now)) (argument_of row.now))) }
{
    add_lack(alloc, faults, command, row, said, options)?;
    let values = options.get_strs(row.0).unwrap_or(&[]);
    add_values(alloc, faults, command, row, values)
}

// Adds what is wrong with the options that exclude or need each other.
fn add_form(
    alloc: Global,
    faults: &mut String,
    command: &str,
    options: &ArgMatches<'_>,
) -> Result<(), AllocError>
    ensures { OnOk result ((string_len faults.new == 0)
        ≡ ((string_len faults.old == 0) && has_form (rows_of (found_of options.now)) command.now)) }
{
    if has_form(command, options) {
        return Ok(());
    }
    let form = form_of(command);
    let why = format!(in alloc; "`{command}` needs {form}")?;
    add_fault(faults, why.as_str())
}

/// What is wrong with a line that the parser takes, a line `relay: WHY` each: nothing where the line is right.
///
/// # Errors
/// Where the allocator refuses its memory.
pub fn faults_of(
    alloc: Global,
    rows: &[Row],
    page: &Page,
    command: &str,
    options: &ArgMatches<'_>,
) -> Result<String, AllocError>
    ensures { IfOk result (λ faults. (string_len faults == 0)
        ≡ keeps_all (rows_of (found_of options.now)) (map argument_of rows.now) command.now) }
{
    let mut faults = String::new(alloc);
    for (at, row) in rows.iter().enumerate() {
        add_argument(alloc, &mut faults, command, row, said_of(page, at), options)?;
    }
    add_form(alloc, &mut faults, command, options)?;
    Ok(faults)
}
