//! The arguments of the commands, and the whole program, as the parser knows them.

ghost use Rattle.std.specs.Prelude.{◌≡◌, IfOk, false, map, option_map, []};
ghost use Rattle.clap.specs.Words.{app_of, rule_of, shape_of};
ghost use Rattle.clap.specs.declared.Command.TheViews.{out-Command};
ghost use Rattle.clap.specs.Simple.{new_shape};
ghost use Rattle.relay_line.specs.Listed.{the_commands};
ghost use Rattle.relay_line.specs.Parsed.{argument_of, listing_of, rule_of_argument, shape_of_listing, the_app};
ghost use Rattle.relay_line.specs.Rules.{arguments_in};

use crate::help::{Page, page_named, said_of};
use crate::parse::VERSION;
use crate::said::Said;
use clap::{Arg, ArgAction, Command};
use std::alloc::{AllocError, Global};

// How an argument stands on a line: `--NAME VALUE`, if nothing says more; with this `Default` if it is left out; as a
// `Flag`, `--NAME`; as at most one `Word`, or any number of `Words`.
#[derive(Clone, Copy)]
#[rattlefmt::skip]
pub enum Kind { Optional, Required, Default(&'static str), Flag, Word, Words }

// What the value of an argument has to be: any text; a path, or a path but `-`; a number from here to there; the name
// of an encodation; or what the parser writes for a flag. The parser takes any text, and `check` looks at it.
#[derive(Clone, Copy)]
#[rattlefmt::skip]
pub enum Values { Text, Path, NoDash, Number(u16, u16), Scheme, Truth }

// An argument: its name, its kind, and what its value has to be.
#[derive(Clone, Copy)]
#[rattlefmt::skip]
pub struct Row(pub &'static str, pub Kind, pub Values);

/// A command with its arguments. What the helps say of them stands apart, in the same order.
#[rattlefmt::skip]
pub struct Listed { name: &'static str, rows: &'static [Row] }

use self::Kind::{Default, Flag, Optional, Required, Word, Words};
use self::Values::{NoDash, Number, Path, Scheme, Text, Truth};

const U16: Values = Number(0, 65_535);

const SIDE: Row = Row("side", Default("10"), Number(10, 132));

const SCHEME: Row = Row("scheme", Default("ascii"), Scheme);

const FILE: Row = Row("file", Required, Path);

const NUMBER: Row = Row("number", Required, U16);

const OWN_NUMBER: Row = Row("number", Default("0"), U16);

const CAPACITY: Row = Row("capacity", Default("64"), U16);

const TICKET: Row = Row("ticket", Required, Text);

const ID: Row = Row("id", Required, Text);

const ANY_ID: Row = Row("id", Optional, Text);

const SAVED: Row = Row("to", Optional, NoDash);

const ALL: Row = Row("all", Optional, NoDash);

const IMAGES: Row = Row("images", Words, Path);

/// All commands, in the order in which the program's help lists them.
#[rattlefmt::skip]
static COMMANDS: [Listed; 21] = [
    Listed { name: "words", rows: &[SIDE, SCHEME] },
    Listed { name: "draw", rows: &[SIDE, SCHEME, Row("plain", Flag, Truth)] },
    Listed { name: "read", rows: &[IMAGES] },
    Listed { name: "ledger", rows: &[FILE, Row("first", Required, U16), Row("last", Required, U16), OWN_NUMBER] },
    Listed { name: "plan", rows: &[SCHEME] },
    Listed { name: "print", rows: &[
        FILE, Row("side", Optional, Number(10, 132)), Row("labels", Optional, Number(2, 16)), SCHEME, OWN_NUMBER,
    ] },
    Listed { name: "give", rows: &[
        FILE, NUMBER, Row("to", Required, U16), Row("first", Optional, U16), Row("last", Optional, U16),
        Row("count", Optional, Number(1, 64_516)),
    ] },
    Listed { name: "ticket", rows: &[TICKET] },
    Listed { name: "take", rows: &[FILE, NUMBER, TICKET] },
    Listed { name: "left", rows: &[FILE] },
    Listed { name: "audit", rows: &[Row("images", Words, NoDash)] },
    Listed { name: "scan", rows: &[FILE, CAPACITY, IMAGES] },
    Listed { name: "deliver", rows: &[FILE, ANY_ID, SAVED, ALL, Row("forget", Flag, Truth)] },
    Listed { name: "forget", rows: &[FILE, ID] },
    Listed { name: "export", rows: &[FILE, ANY_ID, SAVED, ALL] },
    Listed { name: "import", rows: &[FILE, CAPACITY, IMAGES] },
    Listed { name: "held", rows: &[FILE, ANY_ID, Row("long", Flag, Truth)] },
    Listed { name: "copy", rows: &[
        FILE, ID, Row("page", Required, Number(1, 16)), Row("side", Required, Number(10, 132)), SCHEME,
    ] },
    Listed { name: "world", rows: &[] },
    Listed { name: "explain", rows: &[Row("name", Word, Text)] },
    Listed { name: "version", rows: &[] },
];

// An argument, as the parser takes it: what its value has to be, and whether it has to stand, `check` looks at.
fn argument<'a>(alloc: Global, row: &Row, said: Said) -> Arg<'a>
    ensures rule { rule_of result ≡ rule_of_argument (argument_of row.now) }
    ensures local { result.global ≡ false }
{
    let (Row(name, kind, _), Said(value, help)) = (*row, said);
    let argument = Arg::new(alloc, name).help(help);
    match kind {
        Kind::Flag => argument.long(name).action(ArgAction::SetTrue),
        Kind::Word => argument.value_name(value),
        Kind::Words => argument.value_name(value).num_args(0..),
        Kind::Default(default) => argument.value_name(value).long(name).default_value(default),
        Kind::Optional | Kind::Required => argument.value_name(value).long(name),
    }
}

// A command of no arguments yet, with its help.
fn command<'a>(alloc: Global, name: &'static str, page: &Page) -> Command<'a>
    ensures app { app_of result ≡ record { top = shape_of result; subs = [] } }
    ensures local { (out-Command result).has_globals ≡ false }
    ensures shape { shape_of result ≡ new_shape name.entry.now }
{
    Command::new(alloc, name)
        .about(page.about)
        .override_usage(page.usage)
        .after_help(page.more)
}

// A command with its arguments.
fn subcommand<'a>(alloc: Global, listed: &Listed) -> Result<Command<'a>, AllocError>
    ensures shape { IfOk result (λ command. shape_of command ≡ shape_of_listing (listing_of listed.now)) }
    ensures local { IfOk result (λ command. (out-Command command).has_globals ≡ false) }
{
    let page = page_named(listed.name);
    let mut command = command(alloc, listed.name, page);
    for (at, row) in listed.rows.iter().enumerate() {
        command = command.arg(argument(alloc, row, said_of(page, at)))?;
    }
    Ok(command)
}

/// All commands.
pub fn all_commands() -> &'static [Listed]
    ensures { map listing_of result.now ≡ the_commands }
{
    &COMMANDS
}

/// The whole program.
///
/// # Errors
/// Where the allocator refuses its memory.
pub fn program<'a>(alloc: Global) -> Result<Command<'a>, AllocError>
    ensures { IfOk result (λ command. app_of command ≡ the_app) }
{
    let mut program = command(alloc, "relay", page_named("relay"))
        .bin_name("relay")?
        .version(VERSION);
    let commands = all_commands();
    for listed in commands {
        program = program.subcommand(subcommand(alloc, listed)?)?;
    }
    Ok(program)
}

/// The arguments of the command of a name, if a table has it.
pub fn rows_in(commands: &[Listed], name: &str) -> Option<&'static [Row]>
    ensures { option_map (λ rows. map argument_of rows.now) result ≡ arguments_in (map listing_of commands.now) name.now }
{
    match commands {
        [] => None,
        [listed, ..] if listed.name == name => Some(listed.rows),
        [_, rest @ ..] => rows_in(rest, name),
    }
}
