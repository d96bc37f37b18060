//! The command of a line whose options keep the rules.

ghost use Rattle.std.specs.Prelude.{◌≡◌, ◌<◌, ◌≤◌, ℕ, codes, drop, true, option_map};
ghost use Rattle.clap.specs.Words.{first_of, found_of, rows_of};
ghost use Rattle.relay_command.specs.Schemes.{scheme_name};
ghost use Rattle.relay_line.specs.Line.{HasLabels, HasText, IsCommandOf, number_at};
ghost use Rattle.relay_line.specs.Listed.{doing_commands};
ghost use Rattle.relay_line.specs.declared.options.Values.{Values};
ghost use Rattle.relay_line.specs.declared.options.Values.TheVariants.{Number, Scheme as TakesScheme};
ghost use Rattle.relay_line.specs.Rules.{keeps_rules, keeps_rules_in, meets, takes};

use crate::check::{has, is_set};
use clap::ArgMatches;
use dm_encodation::Scheme;
use relay_command::{Command, Labels, scheme_of};

// The text of an option that has one, and takes it.
fn text_of<'a>(options: &ArgMatches<'a>, name: &str) -> &'a str
    ensures { (values : Values) → meets (rows_of (found_of options.now)) name.now values ≡ true
        → (first_of name.now (rows_of (found_of options.now)) ≡ Some result.now) × (takes values result.now ≡ true) }
{
    match some_text_of(options, name) {
        Some(text) => text,
        None => "",
    }
}

/// The text of an option, if it has one.
#[tactic(auto, using(crate::proofs::Found::first_value_of))]
pub fn some_text_of<'a>(options: &ArgMatches<'a>, name: &str) -> Option<&'a str>
    ensures { option_map (λ text. text.now) result ≡ first_of name.now (rows_of (found_of options.now)) }
{
    options.get_str(name)
}

// The number of an option that takes such numbers.
fn number_of(options: &ArgMatches<'_>, name: &str) -> u16
    ensures { (least most : ℕ) → most < 65536
        → meets (rows_of (found_of options.now)) name.now (Number least most) ≡ true
        → (least ≤ result) × (result ≤ most) × (number_at (rows_of (found_of options.now)) name.now ≡ Some result) }
{
    match text_of(options, name).parse::<u16>() {
        Ok(number) => number,
        Err(_) => 0,
    }
}

// The encodation, which has a default.
fn encodation_of(options: &ArgMatches<'_>) -> Scheme
    ensures { meets (rows_of (found_of options.now)) (codes "scheme") TakesScheme ≡ true
        → HasText (rows_of (found_of options.now)) "scheme" (scheme_name result) }
{
    match scheme_of(text_of(options, "scheme")) {
        Some(scheme) => scheme,
        None => Scheme::Ascii,
    }
}

// Which labels a print has.
fn labels_of(options: &ArgMatches<'_>) -> Labels
    requires { keeps_rules (codes "print") (rows_of (found_of options.now)) ≡ true }
    ensures { HasLabels (rows_of (found_of options.now)) result }
{
    if has(options, "labels") {
        Labels::AtMost(number_of(options, "labels"))
    } else {
        Labels::OfSide(number_of(options, "side"))
    }
}

// Which IDs a give names.
#[rattlefmt::skip]
fn give_of<'a>(options: &ArgMatches<'a>) -> Command<'a>
    requires { keeps_rules (codes "give") (rows_of (found_of options.now)) ≡ true }
    ensures { IsCommandOf (rows_of (found_of options.now)) (codes "give") result }
{
    let (file, number, to) = (text_of(options, "file"), number_of(options, "number"), number_of(options, "to"));
    if has(options, "count") {
        Command::GiveLast { file, number, to, count: number_of(options, "count") }
    } else {
        Command::Give { file, number, to, first: number_of(options, "first"), last: number_of(options, "last") }
    }
}

// Whether a deliver is of one document or of all.
#[rattlefmt::skip]
fn deliver_of<'a>(options: &ArgMatches<'a>) -> Command<'a>
    requires { keeps_rules (codes "deliver") (rows_of (found_of options.now)) ≡ true }
    ensures { IsCommandOf (rows_of (found_of options.now)) (codes "deliver") result }
{
    let file = text_of(options, "file");
    match some_text_of(options, "id") {
        Some(id) => Command::Deliver { file, id },
        None => Command::DeliverAll { file, folder: text_of(options, "all"), forgets: is_set(options, "forget") },
    }
}

// The same of an export.
fn export_of<'a>(options: &ArgMatches<'a>) -> Command<'a>
    requires { keeps_rules (codes "export") (rows_of (found_of options.now)) ≡ true }
    ensures { IsCommandOf (rows_of (found_of options.now)) (codes "export") result }
{
    let file = text_of(options, "file");
    match some_text_of(options, "id") {
        Some(id) => Command::Export { file, id },
        None => Command::ExportAll {
            file,
            folder: text_of(options, "all"),
        },
    }
}

// The commands from `scan` on, in the order of the table.
#[rattlefmt::skip]
fn desk_command_of<'a>(name: &str, options: &ArgMatches<'a>) -> Command<'a>
    requires { keeps_rules_in (drop 11 doing_commands) name.now (rows_of (found_of options.now)) ≡ true }
    ensures { IsCommandOf (rows_of (found_of options.now)) name.now result }
{
    let file = text_of(options, "file");
    match name {
        "scan" => Command::Scan { file, capacity: number_of(options, "capacity") },
        "deliver" => deliver_of(options),
        "forget" => Command::Forget { file, id: text_of(options, "id") },
        "export" => export_of(options),
        "import" => Command::Import { file, capacity: number_of(options, "capacity") },
        "held" => Command::Held { file, id: some_text_of(options, "id"), is_long: is_set(options, "long") },
        "copy" => {
            let (id, page, side) = (text_of(options, "id"), number_of(options, "page"), number_of(options, "side"));
            Command::Copy { file, id, page, side, scheme: encodation_of(options) }
        }
        _ => Command::World,
    }
}

// Those from `ticket` on.
#[rattlefmt::skip]
fn ticket_command_of<'a>(name: &str, options: &ArgMatches<'a>) -> Command<'a>
    requires { keeps_rules_in (drop 7 doing_commands) name.now (rows_of (found_of options.now)) ≡ true }
    ensures { IsCommandOf (rows_of (found_of options.now)) name.now result }
{
    match name {
        "ticket" => Command::Ticket { ticket: text_of(options, "ticket") },
        "take" => Command::Take {
            file: text_of(options, "file"), number: number_of(options, "number"), ticket: text_of(options, "ticket"),
        },
        "left" => Command::Left { file: text_of(options, "file") },
        "audit" => Command::Audit,
        _ => desk_command_of(name, options),
    }
}

// Those from `ledger` on.
#[rattlefmt::skip]
fn printer_command_of<'a>(name: &str, options: &ArgMatches<'a>) -> Command<'a>
    requires { keeps_rules_in (drop 3 doing_commands) name.now (rows_of (found_of options.now)) ≡ true }
    ensures { IsCommandOf (rows_of (found_of options.now)) name.now result }
{
    let (file, number) = (text_of(options, "file"), number_of(options, "number"));
    match name {
        "ledger" => {
            Command::Ledger { file, number, first: number_of(options, "first"), last: number_of(options, "last") }
        }
        "plan" => Command::Plan { scheme: encodation_of(options) },
        "print" => Command::Print { file, number, labels: labels_of(options), scheme: encodation_of(options) },
        "give" => give_of(options),
        _ => ticket_command_of(name, options),
    }
}

/// The command of a name that does something, with the options that the parser found.
#[rattlefmt::skip]
pub fn command_of<'a>(name: &str, options: &ArgMatches<'a>) -> Command<'a>
    requires { keeps_rules_in doing_commands name.now (rows_of (found_of options.now)) ≡ true }
    ensures { IsCommandOf (rows_of (found_of options.now)) name.now result }
{
    match name {
        "words" => Command::Words { side: number_of(options, "side"), scheme: encodation_of(options) },
        "draw" => {
            let (side, scheme) = (number_of(options, "side"), encodation_of(options));
            Command::Draw { side, scheme, plain: is_set(options, "plain") }
        }
        "read" => Command::Read,
        _ => printer_command_of(name, options),
    }
}
