//! The files that a command names, and where its refusals go.

ghost use Rattle.std.specs.Prelude.{◌≡◌, IfSome, IsTrue, MatchOption, option_map};
ghost use Rattle.relay.specs.Program.{IsNotOfAll, all_command, is_held, named_path, refuses_on_errors};
ghost use Rattle.relay_desk_commands.specs.declared.documents.Given.TheVariants.{Document};
ghost use Rattle.relay_places.specs.declared.place.Access.TheVariants.{Makes};

use dm_assembly_desk::MOST_CAPACITY;
use relay_command::Command;
use relay_desk_commands::Given;
use relay_places::{Access, Named};

// What a command does that gathers pages.
fn gathering(capacity: u16) -> Access {
    if (1..=MOST_CAPACITY).contains(&capacity) {
        Access::Makes
    } else {
        Access::Moves
    }
}

/// The files that a command names, if it names any.
#[rattlefmt::skip]
pub(crate) fn named_by<'a>(command: Command<'a>) -> Option<Named<'a>>
    ensures path { option_map (λ named. named.file.now) result ≡ named_path command.entry }
    ensures desk { IfSome result (λ named. named.access ≡ Makes → IsTrue named.is_desk) }
{
    let (file, is_desk, access) = match command {
        Command::Words { .. } | Command::Draw { .. } | Command::Read | Command::Audit | Command::Plan { .. }
        | Command::Ticket { .. } | Command::World => return None,
        Command::Ledger { file, .. } => (file, false, Access::Creates),
        Command::Print { file, .. } | Command::Give { file, .. } | Command::GiveLast { file, .. }
        | Command::Take { file, .. } => (file, false, Access::Saves),
        Command::Left { file } => (file, false, Access::Looks),
        Command::Scan { file, capacity } | Command::Import { file, capacity } => (file, true, gathering(capacity)),
        Command::Forget { file, .. } => (file, true, Access::Saves),
        Command::Deliver { file, .. } | Command::DeliverAll { file, .. } | Command::Export { file, .. }
        | Command::ExportAll { file, .. } | Command::Copy { file, .. } => (file, true, Access::Reads),
        Command::Held { file, is_long: true, .. } => (file, true, Access::Reads),
        Command::Held { file, .. } => (file, true, Access::Looks),
    };
    Some(Named { file, is_desk, access })
}

/// A command that gives something of all documents of a desk.
#[derive(Clone, Copy)]
pub(crate) struct ForAll<'a> {
    /// What it gives of each.
    pub(crate) given: Given,
    /// The path of the desk.
    pub(crate) file: &'a str,
    /// The folder of the files that it makes.
    pub(crate) folder: &'a str,
    /// Whether it forgets the documents that it gives.
    pub(crate) forgets: bool,
}

/// What a command gives of all documents of a desk, if it is such a command.
pub(crate) fn for_all<'a>(command: Command<'a>) -> Option<ForAll<'a>>
    ensures all { MatchOption result (IsNotOfAll command.entry)
        (λ all. command.entry ≡ all_command all.given all.forgets all.file all.folder) }
    ensures forgets { IfSome result (λ all. IsTrue all.forgets → all.given ≡ Document) }
{
    match command {
        Command::DeliverAll {
            file,
            folder,
            forgets,
        } => Some(ForAll {
            given: Given::Document,
            file,
            folder,
            forgets,
        }),
        Command::ExportAll { file, folder } => Some(ForAll {
            given: Given::File,
            file,
            folder,
            forgets: false,
        }),
        _ => None,
    }
}

/// Whether the refusals of a command go to the standard error, since its output is bytes for another program. Those of
/// each other command are lines of its output.
pub(crate) fn refuses_on_errors(command: Command) -> bool
    ensures { result ≡ refuses_on_errors command.entry }
{
    matches!(
        command,
        Command::Draw { .. }
            | Command::Print { .. }
            | Command::Deliver { .. }
            | Command::DeliverAll { .. }
            | Command::Export { .. }
            | Command::ExportAll { .. }
            | Command::Copy { .. }
    )
}

/// Whether a command says what a desk holds.
pub(crate) fn is_held(command: Command) -> bool
    ensures { result ≡ is_held command.entry }
{
    matches!(command, Command::Held { .. })
}
