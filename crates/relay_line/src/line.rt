//! A line: its command, and the other files that it names.

ghost use Rattle.std.specs.Prelude.{◌≡◌};
ghost use Rattle.relay_line.specs.Line.{saves_output};

use relay_command::Command;

/// A command, and the files that its line names beside that of the command.
#[derive(Drop)]
pub struct CommandLine<'a> {
    pub command: Command<'a>,
    /// Those that `read` or `scan` takes images from, `audit` ledgers or `import` pages, in turn.
    pub images: Vec<&'a str>,
    /// The one that `deliver` or `export` saves its output as, if it is not the standard output.
    pub saved_as: Option<&'a str>,
}

/// Whether a command can save its output as a file, in place of the standard output.
pub(crate) fn saves_output(command: Command) -> bool
    ensures { result ≡ saves_output command.entry }
{
    matches!(command, Command::Deliver { .. } | Command::Export { .. })
}
