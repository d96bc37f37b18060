//! What the words of a line say, done on a system.

ghost use Rattle.std.specs.Prelude.{◌≡◌, ◌≢◌, [], true, IfOk, IsSome, IsTrue, MatchOption, OnErr, Some};
ghost use Rattle.std.specs.Prelude.{map, string_bytes};
ghost use Rattle.relay_shared.specs.Lines.{id_text};
ghost use Rattle.relay_places.specs.Places.{HoldNothing, KeepsOthers};
ghost use Rattle.relay.specs.Program.{DoesAndSaves, DoesAt, DoesFor, DoesOrFindsNothing, ForgetsOne, Helps, Informs, NamesFiles};
ghost use Rattle.relay.specs.Program.{Notes, OrNothing, PutsRefusal, RefusesNoted, Runs, SavesOutput, ShowsOnErrors, named_path};
ghost use Rattle.relay.specs.Program.{path_of, save_fault_name, system_at, with_output};

use crate::named::{for_all, is_held, named_by, refuses_on_errors};
use crate::standard::{Done, StandardStreams, do_between, show, tell};
use crate::system::System;
use dm_store::{MemSet, MemStore, StoreFault};
use relay_command::Command;
use relay_desk_commands::GivenDocument;
use relay_line::{CommandLine, LineFault, command_line};
use relay_places::{Closed, Note, Places, SavedNew, note_of_input};
use relay_shared::NamedFile;
use std::alloc::{AllocError, Global};
use std::convert::AsStr;
use std::io::{Read, Write};

// The name of the refusal of an output that was not saved.
fn save_fault_name(fault: StoreFault) -> &'static str
    ensures { result.now ≡ save_fault_name fault }
{
    match fault {
        StoreFault::Device => "Save",
        StoreFault::Memory => "Memory",
    }
}

// The files to be read of these names.
fn inputs_of<P: Places>(
    alloc: Global,
    places: &P,
    names: &[&str],
) -> Result<Vec<P::Input>, AllocError>
    ensures given { IfOk result (λ given. map P.Input.known given.items
        ≡ map (P.known places.now) (map (λ name. name.now) names.now)) }
    ensures refused { OnErr result (map (λ name. name.now) names.now ≢ []) }
{
    let mut files = Vec::new(alloc);
    for name in names {
        files.push(places.input(*name)?)?;
    }
    Ok(files)
}

impl<I: Read + Drop, O: Write + Drop, E: Write + Drop> StandardStreams<I, O, E> {
    /// Puts a text on the standard error.
    pub(crate) fn show_on_errors(self, alloc: Global, text: &[u8]) -> Self
        ensures { ShowsOnErrors text.now self result }
    {
        let StandardStreams(input, output, errors) = self;
        let (errors, _) = show(alloc, errors, text);
        StandardStreams(input, output, errors)
    }

    /// Puts a note, if there is one, on the standard error.
    pub(crate) fn noted(self, alloc: Global, note: Option<Note>) -> Self
        ensures notes { Notes self result }
        ensures text { MatchOption note (result ≡ self) (λ lines. ShowsOnErrors lines self result) }
    {
        match note {
            Some(note) => self.show_on_errors(alloc, note.as_str().as_bytes()),
            None => self,
        }
    }

    // Writes the line of a refusal to the standard error, and gives the exit status.
    fn refuse_on_errors(self, alloc: Global, name: &str) -> (u8, Self)
        ensures { PutsRefusal true name.now self result.0 result.1 }
    {
        let StandardStreams(input, output, errors) = self;
        let (status, errors) = tell(alloc, errors, name);
        (status, StandardStreams(input, output, errors))
    }

    /// The same, with a note after it, if there is one.
    pub(crate) fn refuse_noted(self, alloc: Global, name: &str, note: Option<Note>) -> (u8, Self)
        ensures told { RefusesNoted name.now self result.0 result.1 }
        ensures status { result.0 ≡ 1 }
    {
        let (status, standard) = self.refuse_on_errors(alloc, name);
        (status, standard.noted(alloc, note))
    }

    // Shows the help that a line asks for, and gives the exit status.
    fn show_help(self, alloc: Global, text: &str) -> (u8, Self)
        ensures { Helps text.now self result.0 result.1 }
    {
        let StandardStreams(input, output, errors) = self;
        let (output, is_all) = show(alloc, output, text.as_bytes());
        let standard = StandardStreams(input, output, errors);
        if is_all {
            return (0, standard);
        }
        standard.refuse_on_errors(alloc, "Write")
    }

    // Shows why a line wasn't taken, or the help that it asks for, and gives the exit status.
    fn show_fault(self, alloc: Global, fault: &LineFault) -> (u8, Self)
        ensures { Informs fault.now self result.0 result.1 }
    {
        match fault {
            LineFault::Line { text, status: 0 } => self.show_help(alloc, text.as_str()),
            LineFault::Line { text, status } => {
                (*status, self.show_on_errors(alloc, text.as_bytes()))
            }
            LineFault::Memory => self.refuse_on_errors(alloc, "Memory"),
        }
    }
}

#[rattlefmt::skip] // a pattern a line
impl<I: Read + Drop, O: Write + Drop, E: Write + Drop, P: Places> System<I, O, E, P> {
    // Does a command that writes to the output, unless memory is refused for the paths that it names; and says whether
    // nothing was there of a desk that it was to read.
    fn do_here<F: NamedFile>(self, alloc: Global, inputs: &[F], command: Command) -> (Result<u8, AllocError>, bool, Self)
        ensures does { OrNothing (DoesAt Global command.entry (map F.known inputs.now))
            (IsSome (named_path command.entry)) (system_at self.standard (P.state self.places)) result.0
            (system_at result.2.standard (P.state result.2.places)) }
        ensures absent { IsTrue result.1 → HoldNothing (P.state result.2.places (path_of command.entry)) }
    {
        let System { standard, mut places } = self;
        let Some(named) = named_by(command) else {
            let (file, folder) = (MemStore::new(alloc), MemSet::new(alloc));
            let done = do_between(alloc, file, folder, inputs, standard, command);
            let Done { status, standard, has_no_image, .. } = done;
            let standard = standard.noted(alloc, note_of_input(alloc, has_no_image));
            return (Ok(status), false, System { standard, places });
        };
        let Ok((file, folder)) = places.open(named) else {
            return (Err(AllocError), false, System { standard, places });
        };
        let done = do_between(alloc, file, folder, inputs, standard, command);
        let Done { status, store, set, standard, has_no_image } = done;
        let Closed { note, is_absent } = places.close(named, store, set, status);
        let standard = standard.noted(alloc, note.or(note_of_input(alloc, has_no_image)));
        (Ok(status), is_absent, System { standard, places })
    }

    // Writes the line of a refusal to the standard error, or to the output, and gives the exit status.
    fn refuse(self, alloc: Global, is_on_errors: bool, name: &str) -> (u8, Self)
        ensures told { PutsRefusal is_on_errors name.now self.standard result.0 result.1.standard }
        ensures places { P.state result.1.places ≡ P.state self.places }
    {
        let System { standard, places } = self;
        if is_on_errors {
            let (status, standard) = standard.refuse_on_errors(alloc, name);
            return (status, System { standard, places });
        }
        let StandardStreams(input, output, errors) = standard;
        let (status, output) = tell(alloc, output, name);
        let standard = StandardStreams(input, output, errors);
        (status, System { standard, places })
    }

    /// Saves what a command has written as a new file, and gives the exit status.
    pub(crate) fn save_output(self, alloc: Global, path: &str, bytes: &[u8]) -> (u8, Self)
        ensures saves { SavesOutput path.now bytes.now
            (system_at self.standard (P.state self.places)) result.0
            (system_at result.1.standard (P.state result.1.places)) }
        ensures others { KeepsOthers path.now (P.state self.places) (P.state result.1.places) }
    {
        let System { standard, mut places } = self;
        let SavedNew { answer, note } = places.save_new(path, bytes);
        let Err(fault) = answer else {
            let standard = standard.noted(alloc, note);
            return (0, System { standard, places });
        };
        let (status, standard) = standard.refuse_noted(alloc, save_fault_name(fault), note);
        (status, System { standard, places })
    }

    // Does a command, and keeps what it writes.
    fn do_kept(self, alloc: Global, command: Command) -> (Result<u8, AllocError>, Vec<u8>, Self)
        ensures does { OrNothing (DoesAt Global command.entry []) (IsSome (named_path command.entry))
            (with_output (system_at self.standard (P.state self.places)) (Some [])) result.0
            (with_output (system_at result.2.standard (P.state result.2.places)) (Some result.1.items)) }
        ensures output { result.2.standard.output ≡ self.standard.output }
    {
        let System { standard, places } = self;
        let StandardStreams(input, own, errors) = standard;
        let output = Vec::new(alloc);
        let standard = StandardStreams(input, output, errors);
        let inputs: [P::Input; 0] = [];
        let (ended, _, system) = System { standard, places }.do_here(alloc, &inputs, command);
        let System { standard, places } = system;
        let StandardStreams(input, bytes, errors) = standard;
        let standard = StandardStreams(input, own, errors);
        (ended, bytes, System { standard, places })
    }

    // Does a command, and saves its output as a new file, if it was done.
    fn do_saved(self, alloc: Global, path: &str, command: Command) -> (Result<u8, AllocError>, Self)
        ensures { OrNothing (DoesAndSaves Global command.entry path.now)
            (IsSome (named_path command.entry)) (system_at self.standard (P.state self.places)) result.0
            (system_at result.1.standard (P.state result.1.places)) }
    {
        let (ended, bytes, system) = self.do_kept(alloc, command);
        let Ok(status) = ended else {
            return (Err(AllocError), system);
        };
        if status != 0 {
            return (Ok(status), system);
        }
        let (status, system) = system.save_output(alloc, path, bytes.as_slice());
        (Ok(status), system)
    }

    // Does a command with the files that it is to read. If `held` ends well where nothing is, it is refused after all.
    fn do_found<F: NamedFile>(self, alloc: Global, inputs: &[F], command: Command) -> (Result<u8, AllocError>, Self)
        ensures { OrNothing (DoesOrFindsNothing Global command.entry (map F.known inputs.now))
            (IsSome (named_path command.entry)) (system_at self.standard (P.state self.places)) result.0
            (system_at result.1.standard (P.state result.1.places)) }
    {
        let (ended, finds_nothing, system) = self.do_here(alloc, inputs, command);
        if !finds_nothing {
            return (ended, system);
        }
        if !is_held(command) {
            return (ended, system);
        }
        let Ok(status) = ended else {
            return (Err(AllocError), system);
        };
        if status != 0 {
            return (Ok(status), system);
        }
        let (status, system) = system.refuse(alloc, refuses_on_errors(command), "Absent");
        (Ok(status), system)
    }

    /// Forgets a document, unless memory is refused, and gives the exit status.
    pub(crate) fn forget_one(self, alloc: Global, file: &str, document: &GivenDocument) -> (u8, Self)
        ensures { ForgetsOne Global file.now (id_text document.now.id) (system_at self.standard (P.state self.places)) result.0
            (system_at result.1.standard (P.state result.1.places)) }
    {
        let Ok(id) = document.id_text(alloc) else {
            return self.refuse(alloc, false, "Memory");
        };
        let command = Command::Forget { file, id: id.as_str() };
        let inputs: [P::Input; 0] = [];
        let (ended, _, system) = self.do_here(alloc, &inputs, command);
        match ended {
            Ok(status) => (status, system),
            Err(AllocError) => system.refuse(alloc, false, "Memory"),
        }
    }

    // Does the command of a line with the other files of the line.
    fn do_with(self, alloc: Global, line: &CommandLine<'_>) -> (Result<u8, AllocError>, Self)
        ensures { OrNothing (DoesFor Global (P.known self.places) line.now)
            (NamesFiles line.now) (system_at self.standard (P.state self.places)) result.0
            (system_at result.1.standard (P.state result.1.places)) }
    {
        if let Some(path) = line.saved_as {
            return self.do_saved(alloc, path, line.command);
        }
        if let Some(all) = for_all(line.command) {
            return self.do_all(alloc, all);
        }
        match inputs_of(alloc, &self.places, line.images.as_slice()) {
            Ok(inputs) => self.do_found(alloc, inputs.as_slice(), line.command),
            Err(AllocError) => (Err(AllocError), self),
        }
    }

    /// Does what a line says, and gives the exit status.
    pub fn do_line(self, alloc: Global, line: &CommandLine<'_>) -> (u8, Self)
        ensures { DoesFor Global (P.known self.places) line.now
            (system_at self.standard (P.state self.places)) result.0
            (system_at result.1.standard (P.state result.1.places)) }
    {
        let (ended, system) = self.do_with(alloc, line);
        match ended {
            Ok(status) => (status, system),
            Err(AllocError) => system.refuse(alloc, refuses_on_errors(line.command), "Memory"),
        }
    }

    /// Does what the words of a line say, the first of which is the program's name, and gives the exit status: that of
    /// the command, or 2 where the line was refused, or 0 where help was asked for.
    pub fn run_line<S: AsStr>(self, alloc: Global, words: &[S]) -> (u8, Self)
        ensures { Runs Global (P.known self.places) (map S.text words.now)
            (system_at self.standard (P.state self.places)) result.0
            (system_at result.1.standard (P.state result.1.places)) }
    {
        match command_line(alloc, words) {
            Ok(line) => self.do_line(alloc, &line),
            Err(fault) => {
                let System { standard, places } = self;
                let (status, standard) = standard.show_fault(alloc, &fault);
                (status, System { standard, places })
            }
        }
    }
}
