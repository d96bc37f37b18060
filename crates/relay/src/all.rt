//! `--all`: what a desk gives of all its documents goes to files of a folder.

ghost use Rattle.std.specs.Prelude.{◌≡◌, ◌≢◌, ◌<◌, ◌++◌, ◌∷◌, true, All, IfOk, IfSome, Ok, map, string_bytes};
ghost use Rattle.dm_assembly_desk.specs.Documents.{DeskView};
ghost use Rattle.relay_shared.specs.Lines.{id_text};
ghost use Rattle.relay_desk_commands.specs.Desks.{GivesAll, IsTextOfId, Yields};
ghost use Rattle.relay.specs.Program.{DoesForAll, ForgetsEach, GivesEach, GivesHeld, Notes, OpensBetween, OrNothing};
ghost use Rattle.relay.specs.Program.{RefusesNoted, SavesOutput, StandardView, incomplete_text, system_at};
ghost use Rattle.relay_places.specs.Notes.{note_line};
ghost use Rattle.relay.specs.inner.Given.{GivesThese};

use crate::named::ForAll;
use crate::system::System;
use relay_desk_commands::{EndedAll, GivenAll, GivenDocument, give_all};
use relay_places::{Access, Closed, Named, Note, Places, note_of_desk};
use relay_shared::greater;
use std::alloc::{AllocError, Global};
use std::io::{Read, Write};

// The path of the file of a document in a folder.
fn path_of(alloc: Global, folder: &str, document: &GivenDocument) -> Result<String, AllocError>
    ensures path { IfOk result (λ path. string_bytes path ≡ folder.now ++ 47 ∷ id_text document.now.id) }
    ensures of_id { IsTextOfId (id_text document.now.id) document.now.id }
{
    let id = document.id_text(alloc)?;
    let id = id.as_str();
    format!(in alloc; "{folder}/{id}")
}

// How many documents are incomplete.
fn text_of_incomplete(alloc: Global, count: usize) -> Result<String, AllocError>
    ensures { IfOk result (λ text. string_bytes text ≡ incomplete_text count) }
{
    let ending = match count {
        1 => "document is incomplete",
        _ => "documents are incomplete",
    };
    format!(in alloc; "{count} {ending}")
}

// What says how many documents are incomplete, if any are.
fn note_of_incomplete(alloc: Global, count: usize) -> Option<Note>
    ensures { IfSome result (λ note. (0 < count) × (note ≡ note_line (incomplete_text count))) }
{
    if count == 0 {
        return None;
    }
    match text_of_incomplete(alloc, count) {
        Ok(text) => Note::of_text(alloc, text.as_str()),
        Err(AllocError) => None,
    }
}

impl<I: Read + Drop, O: Write + Drop, E: Write + Drop, P: Places> System<I, O, E, P> {
    // Writes the line of a refusal to the standard error, and a note, if there is one, and gives the exit status.
    fn refuse_noted(self, alloc: Global, name: &str, note: Option<Note>) -> (u8, Self)
        ensures told { RefusesNoted name.now self.standard result.0 result.1.standard }
        ensures status { result.0 ≡ 1 }
        ensures places { P.state result.1.places ≡ P.state self.places }
    {
        let System { standard, places } = self;
        let (status, standard) = standard.refuse_noted(alloc, name, note);
        (status, System { standard, places })
    }

    // Saves what is given of a document as the file of its ID in a folder, unless that is the path of the desk.
    fn save_one(self, alloc: Global, all: ForAll<'_>, document: &GivenDocument) -> (u8, Self)
        ensures saves { SavesOutput (all.entry.folder.now ++ 47 ∷ id_text document.now.id) document.now.bytes.items
            (system_at self.standard (P.state self.places)) result.0
            (system_at result.1.standard (P.state result.1.places)) }
        ensures of_id { IsTextOfId (id_text document.now.id) document.now.id }
        ensures desk { P.state result.1.places all.entry.file.now ≡ P.state self.places all.entry.file.now }
    {
        let Ok(path) = path_of(alloc, all.folder, document) else {
            return self.refuse_noted(alloc, "Memory", None);
        };
        if path.as_str() == all.file {
            return self.refuse_noted(alloc, "Save", note_of_desk(alloc, all.file));
        }
        self.save_output(alloc, path.as_str(), document.bytes.as_slice())
    }

    // Saves what is given of each document, one after another, and gives the greatest exit status.
    fn save_each(self, alloc: Global, all: ForAll<'_>, documents: &[GivenDocument]) -> (u8, Self)
        ensures { (desk : DeskView)
            → OpensBetween desk (P.state self.places all.entry.file.now) (P.state self.places all.entry.file.now)
            → All (λ given. Yields all.entry.given given.id desk.held (Ok given.bytes.items)) documents.now
            → GivesEach Global all.entry.given all.entry.file.now all.entry.folder.now
            (map (λ given. id_text given.id) documents.now) (system_at self.standard (P.state self.places)) result.0
            (system_at result.1.standard (P.state result.1.places)) }
    {
        let (mut status, mut system) = (0, self);
        for document in documents {
            let (one, next) = system.save_one(alloc, all, document);
            (status, system) = (greater(status, one), next);
        }
        (status, system)
    }

    // Saves what a desk has given of all its documents, and gives the exit status.
    fn save_all(
        self,
        alloc: Global,
        all: ForAll<'_>,
        given: &GivenAll,
        closed: Closed,
    ) -> (u8, Self)
        ensures { (desk : DeskView)
            → OpensBetween desk (P.state self.places all.entry.file.now) (P.state self.places all.entry.file.now)
            → GivesAll all.entry.given desk.held given.now
            → (seen : StandardView) × Notes self.standard seen
            × GivesHeld Global all.entry.given all.entry.file.now all.entry.folder.now desk.held
            (system_at seen (P.state self.places)) result.0 (system_at result.1.standard (P.state result.1.places)) }
    {
        let System { standard, places } = self;
        if closed.is_absent && given.documents.is_empty() && given.incomplete == 0 {
            return System { standard, places }.refuse_noted(alloc, "Absent", closed.note);
        }
        let standard = standard.noted(alloc, closed.note);
        let system = System { standard, places };
        let (status, system) = system.save_each(alloc, all, given.documents.as_slice());
        let System { standard, places } = system;
        let standard = standard.noted(alloc, note_of_incomplete(alloc, given.incomplete));
        (status, System { standard, places })
    }

    // Forgets these documents, one after another, and gives the greatest exit status.
    fn forget_each(self, alloc: Global, file: &str, documents: &[GivenDocument]) -> (u8, Self)
        ensures { ForgetsEach Global file.now (map (λ given. id_text given.id) documents.now)
            (system_at self.standard (P.state self.places)) result.0
            (system_at result.1.standard (P.state result.1.places)) }
    {
        let (mut status, mut system) = (0, self);
        for given in documents {
            let (one, left) = system.forget_one(alloc, file, given);
            (status, system) = (greater(status, one), left);
        }
        (status, system)
    }

    // Gives what is asked for of all documents of a desk, as files in a folder, unless memory is refused for the paths.
    // Of the documents that were given these are left, if the exit status is 0.
    fn give_all_of(
        self,
        alloc: Global,
        all: ForAll<'_>,
    ) -> (Result<u8, AllocError>, Vec<GivenDocument>, Self)
        ensures { GivesThese Global all.entry.given all.entry.file all.entry.folder
            (map (λ given. id_text given.id) result.1.items) (system_at self.standard (P.state self.places)) result.0
            (system_at result.2.standard (P.state result.2.places)) }
    {
        let System {
            standard,
            mut places,
        } = self;
        let named = Named {
            file: all.file,
            is_desk: true,
            access: Access::Reads,
        };
        let Ok((file, folder)) = places.open(named) else {
            return (
                Err(AllocError),
                Vec::new(alloc),
                System { standard, places },
            );
        };
        let EndedAll { answer, store, set } = give_all(alloc, file, folder, all.given);
        let closed = places.close(named, store, set, u8::from(answer.is_err()));
        let system = System { standard, places };
        match answer {
            Ok(given) => {
                let (status, system) = system.save_all(alloc, all, &given, closed);
                (Ok(status), given.documents, system)
            }
            Err(name) => {
                let (status, system) = system.refuse_noted(alloc, name, closed.note);
                (Ok(status), Vec::new(alloc), system)
            }
        }
    }

    /// Gives what is asked for of all documents of a desk, as files in a folder, unless memory is refused for the
    /// paths; and forgets the documents that were given, if that is asked for and all were saved.
    pub(crate) fn do_all(self, alloc: Global, all: ForAll<'_>) -> (Result<u8, AllocError>, Self)
        ensures { OrNothing (DoesForAll Global all.entry.forgets all.entry.given all.entry.file all.entry.folder) (Unit {0})
            (system_at self.standard (P.state self.places)) result.0
            (system_at result.1.standard (P.state result.1.places)) }
    {
        let (ended, documents, system) = self.give_all_of(alloc, all);
        let Ok(status) = ended else {
            return (Err(AllocError), system);
        };
        if !all.forgets {
            return (Ok(status), system);
        }
        if status != 0 {
            return (Ok(status), system);
        }
        let (status, system) = system.forget_each(alloc, all.file, documents.as_slice());
        (Ok(status), system)
    }
}
