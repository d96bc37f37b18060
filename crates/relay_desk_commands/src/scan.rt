//! `relay scan`: labels gathered at a desk.

ghost use Rattle.std.specs.Prelude.{◌≡◌, map, false, true, IfOk, IfSome, IsSome, MatchResult, None, OnErr, Result, string_bytes};
ghost use Rattle.std.specs.Io.KnownBytes.{Appends};
ghost use Rattle.dm_assembly_desk.specs.Desk.{AcceptsGrid, Scans};
ghost use Rattle.dm_assembly_desk.specs.Documents.{DeskView, KeepsPages, DeskIsInOrder};
ghost use Rattle.dm_append_label.specs.{Labels.PageView, declared.fault.LabelFault.LabelFault};
ghost use Rattle.relay_streams.specs.Streams.{AppendsPart, refused_line};
ghost use Rattle.dm_pbm_io.specs.Image.{picture};
ghost use Rattle.relay_desk_commands.specs.Desks.{desk_at, EndsRefusal, EndsScan, IsIdOn, IsUnsettled, rests_on_held, scan_images};

use crate::desk_opening::{OpenDesk, open_desk};
use crate::lines::room_text;
use dm_append_label::LabelFault::{Block, Border};
use dm_append_label::{FileId, MOST_PAGE_BYTES, open_page};
use dm_assembly_desk::{Accepted, Desk, Kind, MoveFault, ScanFault};
use dm_finder_frame::LentGrid;
use dm_pbm_io::{Image, ShapeFault, grid_in};
use dm_store::{Store, StoreFault, StoreSet};
use relay_shared::{
    Answered, DONE, EndedDesk, NamedFile, OnImages, REFUSED, Streams, each_input, note_ending,
    put_accepted, put_image_note,
};
use relay_streams::{Output, WriteFault};
use std::alloc::Allocator;
use std::io::{Read, Write};

// The ID of a label, if the grid opens as one.
fn id_of_label(grid: &LentGrid) -> Option<FileId>
    ensures { IfSome result (IsIdOn grid.now) }
{
    match open_page(grid, &mut [0u8; MOST_PAGE_BYTES]) {
        Ok(page) => Some(page.id),
        Err(_) => None,
    }
}

// Writes the line of a refusal, after which the scan may have ended.
fn put_refused<W: Write>(
    output: &mut Output<W>,
    name: &str,
    last: bool,
) -> Result<Answered, WriteFault>
    ensures { MatchResult result
        (λ answered. Appends output.old.contents output.new.contents (refused_line name.now)
        × (answered.refused ≡ true) × (answered.last ≡ last))
        (λ _. AppendsPart output.old.contents output.new.contents (refused_line name.now)
        × (output.new.has_failed ≡ true)) }
{
    output.put_refusal(name)?;
    Ok(Answered { last, ..REFUSED })
}

// Hands the grid of each image to the desk, writes the line of the answer, and notes of which image a refusal is.
#[derive(Drop)]
struct Scanning<T: StoreSet, A: Allocator + Copy> {
    desk: Desk<T, A>,
    // What was held when the desk was opened is settled, if it was.
    settled: Option<T::Settled>,
}

impl<T: StoreSet, A: Allocator + Copy> Scanning<T, A> {
    // Whether an answer rests on what was held before. Then nothing was saved.
    fn rests_on_held(answer: &Result<Accepted, ScanFault>) -> bool
        ensures rests { result ≡ rests_on_held answer.now }
        ensures nothing_saved { (opened : Result PageView LabelFault) → (before after : DeskView)
            → Scans opened before answer.now after → result ≡ true → after ≡ before }
    {
        match answer {
            Ok(accepted) => matches!(accepted.kind, Kind::Again),
            Err(fault) => matches!(fault, ScanFault::Conflict | ScanFault::Full),
        }
    }

    // Hands a grid to the desk. An answer that rests on what was held before is given only once that is settled, so no
    // stop of the machine takes back a page that was reported as held. A save settles what it keeps.
    fn accept(&mut self, grid: &LentGrid) -> Result<Result<Accepted, ScanFault>, StoreFault>
        requires { self.old.desk.is_failed ≡ false }
        ensures answers { MatchResult result (λ answer. AcceptsGrid grid.now self.old.desk answer self.new.desk)
            (λ why. IsUnsettled grid.now why self.old.desk × (self.new.desk ≡ self.old.desk)) }
        ensures settled { IfOk result (λ answer. rests_on_held answer ≡ true → IsSome self.new.settled) }
        ensures unsettled { OnErr result ((self.old.settled ≡ None) × (self.new.settled ≡ None)) }
        ensures kept { KeepsPages self.old.desk.held self.new.desk.held }
        ensures order { DeskIsInOrder self.new.desk }
    {
        let answer = self.desk.accept_lent(grid);
        if self.settled.is_some() | !Self::rests_on_held(&answer) {
            return Ok(answer);
        }
        self.settled = Some(self.desk.settle()?);
        Ok(answer)
    }

    // What the note of a refusal ends with.
    fn ending_of(&self, alloc: A, image: &Image<A>, fault: ScanFault) -> String<A>
        ensures { EndsRefusal fault (picture image.now) self.now.desk.held (string_bytes result) }
    {
        match fault {
            ScanFault::Full => room_text(alloc, &self.desk).unwrap_or(String::new(alloc)),
            ScanFault::Label(Border { .. } | Block { .. }) => note_ending(alloc, image, true),
            _ => String::new(alloc),
        }
    }
}

impl<T: StoreSet, A: Allocator + Copy> OnImages<A> for Scanning<T, A> {
    ghost command = { scan_images };

    ghost state = { λ scanning errors. record { desk = scanning.desk; errors = errors } };

    ghost keeps = { λ before _ after _. KeepsPages before.desk.held after.desk.held
        × (DeskIsInOrder before.desk → DeskIsInOrder after.desk) };

    fn answer<W: Write, E: Write>(
        &mut self,
        alloc: A,
        output: &mut Output<W>,
        errors: &mut Output<E>,
        number: u32,
        image: &Image<A>,
    ) -> Result<Answered, WriteFault> {
        let Some(grid) = grid_in(image) else {
            let name = ShapeFault::Shape.name();
            let ending = note_ending(alloc, image, true);
            put_image_note(errors, number, None, name, &ending);
            return put_refused(output, name, false);
        };
        let accepted = match self.accept(&grid) {
            Ok(accepted) => accepted,
            Err(fault) => {
                let name = MoveFault::from(fault).name();
                put_image_note(errors, number, None, name, "");
                return put_refused(output, name, false);
            }
        };
        match accepted {
            Ok(accepted) => {
                let kind = accepted.kind.name();
                put_accepted(output, accepted.id, accepted.m, accepted.n, kind)?;
                Ok(DONE)
            }
            Err(fault) => {
                let id = id_of_label(&grid);
                let name = fault.name();
                let ending = self.ending_of(alloc, image, fault);
                put_image_note(errors, number, id, name, &ending);
                put_refused(output, name, matches!(fault, ScanFault::Save))
            }
        }
    }

    fn has_ended<E: Write>(&self, _errors: &Output<E>) -> bool {
        self.desk.has_failed()
    }

    fn see_unread<E: Write>(&mut self, errors: &mut Output<E>, number: u32, name: &str) {
        put_image_note(errors, number, None, name, "");
    }

    ghost keeps_itself = { λ now errors. ((λ id m bytes held. held), (λ order. order)) };

    ghost keeps_later = { λ first now later a b c earlier after. (
      (λ id m bytes held. after.0 id m bytes (earlier.0 id m bytes held)),
      (λ order. after.1 (earlier.1 order)),
    ) };
}

/// Reads the images of all files, or of the input where there is none, one after another. It hands the grid of each to
/// the desk, which holds and saves its page, and prints `IIII m/n new`, `again` or `complete` after the save, or
/// `refused NAME`. The desk is opened before anything is read; what it holds then is settled before the first answer
/// that rests on it.
///
/// A refused image doesn't end the command; a save that failed does. Bytes that are no image and a plain image end
/// their file, and the next file is read. At most 65,536 images of a file are read. Which image a refusal is of goes to
/// the standard error, as `relay: image N: NAME`, or `relay: image N (IIII): NAME` if its label opens, and then what
/// [`note_ending`] gives, or how many documents a full desk has room for.
pub fn scan_command<
    A: Allocator + Copy,
    S: Store,
    T: StoreSet,
    F: NamedFile,
    R: Read,
    W: Write,
    E: Write,
>(
    alloc: A,
    store: S,
    set: T,
    images: &[F],
    streams: &mut Streams<R, W, E>,
    capacity: u16,
) -> EndedDesk<S, T>
    ensures { EndsScan capacity (map F.known images.now) (desk_at (S.state store) (T.state set) streams.old)
        result.status (desk_at (S.state result.store) (T.state result.set) streams.new) }
{
    let opened = match open_desk(alloc, store, set, &mut streams.output, capacity) {
        Ok(opened) => opened,
        Err(ended) => return ended,
    };
    let OpenDesk { store, desk } = opened;
    let mut scanning = Scanning {
        desk,
        settled: None,
    };
    let status = each_input(
        alloc,
        &mut scanning,
        images,
        &mut streams.input,
        &mut streams.output,
        &mut streams.errors,
    );
    let set = scanning.desk.close();
    EndedDesk { status, store, set }
}
