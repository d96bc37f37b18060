//! `relay held --long`: what a desk holds of each document, how much that is, and how it begins.

ghost use Rattle.std.specs.Prelude.{◌≡◌, ◌⊎◌, ◌++◌, ◌≤◌, ℕ, Option, is_some, length, option_map, take, IfOk, OnOk, string_bytes};
ghost use Rattle.std.specs.FinMap.{entries};
ghost use Rattle.std.specs.Option.{option_copied};
ghost use Rattle.std.specs.List.{AllByRecursion, count_by, flat_map};
ghost use Rattle.dm_assembly_desk.specs.Documents.{Documents, IsEntry, IsShort, document_of, lent_bytes};
ghost use Rattle.relay_shared.specs.Command.{RefusesOnOutput};
ghost use Rattle.relay_desk_commands.specs.Desks.{EndsHeldLong, EndsHeldLongOf, HasNoOpenDesk, IsUnseen, TellsLong, amount_text, beginning, desk_at, long_line, long_text, shown_byte};

use crate::desk_opening::{id_of, open_desk};
use crate::lines::held_end;
use dm_append_label::FileId;
use dm_assembly_desk::{AskFault, Desk, Held, MOST_CAPACITY, Pages};
use dm_store::{Store, StoreSet};
use relay_shared::{EndedDesk, Refusal, Streams, refuse, status_after};
use relay_streams::Output;
use std::alloc::{AllocError, Allocator};
use std::io::{Read, Write};

// How many bytes of a page are shown.
const MOST_SHOWN: usize = 40;

// Appends a byte as it is shown: as it is, as `\n`, or as `\x` and its two digits in hexadecimal.
fn push_shown<A: Allocator + Copy>(
    alloc: A,
    text: &mut String<A>,
    byte: u8,
) -> Result<(), AllocError>
    ensures { OnOk result (string_bytes text.new ≡ string_bytes text.old ++ shown_byte byte) }
{
    match byte {
        b'\n' => text.push_str("\\n"),
        b' '..=b'~' if byte != b'"' && byte != b'\\' => text.push(byte as char),
        _ => {
            let digits = hex::encode(alloc, [byte])?;
            text.push_str("\\x")?;
            text.push_str(digits.as_str())
        }
    }
}

// The bytes of a page that are shown.
fn first_of(page: &[u8]) -> &[u8]
    ensures { result.now ≡ take 40 page.entry.now }
{
    if page.len() > MOST_SHOWN {
        &page[..MOST_SHOWN]
    } else {
        page
    }
}

// How page 1 begins, in quotes, if it is held.
fn beginning<A: Allocator + Copy>(alloc: A, page: Option<&[u8]>) -> Result<String<A>, AllocError>
    ensures { IfOk result (λ text. string_bytes text ≡ beginning (lent_bytes page.entry)) }
{
    let mut text = String::new(alloc);
    let Some(bytes) = page else {
        return Ok(text);
    };
    text.push_str(", \"")?;
    for byte in first_of(bytes) {
        push_shown(alloc, &mut text, *byte)?;
    }
    text.push_str("\"")?;
    Ok(text)
}

// How much is held of a document.
#[derive(Clone, Copy)]
struct Amount {
    labels: u8,
    bytes: u32,
}

fn amount_of<A: Allocator + Copy>(pages: &Pages<'_, A>) -> Amount
    requires few { length pages.now ≤ 16 }
    requires short { AllByRecursion IsShort pages.now }
    ensures labels { result.labels ≡ count_by is_some pages.now }
    ensures bytes { result.bytes ≡ length (document_of pages.now) }
{
    let (mut labels, mut bytes) = (0, 0);
    for place in 0..pages.n() {
        if let Some(page) = pages.get(place + 1) {
            labels += 1;
            bytes += page.len() as u32;
        }
    }
    Amount { labels, bytes }
}

// How much is held of a document, and how that begins.
fn amount_text<A: Allocator + Copy>(alloc: A, pages: &Pages<'_, A>) -> Result<String<A>, AllocError>
    requires few { length pages.now ≤ 16 }
    requires short { AllByRecursion IsShort pages.now }
    ensures { IfOk result (λ text. string_bytes text ≡ amount_text pages.now) }
{
    let Amount { labels, bytes } = amount_of(pages);
    let n = pages.n();
    let begins = beginning(alloc, pages.get(1))?;
    let begins = begins.as_str();
    format!(in alloc; ", {labels} of {n} labels, {bytes} bytes{begins}")
}

// The line of a document.
fn line_of<A: Allocator + Copy>(
    alloc: A,
    id: FileId,
    pages: &Pages<'_, A>,
) -> Result<String<A>, AllocError>
    requires { IsEntry id pages.now }
    ensures { IfOk result (λ text. string_bytes text ≡ long_line (id, pages.now)) }
{
    let (n, mask) = (pages.n(), pages.mask());
    let (first, second) = id.words();
    let digits = hex::encode(alloc, [first, second])?;
    let end = held_end(Held { id, n, mask });
    let amount = amount_text(alloc, pages)?;
    let (digits, end, amount) = (digits.as_str(), end.as_str(), amount.as_str());
    format!(in alloc; "{digits} {n}{end}{amount}\n")
}

// The lines of all documents, by rising ID.
fn all_lines<T: StoreSet, A: Allocator + Copy>(
    alloc: A,
    desk: &Desk<T, A>,
) -> Result<String<A>, AllocError>
    ensures { IfOk result (λ text. string_bytes text ≡ flat_map long_line (entries desk.now.held)) }
{
    let all = desk.held()?;
    let mut text = String::new(alloc);
    for held in &all {
        let Some(pages) = desk.pages(held.id) else {
            unreachable!()
        };
        let line = line_of(alloc, held.id, &pages)?;
        text.push_str(line.as_str())?;
    }
    Ok(text)
}

// The line of the document of an ID, if it is held, or those of all.
fn long_text<T: StoreSet, A: Allocator + Copy>(
    alloc: A,
    desk: &Desk<T, A>,
    id: Option<FileId>,
) -> Result<Option<String<A>>, AllocError>
    ensures { IfOk result (λ text. option_map string_bytes text ≡ long_text id desk.now.held) }
{
    let Some(id) = id else {
        return Ok(Some(all_lines(alloc, desk)?));
    };
    match desk.pages(id) {
        Some(pages) => Ok(Some(line_of(alloc, id, &pages)?)),
        None => Ok(None),
    }
}

// Tells of the document of an ID, or of all, by the text of that.
fn tell_long<A: Allocator, W: Write>(
    output: &mut Output<W>,
    text: Result<Option<String<A>>, AllocError>,
) -> u8
    ensures { (id : Option ℕ) (held : Documents) → IfOk text (λ text. option_map string_bytes text ≡ long_text id held)
        → TellsLong id held output.old result output.new }
{
    match text {
        Ok(Some(text)) => status_after(output.put(text.as_bytes())),
        Ok(None) => refuse(output, AskFault::NotHeld.name()),
        Err(AllocError) => refuse(output, Refusal::Memory.name()),
    }
}

// Opens the desk, and tells of the document of an ID, or of all.
fn held_long_of<A: Allocator + Copy, S: Store, T: StoreSet, R: Read, W: Write, E: Write>(
    alloc: A,
    store: S,
    set: T,
    streams: &mut Streams<R, W, E>,
    id: Option<FileId>,
) -> EndedDesk<S, T>
    ensures ends { EndsHeldLongOf id (desk_at (S.state store) (T.state set) streams.old) result.status
        (desk_at (S.state result.store) (T.state result.set) streams.new) }
    ensures settled { T.is_settled result.set ⊎ HasNoOpenDesk RefusesOnOutput
        (desk_at (S.state store) (T.state set) streams.old) result.status
        (desk_at (S.state result.store) (T.state result.set) streams.new) }
{
    let opened = match open_desk(alloc, store, set, &mut streams.output, MOST_CAPACITY) {
        Ok(opened) => opened,
        Err(ended) => return ended,
    };
    let text = long_text(alloc, &opened.desk, id);
    let closed = match opened.close() {
        Ok(closed) => closed,
        Err(unopened) => return unopened.refuse(&mut streams.output),
    };
    let status = tell_long(&mut streams.output, text);
    closed.end(status)
}

/// Prints the lines of `held`, with more in each: how many labels and bytes are held, and the first 40 bytes of page 1
/// in quotes, if that is held. There a byte that is no printing character of ASCII, a quote or a backslash is `\n` or
/// `\x` and two digits in hexadecimal.
///
/// The desk is opened for that, so it is refused where a file is not sound, and the documents of an older version's file
/// are moved. With the text of an ID it prints that line alone, or `refused NotHeld`.
pub fn held_long_command<A: Allocator + Copy, S: Store, T: StoreSet, R: Read, W: Write, E: Write>(
    alloc: A,
    store: S,
    set: T,
    streams: &mut Streams<R, W, E>,
    text: Option<&str>,
) -> EndedDesk<S, T>
    ensures ends { EndsHeldLong (option_copied text.entry) (desk_at (S.state store) (T.state set) streams.old)
        result.status (desk_at (S.state result.store) (T.state result.set) streams.new) }
    // No stop takes back what it tells, unless that is of no desk.
    ensures settled { T.is_settled result.set ⊎ IsUnseen (option_copied text.entry)
        (desk_at (S.state store) (T.state set) streams.old) result.status
        (desk_at (S.state result.store) (T.state result.set) streams.new) }
{
    let Some(text) = text else {
        return held_long_of(alloc, store, set, streams, None);
    };
    match id_of(text) {
        Some(id) => held_long_of(alloc, store, set, streams, Some(id)),
        None => {
            let status = refuse(&mut streams.output, Refusal::FileId.name());
            EndedDesk { status, store, set }
        }
    }
}
