//! `relay copy`: the label of a page that a desk holds, again.

ghost use Rattle.std.specs.Prelude.{◌≡◌, ◌⊎◌, ◌≤◌, ◌*◌, true, false, length, IfOk, MatchResult, Ok, Err, Some};
ghost use Rattle.dm_append_label.specs.Labels.{Fits, IsTooLong};
ghost use Rattle.dm_append_label.specs.declared.opening.TheConstants.{MOST_PAGE_BYTES};
ghost use Rattle.dm_assembly_desk.specs.Documents.{Documents, count_at, lent_bytes, page, page_at};
ghost use Rattle.dm_pbm_io.specs.Image.{picture, written};
ghost use Rattle.relay_desk_commands.specs.Desks.{EndsCopy, GivesCopy, IsUnopened, desk_at};
ghost use Rattle.relay_shared.specs.Command.{RefusesOnErrors};
ghost use Rattle.dm_size.specs.Sizes.{IsSide};

use crate::desk_opening::{id_of, open_desk};
use dm_append_label::{FileId, Page, SealFault, seal};
use dm_assembly_desk::{Desk, MOST_CAPACITY, Pages};
use dm_encodation::{Scheme, need};
use dm_pbm_io::{Image, image_of};
use dm_size::Size;
use dm_store::{Store, StoreSet};
use relay_shared::{EndedDesk, Refusal, Streams, refuse, status_after_bytes};
use std::alloc::Allocator;
use std::io::{Read, Write};

/// Which page is copied, and in what form.
#[derive(Clone, Copy, Debug, PartialEq, Eq)]
pub struct CopyOptions<'a> {
    /// The ID of the document: the text of its two codewords in hexadecimal.
    pub id: &'a str,
    /// Which page of the document, from 1.
    pub page: u16,
    /// The side of the label, a number from 10 to 132 that need not be one of the sizes.
    pub side: u16,
    pub scheme: Scheme,
}

const HEAD_WORDS: usize = 4;

// Page m, if it is held. There is none above the last.
fn held_page<'a, A: Allocator>(pages: &Pages<'a, A>, m: u16) -> Option<&'a [u8]>
    ensures { lent_bytes result ≡ page pages.now m }
{
    if m > pages.n() as u16 {
        return None;
    }
    pages.get(m as u8)
}

fn has_room(size: Size, scheme: Scheme, bytes: &[u8]) -> bool
    requires { length bytes.now ≤ MOST_PAGE_BYTES }
    ensures room { result ≡ true → Fits size scheme bytes.now }
    ensures none { result ≡ false → IsTooLong size scheme bytes.now }
{
    let words = size.data_words();
    words >= HEAD_WORDS && need(scheme, bytes) <= words - HEAD_WORDS
}

// The image of the label of page m of n with these bytes, for which there is room.
fn image_of_label<A: Allocator + Copy>(
    alloc: A,
    id: FileId,
    m: u8,
    n: u8,
    bytes: &[u8],
    size: Size,
    scheme: Scheme,
) -> Result<Image<A>, SealFault>
    requires { (2 ≤ n) × (n ≤ 16) × (1 ≤ m) × (m ≤ n) }
    ensures label { IfOk result (λ image. (held : Documents) → page_at held id m ≡ Some bytes.now
        → count_at held id ≡ n → Fits size scheme bytes.now
        → GivesCopy id m size scheme held (Ok (written (picture image)))) }
    ensures count { IfOk result (λ image. length image.pixels.items ≡ image.width * image.height) }
{
    let Some(page) = Page::new(id, m, n, bytes.to_vec(alloc)?) else {
        unreachable!()
    };
    let grid = seal(alloc, &page, size, scheme)?;
    Ok(image_of(alloc, &grid, false)?)
}

// The image of the label of page m of a document; or why there is none, by name.
fn copy_of<A: Allocator + Copy, T: StoreSet>(
    alloc: A,
    desk: &Desk<T, A>,
    id: FileId,
    m: u16,
    size: Size,
    scheme: Scheme,
) -> Result<Image<A>, &'static str>
    ensures given { MatchResult result
        (λ image. GivesCopy id m size scheme desk.now.held (Ok (written (picture image))))
        (λ name. GivesCopy id m size scheme desk.now.held (Err name.now)) }
    ensures count { IfOk result (λ image. length image.pixels.items ≡ image.width * image.height) }
{
    let Some(pages) = desk.pages(id) else {
        return Err("NotHeld");
    };
    let Some(bytes) = held_page(&pages, m) else {
        return Err("Incomplete");
    };
    if !has_room(size, scheme, bytes) {
        return Err("TooLong");
    }
    match image_of_label(alloc, id, m as u8, pages.n(), bytes, size, scheme) {
        Ok(image) => Ok(image),
        Err(_) => Err("Memory"),
    }
}

/// Writes the label of a page again, as a packed image, and nothing else: that of the page that the desk holds, so that
/// whatever opens it gathers the same document. A refusal is a line on `errors`. The ID's text is looked at
/// first, then the side, then the files.
pub fn copy_command<A: Allocator + Copy, S: Store, T: StoreSet, R: Read, W: Write, E: Write>(
    alloc: A,
    store: S,
    set: T,
    streams: &mut Streams<R, W, E>,
    options: CopyOptions,
) -> EndedDesk<S, T>
    ensures ends { EndsCopy options.entry (desk_at (S.state store) (T.state set) streams.old) result.status
        (desk_at (S.state result.store) (T.state result.set) streams.new) }
    // No stop takes back what it tells, unless that is of no desk, or of the side.
    ensures settled { T.is_settled result.set ⊎ (¬ IsSide options.entry.side) ⊎ IsUnopened RefusesOnErrors options.entry.id.now
        (desk_at (S.state store) (T.state set) streams.old) result.status
        (desk_at (S.state result.store) (T.state result.set) streams.new) }
{
    let Some(id) = id_of(options.id) else {
        let status = refuse(&mut streams.errors, Refusal::FileId.name());
        return EndedDesk { status, store, set };
    };
    let Some(size) = Size::of_side(options.side) else {
        let status = refuse(&mut streams.errors, Refusal::Side.name());
        return EndedDesk { status, store, set };
    };
    let opened = match open_desk(alloc, store, set, &mut streams.errors, MOST_CAPACITY) {
        Ok(opened) => opened,
        Err(ended) => return ended,
    };
    let copy = copy_of(alloc, &opened.desk, id, options.page, size, options.scheme);
    let closed = match opened.close() {
        Ok(closed) => closed,
        Err(unopened) => return unopened.refuse(&mut streams.errors),
    };
    let status = match copy {
        Ok(image) => {
            let put = image.write(&mut streams.output);
            status_after_bytes(&mut streams.errors, put)
        }
        Err(name) => refuse(&mut streams.errors, name),
    };
    closed.end(status)
}
