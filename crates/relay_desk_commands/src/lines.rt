//! The lines that the commands of desks write. They take no memory; an `Err` is a write that the output has refused.

ghost use Rattle.std.specs.Prelude.{◌≡◌, ◌∷◌, [], ◌/◌, ◌%◌, ◌<◌, ◌≤◌, ◌+◌, ◌++◌, length, string_bytes, IfOk};
ghost use Rattle.dm_assembly_desk.specs.Documents.{summaries};
ghost use Rattle.relay_desk_commands.specs.Desks.{forgotten_line, held_line, held_word, missing_page, missing_pages, room_text, unsound_joint_line, unsound_line};
ghost use Rattle.relay_shared.specs.Command.{PutsText};

use arrayvec::ArrayString;
use dm_append_label::FileId;
use dm_assembly_desk::{Desk, Held, MOST_CAPACITY};
use dm_store::StoreSet;
use itoa::Buffer;
use relay_shared::{id_digits, word_digits};
use relay_streams::{Output, WriteFault};
use std::alloc::{AllocError, Allocator};
use std::io::Write;

/// What a note says of a full desk: how many documents it has room for, as it holds as many, and whether it may have
/// more.
///
/// # Errors
/// Where the allocator refuses its memory.
pub(crate) fn room_text<T: StoreSet, A: Allocator + Copy>(
    alloc: A,
    desk: &Desk<T, A>,
) -> Result<String<A>, AllocError>
    ensures { IfOk result (λ text. string_bytes text ≡ room_text (length (summaries desk.now.held))) }
{
    let count = desk.held()?.len();
    if count >= MOST_CAPACITY as usize {
        return format!(in alloc; "; the desk has room for {count} documents");
    }
    format!(in alloc;
        "; the desk has room for {count}, and with --capacity for up to 1024 documents"
    )
}

/// Writes which document was forgotten.
pub(crate) fn put_forgotten<W: Write>(output: &mut Output<W>, id: FileId) -> Result<(), WriteFault>
    ensures { PutsText (forgotten_line id) output.old result output.new }
{
    output.put_all(&[b"forgotten ", &id_digits(id), b"\n"])
}

// Whether the document is complete, in a word after a space.
fn held_word(held: Held) -> &'static str
    requires { held.n ≤ 16 }
    ensures word { result.now ≡ held_word held }
    ensures short { length result.now ≤ 9 }
{
    if held.mask as u32 + 1 == 1u32 << held.n {
        " complete"
    } else {
        " lacks"
    }
}

// Appends a space and the number of the page after the first m, if the mask does not name it.
fn push_missing(text: &mut ArrayString<73>, mask: u16, m: u8)
    requires few { m < 16 }
    requires room { length text.old.bytes + 4 ≤ 73 }
    ensures page { text.new.bytes ≡ text.old.bytes ++ missing_page mask (m + 1) }
    ensures short { length text.new.bytes ≤ length text.old.bytes + 4 }
{
    if (mask >> m) % 2 == 0 {
        text.push(' ');
        text.push_str(Buffer::new().format(m + 1));
    }
}

/// Whether the document is complete, and the numbers of the pages that are missing, each after a space. There is room
/// for a word of nine bytes, and for a space and three digits for each of sixteen pages.
pub(crate) fn held_end(held: Held) -> ArrayString<73>
    requires { held.n ≤ 16 }
    ensures { result.bytes ≡ held_word held ++ missing_pages held.mask held.n }
{
    let Held { id: _, n, mask } = held;
    let mut text = ArrayString::new();
    text.push_str(held_word(held));
    for m in 0..n {
        push_missing(&mut text, mask, m);
    }
    text
}

/// Writes how many pages a document has, and which of them are missing.
pub(crate) fn put_held<W: Write>(output: &mut Output<W>, held: Held) -> Result<(), WriteFault>
    requires { held.n ≤ 16 }
    ensures { PutsText (held_line held) output.old result output.new }
{
    let id = id_digits(held.id);
    let mut digits = Buffer::new();
    let n = digits.format(held.n).as_bytes();
    let end = held_end(held);
    output.put_all(&[&id, b" ", n, end.as_bytes(), b"\n"])
}

/// Writes that the file of a key is not sound, why, and the ID of its document, if the key is the number of one.
pub(crate) fn put_unsound<W: Write>(
    output: &mut Output<W>,
    key: u16,
    name: &str,
) -> Result<(), WriteFault>
    ensures { PutsText (unsound_line key name.now) output.old result output.new }
{
    let (file, name) = (word_digits(key), name.as_bytes());
    match FileId::of_number(key) {
        Some(id) => output.put_all(&[b"file ", &file, b" ", name, b" ", &id_digits(id), b"\n"]),
        None => output.put_all(&[b"file ", &file, b" ", name, b"\n"]),
    }
}

/// Writes that the file of an older version is not sound, and why.
pub(crate) fn put_unsound_joint<W: Write>(
    output: &mut Output<W>,
    name: &str,
) -> Result<(), WriteFault>
    ensures { PutsText (unsound_joint_line name.now) output.old result output.new }
{
    output.put_all(&[b"file joint ", name.as_bytes(), b"\n"])
}
