//! Lines, and words of lines, that commands of several crates write. They take no memory; an `Err` is a write that the
//! output has refused.

ghost use Rattle.std.specs.Prelude.{◌≡◌};
ghost use Rattle.relay_shared.specs.Lines.{accepted_line, id_text, imported_line, word_text};
ghost use Rattle.relay_shared.specs.Command.{PutsText};

use dm_append_label::FileId;
use itoa::Buffer;
use relay_streams::{Output, WriteFault};
use std::io::Write;

/// The two codewords of an ID in hexadecimal.
pub fn id_digits(id: FileId) -> [u8; 4]
    ensures { result ≡ id_text id }
{
    let (first, second) = id.words();
    let mut digits = [0u8; 4];
    let Ok(()) = hex::encode_to_slice([first, second], &mut digits) else {
        unreachable!()
    };
    digits
}

/// A number of two bytes in hexadecimal.
pub fn word_digits(number: u16) -> [u8; 4]
    ensures { result ≡ word_text number }
{
    let mut digits = [0u8; 4];
    let Ok(()) = hex::encode_to_slice(number.to_be_bytes(), &mut digits) else {
        unreachable!()
    };
    digits
}

/// Writes that page m of n of a document is held, and what it was, by its name.
pub fn put_accepted<W: Write>(
    output: &mut Output<W>,
    id: FileId,
    m: u8,
    n: u8,
    kind: &str,
) -> Result<(), WriteFault>
    ensures { PutsText (accepted_line id m n kind.now) output.old result output.new }
{
    let id = id_digits(id);
    let (mut page, mut pages) = (Buffer::new(), Buffer::new());
    let m = page.format(m).as_bytes();
    let n = pages.format(n).as_bytes();
    output.put_all(&[&id, b" ", m, b"/", n, b" ", kind.as_bytes(), b"\n"])
}

/// Writes of which document, of n pages, pages were imported, which of them were added (bit m - 1 for page m), and what
/// the import was, by its name.
pub fn put_imported<W: Write>(
    output: &mut Output<W>,
    id: FileId,
    n: u8,
    added: u16,
    kind: &str,
) -> Result<(), WriteFault>
    ensures { PutsText (imported_line id n added kind.now) output.old result output.new }
{
    let id = id_digits(id);
    let mut digits = Buffer::new();
    let n = digits.format(n).as_bytes();
    let added = word_digits(added);
    output.put_all(&[
        &id,
        b" ",
        n,
        b" added ",
        &added,
        b" ",
        kind.as_bytes(),
        b"\n",
    ])
}
