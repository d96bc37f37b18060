//! The lines of printers, of tickets, of what a ledger holds, and of the sides of a plan. They take no memory, and an
//! `Err` is a write that the output has refused.

ghost use Rattle.std.specs.Prelude.{◌≡◌, ◌≤◌, IsTrue};
ghost use Rattle.relay_shared.specs.Lines.{id_text};
ghost use Rattle.relay_printer_commands.specs.Printers.{left_line, printed_line, taken_line, ticket_line, check_line, from_line, free_line, given_line, number_line, took_line, side_line};
ghost use Rattle.relay_shared.specs.Command.{PutsText};
ghost use Rattle.dm_print_ledger.specs.Ledger.{is_range};

use dm_append_label::FileId;
use dm_print_ledger::{GREATEST, Giver, Range, Ticket};
use itoa::Buffer;
use relay_shared::id_digits;
use relay_streams::{Output, WriteFault};
use std::io::Write;

/// Writes how many IDs are free.
pub(crate) fn put_left<W: Write>(output: &mut Output<W>, left: u32) -> Result<(), WriteFault>
    ensures { PutsText (left_line left) output.old result output.new }
{
    let mut digits = Buffer::new();
    output.put_all(&[b"left ", digits.format(left).as_bytes(), b"\n"])
}

/// Writes what was printed: the ID, the number of labels, and how many IDs are left.
pub(crate) fn put_printed<W: Write>(
    output: &mut Output<W>,
    id: FileId,
    count: u8,
    left: u32,
) -> Result<(), WriteFault>
    ensures { PutsText (printed_line id count left) output.old result output.new }
{
    let id = id_digits(id);
    let (mut counted, mut digits) = (Buffer::new(), Buffer::new());
    let count = counted.format(count).as_bytes();
    let left = digits.format(left).as_bytes();
    output.put_all(&[b"printed ", &id, b" ", count, b" left ", left, b"\n"])
}

/// Writes a ticket.
pub(crate) fn put_ticket<W: Write>(output: &mut Output<W>, ticket: Ticket) -> Result<(), WriteFault>
    ensures { PutsText (ticket_line ticket) output.old result output.new }
{
    let mut digits = [0u8; 20];
    let Ok(()) = hex::encode_to_slice(ticket.bytes(), &mut digits) else {
        unreachable!()
    };
    output.put_all(&[b"ticket ", &digits, b"\n"])
}

/// Writes that a ticket was taken, and how many IDs are left.
pub(crate) fn put_taken<W: Write>(output: &mut Output<W>, left: u32) -> Result<(), WriteFault>
    ensures { PutsText (taken_line left) output.old result output.new }
{
    let mut digits = Buffer::new();
    output.put_all(&[b"taken left ", digits.format(left).as_bytes(), b"\n"])
}

/// Writes which printer gave a ticket, to which, its serial, and its first and last number, in decimal.
pub(crate) fn put_from<W: Write>(output: &mut Output<W>, ticket: Ticket) -> Result<(), WriteFault>
    ensures { PutsText (from_line ticket) output.old result output.new }
{
    output.put_all(&[
        b"from ",
        Buffer::new().format(ticket.giver).as_bytes(),
        b" to ",
        Buffer::new().format(ticket.receiver).as_bytes(),
        b" serial ",
        Buffer::new().format(ticket.serial).as_bytes(),
        b" first ",
        Buffer::new().format(ticket.range.first).as_bytes(),
        b" last ",
        Buffer::new().format(ticket.range.last).as_bytes(),
        b"\n",
    ])
}

/// Writes twelve bytes, those of a ticket and their error correction codewords, as they can be copied by hand: in
/// hexadecimal, in groups of four digits, which hyphens join.
pub(crate) fn put_check<W: Write>(output: &mut Output<W>, bytes: [u8; 12]) -> Result<(), WriteFault>
    ensures { PutsText (check_line bytes) output.old result output.new }
{
    let mut digits = [0u8; 24];
    let Ok(()) = hex::encode_to_slice(bytes, &mut digits) else {
        unreachable!()
    };
    output.put_all(&[
        b"check ",
        &digits[..4],
        b"-",
        &digits[4..8],
        b"-",
        &digits[8..12],
        b"-",
        &digits[12..16],
        b"-",
        &digits[16..20],
        b"-",
        &digits[20..],
        b"\n",
    ])
}

fn number_digits(number: u16) -> [u8; 4]
    requires { number ≤ GREATEST }
    ensures { result ≡ id_text number }
{
    let Some(id) = FileId::of_number(number) else {
        unreachable!()
    };
    id_digits(id)
}

/// Writes which printer a ledger is of.
pub(crate) fn put_number<W: Write>(
    output: &mut Output<W>,
    number: Option<u16>,
) -> Result<(), WriteFault>
    ensures { PutsText (number_line number) output.old result output.new }
{
    match number {
        Some(number) => {
            let mut digits = Buffer::new();
            output.put_all(&[b"printer ", digits.format(number).as_bytes(), b"\n"])
        }
        None => output.put(b"printer -\n"),
    }
}

/// Writes which IDs are free, in decimal and as a label has them.
pub(crate) fn put_free<W: Write>(output: &mut Output<W>, range: Range) -> Result<(), WriteFault>
    requires { IsTrue (is_range range) }
    ensures { PutsText (free_line range) output.old result output.new }
{
    let (mut from, mut to) = (Buffer::new(), Buffer::new());
    let first = from.format(range.first).as_bytes();
    let last = to.format(range.last).as_bytes();
    let first_id = number_digits(range.first);
    let last_id = number_digits(range.last);
    output.put_all(&[
        b"free ", first, b" ", last, b" ", &first_id, b" ", &last_id, b"\n",
    ])
}

/// Writes how many tickets were given.
pub(crate) fn put_given<W: Write>(output: &mut Output<W>, given: u16) -> Result<(), WriteFault>
    ensures { PutsText (given_line given) output.old result output.new }
{
    let mut digits = Buffer::new();
    output.put_all(&[b"given ", digits.format(given).as_bytes(), b"\n"])
}

/// Writes which ticket of a printer was taken last.
pub(crate) fn put_took<W: Write>(output: &mut Output<W>, giver: Giver) -> Result<(), WriteFault>
    ensures { PutsText (took_line giver) output.old result output.new }
{
    let (mut numbered, mut counted) = (Buffer::new(), Buffer::new());
    let number = numbered.format(giver.number).as_bytes();
    let serial = counted.format(giver.serial).as_bytes();
    output.put_all(&[b"took ", number, b" ", serial, b"\n"])
}

/// A side of which a document has labels.
#[derive(Clone, Copy, Default)]
pub struct PlannedSide {
    /// The side, in modules.
    pub side: u16,
    /// How many labels the document has of it.
    pub count: u8,
}

/// Writes how many labels of a side a document has.
pub(crate) fn put_side<W: Write>(
    output: &mut Output<W>,
    planned: PlannedSide,
) -> Result<(), WriteFault>
    ensures { PutsText (side_line planned) output.old result output.new }
{
    let (mut numbered, mut counted) = (Buffer::new(), Buffer::new());
    let side = numbered.format(planned.side).as_bytes();
    let count = counted.format(planned.count).as_bytes();
    output.put_all(&[b"side ", side, b" labels ", count, b"\n"])
}
