//! The lines of replies. They take no memory.

ghost use Rattle.std.specs.Prelude.{◌≡◌, [], codes, if◌then◌else◌, option_map};
ghost use Rattle.hex.specs.Hex.{encode_lower};
ghost use Rattle.dm_print_ledger.specs.Ledger.{ticket_bytes};
ghost use Rattle.relay_shared.specs.Command.{PutsText};
ghost use Rattle.relay_world_command.specs.World.{answer_line, document_line, export_line, is_refused_answer, labels_line, numbered_ticket_line, reply_refusal, reply_line};

use dm_append_label::FileId;
use dm_event_history::Reply;
use dm_event_world::Answer;
use dm_print_ledger::Ticket;
use itoa::Buffer;
use relay_shared::{id_digits, put_accepted, put_imported, word_digits};
use relay_streams::{Output, WriteFault};
use std::alloc::Allocator;
use std::io::Write;

fn put_hex<W: Write>(output: &mut Output<W>, bytes: &[u8]) -> Result<(), WriteFault>
    ensures { PutsText (encode_lower bytes.now) output.old result output.new }
{
    let mut digits = [0u8; 2];
    for byte in bytes {
        let Ok(()) = hex::encode_to_slice([*byte], &mut digits) else {
            unreachable!()
        };
        output.put(&digits)?;
    }
    Ok(())
}

fn put_document<W: Write>(output: &mut Output<W>, bytes: &[u8]) -> Result<(), WriteFault>
    ensures { PutsText (document_line bytes.now) output.old result output.new }
{
    if bytes.is_empty() {
        return output.put(b"document -\n");
    }
    output.put(b"document ")?;
    put_hex(output, bytes)?;
    output.put(b"\n")
}

fn put_labels<W: Write>(
    output: &mut Output<W>,
    id: FileId,
    first: usize,
    count: u8,
) -> Result<(), WriteFault>
    ensures { PutsText (labels_line id first count) output.old result output.new }
{
    let id = id_digits(id);
    let (mut digits, mut counted) = (Buffer::new(), Buffer::new());
    let first = digits.format(first).as_bytes();
    let count = counted.format(count).as_bytes();
    output.put_all(&[b"printed ", &id, b" ", first, b" ", count, b"\n"])
}

fn put_given<W: Write>(
    output: &mut Output<W>,
    index: usize,
    ticket: Ticket,
) -> Result<(), WriteFault>
    ensures { PutsText (numbered_ticket_line index (ticket_bytes ticket)) output.old result output.new }
{
    let mut digits = Buffer::new();
    let mut bytes = [0u8; 20];
    let Ok(()) = hex::encode_to_slice(ticket.bytes(), &mut bytes) else {
        unreachable!()
    };
    let index = digits.format(index).as_bytes();
    output.put_all(&[b"ticket ", index, b" ", &bytes, b"\n"])
}

fn put_exported<W: Write>(
    output: &mut Output<W>,
    index: usize,
    id: FileId,
    n: u8,
    mask: u16,
) -> Result<(), WriteFault>
    ensures { PutsText (export_line index id n mask) output.old result output.new }
{
    let (id, mask) = (id_digits(id), word_digits(mask));
    let (mut digits, mut pages) = (Buffer::new(), Buffer::new());
    let index = digits.format(index).as_bytes();
    let n = pages.format(n).as_bytes();
    output.put_all(&[b"export ", index, b" ", &id, b" ", n, b" ", &mask, b"\n"])
}

// The name of the refusal that a reply is, if it is one.
fn reply_refusal<A: Allocator>(reply: &Reply<A>) -> Option<&'static str>
    ensures { option_map (λ name. name.now) result ≡ reply_refusal reply.now }
{
    Some(match reply {
        Reply::PrintRefused(fault) => fault.name(),
        Reply::ScanRefused(fault) => fault.name(),
        Reply::AskRefused(fault) => fault.name(),
        Reply::ForgetRefused(fault) => fault.name(),
        Reply::GiveRefused(fault) => fault.name(),
        Reply::TakeRefused(fault) => fault.name(),
        Reply::ExportRefused(fault) => fault.name(),
        Reply::ImportRefused(fault) => fault.name(),
        Reply::PrinterRefused(fault) => fault.name(),
        Reply::DeskRefused(fault) => fault.name(),
        Reply::Memory => "Memory",
        _ => return None,
    })
}

// Writes the line of a reply that is no refusal.
fn put_reply<A: Allocator, W: Write>(
    output: &mut Output<W>,
    reply: &Reply<A>,
) -> Result<(), WriteFault>
    ensures { PutsText (reply_line reply.now) output.old result output.new }
{
    match reply {
        Reply::Printed { id, first, count } => put_labels(output, *id, *first, *count),
        Reply::Scanned(page) => put_accepted(output, page.id, page.m, page.n, page.kind.name()),
        Reply::Document(bytes) => put_document(output, bytes.as_slice()),
        Reply::Forgotten => output.put(b"forgotten\n"),
        Reply::Given { index, ticket } => put_given(output, *index, *ticket),
        Reply::Taken => output.put(b"taken\n"),
        Reply::Exported { index, id, n, mask } => put_exported(output, *index, *id, *n, *mask),
        Reply::Imported(pages) => {
            put_imported(output, pages.id, pages.n, pages.added, pages.kind.name())
        }
        Reply::Restarted => output.put(b"restarted\n"),
        Reply::Stopped => output.put(b"stopped\n"),
        Reply::Down => output.put(b"down\n"),
        Reply::NoSuch => output.put(b"none\n"),
        _ => output.put(b""),
    }
}

fn mark_of(is_honest: bool) -> &'static [u8]
    ensures { result.now ≡ (if is_honest then [] else codes "! ") }
{
    if is_honest { b"" } else { b"! " }
}

/// Writes the line of an answer. It begins with `! ` where the event was not found honest.
pub(crate) fn put_answer<A: Allocator, W: Write>(
    output: &mut Output<W>,
    answer: &Answer<A>,
) -> Result<(), WriteFault>
    ensures { PutsText (answer_line answer.now) output.old result output.new }
{
    let Answer::Given { is_honest, reply } = answer else {
        return output.put_refusal("Memory");
    };
    output.put(mark_of(*is_honest))?;
    match reply_refusal(reply) {
        Some(name) => output.put_refusal(name),
        None => put_reply(output, reply),
    }
}

pub(crate) fn is_refused_answer<A: Allocator>(answer: &Answer<A>) -> bool
    ensures { result ≡ is_refused_answer answer.now }
{
    match answer {
        Answer::Given { reply, .. } => reply_refusal(reply).is_some(),
        Answer::NotGiven => true,
    }
}
