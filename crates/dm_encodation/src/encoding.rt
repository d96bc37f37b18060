//! A symbol's data codewords.

ghost use Rattle.std.specs.Prelude.{◌≡◌, ◌+◌, ◌-◌, ◌<◌, ◌≤◌, ◌^◌, ◌++◌, ◌↔◌, length, take, drop, IfOk, OnOk, IsErrOf, vec_len};
ghost use Rattle.dm_size.specs.Sizes.{data_words};
ghost use Rattle.dm_encodation.specs.Grammar.{ReadsOnly};
ghost use Rattle.dm_encodation.specs.Written.{text, ends_in_run, filled, need_of};
ghost use Rattle.dm_encodation.specs.declared.fault.EncodeFault.TheVariants.{TooLong};

use crate::ascii::push_ascii;
use crate::base256::push_base_256;
use crate::counting::word_count;
use crate::fault::EncodeFault;
use crate::letters::Letters;
use crate::pads::fill_up;
use crate::run::push_run;
use crate::scheme::Scheme;
use dm_size::Size;
use std::alloc::{AllocError, Allocator};

// Writes the codewords of a text, the first at the position after what was written. Gives whether the
// text ends in a run, so that the codewords after it would be read in the run's encodation.
fn push_text<A: Allocator>(
    out: &mut Vec<u8, A>,
    scheme: Scheme,
    bytes: &[u8],
) -> Result<bool, AllocError>
    requires place { vec_len out.old < 2 ^ 16 }
    requires short { need_of scheme bytes.now ≤ 1304 }
    ensures words { OnOk result (out.new.items
        ≡ out.old.items ++ text scheme (vec_len out.old + 1) bytes.now) }
    ensures in_run { IfOk result (λ in_run. in_run ≡ ends_in_run scheme bytes.now) }
{
    match scheme {
        Scheme::Ascii => {
            push_ascii(out, bytes)?;
            Ok(false)
        }
        Scheme::C40 => push_run(out, Letters::Capital, bytes),
        Scheme::Text => push_run(out, Letters::Small, bytes),
        Scheme::Base256 => {
            push_base_256(out, bytes)?;
            Ok(false)
        }
    }
}

// The data codewords of a symbol that has room for the head and the text.
fn fill<A: Allocator + Copy>(
    alloc: A,
    scheme: Scheme,
    bytes: &[u8],
    head: &[u8],
    capacity: usize,
) -> Result<Vec<u8, A>, AllocError>
    requires text { length head.now + need_of scheme bytes.now ≤ capacity }
    requires symbol { capacity ≤ 1304 }
    ensures { IfOk result (λ v. v.items ≡ filled scheme head.now bytes.now capacity) }
{
    let mut out = Vec::with_capacity(alloc, capacity)?;
    out.extend_from_slice(head)?;
    let in_run = push_text(&mut out, scheme, bytes)?;
    fill_up(&mut out, in_run, capacity)?;
    Ok(out)
}

/// The data codewords of a symbol: the head, which is no longer than they are, the codewords of the text, and
/// pads (ISO/IEC 16022:2006, 5.2, and this project's own rule where the standard leaves a choice). They
/// are exactly as many as the size has data codewords, and read from the head's end as the bytes and as
/// nothing else. A text of no bytes has no codewords, and pads alone follow the head.
///
/// In ASCII and with no head `123456` gives `142 164 186` at side 10, and `142 164 186 129 115` at side
/// 12, where two codewords are left for pads.
///
/// # Errors
/// `TooLong` exactly where the text needs more codewords than the head leaves, found before any memory is
/// asked for; `Memory` where the allocator refuses.
pub fn encode<A: Allocator + Copy>(
    alloc: A,
    scheme: Scheme,
    bytes: &[u8],
    head: &[u8],
    size: Size,
) -> Result<Vec<u8, A>, EncodeFault>
    requires { length head.now ≤ data_words size }
    ensures filled { IfOk result (λ v. v.items ≡ filled scheme head.now bytes.now (data_words size)) }
    ensures whole { IfOk result (λ v. length v.items ≡ data_words size) }
    ensures head { IfOk result (λ v. take (length head.now) v.items ≡ head.now) }
    ensures reads { IfOk result
        (λ v. ReadsOnly (length head.now + 1) (drop (length head.now) v.items) bytes.now) }
    ensures too_long { IsErrOf result TooLong
        ↔ (data_words size - length head.now < need_of scheme bytes.now) }
{
    let capacity = size.data_words();
    let room = capacity - head.len();
    // No codeword stands for more than two bytes, so a far longer text isn't counted.
    if bytes.len() > 2 * room || word_count(scheme, bytes) > room as u128 {
        return Err(EncodeFault::TooLong);
    }
    Ok(fill(alloc, scheme, bytes, head, capacity)?)
}
