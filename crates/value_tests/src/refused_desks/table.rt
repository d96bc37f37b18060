// A reader of saved pages that knows the tables of their formats alone, and nothing of the crate that writes them. Of
// each number the most significant byte stands first. A file of version 2 has
//
//   4 bytes   the letters DMPG
//   1         the version, 2
//   2         the codewords of the document's ID, each 1 to 254
//   1         how many pages the document has, 2 to 16
//   2         which of them are held: bit m - 1 is set for page m
//   2         for each page that is held its length, at most 2,600
//   ..        and its bytes
//
// and nothing after that. A file of version 1 has, after its version, 1:
//
//   2         how many documents there are
//   ..        for each of them, by rising ID, what a file of version 2 has after its version
//
// and nothing after that.

use crate::refused_printers::number;

// The number of the ID with which a document begins, or one above all numbers.
pub fn id_at(document: &[u8]) -> u32 {
    match document {
        [one @ 1..=254, other @ 1..=254, ..] => {
            254 * (*one as u32).saturating_sub(1) + (*other as u32).saturating_sub(1)
        }
        _ => 65_536,
    }
}

// How many bytes a document has that stands at the front of these, if one does.
fn length_of(bytes: &[u8]) -> Option<usize> {
    let count = *bytes.get(2)?;
    let mut mask = number(bytes, 3);
    if id_at(bytes) > 65_535 || count < 2 || count > 16 || mask == 0 {
        return None;
    }
    let mut at = 5usize;
    for _ in 0..count {
        if mask % 2 == 1 {
            let length = number(bytes, at);
            if length > 2_600 {
                return None;
            }
            at = at.saturating_add(2 + length as usize);
        }
        mask /= 2;
    }
    (mask == 0 && at <= bytes.len()).then_some(at)
}

// Whether bytes are what a file of version 1 has after its version.
fn are_joint(bytes: &[u8]) -> Option<bool> {
    let mut rest = bytes.get(2..)?;
    let mut least = 0u32;
    for _ in 0..number(bytes, 0) {
        let number = id_at(rest);
        if number < least {
            return None;
        }
        least = number.saturating_add(1);
        rest = rest.get(length_of(rest)?..)?;
    }
    Some(rest.is_empty())
}

// The name of the first reason for which a file is none of this version, or `sound`.
pub fn answer(file: &[u8], version: u8) -> &'static str {
    let bytes = file.get(5..).unwrap_or(b"");
    match file.get(4) {
        _ if !file.starts_with(b"DMPG") => "NotPages",
        Some(found) if *found != version => "Version",
        Some(1) if are_joint(bytes) == Some(true) => "sound",
        Some(2) if length_of(bytes) == Some(bytes.len()) => "sound",
        _ => "Damaged",
    }
}
