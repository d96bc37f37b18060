// A reader of saved ledgers that knows the tables of their formats alone, and nothing of the crate that writes them:
//
//   4 bytes   the letters DMLG
//   1         the version, 2
//   2         the printer's number; of each number the most significant byte stands first
//   2         the serial of the next ticket
//   1         how many ranges are free, at most 64
//   2 and 2   for each of them its first and its last number; they rise, do not touch, and end at 64,515 or below
//   1         from how many printers tickets were taken, at most 64
//   2 and 2   for each of them its number and the serial of the last ticket; their numbers rise
//   2         65,535 less the number of free IDs
//
// and nothing after that. A ledger of version 1 is any printer's, and has after its version, 1:
//
//   2, 2, 2   the first, the last and the next number, of which those from the next to the last one are free; the last
//             one is 64,515 or below, and the next one may be one above it
//   2         65,535 less the next number

// The number whose two bytes stand at a place, or one above all numbers where they are not there.
pub fn number(bytes: &[u8], at: usize) -> u32 {
    match (bytes.get(at), bytes.get(at.saturating_add(1))) {
        (Some(high), Some(low)) => 256 * *high as u32 + *low as u32,
        _ => 65_536,
    }
}

// The place of the byte that counts the givers of a ledger.
fn givers_at(ledger: &[u8]) -> usize {
    let ranges = ledger.get(9).copied().unwrap_or(0);
    10 + 4 * ranges as usize
}

// How many numbers that many ranges of a ledger have, if they are in order.
fn size_of(ledger: &[u8], ranges: u8) -> Option<u32> {
    let mut size = 0u32;
    let mut least = 0u32;
    for range in 0..ranges {
        let at = 10 + 4 * range as usize;
        let (first, last) = (number(ledger, at), number(ledger, at + 2));
        if first < least || last < first || last > 64_515 {
            return None;
        }
        size = size.saturating_add(last - first + 1);
        least = last + 2;
    }
    Some(size)
}

// Whether the numbers of that many givers from a place on rise.
fn rise(ledger: &[u8], at: usize, givers: u8) -> bool {
    let mut least = 0u32;
    for giver in 0..givers {
        let number = number(ledger, at.saturating_add(4 * giver as usize));
        if number < least {
            return false;
        }
        least = number.saturating_add(1);
    }
    true
}

// Whether bytes that begin as a ledger of version 2 are one.
fn is_second(ledger: &[u8]) -> bool {
    let at = givers_at(ledger);
    let (Some(ranges), Some(givers)) = (ledger.get(9).copied(), ledger.get(at).copied()) else {
        return false;
    };
    let length = at.saturating_add(3 + 4 * givers as usize);
    if ranges > 64 || givers > 64 || ledger.len() != length {
        return false;
    }
    let check = number(ledger, length.saturating_sub(2));
    let size = size_of(ledger, ranges);
    rise(ledger, at.saturating_add(1), givers) && size == 65_535u32.checked_sub(check)
}

// Whether bytes that begin as a ledger of version 1 are one.
fn is_first(ledger: &[u8]) -> bool {
    let (first, last, next) = (number(ledger, 5), number(ledger, 7), number(ledger, 9));
    ledger.len() == 13
        && first <= last
        && last <= 64_515
        && first <= next
        && next <= last + 1
        && Some(number(ledger, 11)) == 65_535u32.checked_sub(next)
}

// The name of the first refusal to open bytes as the ledger of a printer, or `opened`.
pub fn answer(ledger: &[u8], printer: u32) -> &'static str {
    match ledger.get(4) {
        _ if !ledger.starts_with(b"DMLG") => "NotALedger",
        Some(1) if is_first(ledger) => "opened",
        Some(2) if !is_second(ledger) => "Damaged",
        Some(2) if number(ledger, 5) != printer => "Number",
        Some(2) => "opened",
        Some(1) | None => "Damaged",
        Some(_) => "Version",
    }
}
