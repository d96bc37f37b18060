// Desks over allocators that refuse and sets that stop, and spoiled files; and the files of documents that the tests
// hold.

mod calls;
mod moves;
mod spoiled;
mod stops;
mod table;

// The file of the document 0, of whose two pages the first is held: 12.
const FIRST: &[u8] = b"DMPG\x02\x01\x01\x02\x00\x01\x00\x0212";

// The file of the document 0 with both pages, 12 and 34.
const WHOLE: &[u8] = b"DMPG\x02\x01\x01\x02\x00\x03\x00\x0212\x00\x0234";

// The file of the document 9, of whose three pages the third is held: C.
const THIRD: &[u8] = b"DMPG\x02\x01\x0a\x03\x00\x04\x00\x01C";

// The file of the document 9 with all pages.
const FULL: &[u8] = b"DMPG\x02\x01\x0a\x03\x00\x07\x00\x01A\x00\x01B\x00\x01C";

// A file of version 1 with the documents 0 and 9.
const JOINT: &[u8] = b"DMPG\x01\x00\x02\x01\x01\x02\x00\x01\x00\x0212\x01\x0a\x03\x00\x04\x00\x01C";
