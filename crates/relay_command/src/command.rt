//! What the program is asked to do.

use dm_encodation::Scheme;

/// Which labels a print has: `--side` or `--labels` says it.
#[derive(Clone, Copy)]
pub enum Labels {
    /// Those of this side.
    OfSide(u16),
    /// At most this many, 2 to 16, of the smallest side for which there are no more.
    AtMost(u16),
}

/// A command with its options, by name. A side is a number from 10 to 132, which need not be one of the sizes.
#[rattlefmt::skip]
#[derive(Clone, Copy)]
pub enum Command<'a> {
    /// Prints the codewords of a symbol.
    Words { side: u16, scheme: Scheme },
    /// Draws a symbol, in PBM's plain form or packed.
    Draw { side: u16, scheme: Scheme, plain: bool },
    /// Reads images of symbols, and prints what each carries.
    Read,
    /// Says for each side how many labels a document takes.
    Plan { scheme: Scheme },
    /// Says what a ticket, in either of its forms, gives.
    Ticket { ticket: &'a str },
    /// Makes the ledger of the printer of a number, to which the IDs from first to last are free.
    Ledger { file: &'a str, number: u16, first: u16, last: u16 },
    /// Prints a document as labels.
    Print { file: &'a str, number: u16, labels: Labels, scheme: Scheme },
    /// Gives the IDs from first to last to the printer `to`.
    Give { file: &'a str, number: u16, to: u16, first: u16, last: u16 },
    /// Gives the last `count` free IDs in a row to the printer `to`.
    GiveLast { file: &'a str, number: u16, to: u16, count: u16 },
    /// Takes a ticket, in either of its forms.
    Take { file: &'a str, number: u16, ticket: &'a str },
    /// Says what a ledger holds.
    Left { file: &'a str },
    /// Says what ledgers and tickets show that breaks what printers rely on.
    Audit,
    /// Gathers scanned labels at a desk with room for `capacity` documents.
    Scan { file: &'a str, capacity: u16 },
    /// Gives the document of an ID, whose two codewords are in hexadecimal, back.
    Deliver { file: &'a str, id: &'a str },
    /// Gives each complete document that a desk holds back, as a file of its own in a folder; and, if it `forgets`, lets
    /// these documents go once all of the files are saved.
    DeliverAll { file: &'a str, folder: &'a str, forgets: bool },
    /// Lets a document go.
    Forget { file: &'a str, id: &'a str },
    /// Gives the pages that are held of a document, for another desk.
    Export { file: &'a str, id: &'a str },
    /// Gives those of each document that a desk holds, as a file of its own in a folder.
    ExportAll { file: &'a str, folder: &'a str },
    /// Takes in the pages that another desk has given.
    Import { file: &'a str, capacity: u16 },
    /// Says what the files of a desk hold: of each document, or of the one of an ID. If it `is_long`, it says more.
    Held { file: &'a str, id: Option<&'a str>, is_long: bool },
    /// Draws again the label of a page, 1 to 16, that a desk holds.
    Copy { file: &'a str, id: &'a str, page: u16, side: u16, scheme: Scheme },
    /// Plays a world of printers and desks by a script.
    World,
}
