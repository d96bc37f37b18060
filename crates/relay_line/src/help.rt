//! The helps of the commands, whose lines have at most 80 columns.

use crate::said::{
    ALL, ALL_PAGES, CAPACITY, COUNT, DESK, FIRST, FORGET, ID, IMAGES, LABELS, LAST, LEAST_SIDE,
    LEDGER, LEDGERS, LONG, NUMBER, OWN_NUMBER, PAGE, PAGES, PLAIN, REFUSAL, SAVED, SCHEME, SIDE,
    Said, TICKET, TO,
};

/// A command, what its help says above and below its arguments, and of each of them.
pub struct Page {
    pub name: &'static str,
    pub about: &'static str,
    pub usage: &'static str,
    pub said: &'static [Said],
    pub more: &'static str,
}

// That of the program itself.
static PROGRAM: Page = Page {
    name: "relay",
    about: "Prints documents as Data Matrix labels, and puts them back together",
    usage: "relay [COMMAND [ARGUMENT ..] | --help | --version]",
    said: &[],
    more: "\
Without a command, relay runs `words` with its defaults. `relay help COMMAND`
and `relay COMMAND --help` say more about that command.

Exit status: 0 if all was done; 1 if something was refused (`refused NAME`) or
found (`file FILE ..`, or a line of `audit`), or an output failed; 2 if the
command line was refused; 3 if the script `./relay` could not build the program.
`relay explain NAME` says what a refusal means.",
};

static OF_SYMBOLS: [Page; 3] = [
    Page {
        name: "words",
        about: "Prints the codewords of a document's symbol, in decimal",
        usage: "relay words [--side SIDE] [--scheme SCHEME] < DOCUMENT",
        said: &[LEAST_SIDE, SCHEME],
        more: "\
A codeword is one of the numbers from 0 to 255 that a symbol holds. Side 10
holds 6 digits or, in base256, 1 byte; side 132 holds 2608 digits or 1301 bytes.
docs/SYMBOLS.md has the whole table. A refusal goes to standard output.

Example:
  printf 123456 | relay words",
    },
    Page {
        name: "draw",
        about: "Draws a document's symbol as a PBM image",
        usage: "relay draw [--side SIDE] [--scheme SCHEME] [--plain] < DOCUMENT > IMAGE",
        said: &[LEAST_SIDE, SCHEME, PLAIN],
        more: "\
The image has one pixel per module, and around the symbol a quiet zone one pixel
wide: leave at least that margin on paper. docs/SYMBOLS.md says how much a side
holds, docs/RECIPES.md how to print images. A refusal goes to standard error.

Example:
  printf 123456 | relay draw --side 18 > symbol.pbm",
    },
    Page {
        name: "read",
        about: "Prints what the symbols in PBM images carry",
        usage: "relay read (IMAGES .. | < IMAGES)",
        said: &[IMAGES],
        more: "\
An image has one pixel per module, and around the symbol a quiet zone of one
pixel. Packed images (P4) may follow one another; what follows a plain one (P1)
is ignored. Each image gives a line:
  label IIII m/n corrected C wrong W HEX
                  label m of n, with the ID IIII
  symbol SIDE corrected C wrong W HEX
                  another symbol
  refused NAME    no symbol that can be read
C is how many wrong codewords were corrected, W how many modules of the finder
patterns are wrong, and HEX the bytes in hexadecimal, or `-` for none. Notes on
standard error say what change would make a refused image readable, if known.

Example:
  relay read < symbol.pbm",
    },
];

static OF_PRINTERS: [Page; 4] = [
    Page {
        name: "ledger",
        about: "Makes the ledger of a printer",
        usage: "relay ledger --file LEDGER --first N --last N [--number N]",
        said: &[LEDGER, FIRST, LAST, OWN_NUMBER],
        more: "\
A ledger is what a printer remembers, above all which IDs are free. No two
ledgers may share a number or an ID. Never restore a ledger from a backup: it
could print used IDs again. Prints `left N`, how many are free. A refusal goes
to standard output, and a file that was at LEDGER stays as it was.

Example:
  relay ledger --file north.ledger --first 0 --last 9999 --number 1",
    },
    Page {
        name: "plan",
        about: "Prints for each side how many labels a document takes",
        usage: "relay plan [--scheme SCHEME] < DOCUMENT",
        said: &[SCHEME],
        more: "\
Prints a line `side N labels K` for each side for which the document can be cut
into labels, the smallest side first: `print` with that side prints K labels.
No label is printed and nothing is saved. A refusal goes to standard output.

Example:
  relay plan < letter",
    },
    Page {
        name: "print",
        about: "Prints a document as labels that carry one ID",
        usage: "relay print --file LEDGER (--side SIDE | --labels K) [--scheme SCHEME]\n         \
            [--number N] < DOCUMENT > IMAGES",
        said: &[LEDGER, SIDE, LABELS, SCHEME, OWN_NUMBER],
        more: "\
The document is cut into 2 to 16 labels, which carry the least free ID. That ID
is saved as used, then `printed IIII n left N` goes to standard error (the ID,
the number of labels, how many IDs are left), and then the labels to standard
output, as packed PBM images one after another. A label that is lost can be
drawn again by `copy`, at a desk that holds its page; a document that is printed
again gets another ID. --number must be that of the ledger, if it has one.

A label holds four codewords fewer than a symbol: 28 digits, or 12 bytes in
base256, at side 18; 2600 or 1297 at side 132. A refusal goes to standard error.

Example:
  relay print --file north.ledger --number 1 --side 52 < letter > labels.pbm",
    },
    Page {
        name: "give",
        about: "Gives free IDs to another printer, by a ticket",
        usage: "relay give --file LEDGER --number N --to N\n         (--first N --last N | --count N)",
        said: &[LEDGER, NUMBER, TO, FIRST, LAST, COUNT],
        more: "\
The IDs are saved as given away, then `ticket HEX` is printed. Only the printer
that it is for can take it, and only once. If a ticket is lost, so are its IDs.
If no range has as many free IDs as --count says, `give` is refused `NotFree`,
and standard error says how many the longest has. A refusal goes to standard
output.

Example:
  relay give --file north.ledger --number 1 --to 2 --first 5000 --last 5999",
    },
];

static OF_TICKETS: [Page; 4] = [
    Page {
        name: "ticket",
        about: "Prints what a ticket gives, and its form to copy by hand",
        usage: "relay ticket --ticket HEX",
        said: &[TICKET],
        more: "\
Prints, a line each:
  from P to Q serial S first A last B
                    printer P gives the IDs from A to B to printer Q, by
                    its ticket with serial S
  check HEX         the ticket in groups of four digits, to copy by hand: the
                    last group checks the others, so that a copy with one or
                    two wrong digits is refused
`take` takes this form too, in small or capital letters. Nothing is saved. A
refusal goes to standard output.

Example:
  relay ticket --ticket 0001000000021388176f",
    },
    Page {
        name: "take",
        about: "Takes the IDs of a ticket",
        usage: "relay take --file LEDGER --number N --ticket HEX",
        said: &[LEDGER, NUMBER, TICKET],
        more: "\
Prints `taken left N`, how many IDs are free then. A ticket is taken once. Take
the tickets of one giver in the order in which they were given: after a later
one an earlier one is refused `Old`. A refusal goes to standard output.

Example:
  relay take --file south.ledger --number 2 --ticket 0001000000021388176f",
    },
    Page {
        name: "left",
        about: "Prints what a ledger holds",
        usage: "relay left --file LEDGER",
        said: &[LEDGER],
        more: "\
Prints, a line each:
  printer P         the printer's number, or `-` for a ledger of version 1
  left N            how many IDs are free
  free A B IIII IIII
                    which: from A to B, in decimal and as labels have them
  given N           how many tickets were given
  took P S          the last ticket taken from printer P has the serial S
Nothing is saved, and another program may save at the same time. A refusal goes
to standard output.

Example:
  relay left --file north.ledger",
    },
    Page {
        name: "audit",
        about: "Finds what is wrong between ledgers and tickets",
        usage: "relay audit [LEDGERS ..] < TICKETS",
        said: &[LEDGERS],
        more: "\
Reads ledgers, and from standard input tickets, one a line, in either form and
without the word `ticket` (`< /dev/null` for none). A repeated ticket is no
fault. For each pair that breaks what printers rely on, it prints a line:
  number A B        two ledgers are of one printer
  free A B          an ID is free in both; a ticket's IDs count as free until it
                    is taken, but only if its receiver's ledger is named
  again A B         one serial of a printer was given or taken twice
  behind A B        ledger A may be an older state: B shows a ticket that A's
                    printer gave or took, and that A doesn't know
A and B are `ledger I of P` (the Ith file named, of printer P, `-` in version 1)
or `ticket K` (on line K of the input). First come `file I NAME` for each file
that gives no ledger and `line K Ticket` for each line that is neither empty nor
a ticket. Name all ledgers of a site, and pass all tickets given: it is silent,
with status 0, while all is well. It can't see a restored ledger that had only
printed since the backup. Nothing is saved, and another program may save
meanwhile.

Example:
  relay audit north.ledger south.ledger < tickets",
    },
];

static OF_DESKS: [Page; 7] = [
    Page {
        name: "scan",
        about: "Gathers the pages of scanned labels at a desk",
        usage: "relay scan --file DESK [--capacity N] (IMAGES .. | < IMAGES)",
        said: &[DESK, CAPACITY, IMAGES],
        more: "\
Takes images as `relay read` does; `relay-find` makes them from pictures. The
page of each is saved, and then a line says what it was:
  IIII m/n new       page m of n, with the ID IIII, is held now
  IIII m/n again     it was held already
  IIII m/n complete  it is held now, and so are all other pages
  refused NAME       the desk holds what it held; but after `refused Save` the
                     page may be held, and nothing more is read
Notes on standard error name refused images. A desk keeps a document until it is
forgotten. Pages that disagree with held ones are refused. Like most commands of
desks, it first moves documents in an old file at DESK to DESK.pages.

A desk is made with its first page. The capacity is not remembered: give it at
each `scan` and `import`. A desk that holds more documents than that is refused
`TooMany`. Other commands take up to 1024, `held` without --long any number.

Example:
  relay scan --file desk < labels.pbm",
    },
    Page {
        name: "deliver",
        about: "Gives back a document when all its pages are held",
        usage: "relay deliver --file DESK (--id IIII [--to FILE] | --all DIR [--forget])",
        said: &[DESK, ID, SAVED, ALL, FORGET],
        more: "\
Writes just the document, which stays at the desk. If a page is missing, nothing
is written but `refused Incomplete`, to standard error. With `--to` the document
is on the disk once the command exits with 0. A FILE that is there already is
left as it is, and refused unless it is just this document.

With `--all` the same holds of each complete document, with DIR/IIII as FILE;
DIR must be there. If a file has something else, its document is refused `Save`,
and the next ones are saved all the same. At the end standard error says how
many documents are incomplete. If the desk can't be opened, nothing is saved.
All these refusals go to standard error.

With `--forget` the desk drops these documents once all of them are saved, as
`relay forget` does: for each, `forgotten IIII` or a refusal is printed. If one
can't be saved, none is forgotten. Incomplete documents stay. After a stop
run it again with the same DIR, which keeps what was forgotten.

Examples:
  relay deliver --file desk --id 0101 --to letter
  relay deliver --file desk --all folder",
    },
    Page {
        name: "forget",
        about: "Forgets a document",
        usage: "relay forget --file DESK --id IIII",
        said: &[DESK, ID],
        more: "\
Drops every page of the document that the desk holds; only a scan or an import
brings them back. Prints `forgotten IIII`. A refusal goes to standard output.

Example:
  relay forget --file desk --id 0101",
    },
    Page {
        name: "export",
        about: "Writes the pages of a document for another desk",
        usage: "relay export --file DESK (--id IIII [--to FILE] | --all DIR)",
        said: &[DESK, ID, SAVED, ALL_PAGES],
        more: "\
The pages stay at the desk. `relay import` takes them in at another. A refusal
goes to standard error. With `--to` the pages are on the disk once the command
exits with 0; FILE must not exist before.

With `--all` the same holds of each document, complete or not, with DIR/IIII as
FILE; DIR must be there. A file that is there already stays as it was, its
document is refused `Save`, and the next ones are saved all the same. If the
desk can't be opened, nothing is saved.

Examples:
  relay export --file desk --id 0101 > 0101.export
  relay export --file desk --all folder",
    },
    Page {
        name: "import",
        about: "Takes in the pages that another desk has exported",
        usage: "relay import --file DESK [--capacity N] (FILES .. | < PAGES)",
        said: &[DESK, CAPACITY, PAGES],
        more: "\
Saves all pages of a file at once, and prints a line:
  IIII n added MASK KIND
                    the ID, how many pages the document has, which of them were
                    added (bit m - 1 for page m, in hexadecimal), and `again` if
                    none was, else `complete` if now all are held, or `new`
A refusal goes to standard output. Once the desk is open, each named file in
turn has a line, up to `refused Save`. `relay scan --help` explains --capacity.

Example:
  relay import --file other-desk 0101.export",
    },
    Page {
        name: "held",
        about: "Prints which pages a desk holds",
        usage: "relay held --file DESK [--id IIII] [--long]",
        said: &[DESK, ID, LONG],
        more: "\
Prints a line for each document of which a page is held: `IIII n complete`, or
`IIII n lacks 3 7 12`: its ID, its number of pages, and which are missing. With
--id it prints the line of that document alone, or a refusal. A file that can't
be used doesn't hide the others: `file FILE NAME ID` comes in its place, and the
exit status is 1. FILE is its name in the folder DESK.pages, and ID the one that
this name stands for, if any; or FILE is `joint`, an old file at DESK, which may
hold the document of --id. Without --long nothing is saved, and another program
may save meanwhile. A refusal goes to standard output: `refused Absent` where no
desk is.

With --long each line says more:
  0101 3 lacks 2, 2 of 3 labels, 512 bytes, \"Dear Sir,\\n\"
It has how many labels and bytes are held, and how page 1 begins, if that is
held: at most 40 bytes, escaped but for printing ASCII without quote and
backslash. The desk is opened as by `deliver`: a file that can't be used is
refused, and the documents of an old file are moved.

Example:
  relay held --file desk",
    },
    Page {
        name: "copy",
        about: "Redraws the label of a page that a desk holds",
        usage: "relay copy --file DESK --id IIII --page M --side SIDE [--scheme SCHEME]\n         > IMAGE",
        said: &[DESK, ID, PAGE, SIDE, SCHEME],
        more: "\
Draws the label of one page that is held, as a packed PBM image. A scan of it
gives the same page. Its side need not be that of the lost label. A refusal goes
to standard error.

Example:
  relay copy --file desk --id 0101 --page 2 --side 52 > label.pbm",
    },
];

static OTHERS: [Page; 3] = [
    Page {
        name: "world",
        about: "Simulates printers and desks in memory, from a script",
        usage: "relay world < SCRIPT",
        said: &[],
        more: "\
The script names printers, desks, and events: prints, scans, restarts and so on.
It may stop an event that saves wherever power could fail, or let its save fail.
Each event gives a line, which begins with `! ` if a scan has more wrong
codewords than can be corrected. docs/RECIPES.md has the form of a script. No
file is read or written. A refusal goes to standard output.

Example:
  printf 'range 0 9\\ndesks 1 4\\nprint 0 12 ascii 31323334 -\\n' | relay world",
    },
    Page {
        name: "explain",
        about: "Prints what a refusal means, and what to do",
        usage: "relay explain [NAME]",
        said: &[REFUSAL],
        more: "\
It prints what the tables of docs/REFUSALS.md say.

Example:
  relay explain Border",
    },
    Page {
        name: "version",
        about: "Prints the version, and the toolchain that proved it",
        usage: "relay version",
        said: &[],
        more: "",
    },
];

fn of_symbols() -> &'static [Page] {
    &OF_SYMBOLS
}

fn of_printers() -> &'static [Page] {
    &OF_PRINTERS
}

fn of_tickets() -> &'static [Page] {
    &OF_TICKETS
}

fn of_desks() -> &'static [Page] {
    &OF_DESKS
}

fn others() -> &'static [Page] {
    &OTHERS
}

fn program() -> &'static Page {
    &PROGRAM
}

/// The page of the command of a name, or that of the program where no command has it.
pub fn page_named(name: &str) -> &'static Page {
    for pages in [
        of_symbols(),
        of_printers(),
        of_tickets(),
        of_desks(),
        others(),
    ] {
        for page in pages {
            if page.name == name {
                return page;
            }
        }
    }
    program()
}

/// What is said of an argument, by its place among those of its command.
pub fn said_of(page: &Page, at: usize) -> Said {
    page.said.get(at).copied().unwrap_or(Said("", ""))
}
