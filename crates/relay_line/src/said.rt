//! What the helps say of the arguments of the commands.

/// What the helps call the value of an argument, and what they say of it.
#[derive(Clone, Copy)]
pub struct Said(pub &'static str, pub &'static str);

const SIDE_HELP: &str = "modules per side: 10 to 26 by twos, 32, 36, 40, 44, 48,\n\
    52, 64, 72, 80, 88, 96, 104, 120 or 132";

const LABEL_SIDE_HELP: &str = "modules per side: 12 to 26 by twos, 32, 36, 40, 44, 48,\n\
    52, 64, 72, 80, 88, 96, 104, 120 or 132";

const LABELS_HELP: &str = "use the smallest side at which no more than K\n\
    labels, 2 to 16, are needed";

const SCHEME_HELP: &str = "the encodation: ascii suits digits, c40 capitals, text\n\
    small letters, base256 any bytes";

const HEX_HELP: &str = "the 20 digits that `give` printed, or the form with\n\
    check digits that `ticket` printed";

const ID_HELP: &str = "the ID: 4 hexadecimal digits";

const IMAGES_HELP: &str = "files of images, read in turn; `-` is the standard input";

const FIRST_HELP: &str = "the first ID, from 0";

const LAST_HELP: &str = "the last ID, up to 64515";

const COUNT_HELP: &str = "the last N consecutive free IDs, in place of --first\n\
    and --last";

const SAVED_HELP: &str = "save it as this file, in place of the standard output";

pub const SIDE: Said = Said("SIDE", LABEL_SIDE_HELP);

pub const LEAST_SIDE: Said = Said("SIDE", SIDE_HELP);

pub const LABELS: Said = Said("K", LABELS_HELP);

pub const SCHEME: Said = Said("SCHEME", SCHEME_HELP);

pub const PLAIN: Said = Said("", "draws in PBM's plain form, P1, in place of P4");

pub const LEDGER: Said = Said("LEDGER", "the file that holds the ledger");

pub const DESK: Said = Said("DESK", "the desk; its files are in the folder DESK.pages");

pub const TO: Said = Said("N", "the number of the other printer");

pub const NUMBER: Said = Said("N", "the ledger's number, up to 65535");

pub const OWN_NUMBER: Said = Said("N", "the printer's number, up to 65535");

pub const FIRST: Said = Said("N", FIRST_HELP);

pub const LAST: Said = Said("N", LAST_HELP);

pub const COUNT: Said = Said("N", COUNT_HELP);

pub const LEDGERS: Said = Said("LEDGERS", "the files that hold the ledgers");

pub const TICKET: Said = Said("HEX", HEX_HELP);

pub const CAPACITY: Said = Said("N", "how many documents it may hold, 1 to 1024");

pub const ID: Said = Said("IIII", ID_HELP);

pub const PAGE: Said = Said("M", "the page, from 1 to 16");

pub const SAVED: Said = Said("FILE", SAVED_HELP);

pub const ALL: Said = Said("DIR", "save each complete document in this folder, by ID");

pub const FORGET: Said = Said("", "with --all, forget them once all are saved");

pub const ALL_PAGES: Said = Said("DIR", "save each document's pages in this folder, by ID");

pub const LONG: Said = Said("", "also say how much is held, and how page 1 begins");

pub const IMAGES: Said = Said("IMAGES", IMAGES_HELP);

pub const PAGES: Said = Said(
    "FILES",
    "files of pages, in turn; `-` is the standard input",
);

pub const REFUSAL: Said = Said(
    "NAME",
    "the name of a refusal; without one, prints all names",
);
