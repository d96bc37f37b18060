//! What `relay explain` prints. tools/make-explanations has written this from docs/REFUSALS.md.

/// What is said of each refusal, below a line with its name.
pub static EXPLANATIONS: [&str; 45] = [
    "Side\n  From: `words`, `draw`, `print`, `copy`.\n  No symbol has this side.\n  \
    What to do: use an even side from 10 to 26, or 32, 36, 40, 44, 48, 52, 64,\n  72, 80, 88, 96, 104, 120 or 132.\n",
    "TooLong\n  From: `words`, `draw`, `print`, `plan`, `copy`.\n  \
    The document doesn't fit into the symbol, into 16 labels, or into as many as\n  \
    `--labels` allows. For `copy`, the page doesn't fit. Side 10 is too small\n  for a label.\n  \
    What to do: use a larger side, more labels or another scheme (`plan` shows\n  which), or split the document.\n",
    "Range\n  From: `ledger`, `give`, `world`.\n  The first ID is above the last, or the last is above 64,515.\n  \
    What to do: correct the IDs.\n",
    "Capacity\n  From: `scan`, `import`, `world`.\n  The capacity is not 1 to 1,024.\n  \
    What to do: correct `--capacity`, or the script.\n",
    "FileId\n  From: the commands with `--id`.\n  `--id` is not the four hexadecimal digits of an ID.\n  \
    What to do: copy the ID from a label's line: `0102` in `0102 1/2 new`.\n\n  \
    The label's page number, number of pages or ID is impossible.\n  \
    What to do: set it aside: another program made it, or it was misread.\n",
    "Ticket\n  From: `take`, `ticket`.\n  The text is not a ticket, or its check digits don't fit.\n  \
    What to do: copy the ticket again. By hand, use the form that `ticket`\n  prints.\n",
    "Receiver\n  From: `give`, `take`.\n  A printer would give to itself, or the ticket is for another printer.\n  \
    What to do: check `--number` and `--to`.\n",
    "Read\n  From: all that read input.\n  The input or a named file could not be read.\n  \
    What to do: check the file, and try again. A `scan` or `import` has kept the\n  pages that it reported.\n",
    "Memory\n  From: all commands.\n  Memory was refused.\n  \
    What to do: free some memory, and try again. If `print` had written its\n  \
    line, the ID stays used. What `audit` printed before the refusal is true.\n",
    "Magic\n  The next bytes aren't `P1` or `P4`. Often a stray line end follows a packed\n  image.\n  \
    What to do: give PBM images, one right after another. `relay-find` makes\n  \
    them from pictures; `pngtopnm`, `pamthreshold` and `pamtopnm` make one from\n  a PNG.\n",
    "Header\n  The PBM header is malformed, or longer than 4,096 bytes.\n  \
    What to do: make the image again, with a header of `P4`, width and height.\n",
    "TooLarge\n  The image is wider or higher than 1,024 pixels, or its plain raster doesn't\n  \
    end within 4,194,304 bytes.\n  What to do: give one pixel per module, as `relay-find` does.\n",
    "Pixel\n  A plain image has a byte that is not a pixel.\n  \
    What to do: make the image again, with only 0, 1 and white space after its\n  header.\n",
    "Cut\n  The input ends inside an image. Or a symbol's text ends inside a character\n  \
    or a counted run of bytes.\n  What to do: give the whole image. A symbol with such a text can't be read.\n",
    "Shape\n  The image is not square, or its width less two (the quiet zone) is not a\n  side.\n  \
    What to do: do what the note says, crop and shrink the image (RECIPES.md),\n  or use `relay-find`.\n",
    "Border\n  Over an eighth of the finder patterns' modules are wrong. Perhaps the image\n  \
    is turned, mirrored or inverted, or its quiet zone isn't one pixel wide.\n  \
    What to do: do what the note says (RECIPES.md). Or give the picture to\n  \
    `relay-find`, unless it is inverted. Or scan the label or a copy again.\n",
    "Block\n  A block has more wrong codewords than can be corrected. The image may be\n  mirrored.\n  \
    What to do: do what the note says, or scan the label again. If that fails,\n  \
    `copy` it at a desk that holds its page, or print the document again.\n",
    "NotAppended\n  The symbol that `scan` got is not a label.\n  \
    What to do: set it aside; `read` prints its text, if it can.\n",
    "Sequence\n  The label's page number, number of pages or ID is impossible.\n  \
    What to do: set it aside: another program made it, or it was misread.\n",
    "Unsupported\n  The symbol uses a feature that `relay` does not read (ECI, FNC1, X12 and\n  others).\n  \
    What to do: read it with another program.\n",
    "Reserved\n  A codeword has no meaning where it stands.\n  \
    What to do: set it aside: another program made it, or it was misread.\n",
    "Conflict\n  `scan` or `import` got a page that disagrees with what the desk holds.\n  \
    What to do: if a ledger was restored or shares IDs, see LIMITS.md. Otherwise\n  \
    a page may be misread or foreign: `forget` its ID, and scan your own labels\n  again.\n",
    "Full\n  The desk of `scan` or `import` already holds as many documents as its\n  capacity.\n  \
    What to do: `deliver` and `forget` complete documents, or give a larger\n  `--capacity`, up to 1,024.\n",
    "TooMany\n  A file has more than 65,536 images. Or `audit` got more than 1,048,576 bytes\n  of tickets.\n  \
    What to do: split the file. For `audit`, no two parts together may exceed\n  that: run it on every pair.\n\n  \
    From: the commands of desks, except `held` without `--long`.\n  \
    The desk holds more documents than its capacity. Without `--capacity`, that\n  \
    is 64 for `scan` and `import`, and 1,024 for others.\n  \
    What to do: give a larger `--capacity`, up to 1,024. Beyond that, while no\n  \
    command runs, move files to another desk's folder that has none of these\n  names.\n",
    "Absent\n  From: `print`, `give`, `take`, `left`, `held`, `--all`.\n  \
    There is no ledger, or no desk, at this path.\n  What to do: check `--file`, or make a ledger with `ledger`.\n",
    "Exists\n  From: `ledger`.\n  A file is at this path already.\n  \
    What to do: a ledger is made only once; use another path.\n",
    "Device\n  From: mostly commands with `--file`.\n  \
    A file can't be used. Another program is using it, it is no plain file, or\n  \
    it or its folder can't be read, locked or synced. A command that locks also\n  \
    refuses a second name (hard link), and a new ledger or desk where none may\n  \
    be (LIMITS.md). From `ledger`, or from the move of an old file, it may also\n  mean that the save failed.\n  \
    What to do: read the line `relay: PATH: WHY`. Wait for the other program, or\n  \
    correct what the line names. After `ledger`, check with `left`: the ledger\n  may be there.\n",
    "Save\n  From: all that save, except `ledger`.\n  \
    The save failed. Perhaps the disk is full, the folder is missing, the lock\n  \
    file was removed, or the file of `--to` or `--all` exists and isn't just the\n  \
    document, or is where none may be (LIMITS.md). Nothing was printed or given.\n  \
    But the ID or the range may be used up, the ticket taken, the page held, or\n  the document forgotten.\n  \
    What to do: read the line `relay: PATH: WHY`, and correct what it names.\n  \
    Then run the command again. Before you repeat a `give`, look with `left`:\n  its IDs may be lost.\n",
    "Write\n  From: all (`read` and `scan` say nothing).\n  \
    The output refused a write. What was saved stays saved: the ledger is made,\n  \
    the ID used, the range given or taken, the pages held, or the document\n  forgotten.\n  \
    What to do: check with `left` or `held` first. If labels were cut off, print\n  \
    the document again, and forget the old ID at each desk. The ticket of a\n  \
    `give` isn't printed again: write its digits yourself (FORMATS), with the\n  \
    serial that `left` shows as `given`, less one.\n",
    "NotALedger\n  From: `print`, `give`, `take`, `left`, `audit`.\n  The file is not a ledger, or it is damaged.\n  \
    What to do: check the file's name. A damaged ledger is lost: replace it\n  (LIMITS.md).\n",
    "Damaged\n  From: `print`, `give`, `take`, `left`, `audit`.\n  The file is not a ledger, or it is damaged.\n  \
    What to do: check the file's name. A damaged ledger is lost: replace it\n  (LIMITS.md).\n\n  \
    From: the commands of desks.\n  A file of the desk, or one for `import`, is not a file of pages, is damaged,\n  \
    or belongs to another ID.\n  What to do: read the line `relay: FILE: NAME`. Move a desk's file away, and\n  \
    scan its labels again; meanwhile `held` lists the other documents. Export a\n  file for `import` anew.\n",
    "Version\n  From: commands that read a ledger, a desk or pages.\n  \
    This command doesn't read the version of the file.\n  \
    What to do: use the program that wrote it. `import` doesn't take a desk's\n  \
    file of version 1: `export` its documents.\n",
    "Number\n  From: `print`, `give`, `take`.\n  The ledger is another printer's.\n  \
    What to do: check `--number` and `--file`.\n",
    "NotPages\n  From: the commands of desks.\n  \
    A file of the desk, or one for `import`, is not a file of pages, is damaged,\n  or belongs to another ID.\n  \
    What to do: read the line `relay: FILE: NAME`. Move a desk's file away, and\n  \
    scan its labels again; meanwhile `held` lists the other documents. Export a\n  file for `import` anew.\n",
    "Exhausted\n  From: `print`.\n  No ID is free.\n  What to do: `give` some from another printer.\n",
    "NotFree\n  From: `give`.\n  An ID of the range is not free here. With `--count`, no range of free IDs is\n  \
    that long.\n  What to do: give another range, or as many as the line `relay: the longest\n  \
    range ..` says. `left` prints which are free.\n",
    "Serials\n  From: `give`.\n  The printer has given 65,535 tickets, the most that it can.\n  \
    What to do: give from another printer.\n",
    "Ranges\n  From: `give`, `take`.\n  The ledger would have more than 64 ranges of free IDs.\n  \
    What to do: give whole ranges, or IDs from their ends.\n",
    "Givers\n  From: `take`.\n  Tickets of 64 other printers were taken.\n  \
    What to do: this ticket's range is lost; others can come by way of these\n  printers.\n",
    "Old\n  From: `take`.\n  This ticket, or a later one of its giver, was taken before.\n  \
    What to do: take the tickets of a giver in order. If this one was never\n  taken, its range is lost.\n",
    "Overlap\n  From: `take`.\n  An ID of the ticket is free here already.\n  \
    What to do: correct mistyped digits; else a ledger was restored or shares\n  IDs (LIMITS.md).\n\n  \
    Two ranges of the script share an ID; no event was played.\n",
    "NotHeld\n  From: `deliver`, `export`, `copy`, `forget`, `held --id`.\n  \
    The desk holds no page of the document.\n  What to do: check `--id` and `--file`.\n",
    "Incomplete\n  From: `deliver`, `copy`.\n  \
    The desk lacks a page of the document. For `copy`, it lacks the page asked\n  \
    for, or the document has no such page.\n  \
    What to do: scan its other labels, or import its pages. `held` says how many\n  \
    pages there are, and which are missing.\n",
    "Script\n  The input is not a script; no event was played.\n",
    "Failed\n  A save of this printer or desk failed, and it has not been restarted since.\n",
];
