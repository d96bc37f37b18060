//! Laws of commands at a desk that holds pages of printed labels alone: each function's contract is the law.

ghost use Rattle.relay_desk_runs.specs.Answered.{EachCopyIsPrinted, EachDeliverIsPrinted, EachExportIsPrinted, EachForgetKeeps, EachImportKeeps, EachScanKeeps};

/// A scan keeps it so, if each grid that it took in is near a label of such a page.
pub fn scans()
    ensures { EachScanKeeps }
{}

/// An import keeps it so, if each file that it took in has such pages alone.
pub fn imports()
    ensures { EachImportKeeps }
{}

/// A forget keeps it so.
pub fn forgets()
    ensures { EachForgetKeeps }
{}

/// What an export gives out has such pages alone.
pub fn exports()
    ensures { EachExportIsPrinted }
{}

/// What a copy writes is the label of such a page.
pub fn copies()
    ensures { EachCopyIsPrinted }
{}

/// What is delivered was printed.
pub fn delivers()
    ensures { EachDeliverIsPrinted }
{}
