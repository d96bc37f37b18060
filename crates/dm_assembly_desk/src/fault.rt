//! Why a desk refuses, each with its name as it is printed.

ghost use Rattle.std.specs.Prelude.{◌≡◌};
ghost use Rattle.dm_assembly_desk.specs.Desk.{scan_fault_of, import_fault, import_fault_of, desk_fault_of, move_fault_of, desk_fault_name, scan_fault_name, ask_fault_name, forget_fault_name, export_fault_name, import_fault_name, move_fault_name};

use crate::adding::AddFault;
use crate::file::FileFault;
use dm_append_label::LabelFault;
use dm_store::StoreFault;

/// Why no desk was opened.
#[derive(Clone, Copy, Debug, PartialEq, Eq)]
pub enum DeskFault {
    /// The capacity is not 1 to 1,024.
    Capacity,
    /// What is saved under a key does not begin as a file of pages.
    NotPages,
    /// What is saved under a key is of a version that is not known.
    Version,
    /// What is saved under a key is no file of pages, or that of another ID.
    Damaged,
    /// There are more keys than the desk has room for documents.
    TooMany,
    /// A load met a device fault.
    Device,
    /// Memory for a load was refused, or, after all else, for what is held.
    Memory,
}

/// Why a scan was refused: the first of these, in this order, that applies.
#[derive(Clone, Copy, Debug, PartialEq, Eq)]
pub enum ScanFault {
    /// A save failed before. The desk has to be opened again.
    Failed,
    /// The grid is opened as no label for this reason, which is never `Memory`.
    Label(LabelFault),
    /// The document is held with another number of pages, or the page with other bytes.
    Conflict,
    /// The document is not held, and there is no room for another.
    Full,
    /// Memory for the page or its save was refused.
    Memory,
    /// The save met a device fault. The page may be held once the desk is opened again.
    Save,
}

/// Why a document was not given: the first of these, in this order, that applies.
#[derive(Clone, Copy, Debug, PartialEq, Eq)]
pub enum AskFault {
    /// No page of it is held.
    NotHeld,
    /// Some of its pages are not held: bit m - 1 is set for page m.
    Incomplete { missing: u16 },
    /// Memory for the document was refused.
    Memory,
}

/// Why a document was not forgotten: the first of these, in this order, that applies.
#[derive(Clone, Copy, Debug, PartialEq, Eq)]
pub enum ForgetFault {
    /// A save failed before. The desk has to be opened again.
    Failed,
    /// No page of it is held.
    NotHeld,
    /// The set was refused its memory.
    Memory,
    /// The set met a device fault. The document may be gone once the desk is opened again.
    Save,
}

/// Why the pages of a document were not exported: the first of these, in this order, that applies.
#[derive(Clone, Copy, Debug, PartialEq, Eq)]
pub enum ExportFault {
    /// No page of it is held.
    NotHeld,
    /// Memory for the file was refused.
    Memory,
}

/// Why an import was refused: the first of these, in this order, that applies.
#[derive(Clone, Copy, Debug, PartialEq, Eq)]
pub enum ImportFault {
    /// A save failed before. The desk has to be opened again.
    Failed,
    /// The bytes do not begin as a file of pages.
    NotPages,
    /// The file is of a version that is not known.
    Version,
    /// The bytes are no file of pages.
    Damaged,
    /// The document is held with another number of pages, or a page with other bytes.
    Conflict,
    /// The document is not held, and there is no room for another.
    Full,
    /// Memory for the pages or for their save was refused.
    Memory,
    /// The save met a device fault. The pages may be held once the desk is opened again.
    Save,
}

/// Why the documents of a file of version 1 were not all moved.
#[derive(Clone, Copy, Debug, PartialEq, Eq)]
pub enum MoveFault {
    /// The bytes do not begin as a file of pages.
    NotPages,
    /// The file is of another version.
    Version,
    /// The bytes are no file of version 1.
    Damaged,
    /// A load or a save met a device fault.
    Device,
    /// Memory for a load or for a save was refused.
    Memory,
}

impl From<AddFault> for ScanFault {
    ghost from_gives = { λ given fault. fault ≡ scan_fault_of given };

    fn from(fault: AddFault) -> Self {
        match fault {
            AddFault::Conflict => ScanFault::Conflict,
            AddFault::Full => ScanFault::Full,
            AddFault::Memory => ScanFault::Memory,
            AddFault::Save => ScanFault::Save,
        }
    }
}

impl From<AddFault> for ImportFault {
    ghost from_gives = { λ given fault. fault ≡ import_fault_of given };

    fn from(fault: AddFault) -> Self {
        match fault {
            AddFault::Conflict => ImportFault::Conflict,
            AddFault::Full => ImportFault::Full,
            AddFault::Memory => ImportFault::Memory,
            AddFault::Save => ImportFault::Save,
        }
    }
}

impl From<StoreFault> for MoveFault {
    ghost from_gives = { λ given fault. fault ≡ move_fault_of given };

    fn from(fault: StoreFault) -> Self {
        match fault {
            StoreFault::Device => MoveFault::Device,
            StoreFault::Memory => MoveFault::Memory,
        }
    }
}

impl From<FileFault> for DeskFault {
    ghost from_gives = { λ given fault. fault ≡ desk_fault_of given };

    fn from(fault: FileFault) -> Self {
        match fault {
            FileFault::NotPages => DeskFault::NotPages,
            FileFault::Version => DeskFault::Version,
            FileFault::Damaged => DeskFault::Damaged,
        }
    }
}

impl From<FileFault> for ImportFault {
    ghost from_gives = { λ given fault. fault ≡ import_fault given };

    fn from(fault: FileFault) -> Self {
        match fault {
            FileFault::NotPages => ImportFault::NotPages,
            FileFault::Version => ImportFault::Version,
            FileFault::Damaged => ImportFault::Damaged,
        }
    }
}

impl DeskFault {
    /// The variant's name.
    pub fn name(self) -> &'static str
        ensures { result.now ≡ desk_fault_name self }
    {
        match self {
            DeskFault::Capacity => "Capacity",
            DeskFault::NotPages => "NotPages",
            DeskFault::Version => "Version",
            DeskFault::Damaged => "Damaged",
            DeskFault::TooMany => "TooMany",
            DeskFault::Device => "Device",
            DeskFault::Memory => "Memory",
        }
    }
}

impl ScanFault {
    /// The variant's name, and for `Label` that of the label's fault.
    pub fn name(self) -> &'static str
        ensures { result.now ≡ scan_fault_name self }
    {
        match self {
            ScanFault::Failed => "Failed",
            ScanFault::Label(fault) => fault.name(),
            ScanFault::Conflict => "Conflict",
            ScanFault::Full => "Full",
            ScanFault::Memory => "Memory",
            ScanFault::Save => "Save",
        }
    }
}

impl AskFault {
    /// The variant's name.
    pub fn name(self) -> &'static str
        ensures { result.now ≡ ask_fault_name self }
    {
        match self {
            AskFault::NotHeld => "NotHeld",
            AskFault::Incomplete { .. } => "Incomplete",
            AskFault::Memory => "Memory",
        }
    }
}

impl ForgetFault {
    /// The variant's name.
    pub fn name(self) -> &'static str
        ensures { result.now ≡ forget_fault_name self }
    {
        match self {
            ForgetFault::Failed => "Failed",
            ForgetFault::NotHeld => "NotHeld",
            ForgetFault::Memory => "Memory",
            ForgetFault::Save => "Save",
        }
    }
}

impl ExportFault {
    /// The variant's name.
    pub fn name(self) -> &'static str
        ensures { result.now ≡ export_fault_name self }
    {
        match self {
            ExportFault::NotHeld => "NotHeld",
            ExportFault::Memory => "Memory",
        }
    }
}

impl ImportFault {
    /// The variant's name.
    pub fn name(self) -> &'static str
        ensures { result.now ≡ import_fault_name self }
    {
        match self {
            ImportFault::Failed => "Failed",
            ImportFault::NotPages => "NotPages",
            ImportFault::Version => "Version",
            ImportFault::Damaged => "Damaged",
            ImportFault::Conflict => "Conflict",
            ImportFault::Full => "Full",
            ImportFault::Memory => "Memory",
            ImportFault::Save => "Save",
        }
    }
}

impl MoveFault {
    /// The variant's name.
    pub fn name(self) -> &'static str
        ensures { result.now ≡ move_fault_name self }
    {
        match self {
            MoveFault::NotPages => "NotPages",
            MoveFault::Version => "Version",
            MoveFault::Damaged => "Damaged",
            MoveFault::Device => "Device",
            MoveFault::Memory => "Memory",
        }
    }
}
