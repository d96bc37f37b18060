//! The labels of one print.

ghost use Rattle.std.specs.Prelude.{◌≡◌, ◌∷◌, [], ◌≤◌, MatchOption, IfOk, length, reverse};
ghost use Rattle.dm_append_label.specs.Labels.{Fits, PartsFit, parts_from};
ghost use Rattle.dm_print_ledger.specs.Verdicts.{AreLabels, IsJobOf, IsLabelOf};
ghost use Rattle.dm_print_ledger.specs.Ledger.{JobView};

use dm_append_label::{FileId, Page, SealFault, seal};
use dm_encodation::Scheme;
use dm_finder_frame::Grid;
use dm_size::Size;
use std::alloc::{AllocError, Allocator, Global};
use std::marker::Model;

/// The labels of one print that were not taken yet. It is independent of its printer; a label that is not taken before
/// the job is dropped is lost.
#[derive(Drop)]
pub struct Job<A: Allocator = Global> {
    id: FileId,
    count: u8,
    /// The last page's first, so that a label is taken without moving the others.
    labels: Vec<Grid<A>, A>,
}

impl<A: Allocator> Model for Job<A> {
    ghost Value = { JobView };

    ghost view = { λ j. record { id = j.id; count = j.count; labels = reverse j.labels.items } };
}

impl<A: Allocator> Job<A> {
    // A job of these labels, the first page's first.
    fn new(id: FileId, count: u8, mut labels: Vec<Grid<A>, A>) -> Job<A>
        ensures { result ≡ record { id = id; count = count; labels = labels.items } }
    {
        labels.reverse();
        Job { id, count, labels }
    }

    /// The ID that all its labels carry.
    pub fn id(&self) -> FileId
        ensures { result ≡ self.now.id }
    {
        self.id
    }

    /// How many labels it had at first, 2 to 16, whatever was taken since.
    pub fn count(&self) -> u8
        ensures { result ≡ self.now.count }
    {
        self.count
    }

    /// Takes the next label, the first page's first. After the last there is none.
    pub fn next_label(&mut self) -> Option<Grid<A>>
        ensures { MatchOption result ((self.old.labels ≡ []) × (self.new ≡ self.old))
            (λ grid. self.old ≡ record self.new { labels = grid ∷ self.new.labels }) }
    {
        self.labels.pop()
    }
}

// Page m of the n pages of a document.
#[derive(Clone, Copy)]
struct PageNumber {
    id: FileId,
    m: u8,
    n: u8,
}

// The label of one part.
fn make_label<A: Allocator + Copy>(
    alloc: A,
    part: &[u8],
    number: PageNumber,
    size: Size,
    scheme: Scheme,
) -> Result<Grid<A>, AllocError>
    requires fits { Fits size scheme part.now }
    requires least { 2 ≤ number.n }
    requires most { number.n ≤ 16 }
    requires first { 1 ≤ number.m }
    requires last { number.m ≤ number.n }
    ensures { IfOk result (IsLabelOf size scheme
        (record { id = number.id; m = number.m; n = number.n; bytes = part.now })) }
{
    let bytes = part.to_vec(alloc)?;
    let Some(page) = Page::new(number.id, number.m, number.n, bytes) else {
        unreachable!()
    };
    match seal(alloc, &page, size, scheme) {
        Ok(grid) => Ok(grid),
        Err(SealFault::TooLong) => unreachable!(),
        Err(SealFault::Memory) => Err(AllocError),
    }
}

// The labels of the parts that end at these places.
fn labels_by<A: Allocator + Copy>(
    alloc: A,
    document: &[u8],
    ends: &[usize],
    id: FileId,
    size: Size,
    scheme: Scheme,
) -> Result<Vec<Grid<A>, A>, AllocError>
    requires fit { PartsFit size scheme document.now 0 ends.now }
    requires least { 2 ≤ length ends.now }
    requires most { length ends.now ≤ 16 }
    ensures { IfOk result (λ labels. AreLabels size scheme id (length ends.now) 1
        (parts_from document.now 0 ends.now) labels.items) }
{
    let n = ends.len() as u8;
    let mut labels = Vec::with_capacity(alloc, ends.len())?;
    let mut from = 0;
    let mut m = 1u8;
    for end in ends {
        let part = &document[from..*end];
        let number = PageNumber { id, m, n };
        labels.push(make_label(alloc, part, number, size, scheme)?)?;
        from = *end;
        m += 1;
    }
    Ok(labels)
}

/// The job of the parts of a document that end at these places.
pub(crate) fn make_job<A: Allocator + Copy>(
    alloc: A,
    document: &[u8],
    ends: &[usize],
    id: FileId,
    size: Size,
    scheme: Scheme,
) -> Result<Job<A>, AllocError>
    requires fit { PartsFit size scheme document.now 0 ends.now }
    requires least { 2 ≤ length ends.now }
    requires most { length ends.now ≤ 16 }
    ensures { IfOk result (IsJobOf size scheme id (parts_from document.now 0 ends.now)) }
{
    let labels = labels_by(alloc, document, ends, id, size, scheme)?;
    Ok(Job::new(id, ends.len() as u8, labels))
}
