//! Scanned labels, whose pages are held and saved: a scan is the import of one page.

ghost use Rattle.std.specs.Prelude.{◌≡◌, ◌≤◌, length, true, false, Err, IfOk, IsSome};
ghost use Rattle.dm_append_label.specs.Labels.{IsHead};
ghost use Rattle.dm_assembly_desk.specs.Desk.{Accepts, AcceptsGrid};
ghost use Rattle.dm_assembly_desk.specs.Documents.{KeepsPages, DeskIsInOrder, page_at};

use crate::desk::Desk;
use crate::fault::ScanFault;
use crate::reply::Accepted;
use dm_append_label::{FoundPage, MOST_PAGE_BYTES, open_page};
use dm_finder_frame::{Grid, LentGrid};
use dm_store::StoreSet;
use std::alloc::Allocator;

impl<S: StoreSet, A: Allocator + Copy> Desk<S, A> {
    /// Opens a scanned label, from any grid, and holds and saves its page where it was not held.
    ///
    /// # Errors
    /// The first fault that applies, in the order of `ScanFault`. After `Save` the desk shows what it held before, and
    /// answers `Failed` until it is closed and opened again; after any other the desk and its set are as before.
    pub fn accept(&mut self, grid: &Grid<A>) -> Result<Accepted, ScanFault>
        ensures failed { self.old.is_failed ≡ true → (result ≡ Err ScanFault.Failed) × (self.new ≡ self.old) }
        ensures scanned { self.old.is_failed ≡ false → AcceptsGrid grid.now self.old result self.new }
        ensures held { IfOk result (λ reply. IsSome (page_at self.new.held reply.id reply.m)) }
        ensures kept { KeepsPages self.old.held self.new.held }
        ensures before { DeskIsInOrder self.old }
        ensures after { DeskIsInOrder self.new }
    {
        self.accept_lent(&grid.lend())
    }

    /// Does so for a grid that is lent.
    ///
    /// # Errors
    /// As [`Desk::accept`].
    pub fn accept_lent(&mut self, grid: &LentGrid) -> Result<Accepted, ScanFault>
        ensures failed { self.old.is_failed ≡ true → (result ≡ Err ScanFault.Failed) × (self.new ≡ self.old) }
        ensures scanned { self.old.is_failed ≡ false → AcceptsGrid grid.now self.old result self.new }
        ensures held { IfOk result (λ reply. IsSome (page_at self.new.held reply.id reply.m)) }
        ensures kept { KeepsPages self.old.held self.new.held }
        ensures before { DeskIsInOrder self.old }
        ensures after { DeskIsInOrder self.new }
    {
        if self.is_failed {
            return Err(ScanFault::Failed);
        }
        let mut room = [0u8; MOST_PAGE_BYTES];
        match open_page(grid, &mut room) {
            Ok(page) => self.accept_page(page, &room[..page.count]),
            Err(fault) => Err(ScanFault::Label(fault)),
        }
    }

    // Answers a page, and holds and saves it where it was not held.
    fn accept_page(&mut self, page: FoundPage, bytes: &[u8]) -> Result<Accepted, ScanFault>
        requires running { self.old.is_failed ≡ false }
        requires head { IsHead (record { m = page.m; n = page.n; id = page.id }) }
        requires short { length bytes.now ≤ MOST_PAGE_BYTES }
        ensures accepts { Accepts (record { id = page.id; m = page.m; n = page.n; bytes = bytes.now })
            self.old result self.new }
        ensures held { IfOk result (λ reply. IsSome (page_at self.new.held reply.id reply.m)) }
        ensures after { DeskIsInOrder self.new }
    {
        let FoundPage { id, m, n, .. } = page;
        let mut places: [Option<&[u8]>; 16] = [None; 16];
        places[m as usize - 1] = Some(bytes);
        match self.add(id.number(), &places[..n as usize]) {
            Ok(reply) => Ok(Accepted {
                id,
                m,
                n,
                kind: reply.kind,
            }),
            Err(fault) => Err(ScanFault::from(fault)),
        }
    }
}
