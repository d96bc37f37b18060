//! Documents printed.

ghost use Rattle.dm_print_ledger.specs.Verdicts.{Prints};

use crate::fault::PrintFault;
use crate::job::{Job, make_job};
use crate::printer::Printer;
use dm_append_label::{FileId, cut};
use dm_encodation::Scheme;
use dm_size::Size;
use dm_store::Store;
use std::alloc::Allocator;

impl<S: Store, A: Allocator + Copy> Printer<S, A> {
    /// Prints a document under the least free ID: all its labels are made, then the ID is
    /// saved as used, and then the job is given.
    ///
    /// # Errors
    /// The first that applies, in the order of `PrintFault`. After `Save` no label was given, and `print`, `give` and
    /// `take` answer `Failed` until the printer is closed and opened again; after all others it is as before.
    pub fn print(
        &mut self,
        document: &[u8],
        size: Size,
        scheme: Scheme,
    ) -> Result<Job<A>, PrintFault>
        ensures { Prints self.old size scheme document.now result self.new }
    {
        if self.is_failed {
            return Err(PrintFault::Failed);
        }
        let Ok(ends) = cut(document, size, scheme) else {
            return Err(PrintFault::TooLong);
        };
        let Some(number) = self.ledger.least_free() else {
            return Err(PrintFault::Exhausted);
        };
        let Some(id) = FileId::of_number(number) else {
            unreachable!()
        };
        let next = self.ledger.after_print();
        let Ok(job) = make_job(self.alloc, document, ends.as_slice(), id, size, scheme) else {
            return Err(PrintFault::Memory);
        };
        self.save(next, PrintFault::Memory, PrintFault::Save)?;
        Ok(job)
    }
}
