// Printers over allocators that refuse and stores that stop, and spoiled ledgers and tickets.

mod calls;
mod spoiled;
mod stops;
mod table;

pub use table::number;
