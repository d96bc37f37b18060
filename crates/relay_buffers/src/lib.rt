//! Buffers that let whole lines out. Proved: all that was written to one is what is out and then what is held; nothing
//! stays held that ends a line and has as many bytes as were asked for; no write fails for a signal that interrupts it;
//! once a write has failed, nothing more goes out.
#![tactic(auto)]

mod attempt;
mod line_buffer;

pub use line_buffer::LineBuffer;
