//! The worked lists of commands are run: each goes as its contract supposes.

use relay_program_runs::needed::{
    needs_files, needs_labels_and_exports, needs_numbers, needs_ranges, needs_tickets,
};
use relay_program_runs::worked::worked_commands;
use relay_program_runs::worked_lines::worked_lines;

#[test]
fn short_lists_go_well(rt: HostRuntime) {
    let alloc = rt.alloc();
    assert!(rt;
        needs_ranges(alloc) && needs_numbers(alloc) && needs_tickets(alloc) && needs_files(alloc)
    );
    assert!(rt; needs_labels_and_exports(alloc));
}

#[test]
fn worked_commands_deliver_what_was_printed(rt: HostRuntime) {
    assert!(rt; worked_commands(rt.alloc()).is_some());
}

#[test]
fn worked_lines_go_well(rt: HostRuntime) {
    assert!(rt; worked_lines(rt.alloc()));
}
