//! The door: every public call, and nothing else. Each takes any input, has no `requires`, and its contract is an equation with the
//! note's definitions (a writer's by way of `WriterDid`, its answer and its output; stores/specs/Writes); a walker's three with those of
//! walk/specs/Steps, of which `walk_yields` says that k steps from opening the yield is the note's `yield_at file k`.
#![tactic(auto)]

pub use channels::{channel, code};
pub use fields::zip;
pub use find::find;
pub use little::{
    close_configuration, close_event, record, sample, samples, setting, write_administrative,
    write_charge, write_gps, write_header, write_history, write_phonon, write_tlb, write_trace,
    write_trigger,
};
pub use rewriting::rewrite;
pub use table::table;
pub use visitor::visit;
pub use walker::{Walker, next, open, yielded};
