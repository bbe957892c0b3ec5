//! What runs statements.

use crate::settings::Settings;
use std::alloc::Global;

/// What runs statements: the runtime that starts threads, the allocator, how the words want statements
/// to be run, the predicates, and the gate that several workers call.
pub struct Engine<'e, P, G, R> {
    /// The runtime that starts threads.
    pub rt: &'e R,
    /// The allocator.
    pub alloc: Global,
    /// How statements are run.
    pub settings: &'e Settings,
    /// The predicates that conditions call.
    pub functions: &'e P,
    /// The gate that several workers call.
    pub gate: &'e G,
}

// A derived one would ask that the predicates, the gate and the runtime can be let go.
impl<'e, P, G, R> Drop for Engine<'e, P, G, R> {
    fn drop(self) {
        let Self {
            rt: _,
            alloc: _,
            settings: _,
            functions: _,
            gate: _,
        } = self;
    }
}
