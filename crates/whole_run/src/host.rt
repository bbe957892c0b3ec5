//! What a run is handed.

use std::alloc::Global;

/// What a run is handed: the runtime that starts threads, the allocator, and the gate that several
/// workers call.
pub struct Host<'h, G, R> {
    /// The runtime that starts threads.
    pub rt: &'h R,
    /// The allocator.
    pub alloc: Global,
    /// The gate that several workers call.
    pub gate: &'h G,
}

// A derived one would ask that the gate and the runtime can be let go.
impl<'h, G, R> Drop for Host<'h, G, R> {
    fn drop(self) {
        let Self {
            rt: _,
            alloc: _,
            gate: _,
        } = self;
    }
}
