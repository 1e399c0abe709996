//! What all servers of a run share.
ghost use Rattle.std.specs.Prelude.{◌≡◌};

use std::alloc::Global;

/// What all servers of a run share: the handle by which threads are made and wait, where memory comes from, the gate
/// round each request, who is told how things stand, and whether their calls are recorded.
#[derive(Drop)]
pub struct RunContext<'a, G, V, R> {
    /// The handle.
    pub rt: &'a R,
    /// Where memory comes from.
    pub alloc: Global,
    /// The gate.
    pub gate: &'a G,
    /// The observer of the thread that keeps checkpoints.
    pub watcher: V,
    /// Whether the servers' calls are recorded, so that they can be written as a trace: 48 bytes for each.
    pub recorded: bool,
}

impl<'a, G, V, R> RunContext<'a, G, V, R> {
    /// Puts these together.
    pub fn new(
        rt: &'a R,
        alloc: Global,
        gate: &'a G,
        watcher: V,
        recorded: bool,
    ) -> RunContext<'a, G, V, R>
        ensures recorded { result.recorded ≡ recorded }
    {
        RunContext {
            rt,
            alloc,
            gate,
            watcher,
            recorded,
        }
    }
}
