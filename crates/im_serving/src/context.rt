//! What servers share.

use im_controller::{Controller, Name};
use im_disk::Disk;

/// What servers share: the handle by which they wait, the controller, and the gate. Each has a teller of its own.
#[derive(Drop)]
pub struct Context<'a, D: Disk, K: Name, G, T, R> {
    /// The handle by which they wait.
    pub rt: &'a R,
    /// The controller through which they ask.
    pub controller: &'a Controller<D, K>,
    /// The gate round each request.
    pub gate: &'a G,
    /// Who is told the answers of earlier scripts before they are confirmed.
    pub teller: T,
}
