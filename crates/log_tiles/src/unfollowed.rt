//! Why a log of tiles is not followed.

use log_store::Stop;

/// Why a log of tiles is not followed.
#[derive(Drop)]
pub enum Unfollowed<R: Drop> {
    /// The new log has fewer entries than the old one.
    Shrunk,
    /// The new log does not continue the old one: no log has both roots.
    Fork,
    /// The call on the log stopped.
    Stopped(Stop<R>),
}
