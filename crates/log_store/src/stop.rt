//! Why a call on a log's file stops.

ghost use Rattle.std.specs.Prelude.{◌≡◌};

use log_file::fault::Fault;

/// Why a call on a log's file stops before it is done.
#[derive(Drop)]
pub enum Stop<R: Drop> {
    /// What was read tells why.
    Fault(Fault),
    /// A call of the disk was refused.
    Disk(R),
}
