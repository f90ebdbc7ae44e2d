//! How a log's file lies, as what is read of it says.

ghost use Rattle.std.specs.Prelude.{◌≡◌, take, IfOk};
ghost use Rattle.log_store.specs.Sectors.{layout_in};

use log_file::head::START;
use log_store::{DIGESTS, Disk, Layout, SECTOR, layout_of_parts};

// The title and the first slot of a head.
fn title_and_slot(head: &[u8; START]) -> [u8; 64]
    ensures { result ≡ take 64 head.now }
{
    let mut start = [0; 64];
    start.copy_from_slice(&head[..64]);
    start
}

/// Returns how a log's file lies on its disk, of which both sectors have to be read: of one that may have sectors it reads the bytes
/// of a head, and the first 64 of the second sector. The error is the disk's refusal.
pub fn layout_on<D: Disk>(disk: &D) -> Result<Layout, D::Refusal>
    ensures { D.Obeys disk.now → IfOk result (λ layout. layout ≡ layout_in (D.seen disk.now)) }
{
    let count = disk.length()?;
    if count < DIGESTS {
        return Ok(Layout::Dense);
    }
    let mut head = [0; START];
    disk.read_at(0, &mut head)?;
    let mut second = [0; 64];
    disk.read_at(SECTOR, &mut second)?;
    Ok(layout_of_parts(count, &title_and_slot(&head), &second))
}
