//! What is to be written to a file of the caller's before a keeper uses it.

ghost use Rattle.std.specs.Prelude.{◌≡◌, ◌≢◌, ◌⊎◌, ◌<◌, ◌+◌, ◌*◌, ◌^◌, List, ℕ, [], drop, true, pos, negsuc, IfErr, OnOk, Err};
ghost use Rattle.ark_paths.specs.Pair.{Digest};
ghost use Rattle.log_store.specs.Healing.{IsNotOlder, IsReadAs};
ghost use Rattle.log_store.specs.Sectors.{layout_in, sectors_head, IsSpread};
ghost use Rattle.log_store.specs.Store.{new_head, IsPartOf};
ghost use Rattle.log_store.specs.declared.sectors.Layout.TheVariants.{Dense};
ghost use Rattle.paxidore_calls.specs.Answer.{refusal_code};
ghost use Rattle.paxidore_calls.specs.Layouts.{log_in, HasLog, IsFirstLost, IsLeftAlone, IsSameLog, SettlesApart};
ghost use Rattle.paxidore_calls.specs.LogFiles.{AsksFirst, IsHeadReason, TellsWhy};
ghost use Rattle.paxidore_calls.specs.Plan.{Carries, HasRead, IsStopped, LeavesSteps, StopsAs};
ghost use Rattle.paxidore_calls.specs.declared.file_calls.not_done.NotDone.TheVariants.{HeadDamaged, More, Refusal};
ghost use Rattle.paxidore_calls.specs.declared.refused.Refused.TheVariants.{Room};

use crate::file_calls::{Pieces, Steps, code_of};
use log_store::DIGESTS;
use paxidore_calls::file_calls::asked::{Asked, ask};
use paxidore_calls::file_calls::handed::hand_over_steps;
use paxidore_calls::file_calls::made::made_of;
use paxidore_calls::file_calls::not_done::NotDone;
use paxidore_calls::file_calls::replay::Step;
use paxidore_calls::refused::Refused;
use std::alloc::Global;
use std::marker::Brand;

// Whether steps leave what stands from a place on.
fn leave_behind(steps: &[Step], end: usize) -> bool
    ensures { result ≡ true → (file left : List ℕ) → IsStopped steps.now file left
        → drop end left ≡ drop end file }
{
    for step in steps {
        if step.at > end || step.bytes.len() > end - step.at {
            return false;
        }
    }
    true
}

fn made_in(
    alloc: Global,
    bytes: &mut [u8],
    bytes_len: &mut usize,
    steps: &mut [[usize; 2]],
    steps_len: &mut usize,
    places: &mut [[usize; 2]],
    places_len: &mut usize,
    file_len: usize,
    pieces: &[u8],
) -> Result<(), NotDone>
    ghost file: { List ℕ }
    ensures first { AsksFirst (result ≡ Err More) file_len places_len.old places_len.new
        places.old places.new }
    ensures same { HasRead file file_len places_len.old places.old pieces.now
        → (leaves : List Digest) → HasLog leaves file → layout_in file ≡ Dense
        → OnOk result (Carries (IsSameLog file) file bytes.old bytes.new bytes_len.new
        steps.old steps.new steps_len.new) }
    ensures healed { HasRead file file_len places_len.old places.old pieces.now
        → (leaves : List Digest) → HasLog leaves file → IsSpread (layout_in file)
        → (IsFirstLost file → IsNotOlder file) → OnOk result (Carries (SettlesApart leaves) file
        bytes.old bytes.new bytes_len.new steps.old steps.new steps_len.new) }
    ensures made { HasRead file file_len places_len.old places.old pieces.now
        → IsPartOf sectors_head file → OnOk result (Carries (λ left. left ≡ sectors_head) file
        bytes.old bytes.new bytes_len.new steps.old steps.new steps_len.new) }
    ensures begun { HasRead file file_len places_len.old places.old pieces.now
        → IsPartOf sectors_head file → OnOk result (StopsAs (IsPartOf sectors_head) file
        bytes.old bytes.new bytes_len.new steps.old steps.new steps_len.new) }
    ensures stopped { HasRead file file_len places_len.old places.old pieces.now
        → (leaves : List Digest) → HasLog leaves file → (IsFirstLost file → IsNotOlder file)
        → IsPartOf sectors_head file ⊎ OnOk result (StopsAs (IsReadAs leaves) file
        bytes.old bytes.new bytes_len.new steps.old steps.new steps_len.new) }
    ensures others { HasRead file file_len places_len.old places.old pieces.now
        → IsLeftAlone file → IsPartOf sectors_head file ⊎ IsPartOf new_head (log_in file)
        ⊎ OnOk result (Carries (IsSameLog file) file
        bytes.old bytes.new bytes_len.new steps.old steps.new steps_len.new) }
    ensures behind { OnOk result (StopsAs (λ left. drop 8192 left ≡ drop 8192 file) file
        bytes.old bytes.new bytes_len.new steps.old steps.new steps_len.new) }
    ensures head { HasRead file file_len places_len.old places.old pieces.now
        → IfErr result (λ why. why ≡ HeadDamaged → IsFirstLost file) }
    ensures refused { IfErr result IsHeadReason }
    ensures left { IfErr result (λ why. LeavesSteps (why ≡ Refusal Room) bytes.old bytes.new
        bytes_len.old bytes_len.new steps.old steps.new steps_len.old steps_len.new) }
{
    ask(alloc, Asked::Made, file_len, places, places_len, pieces)?;
    let plan = made_of::<Brand>(alloc, file_len, &places[..*places_len], pieces)?;
    if !leave_behind(&plan, DIGESTS) {
        return Err(NotDone::Refusal(Refused::Other));
    }
    hand_over_steps(alloc, &plan, bytes, bytes_len, steps, steps_len)
}

/// Returns how many bytes are enough for what is to be written to make a file, and to append so many entries.
#[unsafe(no_mangle)]
pub extern "C" fn paxidore_log_file_room(count: usize) -> usize
    // two digests for each entry, and the two sectors of a new log, which are more than a head and one digest for each level
    ensures { count < 2 ^ 57 → result ≡ 64 * count + 8192 }
{
    count.saturating_mul(64).saturating_add(8192)
}

/// Hands over what is to be written to a file before a keeper uses it: the two sectors of a log of no entries, where it has no byte or no
/// more than a part of them, or else of an older head; the sectors of a slot again, where one is lost and the other one has the log; else its own
/// head again. Its own refusals: `E_HEAD` where the first sector is lost and no log is read of the second one, `E_ROOM` for `bytes` and
/// `steps`.
#[unsafe(no_mangle)]
pub extern "C" fn paxidore_log_file_make(
    alloc: Global,
    steps: &mut Steps,
    pieces: &mut Pieces,
) -> i32
    ghost file: { List ℕ }
    ensures first { AsksFirst (result ≡ negsuc 9) pieces.old.file_len pieces.old.places_len
        pieces.new.places_len pieces.old.places.now pieces.new.places.now }

    // Once all is carried out, an older log's file is as it is, ..
    ensures same { HasRead file pieces.old.file_len pieces.old.places_len pieces.old.places.now
        pieces.old.bytes.now → (leaves : List Digest) → HasLog leaves file
        → layout_in file ≡ Dense → result ≡ pos 0 → Carries (IsSameLog file) file
        steps.old.bytes.now steps.new.bytes.now steps.new.bytes_len
        steps.old.places.now steps.new.places.now steps.new.places_len }

    // .. one in two sectors has both of them with the log, and stays it if one of its slots is lost, ..
    ensures healed { HasRead file pieces.old.file_len pieces.old.places_len pieces.old.places.now
        pieces.old.bytes.now → (leaves : List Digest) → HasLog leaves file
        → IsSpread (layout_in file) → (IsFirstLost file → IsNotOlder file) → result ≡ pos 0
        → Carries (SettlesApart leaves) file
        steps.old.bytes.now steps.new.bytes.now steps.new.bytes_len
        steps.old.places.now steps.new.places.now steps.new.places_len }

    // .. and one that has no byte, or a part of the two sectors of a log of no entries, has these sectors.
    ensures made { HasRead file pieces.old.file_len pieces.old.places_len pieces.old.places.now
        pieces.old.bytes.now → IsPartOf sectors_head file → result ≡ pos 0
        → Carries (λ left. left ≡ sectors_head) file
        steps.old.bytes.now steps.new.bytes.now steps.new.bytes_len
        steps.old.places.now steps.new.places.now steps.new.places_len }
    ensures new { HasRead file pieces.old.file_len pieces.old.places_len pieces.old.places.now
        pieces.old.bytes.now → file ≡ [] → result ≡ pos 0 → Carries (SettlesApart []) file
        steps.old.bytes.now steps.new.bytes.now steps.new.bytes_len
        steps.old.places.now steps.new.places.now steps.new.places_len }

    // Wherever the steps stop, a part of these sectors is one, which the next call completes; ..
    ensures begun { HasRead file pieces.old.file_len pieces.old.places_len pieces.old.places.now
        pieces.old.bytes.now → IsPartOf sectors_head file → result ≡ pos 0
        → StopsAs (IsPartOf sectors_head) file
        steps.old.bytes.now steps.new.bytes.now steps.new.bytes_len
        steps.old.places.now steps.new.places.now steps.new.places_len }

    // .. and any other log's file is read as the same log.
    ensures stopped { HasRead file pieces.old.file_len pieces.old.places_len pieces.old.places.now
        pieces.old.bytes.now → (leaves : List Digest) → HasLog leaves file
        → (IsFirstLost file → IsNotOlder file) → result ≡ pos 0
        → IsPartOf sectors_head file ⊎ StopsAs (IsReadAs leaves) file
        steps.old.bytes.now steps.new.bytes.now steps.new.bytes_len
        steps.old.places.now steps.new.places.now steps.new.places_len }

    // What is a part of neither, and lacks no sector or has no size, stays as it is.
    ensures others { HasRead file pieces.old.file_len pieces.old.places_len pieces.old.places.now
        pieces.old.bytes.now → IsLeftAlone file → result ≡ pos 0
        → IsPartOf sectors_head file ⊎ IsPartOf new_head (log_in file)
        ⊎ Carries (IsSameLog file) file
        steps.old.bytes.now steps.new.bytes.now steps.new.bytes_len
        steps.old.places.now steps.new.places.now steps.new.places_len }

    // Of any file, whatever was read of it, the digests behind two sectors stay.
    ensures behind { result ≡ pos 0 → StopsAs (λ left. drop 8192 left ≡ drop 8192 file) file
        steps.old.bytes.now steps.new.bytes.now steps.new.bytes_len
        steps.old.places.now steps.new.places.now steps.new.places_len }

    // Only where the first sector is lost the head counts as damaged: nothing is to be written.
    ensures head { HasRead file pieces.old.file_len pieces.old.places_len pieces.old.places.now
        pieces.old.bytes.now → result ≡ negsuc 12 → IsFirstLost file }
    ensures refused { TellsWhy IsHeadReason result }
    ensures left { result ≢ pos 0 → LeavesSteps (result ≡ refusal_code Room) steps.old.bytes.now
        steps.new.bytes.now steps.old.bytes_len steps.new.bytes_len steps.old.places.now
        steps.new.places.now steps.old.places_len steps.new.places_len }
    ensures lent_steps { (steps.new.places.ghost_name ≡ steps.old.places.ghost_name)
        × (steps.new.bytes.ghost_name ≡ steps.old.bytes.ghost_name) }
    ensures lent { (pieces.new.places.ghost_name ≡ pieces.old.places.ghost_name)
        × (pieces.new.bytes.now ≡ pieces.old.bytes.now)
        × (pieces.new.file_len ≡ pieces.old.file_len) }
{
    code_of(made_in(
        alloc,
        steps.bytes,
        &mut steps.bytes_len,
        steps.places,
        &mut steps.places_len,
        pieces.places,
        &mut pieces.places_len,
        pieces.file_len,
        pieces.bytes,
    ))
}
