//! A disk that answers from what a caller has read of a file, and notes what the caller is to write there.

ghost use Rattle.std.specs.Prelude.{◌≡◌, ◌+◌, ◌≤◌, ◌++◌, ◌∷◌, List, [], ℕ, length, take, drop, true, if◌then◌else◌, IfOk, OnOk};
ghost use Rattle.paxidore_calls.specs.Plan.{IsReadOf, carried};
ghost use Rattle.log_file.specs.LogFile.{written};

use log_store::Disk;
use std::alloc::Global;
use std::marker::{Brand, Model, PhantomData};

/// Why a call on a log's file stops.
#[derive(Clone, Copy, Debug, PartialEq, Eq)]
pub enum Halt {
    /// A piece was not read.
    Missing,
    /// The file ends before a piece, or was written to already.
    Ended,
    /// A request for memory was refused.
    Memory,
}

/// The file of a caller, whole, of which only some pieces are read.
pub trait Held {
    ghost file: { List ℕ };

    // The places of the pieces, and their bytes.
    ghost places: { List (List ℕ) };

    ghost pieces: { List ℕ };

    // How many bytes the caller says that the file has.
    ghost size: { ℕ };
}

impl Held for Brand {
    ghost use Rattle.std.specs.Prelude.{[]};

    ghost file = { [] };

    ghost places = { [] };

    ghost pieces = { [] };

    ghost size = { 0 };
}

/// Bytes that are to be written at a place, and synced before any others are written.
#[derive(Drop)]
pub struct Step {
    pub at: usize,
    pub bytes: Vec<u8>,
}

/// A file of so many bytes, of which some pieces were read, and what is to be written there, in steps.
///
/// A piece is a place and a count, and so many bytes, which stand one behind the other.
#[derive(Drop)]
pub struct Replay<'a, F: Held> {
    alloc: Global,
    file_len: usize,
    places: &'a [[usize; 2]],
    pieces: &'a [u8],
    steps: Vec<Step>,
    // how many steps are synced
    done: usize,
    of: PhantomData<F>,
}

impl<'a, F: Held> Model for Replay<'a, F> {
    ghost use Rattle.std.specs.Prelude.{◌≡◌, ◌≤◌, length};
    ghost use Rattle.paxidore_calls.specs.Plan.{Noted};

    ghost Value = { Noted };

    ghost view = { λ disk. record {
      steps = disk.steps.items;
      done = disk.done;
    } };

    ghost invariant = { λ disk. (disk.places.now ≡ F.places) × (disk.pieces.now ≡ F.pieces)
        × (disk.file_len ≡ F.size) × (disk.done ≤ length disk.steps.items) };
}

impl<'a, F: Held> Replay<'a, F> {
    /// Returns the disk, to which nothing is to be written so far.
    pub fn new(
        alloc: Global,
        file_len: usize,
        places: &'a [[usize; 2]],
        pieces: &'a [u8],
    ) -> Replay<'a, F>
        requires places { places.now ≡ F.places }
        requires pieces { pieces.now ≡ F.pieces }
        requires size { file_len ≡ F.size }
        ensures nothing { result.steps ≡ [] }
        ensures start { result.done ≡ 0 }
    {
        Replay {
            alloc,
            file_len,
            places,
            pieces,
            steps: Vec::new(alloc),
            done: 0,
            of: PhantomData,
        }
    }

    // Notes a step, and returns whether there was memory for it.
    fn put_step(&mut self, step: Step) -> bool
        ensures steps { self.new.steps ≡ (if result then self.old.steps ++ step ∷ []
            else self.old.steps) }
        ensures done { self.new.done ≡ self.old.done }
    {
        self.steps.push(step).is_ok()
    }

    // Copies the bytes of a range of the file.
    fn read_piece(&self, at: usize, into: &mut [u8]) -> Result<(), Halt>
        ensures piece { IsReadOf F.places F.pieces F.file → OnOk result (into.new
            ≡ take (length into.old) (drop at F.file)) }
    {
        if at > self.file_len || into.len() > self.file_len - at {
            return Err(Halt::Ended);
        }
        if into.is_empty() || copy_piece(self.places, self.pieces, at, into) {
            Ok(())
        } else {
            Err(Halt::Missing)
        }
    }

    // Returns the only step, which begins within the file or at its end.
    fn only_step(&self) -> Result<&Step, Halt>
        ensures only { IfOk result (λ step. self.now.steps ≡ step.now ∷ []) }
        ensures inside { IfOk result (λ step. step.now.at ≤ F.size) }
    {
        if self.steps.len() != 1 {
            return Err(Halt::Ended);
        }
        let step = &self.steps[0];
        if step.at > self.file_len {
            return Err(Halt::Ended);
        }
        Ok(step)
    }

    /// Returns what is to be written.
    pub fn into_steps(self) -> Vec<Step>
        ensures { result.items ≡ self.entry.steps }
    {
        self.steps
    }
}

/// Copies the bytes of a range from a piece that has it, and returns whether one has.
pub fn copy_piece(places: &[[usize; 2]], pieces: &[u8], at: usize, into: &mut [u8]) -> bool
    // Where the pieces are those of a file, they are the file's.
    ensures { result ≡ true → (file : List ℕ) → IsReadOf places.now pieces.now file
        → into.new ≡ take (length into.old) (drop at file) }
{
    let mut rest = pieces;
    for piece in places {
        let (place, count) = (piece[0], piece[1]);
        if count > rest.len() {
            return false;
        }
        if place <= at && at - place <= count && into.len() <= count - (at - place) {
            copy_part(&rest[..count], at - place, into);
            return true;
        }
        rest = &rest[count..];
    }
    false
}

// How many steps there are.
fn count(steps: &[Step]) -> usize
    ensures { result ≡ length steps.now }
{
    steps.len()
}

// How long a file of so many bytes is, once steps are carried out that leave no gap.
fn length_behind(file_len: usize, steps: &[Step]) -> Result<usize, Halt>
    ensures { (file : List ℕ) → file_len ≡ length file
        → IfOk result (λ count. count ≡ length (carried steps.now file)) }
{
    let mut count = file_len;
    for step in steps {
        if step.at > count {
            return Err(Halt::Ended);
        }
        match step.at.checked_add(step.bytes.len()) {
            Some(end) => count = count.max(end),
            None => return Err(Halt::Ended),
        }
    }
    Ok(count)
}

// Copies the bytes of a range from a step that has it.
fn read_step(step: &Step, at: usize, into: &mut [u8]) -> Result<(), Halt>
    requires { step.now.at ≤ at }
    ensures { (file : List ℕ) → step.now.at ≤ length file → OnOk result (into.new
        ≡ take (length into.old) (drop at (written file step.now.at step.now.bytes.items))) }
{
    let begin = at - step.at;
    let bytes = step.bytes.as_slice();
    if begin > bytes.len() || into.len() > bytes.len() - begin {
        return Err(Halt::Ended);
    }
    copy_part(bytes, begin, into);
    Ok(())
}

// Copies bytes from a place on.
fn copy_part(bytes: &[u8], at: usize, into: &mut [u8])
    requires { at + length into.old ≤ length bytes.now }
    ensures { into.new ≡ take (length into.old) (drop at bytes.now) }
{
    into.copy_from_slice(&bytes[at..at + into.len()]);
}

impl<'a, F: Held> Disk for Replay<'a, F> {
    ghost use Rattle.std.specs.Prelude.{◌≡◌, length, take, drop};
    ghost use Rattle.paxidore_calls.specs.Laws.Plans.{stopped-later};
    ghost use Rattle.paxidore_calls.specs.Plan.{IsReadOf, IsStopped, carried};

    type Refusal = Halt;

    ghost Obeys = { λ _. IsReadOf F.places F.pieces F.file × (F.size ≡ length F.file) };

    ghost seen = { λ disk. carried disk.steps F.file };

    ghost may_leave = { λ disk left. IsStopped (drop disk.done disk.steps)
        (carried (take disk.done disk.steps) F.file) left };

    // What is read there.
    ghost fresh = { λ disk at bytes. take (length bytes) (drop at (carried disk.steps F.file))
        ≡ bytes };

    ghost moment = { λ disk. disk.done };

    ghost left_since = { λ disk since left. IsStopped (drop since disk.steps)
        (carried (take since disk.steps) F.file) left };

    ghost counts_now = { λ disk since left before now. stopped-later since disk.done before
        disk.steps F.file left now };

    ghost only_now = { λ _ _ since. since };

    fn length(&self) -> Result<usize, Halt> {
        length_behind(self.file_len, &self.steps)
    }

    // Of what is to be written only one step is read, which stands behind what was read of the file.
    fn read_at(&self, at: usize, into: &mut [u8]) -> Result<(), Halt> {
        if self.steps.is_empty() {
            return self.read_piece(at, into);
        }
        let step = self.only_step()?;
        if at < step.at {
            if into.len() > step.at - at {
                return Err(Halt::Ended);
            }
            return self.read_piece(at, into);
        }
        read_step(step, at, into)
    }

    fn write_at(&mut self, at: usize, bytes: &[u8]) -> Result<(), Halt> {
        let Ok(bytes) = Vec::from_slice(self.alloc, bytes) else {
            return Err(Halt::Memory);
        };
        if !self.put_step(Step { at, bytes }) {
            return Err(Halt::Memory);
        }
        Ok(())
    }

    // The caller syncs what a step writes before the next one.
    fn sync(&mut self) -> Result<(), Halt> {
        self.done = count(&self.steps);
        Ok(())
    }
}
