//! Roots of trees that keep digests. Where much has changed, forks whose sides have digests are hashed together.

ghost use Rattle.std.specs.Prelude.{◌≡◌, ◌<◌, length, map, All, IfOk};
ghost use Rattle.ark_base.specs.Outcome.{AnswersBy};
ghost use Rattle.ark_crh.specs.Ahead.{lent_couples, of_couple, AreOfFirst};
ghost use Rattle.merkle_map.specs.Kept.{IsFor, IsKept};
ghost use Rattle.merkle_map.specs.Parts.{shape};
ghost use Rattle.merkle_map.specs.Together.{IsHashedPair, AreHashedEntries};
ghost use Rattle.merkle_map.specs.Tree.{shape_digest};

mod scattered;

use crate::fill::fill;
use crate::hasher::{MapHasher, MapViews};
use crate::key::copy_digest;
use crate::part::{Part, Sides};
use crate::together::scattered::scatter;
use ark_base::error::Error;
use ark_base::serialize::DigestItem;
use ark_crh::ahead::lend_couples;
use std::alloc::Global;

/// How many forks are hashed in a pass at most.
const MOST: usize = 1024;

// How many passes there are at most: those of a tree of 2^30 forks.
const PASSES: usize = 1 << 20;

/// After fewer changes the forks are hashed one by one.
pub const FEW: usize = 4;

// Where a side's digest comes from.
#[derive(Drop)]
enum Source<D> {
    // It is at hand.
    Digest { digest: D },
    // It is that of an entry that is to be hashed.
    Entry { place: usize },
    // It is that of a fork that is to be hashed.
    Fork { place: usize, height: usize },
    // It waits for the next pass.
    Later,
}

// A fork that is to be hashed. Its height is 0 if no fork below it is.
#[derive(Drop)]
struct Task<D> {
    left: Source<D>,
    right: Source<D>,
    height: usize,
}

// What is to be hashed: entries from the left, and forks, those below before those above and the left ones first. All forks are
// lower than `heights`.
#[derive(Drop)]
struct Work<D> {
    entries: Vec<([u8; 32], [u8; 32])>,
    forks: Vec<Task<D>>,
    heights: usize,
}

// Two digests, and the digest of both.
#[derive(Drop)]
struct HashedPair<D> {
    left: D,
    right: D,
    digest: D,
}

// The digests of the first entries, the forks that were hashed, and of each fork in the order of its work where it is.
#[derive(Drop)]
struct Made<D> {
    entries: Vec<D>,
    forks: Vec<HashedPair<D>>,
    places: Vec<usize>,
}

// How many entries and forks of the work stand to the left, and of how many forks the digest was kept.
#[derive(Drop)]
struct Passed {
    entries: usize,
    forks: usize,
    kept: usize,
}

// Returns the height of a fork above this side, if it can be hashed in this pass.
fn height_above<D: DigestItem>(side: &Source<D>) -> Option<usize> {
    match side {
        Source::Digest { .. } => Some(0),
        Source::Entry { .. } => Some(0),
        Source::Fork { height, .. } => {
            if *height < MOST {
                return Some(*height + 1);
            }
            None
        }
        Source::Later => None,
    }
}

// Puts a fork behind the work, if it can be hashed in this pass. The only error is `OutOfMemory`.
fn push_task<D: DigestItem>(
    left: Source<D>,
    right: Source<D>,
    work: &mut Work<D>,
) -> Result<Source<D>, Error> {
    let Some(on_left) = height_above(&left) else {
        return Ok(Source::Later);
    };
    let Some(on_right) = height_above(&right) else {
        return Ok(Source::Later);
    };
    let height = if on_left < on_right {
        on_right
    } else {
        on_left
    };
    let place = work.forks.len();
    work.forks.push(Task {
        left,
        right,
        height,
    })?;
    if work.heights <= height && height <= MOST {
        work.heights = height + 1;
    }
    Ok(Source::Fork { place, height })
}

// Puts what a tree needs to have hashed behind the work, and returns where its digest comes from. The only error is `OutOfMemory`.
fn gather<D: DigestItem, H: MapViews<Input = [u8; 32], Output = D>>(
    alloc: Global,
    hasher: &MapHasher<H>,
    part: &Part<D>,
    work: &mut Work<D>,
) -> Result<Source<D>, Error> {
    match part {
        Part::Empty => {
            let digest = hasher.nothing(alloc)?;
            Ok(Source::Digest { digest })
        }
        Part::One { entry } => {
            let place = work.entries.len();
            work.entries.push((entry.key, entry.value))?;
            Ok(Source::Entry { place })
        }
        Part::Fork { sides } => {
            let Sides {
                left,
                right,
                digest,
            } = &**sides;
            if let Some(digest) = digest {
                let digest = copy_digest(alloc, digest)?;
                return Ok(Source::Digest { digest });
            }
            if work.forks.len() >= MOST {
                return Ok(Source::Later);
            }
            let on_left = gather(alloc, hasher, left, work)?;
            let on_right = gather(alloc, hasher, right, work)?;
            push_task(on_left, on_right, work)
        }
        Part::Hidden { digest } => {
            let digest = copy_digest::<D>(alloc, digest)?;
            Ok(Source::Digest { digest })
        }
    }
}

// Hashes entries of the work together, from the left. The only error is `OutOfMemory`.
fn hash_entries<D: DigestItem, H: MapViews<Input = [u8; 32], Output = D>>(
    alloc: Global,
    hasher: &MapHasher<H>,
    work: &Work<D>,
) -> Result<Vec<D>, Error>
    ensures { IfOk result (λ made. AreHashedEntries D.numbers (H.hashes hasher.now)
        work.now.entries.items made.items) }
{
    let run = lend_couples(alloc, &work.entries)?;
    hasher.leaves_ahead(alloc, &run)
}

// Returns a side's digest, if it was hashed.
fn digest_from<'a, D: DigestItem>(
    side: &'a Source<D>,
    entries: &'a [D],
    forks: &'a [HashedPair<D>],
    places: &[usize],
) -> Option<&'a D> {
    match side {
        Source::Digest { digest } => Some(digest),
        Source::Entry { place } => { entries.get(*place) }
        Source::Fork { place, .. } => {
            let at = places.get(*place)?;
            let made = forks.get(*at)?;
            Some(&made.digest)
        }
        Source::Later => None,
    }
}

// Puts a digest beside the couple that it is of. The only error is `OutOfMemory`.
fn pair_at<D: DigestItem, H: MapViews<Input = [u8; 32], Output = D>>(
    alloc: Global,
    _hasher: &MapHasher<H>,
    couples: &[(&D, &D)],
    digests: &[D],
    place: usize,
) -> Result<HashedPair<D>, Error>
    requires inside { place < length digests.now }
    requires hashed { AreOfFirst (of_couple (H.hashes _hasher.now).pair)
        (lent_couples D.numbers couples.now) (map D.numbers digests.now) }
    ensures { IfOk result (IsHashedPair D.numbers (H.hashes _hasher.now)) }
{
    let couple = couples[place];
    let left = copy_digest(alloc, couple.0)?;
    let right = copy_digest(alloc, couple.1)?;
    let digest = copy_digest(alloc, &digests[place])?;
    Ok(HashedPair {
        left,
        right,
        digest,
    })
}

// Puts digests beside the couples that they are of. The only error is `OutOfMemory`.
fn pairs_with<D: DigestItem, H: MapViews<Input = [u8; 32], Output = D>>(
    alloc: Global,
    hasher: &MapHasher<H>,
    couples: &[(&D, &D)],
    digests: &[D],
) -> Result<Vec<HashedPair<D>>, Error>
    requires { AreOfFirst (of_couple (H.hashes hasher.now).pair)
        (lent_couples D.numbers couples.now) (map D.numbers digests.now) }
    ensures { IfOk result (λ made. All (IsHashedPair D.numbers (H.hashes hasher.now)) made.items) }
{
    let mut made = Vec::with_capacity(alloc, digests.len())?;
    'digests: for place in 0..digests.len() {
        let pair = pair_at(alloc, hasher, couples, digests, place)?;
        made.push(pair)?;
    }
    Ok(made)
}

// Hashes the forks of one height together, those of which lower ones were hashed, and notes where each will be behind these. The
// only error is `OutOfMemory`.
fn hash_height<D: DigestItem, H: MapViews<Input = [u8; 32], Output = D>>(
    alloc: Global,
    hasher: &MapHasher<H>,
    work: &Work<D>,
    height: usize,
    entries: &[D],
    forks: &[HashedPair<D>],
    places: &mut [usize],
) -> Result<Vec<HashedPair<D>>, Error>
    ensures { IfOk result (λ made. All (IsHashedPair D.numbers (H.hashes hasher.now)) made.items) }
{
    let mut run = Vec::new(alloc);
    let mut next = forks.len();
    'forks: for place in 0..work.forks.len() {
        let task = &work.forks[place];
        if task.height == height && place < places.len() {
            let Some(left) = digest_from(&task.left, entries, forks, places) else {
                return Ok(Vec::new(alloc));
            };
            let Some(right) = digest_from(&task.right, entries, forks, places) else {
                return Ok(Vec::new(alloc));
            };
            run.push((left, right))?;
            places[place] = next;
            next = next.wrapping_add(1);
        }
    }
    let digests = hasher.pairs_ahead(alloc, &run)?;
    pairs_with(alloc, hasher, &run, &digests)
}

// Hashes the work, the lowest forks first. The only error is `OutOfMemory`.
fn hash_work<D: DigestItem, H: MapViews<Input = [u8; 32], Output = D>>(
    alloc: Global,
    hasher: &MapHasher<H>,
    work: &Work<D>,
) -> Result<Made<D>, Error>
    ensures entries { IfOk result (λ made. AreHashedEntries D.numbers (H.hashes hasher.now)
        work.now.entries.items made.entries.items) }
    ensures forks { IfOk result (λ made. All (IsHashedPair D.numbers (H.hashes hasher.now))
        made.forks.items) }
{
    let entries = hash_entries(alloc, hasher, work)?;
    let mut places = vec![in alloc; 0usize; work.forks.len()]?;
    let mut forks = Vec::with_capacity(alloc, work.forks.len())?;
    'heights: for height in 0..work.heights {
        let mut more = hash_height(alloc, hasher, work, height, &entries, &forks, &mut places)?;
        if more.is_empty() {
            break;
        }
        forks.append(&mut more)?;
    }
    Ok(Made {
        entries,
        forks,
        places,
    })
}

// Hashes forks together once, and keeps their digests. Returns whether it kept all that a pass takes: then more may be left.
fn pass<D: DigestItem, H: MapViews<Input = [u8; 32], Output = D>>(
    alloc: Global,
    hasher: &MapHasher<H>,
    part: &mut Part<D>,
) -> Result<bool, Error>
    requires { IsKept D.numbers (H.hashes hasher.now) part.old }
    ensures same { shape D.numbers part.new ≡ shape D.numbers part.old }
    ensures kept { IsKept D.numbers (H.hashes hasher.now) part.new }
{
    let mut work = Work {
        entries: Vec::new(alloc),
        forks: Vec::new(alloc),
        heights: 0,
    };
    gather(alloc, hasher, part, &mut work)?;
    let made = hash_work(alloc, hasher, &work)?;
    if made.forks.len() < work.forks.len() {
        return Ok(false);
    }
    let mut passed = Passed {
        entries: 0,
        forks: 0,
        kept: 0,
    };
    scatter(alloc, hasher, part, &work, &made, &mut passed)?;
    Ok(passed.kept >= MOST)
}

// Hashes a tree, as far as no digest is kept, and keeps the digest of each fork. Errors: as of `digest_of`.
#[inline(never)]
pub fn fill_together<D: DigestItem, H: MapViews<Input = [u8; 32], Output = D>>(
    alloc: Global,
    hasher: &MapHasher<H>,
    part: &mut Part<D>,
) -> Result<D, Error>
    requires { IsKept D.numbers (H.hashes hasher.now) part.old }
    ensures digest { AnswersBy D.numbers (shape_digest (H.hashes hasher.now)
        (shape D.numbers part.old)) result }
    ensures same { shape D.numbers part.new ≡ shape D.numbers part.old }
    ensures kept { IsKept D.numbers (H.hashes hasher.now) part.new }
{
    // What a pass refuses, `fill` refuses again, or does without; and it hashes what is left behind the last pass.
    'passes: for _ in 0..PASSES {
        match pass(alloc, hasher, part) {
            Ok(true) => {}
            Ok(false) => break,
            Err(_) => break,
        }
    }
    fill(alloc, hasher, part)
}
