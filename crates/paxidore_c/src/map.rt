//! Maps with one root over SHA-256: checks of proofs, and what a keeper needs whose nodes lie in a store of the caller's.
//!
//! A keeper hands over the part of the tree that a call needs as the bytes of a tree that hides the rest (`MapTree::from_bytes`).

ghost use Rattle.std.specs.Prelude.{◌≡◌, ◌≢◌, ◌++◌, List, true, drop, length, map, pos, IfOk, IfSome, Ok, Err, Some, None, ◌⊎◌};
ghost use Rattle.ark_base.specs.Outcome.{Answers, AnswersBy};
ghost use Rattle.ark_base.specs.declared.error.Error.TheVariants.{OutOfMemory};
ghost use Rattle.merkle_map.specs.Bytes.{itself, tree_of_bytes};
ghost use Rattle.merkle_map.specs.Changes.{entry_of};
ghost use Rattle.merkle_map.specs.KeyProof.{BindsBy};
ghost use Rattle.merkle_map.specs.Map.{Entry, root_of_map};
ghost use Rattle.merkle_map.specs.Order.{next_seen, pair_seen, HasNext};
ghost use Rattle.merkle_map.specs.Parts.{value_seen};
ghost use Rattle.merkle_map.specs.Sha256.{sha256_map};
ghost use Rattle.merkle_map.specs.Transition.{change_seen, rows_found, LeadsTo};
ghost use Rattle.merkle_map.specs.Tree.{shape_digest, Shows};
ghost use Rattle.merkle_map.specs.Whole.{IsRootOf};
ghost use Rattle.paxidore_calls.specs.Answer.{done_code, refusal_code, refusing, verdict_code, GivesCode, CallGivesBy, Hands};
ghost use Rattle.paxidore_c.specs.Maps.{changed_code, changes_of as changes_by, key_proof_in, key_verdict, map_changed, map_proof, map_refused, map_root as root_in, refusing_map, tree_changed, GivesNext, IfMade, IsNextOf, IsProvedBy, IsRootOfAll, IsRootOfStore};
ghost use Rattle.paxidore_calls.specs.declared.refused.Refused.TheVariants.{Room};

use ark_base::error::Error;
use merkle_map::{Change, KeyProof, MapTree, Sha256Map, rows_after};
use paxidore_calls::buffer::hand_over;
use paxidore_calls::refused::{Refused, verdict_code};
use std::alloc::Global;

// The refusal that an error of a call on maps is.
fn refused_of(error: Error) -> Refused
    ensures { result ≡ map_refused error }
{
    match error {
        Error::OutOfMemory => Refused::Memory,
        Error::SerializationError(fault) => Refused::from(Error::SerializationError(fault)),
        Error::IncorrectInputLength(_) => Refused::Height,
        Error::GenericError(_) => Refused::Hidden,
        Error::NotPrimeOrder => Refused::Other,
    }
}

// Returns whether the bytes of a proof show that a map with this root has this at the key. Errors: those of
// `KeyProof::from_bytes`; `OutOfMemory`.
fn is_shown_in_map(
    alloc: Global,
    root: &[u8; 32],
    key: &[u8; 32],
    value: Option<&[u8; 32]>,
    proof: &[u8],
) -> Result<bool, Error>
    ensures answer { Answers (key_verdict root.now key.now (value_seen (λ v. v.now) value.entry)
        proof.now) result }
    ensures bound { IfOk result (λ accepted. accepted ≡ true → IfOk (key_proof_in proof.now)
        (BindsBy sha256_map root.now key.now (value_seen (λ v. v.now) value.entry))) }
{
    let hasher = Sha256Map::new();
    let proof = KeyProof::from_bytes(alloc, &hasher, proof)?;
    proof.verify(alloc, &hasher, root, key, value)
}

/// Returns whether the bytes of a proof show that a map with this root has the value at the key.
///
/// Answers: 0 for a yes, 1 for another root, value or end; else the first of `E_TRUNCATED`, `E_INVALID` for bytes that are no proof;
/// `E_MEMORY` in place of any.
#[unsafe(no_mangle)]
pub extern "C" fn paxidore_map_verify(
    alloc: Global,
    root: &[u8; 32],
    key: &[u8; 32],
    value: &[u8; 32],
    proof: &[u8],
) -> i32
    ensures answer { GivesCode (verdict_code (refusing
        (key_verdict root.now key.now (Some value.now)
        proof.now))) result }

    // 0 says: in every map with this root the key has this value, or at some level of the key's way the proof's node and that of
    // the map's own tree are two different nodes with one hash.
    ensures shows { result ≡ pos 0 → IfOk (key_proof_in proof.now)
        (BindsBy sha256_map root.now key.now (Some value.now)) }
{
    verdict_code(is_shown_in_map(alloc, root, key, Some(value), proof))
}

/// Returns whether the bytes of a proof show that a map with this root has nothing at the key.
///
/// Answers: as of `paxidore_map_verify`.
#[unsafe(no_mangle)]
pub extern "C" fn paxidore_map_verify_absent(
    alloc: Global,
    root: &[u8; 32],
    key: &[u8; 32],
    proof: &[u8],
) -> i32
    ensures answer { GivesCode (verdict_code (refusing
        (key_verdict root.now key.now None proof.now)))
        result }

    // 0 says: every map with this root has nothing at the key, or at some level of the key's way the proof's node and that of the
    // map's own tree are two different nodes with one hash.
    ensures shows { result ≡ pos 0 → IfOk (key_proof_in proof.now)
        (BindsBy sha256_map root.now key.now None) }
{
    verdict_code(is_shown_in_map(alloc, root, key, None, proof))
}

// Trees of fewer bytes, as proofs of up to some four keys, are hashed one node behind the other.
const MANY: usize = 2048;

// The digest of a tree, of which many nodes are hashed together. The only error is `OutOfMemory`.
fn digest_of_tree(
    alloc: Global,
    tree: &mut MapTree<[u8; 32]>,
    are_many: bool,
) -> Result<[u8; 32], Error>
    ensures digest { Answers (shape_digest sha256_map tree.old) result }
    ensures maps { (entries : List Entry) → Shows sha256_map 0 tree.old entries
        → root_of_map sha256_map entries ≡ shape_digest sha256_map tree.old }
    ensures store { IsRootOf sha256_map tree.old }
{
    let hasher = Sha256Map::new();
    if are_many {
        return tree.root_together(alloc, &hasher);
    }
    tree.root(alloc, &hasher)
}

// The digest of the tree that bytes are. Errors: those of `MapTree::from_bytes`; `OutOfMemory`.
fn root_of(alloc: Global, tree: &[u8]) -> Result<[u8; 32], Error>
    ensures answer { Answers (root_in tree.now) result }
    ensures maps { IfOk result (λ root. IfOk (tree_of_bytes tree.now) (IsRootOfAll root)) }
    ensures store { IfOk result (λ root. IfOk (tree_of_bytes tree.now) (IsRootOfStore root)) }
{
    let are_many = tree.len() >= MANY;
    let mut tree = MapTree::from_bytes(alloc, tree)?;
    digest_of_tree(alloc, &mut tree, are_many)
}

/// Writes the digest of the tree that bytes are to `root`.
///
/// Answers: 0; else the first of `E_TRUNCATED`, `E_INVALID` for bytes that are no tree; `E_MEMORY` in place of any. Each leaves
/// `root` as before.
#[unsafe(no_mangle)]
pub extern "C" fn paxidore_map_root(alloc: Global, root: &mut [u8; 32], tree: &[u8]) -> i32
    ensures answer { GivesCode (done_code (refusing_map (root_in tree.now))) result }
    ensures root { result ≡ pos 0 → root_in tree.now ≡ Ok root.new }

    // It is the root of each map that the tree shows, and of the entries of a tree that hides nothing.
    ensures maps { result ≡ pos 0 → IfOk (tree_of_bytes tree.now) (IsRootOfAll root.new) }
    ensures store { result ≡ pos 0 → IfOk (tree_of_bytes tree.now) (IsRootOfStore root.new) }
    ensures kept { result ≢ pos 0 → root.new ≡ root.old }
{
    match root_of(alloc, tree) {
        Ok(digest) => {
            *root = digest;
            0
        }
        Err(error) => refused_of(error).code(),
    }
}

// The bytes of the proof of what a tree has at a key. Errors: those of `MapTree::from_bytes`; that the tree hides it; `OutOfMemory`.
fn key_proof_of(alloc: Global, tree: &[u8], key: &[u8; 32]) -> Result<Vec<u8>, Error>
    ensures answer { AnswersBy (λ bytes. bytes.items) (map_proof tree.now key.now) result }
    ensures accepted { IfOk result (λ bytes. IfOk (tree_of_bytes tree.now)
        (IsProvedBy key.now bytes.items)) }
{
    let hasher = Sha256Map::new();
    let tree = MapTree::from_bytes(alloc, tree)?;
    let proof = tree.prove_key(alloc, &hasher, key)?;
    proof.to_bytes(alloc, &hasher)
}

// The same with the refusals for C.
fn proof_for(alloc: Global, tree: &[u8], key: &[u8; 32]) -> Result<Vec<u8>, Refused>
    ensures given { CallGivesBy (λ bytes. bytes.items) (refusing_map (map_proof tree.now key.now))
        result }
    ensures accepted { IfOk result (λ bytes. IfOk (tree_of_bytes tree.now)
        (IsProvedBy key.now bytes.items)) }
{
    match key_proof_of(alloc, tree, key) {
        Ok(bytes) => Ok(bytes),
        Err(error) => Err(refused_of(error)),
    }
}

/// Writes the bytes of the proof of what a tree has at a key to the front of `proof`, and their count.
///
/// Answers: 0; else the first of `E_TRUNCATED`, `E_INVALID` for bytes that are no tree, `E_HIDDEN` where the tree hides what is at
/// the key, `E_ROOM`, which alone writes the count that is needed; `E_MEMORY` in place of any. Any other refusal leaves both
/// buffers as before.
#[unsafe(no_mangle)]
pub extern "C" fn paxidore_map_prove(
    alloc: Global,
    proof: &mut [u8],
    proof_len: &mut usize,
    tree: &[u8],
    key: &[u8; 32],
) -> i32
    ensures handed { Hands (refusing_map (map_proof tree.now key.now)) proof.old proof.new
        proof_len.old proof_len.new result }

    // The bytes that the tree has for the key are accepted under the tree's digest.
    ensures accepted { result ≡ pos 0 → IfOk (map_proof tree.now key.now) (λ bytes.
        IfOk (tree_of_bytes tree.now) (IsProvedBy key.now bytes)) }
{
    hand_over(proof_for(alloc, tree, key), proof, proof_len)
}

// The first entry from one key to another of the tree that bytes are: its key and its value. Errors: those of
// `MapTree::from_bytes`; that the tree hides a part that may have it; `OutOfMemory`.
fn next_of(
    alloc: Global,
    tree: &[u8],
    first: &[u8; 32],
    last: &[u8; 32],
) -> Result<Option<([u8; 32], [u8; 32])>, Error>
    ensures answer { (result ≡ Err OutOfMemory)
        ⊎ IsNextOf tree.now first.now last.now (next_seen result) }
    ensures maps { IfOk result (λ found. IfOk (tree_of_bytes tree.now)
        (λ t. HasNext t first.now last.now (pair_seen found))) }
{
    let tree = MapTree::from_bytes(alloc, tree)?;
    tree.next(first, last)
}

/// Writes the entry with the least key from `first` to `last`, both with them, of the map whose tree, as far as it is needed, bytes are.
/// From a key above each that was found, these are all that the map has to `last`: so a tree that hides nothing there is the proof of
/// that, where its root (`paxidore_map_root`) is the map's.
///
/// Answers: 0; 1 where there is none; else the first of `E_TRUNCATED`, `E_INVALID` for bytes that are no tree, `E_HIDDEN` where the tree
/// hides a part that may have the entry; `E_MEMORY` in place of any. Each but 0 leaves `next_key` and `next_value` as before.
#[unsafe(no_mangle)]
pub extern "C" fn paxidore_map_next(
    alloc: Global,
    next_key: &mut [u8; 32],
    next_value: &mut [u8; 32],
    tree: &[u8],
    first: &[u8; 32],
    last: &[u8; 32],
) -> i32
    ensures answer { GivesNext tree.now first.now last.now result }

    // Each map that the tree shows has this entry there first, or none.
    ensures found { result ≡ pos 0 → IfOk (tree_of_bytes tree.now)
        (λ t. HasNext t first.now last.now (Some (entry_of next_key.new next_value.new))) }
    ensures none { result ≡ pos 1 → IfOk (tree_of_bytes tree.now)
        (λ t. HasNext t first.now last.now None) }
    ensures kept_key { result ≢ pos 0 → next_key.new ≡ next_key.old }
    ensures kept_value { result ≢ pos 0 → next_value.new ≡ next_value.old }
{
    match next_of(alloc, tree, first, last) {
        Ok(Some(found)) => {
            let (key, value) = found;
            *next_key = key;
            *next_value = value;
            0
        }
        Ok(None) => 1,
        Err(error) => refused_of(error).code(),
    }
}

// The changes: the first keys get the values, and the keys behind them are removed. The only error is `OutOfMemory`.
fn changes_of(alloc: Global, keys: &[[u8; 32]], values: &[[u8; 32]]) -> Result<Vec<Change>, Error>
    ensures { AnswersBy (λ changes. map change_seen changes.items)
        (Ok (changes_by keys.now values.now)) result }
{
    let mut changes = Vec::new(alloc);
    'keys: for (i, key) in keys.iter().enumerate() {
        if i < values.len() {
            changes.push(Change::Put {
                key: *key,
                value: values[i],
            })?;
        } else {
            changes.push(Change::Remove { key: *key })?;
        }
    }
    Ok(changes)
}

// The new root and the rows of the tree after changes, where the tree that bytes are has the root. Errors: those of
// `MapTree::from_bytes`; that the tree hides what a change needs; `OutOfMemory`.
fn changed(
    alloc: Global,
    root: &[u8; 32],
    tree: &[u8],
    keys: &[[u8; 32]],
    values: &[[u8; 32]],
) -> Result<Option<([u8; 32], Vec<u8>)>, Error>
    ensures answer { AnswersBy (rows_found (λ rows. rows.items))
        (tree_changed root.now tree.now keys.now values.now) result }
    ensures leads { IfOk result (λ found. IfSome found (λ made. IfOk (tree_of_bytes tree.now)
        (λ t. LeadsTo sha256_map root.now made.0 t (changes_by keys.now values.now)))) }
{
    let hasher = Sha256Map::new();
    let changes = changes_of(alloc, keys, values)?;
    let tree = MapTree::from_bytes(alloc, tree)?;
    rows_after(alloc, &hasher, root, tree, &changes)
}

/// Makes changes of the map whose tree, as far as they need it, bytes are: the first keys get the values, in turn, and the keys
/// behind them are removed. Writes the new root, and to the front of `rows` a row of 97 bytes for each node of the new tree that is
/// not hidden, those below first: its digest, and 0, key and value of an entry, or 1 and the two digests below; and their bytes'
/// count.
///
/// Answers: 0, or 1 where the tree has another root than `root`; else the first of `E_COUNT` for more values than keys,
/// `E_TRUNCATED`, `E_INVALID` for bytes that are no tree, 1, `E_HIDDEN` where the tree hides what a change needs, `E_ROOM`, which alone
/// writes the count that is needed; `E_MEMORY` in place of any. Each leaves `new_root` and `rows` as before.
#[unsafe(no_mangle)]
pub extern "C" fn paxidore_map_change(
    alloc: Global,
    new_root: &mut [u8; 32],
    rows: &mut [u8],
    rows_len: &mut usize,
    root: &[u8; 32],
    tree: &[u8],
    keys: &[[u8; 32]],
    values: &[[u8; 32]],
) -> i32
    ensures answer { GivesCode (changed_code (map_changed root.now tree.now keys.now values.now)
        (length rows.old)) result }
    ensures root { result ≡ pos 0 → IfMade (map_changed root.now tree.now keys.now values.now)
        (λ made. new_root.new ≡ made.0) }
    ensures rows { result ≡ pos 0 → IfMade (map_changed root.now tree.now keys.now values.now)
        (λ made. rows.new ≡ made.1 ++ drop (length made.1) rows.old) }
    ensures counted { result ≡ pos 0 → IfMade (map_changed root.now tree.now keys.now values.now)
        (λ made. rows_len.new ≡ length made.1) }
    ensures room_needed { result ≡ refusal_code Room
        → IfMade (map_changed root.now tree.now keys.now values.now)
        (λ made. rows_len.new ≡ length made.1) }

    // 0 says: each map with the old root has, after the changes, the new root, or below some bits the given tree and the map's own
    // tree have two different nodes with one hash.
    ensures leads { result ≡ pos 0 → IfOk (tree_of_bytes tree.now) (λ t.
        LeadsTo sha256_map root.now new_root.new t (changes_by keys.now values.now)) }
    ensures kept_root { result ≢ pos 0 → new_root.new ≡ new_root.old }
    ensures kept { result ≢ pos 0 → rows.new ≡ rows.old }
    ensures uncounted { result ≢ pos 0 → result ≢ refusal_code Room → rows_len.new ≡ rows_len.old }
{
    if keys.len() < values.len() {
        return Refused::Count.code();
    }
    match changed(alloc, root, tree, keys, values) {
        Ok(Some(made)) => {
            let digest = made.0;
            let own = made.1;
            *rows_len = own.len();
            if rows.len() < own.len() {
                return Refused::Room.code();
            }
            rows[..own.len()].copy_from_slice(&own);
            *new_root = digest;
            0
        }
        Ok(None) => 1,
        Err(error) => refused_of(error).code(),
    }
}
