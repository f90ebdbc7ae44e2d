//! Keys of verifiers and of signers, and their text.

ghost use Rattle.std.specs.Prelude.{◌≡◌, ◌++◌, [], true, false, vec_items, IsOkUnless, OnOk, MatchOption, take, drop};
ghost use Rattle.std.specs.Str.{bytes_eq};
ghost use Rattle.ed25519.specs.Signatures.{key_of};
ghost use Rattle.hex.specs.Hex.{encode_lower};
ghost use Rattle.signed_notes.specs.Faults.{NoteGivesBy};
ghost use Rattle.signed_notes.specs.Keys.{algorithm_fault, as_it_stands, cosignature_byte, ed25519_byte, is_byte, is_known, key_hash, key_parts, key_text, private, public_parts, read_key, read_private, spelled_behind, spelled_by, spelled_in, spelled_word, write_key};
ghost use Rattle.signed_notes.specs.Verifying.{hash_of};
ghost use Rattle.signed_notes.specs.Views.{algorithm_byte, cosigner_parts, seed_parts, signer_parts, key_spelled, verifier_parts};
ghost use Rattle.signed_notes.specs.declared.fault.Fault.TheVariants.{Memory};

use crate::cutting::cut;
use crate::fault::Fault;
use crate::note::bytes_in;
use crate::symbols::{bytes_of, word_of};
use crate::texts::{is_name, name_of};
use ed25519::public_key;
use sha2::{Digest, Sha256};
use std::alloc::Global;

// How the text of a signer's key begins.
const PRIVATE: [u8; 12] = *b"PRIVATE+KEY+";

/// The algorithm of a key.
#[derive(Clone, Copy, Debug, PartialEq, Eq)]
pub enum Algorithm {
    /// Ed25519 (RFC 8032), whose byte is 1.
    Ed25519,
    /// Cosignatures of checkpoints by Ed25519 (C2SP tlog-cosignature), whose byte is 4.
    CosignatureV1,
}

impl Algorithm {
    /// Returns its byte.
    pub fn byte(self) -> u8
        ensures { result ≡ algorithm_byte self }
    {
        match self {
            Algorithm::Ed25519 => 1,
            Algorithm::CosignatureV1 => 4,
        }
    }
}

// The algorithm of a byte.
fn algorithm_of(byte: u8) -> Option<Algorithm>
    ensures { MatchOption result (is_known byte ≡ false)
        (λ algorithm. (is_known byte ≡ true) × (byte ≡ algorithm_byte algorithm)) }
{
    if byte == 1 {
        Some(Algorithm::Ed25519)
    } else if byte == 4 {
        Some(Algorithm::CosignatureV1)
    } else {
        None
    }
}

/// The key by which others check signatures.
#[derive(Clone, Copy)]
pub struct Verifier<'a> {
    pub name: &'a str,
    pub algorithm: Algorithm,
    pub key: [u8; 32],
}

/// The key of who signs, by its seed.
#[derive(Clone, Copy)]
pub struct Signer<'a> {
    pub name: &'a str,
    pub seed: [u8; 32],
}

/// The key of a witness, who states a time beside each signature.
#[derive(Clone, Copy)]
pub struct Cosigner<'a> {
    pub name: &'a str,
    pub seed: [u8; 32],
}

/// A key as it is spelled; its hash is not compared.
#[derive(Clone, Copy)]
pub struct KeyText<'a> {
    name: &'a str,
    hash: &'a [u8],
    algorithm: u8,
    bytes: [u8; 32],
}

/// Returns the hash of a key: the first four bytes of SHA-256 of its name, a line feed, the algorithm's byte and the key.
pub fn key_hash(name: &str, algorithm: u8, key: &[u8; 32]) -> [u8; 4]
    ensures { result ≡ key_hash name.now algorithm key.now }
{
    let mut hasher = Sha256::new();
    hasher.update(name.as_bytes());
    hasher.update(&[10, algorithm]);
    hasher.update(key);
    let digest = hasher.finalize();
    let mut hash = [0; 4];
    hash.copy_from_slice(&digest[..4]);
    hash
}

// Four bytes in hexadecimal.
fn digits_of(hash: [u8; 4]) -> [u8; 8]
    ensures { result ≡ encode_lower hash }
{
    let mut digits = [0; 8];
    let _written = hex::encode_to_slice(hash, &mut digits);
    digits
}

// Why a key is refused whose algorithm is not known, or not asked for.
fn algorithm_fault(other: Fault, byte: u8) -> Fault
    ensures { result ≡ algorithm_fault other byte }
{
    if byte == 2 {
        Fault::Ecdsa
    } else if byte == 5 {
        Fault::TreeHead
    } else {
        other
    }
}

// The key of a name, the digits of its hash, and the bytes that Base64 spelled.
fn spelled_by<'a>(name: &'a str, hash: &'a [u8], decoded: &[u8]) -> Result<KeyText<'a>, Fault>
    ensures { NoteGivesBy key_spelled (spelled_by name.now hash.now decoded.now) result }
{
    if decoded.len() != 33 {
        let byte = match decoded.first() {
            Some(byte) => *byte,
            None => 0,
        };
        return Err(algorithm_fault(Fault::Key, byte));
    }
    let mut bytes = [0; 32];
    bytes.copy_from_slice(&decoded[1..]);
    Ok(KeyText {
        name,
        hash,
        algorithm: decoded[0],
        bytes,
    })
}

// The key of a name, of the digits of its hash, and of a word of Base64. A word of 33 bytes is read without a branch on what it spells.
fn spelled_word<'a>(
    alloc: Global,
    name: &'a str,
    hash: &'a [u8],
    word: &[u8],
) -> Result<KeyText<'a>, Fault>
    ensures { NoteGivesBy key_spelled (spelled_word name.now hash.now word.now) result }
{
    if word.len() == 44 {
        let mut symbols = [0; 44];
        symbols.copy_from_slice(word);
        let (bytes, is_whole) = bytes_of(&symbols);
        if is_whole {
            return spelled_by(name, hash, &bytes);
        }
    }
    spelled_by(name, hash, &bytes_in(alloc, word)?)
}

// The key of a name, and of two parts behind it.
fn spelled_behind<'a>(
    alloc: Global,
    name: &'a [u8],
    hash: &'a [u8],
    word: &'a [u8],
) -> Result<KeyText<'a>, Fault>
    ensures { NoteGivesBy key_spelled (spelled_behind name.now (hash.now, word.now)) result }
{
    match name_of(name) {
        Some(name) => spelled_word(alloc, name, hash, word),
        None => Err(Fault::Name),
    }
}

// The key that a text spells.
fn spelled_in(alloc: Global, text: &[u8]) -> Result<KeyText<'_>, Fault>
    ensures { NoteGivesBy key_spelled (spelled_in text.now) result }
{
    match cut(b'+', text) {
        Some((name, rest)) => match cut(b'+', rest) {
            Some((hash, word)) => spelled_behind(alloc, name, hash, word),
            None => Err(Fault::Key),
        },
        None => Err(Fault::Key),
    }
}

// Whether the hash of a key is its own.
fn is_hash(key: &KeyText, public: &[u8; 32]) -> bool
    ensures { let key = key_spelled key.now in
        result ≡ bytes_eq key.hash (encode_lower (key_hash key.name key.algorithm public.now)) }
{
    let digits = digits_of(key_hash(key.name, key.algorithm, public));
    key.hash == digits.as_slice()
}

// What stands behind `PRIVATE+KEY+`.
fn behind_private(text: &[u8]) -> Option<&[u8]>
    ensures { MatchOption result (bytes_eq (take 12 text.now) private ≡ false)
        (λ rest. (bytes_eq (take 12 text.now) private ≡ true) × (rest.now ≡ drop 12 text.now)) }
{
    if text.len() < 12 || text[..12] != PRIVATE[..] {
        return None;
    }
    Some(&text[12..])
}

// The seed that a text says behind that, of a key of some algorithm.
fn seed_in(alloc: Global, text: &[u8], algorithm: u8) -> Result<Signer<'_>, Fault>
    ensures { let read = read_key (is_byte algorithm) key_of text.now in
        NoteGivesBy (seed_parts algorithm) read result }
{
    let key = spelled_in(alloc, text)?;
    if key.algorithm != algorithm {
        return Err(algorithm_fault(Fault::Algorithm, key.algorithm));
    }
    if !is_hash(&key, &public_key(&key.bytes)) {
        return Err(Fault::KeyHash);
    }
    Ok(Signer {
        name: key.name,
        seed: key.bytes,
    })
}

// The seed that a text says, of a key of some algorithm.
fn private_in(alloc: Global, text: &[u8], algorithm: u8) -> Result<Signer<'_>, Fault>
    ensures { let read = read_private (is_byte algorithm) key_of text.now in
        NoteGivesBy (seed_parts algorithm) read result }
{
    match behind_private(text) {
        Some(rest) => seed_in(alloc, rest, algorithm),
        None => Err(Fault::Key),
    }
}

// Writes the text of a key that is made from a seed.
fn write_private(
    alloc: Global,
    name: &str,
    algorithm: u8,
    seed: &[u8; 32],
) -> Result<Vec<u8>, Fault>
    ensures { let key = key_parts name.now algorithm seed.now in
        NoteGivesBy vec_items (write_key private key_of key) result }
{
    if !is_name(name) {
        return Err(Fault::Name);
    }
    let mut out = Vec::from_slice(alloc, &PRIVATE)?;
    push_key(&mut out, name, algorithm, &public_key(seed), seed)?;
    Ok(out)
}

// Writes the text of a key behind other bytes.
fn push_key(
    out: &mut Vec<u8>,
    name: &str,
    algorithm: u8,
    public: &[u8; 32],
    bytes: &[u8; 32],
) -> Result<(), Fault>
    ensures pushed { let key = key_parts name.now algorithm bytes.now in
        OnOk result (out.new.items ≡ out.old.items ++ key_text (λ _. public.now) key) }
    ensures memory { IsOkUnless result Memory }
{
    let mut told = [algorithm; 33];
    told[1..].copy_from_slice(bytes);
    out.extend_from_slice(name.as_bytes())?;
    out.push(b'+')?;
    out.extend_from_slice(&digits_of(key_hash(name, algorithm, public)))?;
    out.push(b'+')?;
    out.extend_from_slice(&word_of(&told))?;
    Ok(())
}

impl<'a> Verifier<'a> {
    /// Reads the text of a key, `NAME+HASH+KEY`.
    ///
    /// Errors, the first that applies: `Key` without two plus signs; `Name`; `Base64`; `Key` for another length;
    /// `Algorithm`, in whose place, and in that of another length, `Ecdsa` or `TreeHead` names the algorithm; `KeyHash`.
    /// `Memory` at any time.
    pub fn read(alloc: Global, text: &'a [u8]) -> Result<Verifier<'a>, Fault>
        ensures { NoteGivesBy verifier_parts (read_key is_known as_it_stands text.now) result }
    {
        let key = spelled_in(alloc, text)?;
        let Some(algorithm) = algorithm_of(key.algorithm) else {
            return Err(algorithm_fault(Fault::Algorithm, key.algorithm));
        };
        if !is_hash(&key, &key.bytes) {
            return Err(Fault::KeyHash);
        }
        Ok(Verifier {
            name: key.name,
            algorithm,
            key: key.bytes,
        })
    }

    /// Returns the hash of the key.
    pub fn hash(&self) -> [u8; 4]
        ensures { result ≡ hash_of (verifier_parts self.now) }
    {
        key_hash(self.name, self.algorithm.byte(), &self.key)
    }

    /// Writes the text of the key, `NAME+HASH+KEY`. Errors: `Name`, `Memory`.
    pub fn write(&self, alloc: Global) -> Result<Vec<u8>, Fault>
        ensures { NoteGivesBy vec_items (write_key [] as_it_stands (verifier_parts self.now))
            result }
    {
        if !is_name(self.name) {
            return Err(Fault::Name);
        }
        let mut out = Vec::new(alloc);
        push_key(
            &mut out,
            self.name,
            self.algorithm.byte(),
            &self.key,
            &self.key,
        )?;
        Ok(out)
    }
}

impl<'a> Signer<'a> {
    /// Reads the text of a key of Ed25519, `PRIVATE+KEY+NAME+HASH+SEED`.
    ///
    /// Errors, the first that applies: `Key` for another beginning, and those of `Verifier::read`.
    pub fn read(alloc: Global, text: &'a [u8]) -> Result<Signer<'a>, Fault>
        ensures { let read = read_private (is_byte ed25519_byte) key_of text.now in
            NoteGivesBy signer_parts read result }
    {
        private_in(alloc, text, 1)
    }

    /// Writes the text of the key, `PRIVATE+KEY+NAME+HASH+SEED`. Errors: `Name`, `Memory`.
    pub fn write(&self, alloc: Global) -> Result<Vec<u8>, Fault>
        ensures { NoteGivesBy vec_items (write_key private key_of (signer_parts self.now)) result }
    {
        write_private(alloc, self.name, 1, &self.seed)
    }

    /// Returns the key by which others check its signatures.
    pub fn verifier(&self) -> Verifier<'a>
        ensures { verifier_parts result ≡ public_parts (signer_parts self.now) }
    {
        Verifier {
            name: self.name,
            algorithm: Algorithm::Ed25519,
            key: public_key(&self.seed),
        }
    }
}

impl<'a> Cosigner<'a> {
    /// Reads the text of a key of cosignatures, `PRIVATE+KEY+NAME+HASH+SEED`.
    ///
    /// Errors: those of `Signer::read`.
    pub fn read(alloc: Global, text: &'a [u8]) -> Result<Cosigner<'a>, Fault>
        ensures { let read = read_private (is_byte cosignature_byte) key_of text.now in
            NoteGivesBy cosigner_parts read result }
    {
        let Signer { name, seed } = private_in(alloc, text, 4)?;
        Ok(Cosigner { name, seed })
    }

    /// Writes the text of the key, `PRIVATE+KEY+NAME+HASH+SEED`. Errors: `Name`, `Memory`.
    pub fn write(&self, alloc: Global) -> Result<Vec<u8>, Fault>
        ensures { NoteGivesBy vec_items (write_key private key_of (cosigner_parts self.now))
            result }
    {
        write_private(alloc, self.name, 4, &self.seed)
    }

    /// Returns the key by which others check its cosignatures.
    pub fn verifier(&self) -> Verifier<'a>
        ensures { verifier_parts result ≡ public_parts (cosigner_parts self.now) }
    {
        Verifier {
            name: self.name,
            algorithm: Algorithm::CosignatureV1,
            key: public_key(&self.seed),
        }
    }
}
