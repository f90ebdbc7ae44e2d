//! Elements and generators from labels, for setups that nobody has to trust.
//!
//! They are found by trying one digest of BLAKE2s after another, as Zcash's group hash does. Who knows the label knows no
//! relation among them. One label serves a Bowe-Hopwood hash, Pedersen hashes and Pedersen commitments: no two of them, of
//! whatever windows, take the element of one text (`texts_are_apart`).

ghost use Rattle.std.specs.Prelude.{◌≡◌, ◌<◌, ◌≤◌, ◌*◌, ◌+◌, ◌^◌, ℕ, List, length, true, false, Err, IfOk, OnOk, IfErr};
ghost use Rattle.ark_base.specs.Digits.{bytes_of_number};
ghost use Rattle.ark_schemes.specs.GroupHash.{group_digest, group_hash, text_of, for_segments, for_hashes, for_commitments, for_randomness};
ghost use Rattle.ark_schemes.specs.GroupHash.{AreOfLabel, AreOfTexts, AreForCommitment, IsLabelFault, IsTextFault, IsTooMany, IsWindowsFault, IsCommitmentFault};
ghost use Rattle.ark_schemes.specs.PedersenCommitments.{elements_in, AreOf};
ghost use Rattle.ark_pedersen.specs.Pedersen.{generators_in, lists_in, AreGeneratorsOf};
ghost use Rattle.ark_pedersen.specs.Binding.{windows_fit};
ghost use Rattle.ark_bowe_hopwood.specs.BoweHopwood.{AreSegmentsOf, is_fitting};

use crate::commitment::pedersen;
use crate::prf::blake2s::hasher::Hasher;
use ark_base::error::{Error, Refusal};
use ark_groups::ec::FromDigest;
use ark_groups::ff::{Field, Words, write_bytes};
use ark_pedersen::{Window, windows_fit};
use std::alloc::Global;

// The random beacon that stands before each text.
const BEACON: &[u8; 64] = b"096b36a5804bfacef1691e173c366a47ff5ba84a44f26ddd7e8d9f79d5b42df0";

// The digest of the beacon, a text and a last byte.
fn group_digest(label: &[u8; 8], text: &[u8], last: u8) -> [u8; 32]
    ensures { result ≡ group_digest label.now text.now last }
{
    let mut hasher = Hasher::new(&[0; 8], label);
    hasher.update(BEACON);
    hasher.update(text);
    hasher.update(&[last]);
    hasher.finalize()
}

/// Returns the element of a text under a label of eight bytes: the first that is found in the digests of 256 last bytes.
/// `None` where there is none, of which none is known. It allocates nothing.
pub fn group_hash<C: FromDigest>(label: &[u8; 8], text: &[u8]) -> Option<C>
    ensures { result ≡ group_hash C.found_in label.now text.now }
{
    for last in 0..256u16 {
        if let Some(element) = C::from_digest(&group_digest(label, text, last as u8)) {
            return Some(element);
        }
    }
    None
}

// The roles of texts: 0 stands for Zcash's.
const FOR_SEGMENTS: u64 = 0;

const FOR_HASHES: u64 = 1;

const FOR_COMMITMENTS: u64 = 2;

const FOR_RANDOMNESS: u64 = 3;

// The four bytes of a place, the least first.
fn place_bytes(place: u32) -> [u8; 4]
    ensures { result ≡ bytes_of_number 4 place }
{
    let mut bytes = [0; 4];
    let number = Words {
        w0: place as u64,
        w1: 0,
        w2: 0,
        w3: 0,
    };
    write_bytes(number, &mut bytes);
    bytes
}

// The 17 bytes of a place, of the bits of a window and of a role.
fn text_bytes(role: u64, bits: usize, place: u32) -> [u8; 17]
    ensures { result ≡ bytes_of_number 17 (2 ^ 128 * role + 2 ^ 64 * bits + place) }
{
    let mut bytes = [0; 17];
    let number = Words {
        w0: place as u64,
        w1: bits as u64,
        w2: role,
        w3: 0,
    };
    write_bytes(number, &mut bytes);
    bytes
}

// The element of a label's text.
fn element_of<C: FromDigest>(label: &[u8; 8], role: u64, bits: usize, place: u32) -> Option<C>
    ensures { result ≡ group_hash C.found_in label.now (text_of role bits place) }
{
    if role == FOR_SEGMENTS {
        group_hash(label, &place_bytes(place))
    } else {
        group_hash(label, &text_bytes(role, bits, place))
    }
}

// The elements of the texts of a role, one for each place.
fn elements_of_texts<C: FromDigest>(
    alloc: Global,
    label: &[u8; 8],
    role: u64,
    bits: usize,
    count: u32,
) -> Result<Vec<C>, Error>
    ensures made { IfOk result (λ elements.
        AreOfTexts C.found_in label.now (text_of role bits) count elements.items) }
    ensures refused { IfErr result (λ error.
        IsTextFault C.found_in label.now (text_of role bits) count error) }
{
    let mut elements = Vec::new(alloc);
    for i in 0..count {
        match element_of::<C>(label, role, bits, i) {
            Some(element) => elements.push(element)?,
            None => return Err(Error::GenericError(Refusal::DrawsExhausted)),
        }
    }
    Ok(elements)
}

/// Returns the elements of a label, so many as are asked for: of each place from 0 on the group hash of its four bytes.
///
/// Errors: `DrawsExhausted` where one has no element, of which none is known; `OutOfMemory`.
pub fn elements_of_label<C: FromDigest>(
    alloc: Global,
    label: &[u8; 8],
    count: u32,
) -> Result<Vec<C>, Error>
    ensures made { IfOk result (λ elements.
        AreOfLabel C.found_in label.now count elements.items) }
    ensures refused { IfErr result (λ error. IsLabelFault C.found_in label.now count error) }
{
    elements_of_texts(alloc, label, FOR_SEGMENTS, 0, count)
}

// The count of windows.
fn count_of<W: Window>() -> Result<u32, Error>
    ensures count { IfOk result (λ count. count ≡ W.NUM_WINDOWS) }
    ensures few { OnOk result (W.NUM_WINDOWS < 2 ^ 32) }
    ensures refused { IfErr result (λ error. IsTooMany W.NUM_WINDOWS error) }
{
    if W::NUM_WINDOWS < 1 << 32 {
        Ok(W::NUM_WINDOWS as u32)
    } else {
        Err(Error::GenericError(Refusal::LengthOverflow))
    }
}

// The elements of a label for windows or segments, one for each.
fn window_elements<C: FromDigest, W: Window>(
    alloc: Global,
    label: &[u8; 8],
    role: u64,
    bits: usize,
) -> Result<Vec<C>, Error>
    ensures made { IfOk result (λ elements. AreOfTexts C.found_in label.now
        (text_of role bits) W.NUM_WINDOWS elements.items) }
    ensures long { IfOk result (λ elements. length elements.items ≡ W.NUM_WINDOWS) }
    ensures few { OnOk result (W.NUM_WINDOWS < 2 ^ 32) }
    ensures refused { IfErr result (λ error. IsWindowsFault C.found_in label.now
        (text_of role bits) W.NUM_WINDOWS error) }
{
    elements_of_texts(alloc, label, role, bits, count_of::<W>()?)
}

/// Returns the parameters of a Pedersen hash of a label: those of the label's elements, with their doublings. Take these:
/// nobody has to trust who made them.
///
/// The text of a window has its place, the bits of a window and `1`. So hashes whose windows have other counts of bits take
/// other texts (`texts_are_apart`).
///
/// Errors: `WindowTooLarge` where a number of a window can pass the order; `LengthOverflow` of 2^32 windows or more;
/// `DrawsExhausted` where a text has no element, of which none is known; `OutOfMemory`.
pub fn pedersen_from_label<C: FromDigest, W: Window>(
    alloc: Global,
    label: &[u8; 8],
) -> Result<ark_pedersen::Parameters<C>, Error>
    ensures made { IfOk result (λ parameters. (elements : List C)
        × AreOfTexts C.found_in label.now (text_of for_hashes W.WINDOW_SIZE) W.NUM_WINDOWS elements
        × AreGeneratorsOf C.group W.Window elements (generators_in parameters)) }
    ensures fits { OnOk result (windows_fit C.ScalarField.MODULUS W.Window ≡ true) }
    ensures too_large { windows_fit C.ScalarField.MODULUS W.Window ≡ false
        → result ≡ Err (Error.GenericError Refusal.WindowTooLarge) }
    ensures refused { windows_fit C.ScalarField.MODULUS W.Window ≡ true
        → IfErr result (λ error. IsWindowsFault C.found_in label.now
        (text_of for_hashes W.WINDOW_SIZE) W.NUM_WINDOWS error) }
{
    if !windows_fit::<C, W>() {
        return Err(Error::GenericError(Refusal::WindowTooLarge));
    }
    let elements = window_elements::<C, W>(alloc, label, FOR_HASHES, W::WINDOW_SIZE)?;
    ark_pedersen::parameters_of(alloc, W::WINDOW_SIZE, &elements)
}

/// Returns the parameters of a Pedersen commitment of a label: those of the label's elements, with their doublings. Take
/// these: nobody has to trust who made them.
///
/// The text of a window has its place, the bits of a window and `2`. That of the randomness has the place 0, the bits of a
/// window and `3`, so it is of no window: else two openings of one commitment were known to all.
///
/// Errors: as of `pedersen_from_label`.
pub fn pedersen_commitment_from_label<C: FromDigest, W: Window>(
    alloc: Global,
    label: &[u8; 8],
) -> Result<pedersen::Parameters<C>, Error>
    ensures made { IfOk result (λ parameters. (element : C) × (elements : List C)
        × AreForCommitment C.found_in label.now W.Window element elements
        × AreOf C.group C.ScalarField.MODULUS_BIT_SIZE W.Window element elements
        (elements_in parameters)) }
    ensures fits { OnOk result (windows_fit C.ScalarField.MODULUS W.Window ≡ true) }
    ensures too_large { windows_fit C.ScalarField.MODULUS W.Window ≡ false
        → result ≡ Err (Error.GenericError Refusal.WindowTooLarge) }
    ensures refused { windows_fit C.ScalarField.MODULUS W.Window ≡ true
        → IfErr result (λ error. IsCommitmentFault C.found_in label.now W.Window error) }
{
    if !windows_fit::<C, W>() {
        return Err(Error::GenericError(Refusal::WindowTooLarge));
    }
    match element_of::<C>(label, FOR_RANDOMNESS, W::WINDOW_SIZE, 0) {
        Some(element) => {
            let size = W::WINDOW_SIZE;
            let elements = window_elements::<C, W>(alloc, label, FOR_COMMITMENTS, size)?;
            commitment_parameters::<C, W>(alloc, element, &elements)
        }
        None => Err(Error::GenericError(Refusal::DrawsExhausted)),
    }
}

// The parameters of a commitment of its elements.
fn commitment_parameters<C: FromDigest, W: Window>(
    alloc: Global,
    element: C,
    elements: &[C],
) -> Result<pedersen::Parameters<C>, Error>
    requires { length elements.now ≡ W.NUM_WINDOWS }
    ensures made { IfOk result (λ parameters.
        AreOf C.group C.ScalarField.MODULUS_BIT_SIZE W.Window element elements.now
        (elements_in parameters)) }
    ensures refused { IfErr result (λ error. error ≡ Error.OutOfMemory) }
{
    let bits = C::ScalarField::MODULUS_BIT_SIZE as usize;
    let randomness_generator = ark_pedersen::doublings_of(alloc, bits, element)?;
    let windows = ark_pedersen::parameters_of(alloc, W::WINDOW_SIZE, elements)?;
    Ok(pedersen::Parameters {
        randomness_generator,
        generators: windows.generators,
    })
}

/// Returns the parameters of a Bowe-Hopwood hash of a label: those of the label's elements, with their sixteenfolds. Take
/// these: nobody has to trust who made them. Of `Zcash_PH` they are those of Sapling's Pedersen hash.
///
/// Errors: `WindowTooLarge` as `CRH::setup`; `LengthOverflow` of 2^32 windows or more; those of `elements_of_label`.
pub fn bowe_hopwood_from_label<C: FromDigest, W: Window>(
    alloc: Global,
    label: &[u8; 8],
) -> Result<ark_bowe_hopwood::Parameters<C>, Error>
    ensures made { IfOk result (λ parameters. (elements : List C)
        × AreOfLabel C.found_in label.now W.NUM_WINDOWS elements
        × AreSegmentsOf C.group W.Window elements (lists_in parameters.generators.items)) }
    ensures fits { OnOk result (is_fitting C.ScalarField.MODULUS W.WINDOW_SIZE ≡ true) }
    ensures too_large { is_fitting C.ScalarField.MODULUS W.WINDOW_SIZE ≡ false
        → result ≡ Err (Error.GenericError Refusal.WindowTooLarge) }
    ensures refused { is_fitting C.ScalarField.MODULUS W.WINDOW_SIZE ≡ true
        → IfErr result (λ error. IsWindowsFault C.found_in label.now
        (text_of for_segments 0) W.NUM_WINDOWS error) }
{
    if !ark_bowe_hopwood::is_fitting(C::ScalarField::modulus(), W::WINDOW_SIZE) {
        return Err(Error::GenericError(Refusal::WindowTooLarge));
    }
    let elements = window_elements::<C, W>(alloc, label, FOR_SEGMENTS, 0)?;
    ark_bowe_hopwood::parameters_of(alloc, W::WINDOW_SIZE, &elements)
}

/// States that no text of a label is that of another role, of other windows or of another place, and that no other role has
/// Zcash's texts.
pub fn texts_are_apart()
    ensures apart { (role bits place role2 bits2 place2 : ℕ) → 0 < role → role < 256
        → 0 < role2 → role2 < 256 → bits < 2 ^ 64 → bits2 < 2 ^ 64 → place < 2 ^ 64
        → place2 < 2 ^ 64 → text_of role bits place ≡ text_of role2 bits2 place2
        → (role ≡ role2) × (bits ≡ bits2) × (place ≡ place2) }
    ensures zcash { (role bits place bits2 place2 : ℕ) → 0 < role
        → text_of role bits place ≡ text_of for_segments bits2 place2 → ⊥ }
{}
