//! The hash of two nodes of a Merkle tree and their level, as Sapling's note commitment tree has it: 6 bits of the level,
//! then 255 bits of each node (Zcash protocol specification, section 5.4.1.3).

ghost use Rattle.std.specs.Prelude.{◌≡◌, ◌≤◌, ◌+◌, ◌++◌, ◌∷◌, [], ℕ, List, length, take, get_or, IfOk, OnOk};
ghost use Rattle.ark_base.specs.Outcome.{AnswersBy};
ghost use Rattle.ark_groups.specs.Bits.{bits_of_number};
ghost use Rattle.ark_pedersen.specs.Pedersen.{lists_in, seen_by};
ghost use Rattle.ark_bowe_hopwood.specs.BoweHopwood.{AreDrawnSegments, segments_outcome};
ghost use Rattle.ark_bowe_hopwood.specs.Nodes.{leveled_hash, node_bits, node_hash};

use crate::bits::hash_bits;
use crate::{CRH, Parameters};
use ark_base::error::{Error, Refusal};
use ark_base::serialize::DigestItem;
use ark_crh::{CRHScheme, TwoToOneCRHScheme};
use ark_groups::ec::{AdditiveGroup, TECoordinates};
use ark_groups::ff::Field;
use ark_pedersen::Window;
use rand::Rng;
use std::alloc::Global;
use std::marker::PhantomData;

mod parameters;

pub use parameters::NodeParameters;

// The lowest 6 bits of a level, the lowest first.
fn level_bits(level: u8) -> [bool; 6]
    ensures { result ≡ bits_of_number 6 level }
{
    let second = level / 2;
    let third = second / 2;
    let fourth = third / 2;
    let fifth = fourth / 2;
    [
        level % 2 == 1,
        second % 2 == 1,
        third % 2 == 1,
        fourth % 2 == 1,
        fifth % 2 == 1,
        fifth / 2 % 2 == 1,
    ]
}

// Writes the `count` lowest bits of an element from a place on.
fn write_bits_at<F: Field>(out: &mut [bool], place: usize, count: usize, element: F)
    requires inside { place + count ≤ length out.old }
    ensures front { take (place + count) out.new
        ≡ take place out.old ++ bits_of_number count (F.value element) }
    ensures length { length out.new ≡ length out.old }
{
    element.write_low_bits(&mut out[place..place + count]);
}

// The bits of a level and two nodes.
fn node_bits<F: Field>(level: u8, left: F, right: F) -> [bool; 516]
    ensures { result ≡ node_bits level (F.value left) (F.value right) }
{
    let mut bits = [false; 516];
    bits[..6].copy_from_slice(&level_bits(level));
    write_bits_at(&mut bits, 6, 255, left);
    write_bits_at(&mut bits, 261, 255, right);
    bits
}

/// Returns the hash of two nodes and their level: of 6 bits of the level, then of the lowest 255 bits of each node's
/// number, which are all of them over Jubjub. It allocates nothing.
///
/// Errors: `LengthOverflow` of a level of 64 or more; `IncorrectInputLength` with 516, where there are fewer than 172
/// elements; `ParameterShape`, where the generators are not a list for each window with an element for each of its
/// chunks.
pub fn hash_node<G: AdditiveGroup + TECoordinates, W: Window>(
    generators: &[Vec<G>],
    level: u8,
    left: G::BaseField,
    right: G::BaseField,
) -> Result<G::BaseField, Error>
    ensures { let hash = node_hash G.group G.x W.Window (lists_in generators.now) level in
        let value = G.BaseField.value in
        seen_by value result ≡ hash (value left) (value right) }
{
    if level >= 64 {
        return Err(Error::GenericError(Refusal::LengthOverflow));
    }
    hash_bits::<G, W>(generators, &node_bits(level, left, right))
}

/// The hash of two nodes of a level. Over `Jubjub`, with the elements of `Zcash_PH` in windows of 63 chunks, three at
/// least, it is Sapling's; a tree has parameters of its own for each level.
pub struct NodeCRH<G: AdditiveGroup + TECoordinates, W: Window> {
    group: PhantomData<G>,
    window: PhantomData<W>,
}

impl<G: AdditiveGroup + TECoordinates, W: Window> TwoToOneCRHScheme for NodeCRH<G, W>
where
    G::BaseField: DigestItem,
{
    ghost use Rattle.std.proofs.Common.{sym, ap, ◌∙◌};
    ghost use Rattle.ark_pedersen.specs.Laws.Pedersen.{seen-decided};
    ghost use Rattle.ark_bowe_hopwood.specs.Laws.BoweHopwood.{segments-decided};
    ghost use Rattle.ark_bowe_hopwood.specs.Laws.Nodes.{node-decided, leveled-alike};

    type Input = G::BaseField;

    type Output = G::BaseField;

    type Parameters = NodeParameters<G>;

    ghost evaluated = { λ parameters.
        leveled_hash G.group G.x W.Window (lists_in parameters.generators.items) parameters.level };

    ghost compressed = { λ parameters.
        leveled_hash G.group G.x W.Window (lists_in parameters.generators.items) parameters.level };

    ghost setup_outcome = { segments_outcome G.ScalarField.MODULUS G.draw W.Window };

    ghost is_made = { λ stream parameters. (parameters.level ≡ 0)
        × AreDrawnSegments G.group G.draw W.Window stream (lists_in parameters.generators.items) };

    /// Returns parameters of the level 0, of generators as `CRH::create_generators` makes them.
    ///
    /// Errors: those of `CRH::setup`.
    fn setup<R: Rng>(alloc: Global, rng: &mut R) -> Result<NodeParameters<G>, Error> {
        let parameters = <CRH<G, W> as CRHScheme>::setup(alloc, rng)?;
        Ok(NodeParameters {
            level: 0,
            generators: parameters.generators,
        })
    }

    /// Returns the hash of two nodes of the parameters' level. It allocates nothing.
    ///
    /// Errors: those of `hash_node`.
    fn evaluate(
        _alloc: Global,
        parameters: &NodeParameters<G>,
        left: &G::BaseField,
        right: &G::BaseField,
    ) -> Result<G::BaseField, Error>
        ensures { let lists = lists_in parameters.now.generators.items in
            let hash = node_hash G.group G.x W.Window lists parameters.now.level in
            let value = G.BaseField.value in
            seen_by value result ≡ hash (value left.now) (value right.now) }
    {
        hash_node::<G, W>(&parameters.generators, parameters.level, *left, *right)
    }

    /// Acts as `evaluate`: a digest is a node.
    fn compress(
        alloc: Global,
        parameters: &NodeParameters<G>,
        left: &G::BaseField,
        right: &G::BaseField,
    ) -> Result<G::BaseField, Error>
        ensures { let lists = lists_in parameters.now.generators.items in
            let hash = node_hash G.group G.x W.Window lists parameters.now.level in
            let value = G.BaseField.value in
            seen_by value result ≡ hash (value left.now) (value right.now) }
    {
        hash_node::<G, W>(&parameters.generators, parameters.level, *left, *right)
    }

    ghost evaluated_decided = { λ parameters left right.
        seen-decided (λ x. x ∷ []) _
        (node-decided G.group G.x W.Window (lists_in parameters.generators.items)
        parameters.level (get_or left 0 0) (get_or right 0 0)) };

    ghost compressed_decided = { λ parameters left right.
        seen-decided (λ x. x ∷ []) _
        (node-decided G.group G.x W.Window (lists_in parameters.generators.items)
        parameters.level (get_or left 0 0) (get_or right 0 0)) };

    ghost setup_decided = { segments-decided G.ScalarField.MODULUS G.draw W.Window };

    ghost made_alike = { λ s p q made also.
        leveled-alike (made.0 ∙ sym also.0) (made.1.1 ∙ sym also.1.1) };

    ghost evaluated_same = { λ p q same.
        ap (λ seen. leveled_hash G.group G.x W.Window seen.lists seen.level) same };

    ghost compressed_same = { λ p q same.
        ap (λ seen. leveled_hash G.group G.x W.Window seen.lists seen.level) same };
}
