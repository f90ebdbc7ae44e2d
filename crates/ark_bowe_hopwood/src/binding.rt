//! What two inputs with one hash give: a relation among the elements of the segments.

ghost use Rattle.ark_bowe_hopwood.specs.Binding.{HashesGiveRelations, RelationsAreSome};
ghost use Rattle.ark_bowe_hopwood.specs.Binding.{BitHashesGiveRelations, BitRelationsAreSome};
ghost use Rattle.ark_bowe_hopwood.specs.Binding.{NodesGiveRelations, NodeRelationsAreSome};

use ark_groups::ec::{AdditiveGroup, ToldByX};
use ark_pedersen::Window;

/// States that two inputs with one hash give a relation among the elements of the segments, in a group whose elements
/// their first coordinate tells. The coefficients are the scalars of the left input's segments less those of the right.
/// Where `setup` makes parameters, inputs of one length that differ have a coefficient that the order does not divide.
pub fn hashes_bind<G: AdditiveGroup + ToldByX, W: Window>()
    ensures relation { HashesGiveRelations G.group G.x W.Window }
    ensures some { RelationsAreSome G.ScalarField.MODULUS W.Window }
{}

/// States the same of lists of bits, which `hash_bits` takes.
pub fn bit_hashes_bind<G: AdditiveGroup + ToldByX, W: Window>()
    ensures relation { BitHashesGiveRelations G.group G.x W.Window }
    ensures some { BitRelationsAreSome G.ScalarField.MODULUS W.Window }
{}

/// States the same of two nodes and their level, which `hash_node` takes and a tree over `NodeCRH` has: two couples of nodes
/// with one hash give a relation. Couples that differ, of numbers below 2^255 and levels below 64, have a coefficient that
/// the order does not divide.
pub fn nodes_bind<G: AdditiveGroup + ToldByX, W: Window>()
    ensures relation { NodesGiveRelations G.group G.x W.Window }
    ensures some { NodeRelationsAreSome G.ScalarField.MODULUS W.Window }
{}
