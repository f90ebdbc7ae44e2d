//! What schemes and hashes ask of a group, with scalars of one word or of four.

ghost use Rattle.std.specs.Prelude.{◌≡◌, map, IfOk, IfErr};
ghost use Rattle.std.specs.Bool.{Decides};
ghost use Rattle.rand_core.specs.Stream.{Stream};
ghost use Rattle.ark_groups.specs.Group.{Group, IsCommutativeGroup, times};

use crate::ff::Field;
use ark_base::error::Error;
use ark_base::serialize::CanonicalItem;
use rand::Rng;
use std::alloc::Global;
use std::fmt::Debug;
use std::hash::Hash;

/// A commutative group, written as a sum. Nothing is known of it but its laws.
pub trait AdditiveGroup: Copy + Eq + Debug + Hash + Default + CanonicalItem {
    /// The numbers that count how often an element is added. Its modulus is an order of the group.
    type ScalarField: Field;

    /// A sum under way, as a point by projective coordinates: many elements are added, and one is made at the end.
    type Sum: Copy;

    // Its zero, its sum and its negative.
    ghost group: { Group Self };

    // The element that comes of a stream, and the stream that is left.
    ghost draw: { Stream → Self × Stream };

    // The element that a sum under way stands for.
    ghost total: { Self.Sum → Self };

    /// Returns the element that adds nothing.
    fn zero() -> Self
        ensures { result ≡ group.identity };

    /// Returns the sum.
    fn add(self, other: Self) -> Self
        ensures { result ≡ group.plus self other };

    /// Returns the negative.
    fn neg(self) -> Self
        ensures { result ≡ group.opposite self };

    /// Returns the element added to itself.
    fn double(self) -> Self
        ensures { result ≡ group.plus self self }
    {
        self.add(self)
    }

    /// Returns the element, added as often as the scalar says.
    fn mul(self, s: Self::ScalarField) -> Self
        ensures { result ≡ times group (Self.ScalarField.value s) self };

    /// Returns the sum of two elements, each added as often as a public scalar says: the time may depend on the scalars.
    fn sum_of_multiples_public(
        self,
        s: Self::ScalarField,
        other: Self,
        t: Self::ScalarField,
    ) -> Self
        ensures { let value = Self.ScalarField.value in
            result ≡ group.plus (times group (value s) self) (times group (value t) other) }
    {
        self.mul(s).add(other.mul(t))
    }

    /// Returns a sum under way that stands for the element.
    fn to_sum(self) -> Self::Sum
        ensures { total result ≡ self };

    /// Returns the sum of two sums under way.
    fn add_sums(a: Self::Sum, b: Self::Sum) -> Self::Sum
        ensures { total result ≡ group.plus (total a) (total b) };

    /// Returns a sum under way with an element added.
    fn add_to_sum(sum: Self::Sum, element: Self) -> Self::Sum
        ensures { total result ≡ group.plus (total sum) element }
    {
        Self::add_sums(sum, element.to_sum())
    }

    /// Returns a sum under way, added to itself.
    fn double_sum(a: Self::Sum) -> Self::Sum
        ensures { total result ≡ group.plus (total a) (total a) }
    {
        Self::add_sums(a, a)
    }

    /// Returns the element that a sum under way stands for.
    fn from_sum(sum: Self::Sum) -> Self
        ensures { result ≡ total sum };

    /// Returns the elements that sums under way stand for, place by place. The only error is `OutOfMemory`.
    fn from_sums(alloc: Global, sums: &[Self::Sum]) -> Result<Vec<Self>, Error>
        ensures made { IfOk result (λ list. list.items ≡ map total sums.now) }
        ensures refused { IfErr result (λ error. error ≡ Error.OutOfMemory) }
    {
        let mut list = Vec::with_capacity(alloc, sums.len())?;
        for sum in sums {
            list.push(Self::from_sum(*sum))?;
        }
        Ok(list)
    }

    /// Returns the element that comes next of the generator's stream.
    fn rand<R: Rng>(rng: &mut R) -> Self
        ensures { (result, R.stream rng.new) ≡ draw (R.stream rng.old) };

    ghost laws: { IsCommutativeGroup group };

    // Added as often as the scalars' modulus says, each element is zero.
    ghost order: { (x : Self) → times group Self.ScalarField.MODULUS x ≡ group.identity };

    ghost equal_if_same: { (x y : Self) → Decides (Self.eq x y) (x ≡ y) };

    // A clone is the element itself, and needs no memory.
    ghost clones: { (x y : Self) → Self.is_clone x y → x ≡ y };

    ghost clones_always: { (x : Self) → Self.is_infallible x };

    ghost default_is_zero: { (x : Self) → Self.is_default x → x ≡ group.identity };

    // Each element has canonical bytes, of its own alone.
    ghost is_spelled: { (x : Self) → Self.has_spelling (Self.view x) };

    ghost same_view: { (x y : Self) → Self.view x ≡ Self.view y → x ≡ y };
}
