//! Lists of generators: an element of each window, then multiples of it.

ghost use Rattle.std.specs.Prelude.{◌≡◌, ◌<◌, ◌^◌, map, length, get_or, IfOk, OnOk, IfErr, IsTrue};
ghost use Rattle.ark_groups.specs.Group.{times};
ghost use Rattle.ark_pedersen.specs.Pedersen.{iterates, lists_in, concatenation, window_bits};
ghost use Rattle.ark_pedersen.specs.Pedersen.{window_elements, has_shape};

use crate::window::Window;
use ark_base::error::Error;
use ark_groups::ec::AdditiveGroup;
use rand::Rng;
use std::alloc::Global;

// A sum under way, doubled so often.
fn doubled<C: AdditiveGroup>(mut sum: C::Sum, doublings: usize) -> C::Sum
    ensures { C.total result ≡ times C.group (2 ^ doublings) (C.total sum) }
{
    for _ in 0..doublings {
        sum = C::double_sum(sum);
    }
    sum
}

/// Returns an element, then each, doubled so often, of the one before, `count` in all. The only error is `OutOfMemory`.
pub fn iterates_of<C: AdditiveGroup>(
    alloc: Global,
    count: usize,
    doublings: usize,
    element: C,
) -> Result<Vec<C>, Error>
    ensures made { let next = times C.group (2 ^ doublings) in
        IfOk result (λ list. list.items ≡ iterates next count element) }
    ensures refused { IfErr result (λ error. error ≡ Error.OutOfMemory) }
{
    let mut sums = Vec::with_capacity(alloc, count)?;
    let mut last = element.to_sum();
    for _ in 0..count {
        sums.push(last)?;
        last = doubled::<C>(last, doublings);
    }
    C::from_sums(alloc, &sums)
}

/// Returns a list for each element, as `iterates_of` makes it. The only error is `OutOfMemory`.
pub fn lists_of<C: AdditiveGroup>(
    alloc: Global,
    size: usize,
    doublings: usize,
    elements: &[C],
) -> Result<Vec<Vec<C>>, Error>
    ensures made { let next = times C.group (2 ^ doublings) in
        IfOk result (λ lists. lists_in lists.items ≡ map (iterates next size) elements.now) }
    ensures refused { IfErr result (λ error. error ≡ Error.OutOfMemory) }
{
    let mut lists = Vec::with_capacity(alloc, elements.len())?;
    for element in elements {
        lists.push(iterates_of(alloc, size, doublings, *element)?)?;
    }
    Ok(lists)
}

/// Returns a list for each window, as `iterates_of` makes it of an element that is drawn. The only error is
/// `OutOfMemory`.
pub fn drawn_lists<C: AdditiveGroup, W: Window, R: Rng>(
    alloc: Global,
    doublings: usize,
    rng: &mut R,
) -> Result<Vec<Vec<C>>, Error>
    ensures made { let elements = (window_elements C.draw W.Window (R.stream rng.old)).0 in
        let next = times C.group (2 ^ doublings) in
        IfOk result (λ lists. lists_in lists.items ≡ map (iterates next W.WINDOW_SIZE) elements) }
    ensures left { OnOk result
        (R.stream rng.new ≡ (window_elements C.draw W.Window (R.stream rng.old)).1) }
    ensures refused { IfErr result (λ error. error ≡ Error.OutOfMemory) }
{
    let mut lists = Vec::with_capacity(alloc, W::NUM_WINDOWS)?;
    for _ in 0..W::NUM_WINDOWS {
        lists.push(iterates_of(alloc, W::WINDOW_SIZE, doublings, C::rand(rng))?)?;
    }
    Ok(lists)
}

/// Returns the generator at a place of the lists, one behind the other.
pub fn generator_at<C: AdditiveGroup, W: Window>(generators: &[Vec<C>], place: usize) -> C
    requires shape { IsTrue (has_shape W.NUM_WINDOWS W.WINDOW_SIZE (lists_in generators.now)) }
    requires within { place < window_bits W.Window }
    ensures within { place < length (concatenation (lists_in generators.now)) }
    ensures is { result ≡ get_or (concatenation (lists_in generators.now)) place result }
{
    generators[place / W::WINDOW_SIZE][place % W::WINDOW_SIZE]
}
