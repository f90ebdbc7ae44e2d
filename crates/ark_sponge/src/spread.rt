//! Elements as bytes and bits, and bits as elements. Nothing here takes memory.

ghost use Rattle.std.specs.Prelude.{◌≡◌, ◌+◌, ◌*◌, ◌≤◌, ◌++◌, map, length, take};
ghost use Rattle.std.specs.List.{flat_map};
ghost use Rattle.ark_base.specs.Digits.{bytes_of_number};
ghost use Rattle.ark_groups.specs.Bits.{bits_of_number};
ghost use Rattle.ark_sponge.specs.Sizes.{cut_numbers};

use crate::size::FieldElementSize;
use ark_groups::ff::{Field, element_of_bits, same_element};

// Writes the `count` lowest bytes of an element from a place on.
fn write_bytes_at<F: Field>(out: &mut [u8], place: usize, count: usize, element: F)
    requires inside { place + count ≤ length out.old }
    ensures front { take (place + count) out.new
        ≡ take place out.old ++ bytes_of_number count (F.value element) }
    ensures length { length out.new ≡ length out.old }
{
    element.write_low_bytes(&mut out[place..place + count]);
}

// Writes the `count` lowest bits of an element from a place on.
fn write_bits_at<F: Field>(out: &mut [bool], place: usize, count: usize, element: F)
    requires inside { place + count ≤ length out.old }
    ensures front { take (place + count) out.new
        ≡ take place out.old ++ bits_of_number count (F.value element) }
    ensures length { length out.new ≡ length out.old }
{
    element.write_low_bits(&mut out[place..place + count]);
}

/// Fills a list with the lowest bytes of elements, `size` of each, the least first.
pub fn spread_bytes<F: Field>(elements: &[F], size: usize, out: &mut [u8])
    requires enough { length out.old ≤ length elements.now * size }
    ensures { out.new ≡ take (length out.old)
        (flat_map (bytes_of_number size) (map F.value elements.now)) }
{
    let mut done = 0;
    for element in elements {
        let count = size.min(out.len() - done);
        write_bytes_at(out, done, count, *element);
        done += count;
    }
}

/// Fills a list with the lowest bits of elements, `size` of each, the lowest first.
pub fn spread_bits<F: Field>(elements: &[F], size: usize, out: &mut [bool])
    requires enough { length out.old ≤ length elements.now * size }
    ensures { out.new ≡ take (length out.old)
        (flat_map (bits_of_number size) (map F.value elements.now)) }
{
    let mut done = 0;
    for element in elements {
        let count = size.min(out.len() - done);
        write_bits_at(out, done, count, *element);
        done += count;
    }
}

/// Fills a list with the elements that bits are, cut into pieces of sizes.
pub fn cut_bits<F: Field>(bits: &[bool], sizes: &[FieldElementSize], out: &mut [F])
    requires { length out.old ≡ length sizes.now }
    ensures numbers { map F.value out.new
        ≡ cut_numbers F.MODULUS F.MODULUS_BIT_SIZE sizes.now bits.now }
    ensures length { length out.new ≡ length out.old }
{
    let mut rest = bits;
    for (i, size) in sizes.iter().enumerate() {
        let (piece, behind) = rest.split_at(size.width::<F>().min(rest.len()));
        out[i] = element_of_bits(piece);
        rest = behind;
    }
}

/// Fills a list with elements, as those of a field of the same modulus.
pub fn own_elements<F: Field, G: Field>(elements: &[F], out: &mut [G])
    requires modulus { G.MODULUS ≡ F.MODULUS }
    requires length { length out.old ≡ length elements.now }
    ensures { map G.value out.new ≡ map F.value elements.now }
{
    for (i, element) in elements.iter().enumerate() {
        out[i] = same_element::<G, F>(*element);
    }
}
