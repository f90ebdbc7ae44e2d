//! Blocks of four elements, and their products with a matrix by additions.

ghost use Rattle.std.specs.Prelude.{◌≡◌, ◌+◌, ◌%◌, ◌<◌, ℕ, List, ◌∷◌, [], length, get_or, set, map};
ghost use Rattle.ark_groups.specs.Field.{dot_product};

use ark_groups::ff::Field;

/// Four elements that follow one another in a state.
#[derive(Clone, Copy)]
pub struct Four<F> {
    /// The first.
    pub w0: F,
    /// The second.
    pub w1: F,
    /// The third.
    pub w2: F,
    /// The fourth.
    pub w3: F,
}

/// A matrix of four by four: the matrix M of `external_matrix`.
pub trait BlockMatrix<F: Field> {
    // The matrix, by its row at each place.
    ghost matrix: { ℕ → List ℕ };

    // Each row has four numbers.
    ghost rows_of_four: { (c : ℕ) → length (matrix c) ≡ 4 };

    /// Returns the matrix times four elements.
    fn multiply(x: Four<F>) -> Four<F>
        ensures w0 { F.value result.w0 ≡ dot_product (matrix 0)
            (F.value x.w0 ∷ F.value x.w1 ∷ F.value x.w2 ∷ F.value x.w3 ∷ []) % F.MODULUS }
        ensures w1 { F.value result.w1 ≡ dot_product (matrix 1)
            (F.value x.w0 ∷ F.value x.w1 ∷ F.value x.w2 ∷ F.value x.w3 ∷ []) % F.MODULUS }
        ensures w2 { F.value result.w2 ≡ dot_product (matrix 2)
            (F.value x.w0 ∷ F.value x.w1 ∷ F.value x.w2 ∷ F.value x.w3 ∷ []) % F.MODULUS }
        ensures w3 { F.value result.w3 ≡ dot_product (matrix 3)
            (F.value x.w0 ∷ F.value x.w1 ∷ F.value x.w2 ∷ F.value x.w3 ∷ []) % F.MODULUS };
}

/// The matrix M4 of the Poseidon2 paper, by eight additions and six doublings.
pub struct PaperMatrix;

impl<F: Field> BlockMatrix<F> for PaperMatrix {
    ghost use Rattle.poseidon2.specs.Matrices.{paper_row};
    ghost use Rattle.poseidon2.specs.Laws.Instances.{length-paper_row};

    ghost matrix = { paper_row };

    ghost rows_of_four = { length-paper_row };

    fn multiply(x: Four<F>) -> Four<F>
        ensures w0 { F.value result.w0 ≡ dot_product (paper_row 0)
            (F.value x.w0 ∷ F.value x.w1 ∷ F.value x.w2 ∷ F.value x.w3 ∷ []) % F.MODULUS }
        ensures w1 { F.value result.w1 ≡ dot_product (paper_row 1)
            (F.value x.w0 ∷ F.value x.w1 ∷ F.value x.w2 ∷ F.value x.w3 ∷ []) % F.MODULUS }
        ensures w2 { F.value result.w2 ≡ dot_product (paper_row 2)
            (F.value x.w0 ∷ F.value x.w1 ∷ F.value x.w2 ∷ F.value x.w3 ∷ []) % F.MODULUS }
        ensures w3 { F.value result.w3 ≡ dot_product (paper_row 3)
            (F.value x.w0 ∷ F.value x.w1 ∷ F.value x.w2 ∷ F.value x.w3 ∷ []) % F.MODULUS }
    {
        let t0 = x.w0.add(x.w1);
        let t1 = x.w2.add(x.w3);
        let twice1 = x.w1.double();
        let twice3 = x.w3.double();
        let t2 = twice1.add(t1);
        let t3 = twice3.add(t0);
        let double1 = t1.double();
        let double0 = t0.double();
        let four1 = double1.double();
        let four0 = double0.double();
        let w3 = four1.add(t3);
        let w1 = four0.add(t2);
        let w0 = t3.add(w1);
        let w2 = t2.add(w3);
        Four { w0, w1, w2, w3 }
    }
}

/// The matrix circ(2, 3, 1, 1), by nine additions and two doublings.
pub struct CirculantMatrix;

impl<F: Field> BlockMatrix<F> for CirculantMatrix {
    ghost use Rattle.poseidon2.specs.Matrices.{circulant_row};
    ghost use Rattle.poseidon2.specs.Laws.Instances.{length-circulant_row};

    ghost matrix = { circulant_row };

    ghost rows_of_four = { length-circulant_row };

    fn multiply(x: Four<F>) -> Four<F>
        ensures w0 { F.value result.w0 ≡ dot_product (circulant_row 0)
            (F.value x.w0 ∷ F.value x.w1 ∷ F.value x.w2 ∷ F.value x.w3 ∷ []) % F.MODULUS }
        ensures w1 { F.value result.w1 ≡ dot_product (circulant_row 1)
            (F.value x.w0 ∷ F.value x.w1 ∷ F.value x.w2 ∷ F.value x.w3 ∷ []) % F.MODULUS }
        ensures w2 { F.value result.w2 ≡ dot_product (circulant_row 2)
            (F.value x.w0 ∷ F.value x.w1 ∷ F.value x.w2 ∷ F.value x.w3 ∷ []) % F.MODULUS }
        ensures w3 { F.value result.w3 ≡ dot_product (circulant_row 3)
            (F.value x.w0 ∷ F.value x.w1 ∷ F.value x.w2 ∷ F.value x.w3 ∷ []) % F.MODULUS }
    {
        let front = x.w0.add(x.w1);
        let back = x.w2.add(x.w3);
        let all = front.add(back);
        let all1 = all.add(x.w1);
        let all3 = all.add(x.w3);
        let twice0 = x.w0.double();
        let twice2 = x.w2.double();
        let w0 = all1.add(front);
        let w1 = all1.add(twice2);
        let w2 = all3.add(back);
        let w3 = all3.add(twice0);
        Four { w0, w1, w2, w3 }
    }
}

/// Returns the sums of four elements and four others, place by place.
pub fn sum_of_blocks<F: Field>(x: Four<F>, y: Four<F>) -> Four<F>
    ensures w0 { F.value result.w0 ≡ (F.value x.w0 + F.value y.w0) % F.MODULUS }
    ensures w1 { F.value result.w1 ≡ (F.value x.w1 + F.value y.w1) % F.MODULUS }
    ensures w2 { F.value result.w2 ≡ (F.value x.w2 + F.value y.w2) % F.MODULUS }
    ensures w3 { F.value result.w3 ≡ (F.value x.w3 + F.value y.w3) % F.MODULUS }
{
    Four {
        w0: x.w0.add(y.w0),
        w1: x.w1.add(y.w1),
        w2: x.w2.add(y.w2),
        w3: x.w3.add(y.w3),
    }
}

/// Returns the four elements from a place on.
pub fn block_at<F: Field>(state: &[F], at: usize) -> Four<F>
    requires { at + 3 < length state.now }
    ensures w0 { F.value result.w0 ≡ get_or (map F.value state.now) at 0 }
    ensures w1 { F.value result.w1 ≡ get_or (map F.value state.now) (at + 1) 0 }
    ensures w2 { F.value result.w2 ≡ get_or (map F.value state.now) (at + 2) 0 }
    ensures w3 { F.value result.w3 ≡ get_or (map F.value state.now) (at + 3) 0 }
{
    let w0 = state[at];
    let w1 = state[at + 1];
    let w2 = state[at + 2];
    let w3 = state[at + 3];
    Four { w0, w1, w2, w3 }
}

/// Writes four elements from a place on.
pub fn write_block<F: Field>(state: &mut [F], at: usize, x: Four<F>)
    requires { at + 3 < length state.old }
    ensures { map F.value state.new
        ≡ set (set (set (set (map F.value state.old) at (F.value x.w0)) (at + 1) (F.value x.w1))
        (at + 2) (F.value x.w2)) (at + 3) (F.value x.w3) }
{
    state[at] = x.w0;
    state[at + 1] = x.w1;
    state[at + 2] = x.w2;
    state[at + 3] = x.w3;
}
