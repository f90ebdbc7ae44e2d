//! The compression function of BLAKE2s (RFC 7693, section 3).

ghost use Rattle.std.specs.Prelude.{◌≡◌};
ghost use Rattle.ark_schemes.specs.Blake2s.{mixture, round, local_vector, rounds, next_state, compression};

/// IV (section 2.6).
pub(super) const IV: [u32; 8] = [
    0x6a09_e667,
    0xbb67_ae85,
    0x3c6e_f372,
    0xa54f_f53a,
    0x510e_527f,
    0x9b05_688c,
    0x1f83_d9ab,
    0x5be0_cd19,
];

// G (section 3.1).
#[inline(always)]
fn mix(a: u32, b: u32, c: u32, d: u32, x: u32, y: u32) -> [u32; 4]
    ensures { result ≡ mixture a b c d x y }
{
    let a = a.wrapping_add(b).wrapping_add(x);
    let d = (d ^ a).rotate_right(16);
    let c = c.wrapping_add(d);
    let b = (b ^ c).rotate_right(12);
    let a = a.wrapping_add(b).wrapping_add(y);
    let d = (d ^ a).rotate_right(8);
    let c = c.wrapping_add(d);
    let b = (b ^ c).rotate_right(7);
    [a, b, c, d]
}

// A round, with the block's words in the order of a row of SIGMA (section 3.2).
#[rattlefmt::skip]
#[inline(always)]
fn mix_all(v: [u32; 16], s: [u32; 16]) -> [u32; 16]
    ensures { result ≡ round v s }
{
    let [a0, a1, a2, a3, b0, b1, b2, b3, c0, c1, c2, c3, d0, d1, d2, d3] = v;
    // The columns.
    let [a0, b0, c0, d0] = mix(a0, b0, c0, d0, s[0], s[1]);
    let [a1, b1, c1, d1] = mix(a1, b1, c1, d1, s[2], s[3]);
    let [a2, b2, c2, d2] = mix(a2, b2, c2, d2, s[4], s[5]);
    let [a3, b3, c3, d3] = mix(a3, b3, c3, d3, s[6], s[7]);
    // The diagonals.
    let [a0, b1, c2, d3] = mix(a0, b1, c2, d3, s[8], s[9]);
    let [a1, b2, c3, d0] = mix(a1, b2, c3, d0, s[10], s[11]);
    let [a2, b3, c0, d1] = mix(a2, b3, c0, d1, s[12], s[13]);
    let [a3, b0, c1, d2] = mix(a3, b0, c1, d2, s[14], s[15]);
    [a0, a1, a2, a3, b0, b1, b2, b3, c0, c1, c2, c3, d0, d1, d2, d3]
}

// The ten rounds, with the rows of SIGMA (section 2.7) written out.
#[rattlefmt::skip]
#[inline(always)]
fn ten_rounds(v: [u32; 16], m: [u32; 16]) -> [u32; 16]
    ensures { result ≡ rounds m v }
{
    let v = mix_all(v, [m[0], m[1], m[2], m[3], m[4], m[5], m[6], m[7], m[8], m[9], m[10], m[11], m[12], m[13], m[14], m[15]]);
    let v = mix_all(v, [m[14], m[10], m[4], m[8], m[9], m[15], m[13], m[6], m[1], m[12], m[0], m[2], m[11], m[7], m[5], m[3]]);
    let v = mix_all(v, [m[11], m[8], m[12], m[0], m[5], m[2], m[15], m[13], m[10], m[14], m[3], m[6], m[7], m[1], m[9], m[4]]);
    let v = mix_all(v, [m[7], m[9], m[3], m[1], m[13], m[12], m[11], m[14], m[2], m[6], m[5], m[10], m[4], m[0], m[15], m[8]]);
    let v = mix_all(v, [m[9], m[0], m[5], m[7], m[2], m[4], m[10], m[15], m[14], m[1], m[11], m[12], m[6], m[8], m[3], m[13]]);
    let v = mix_all(v, [m[2], m[12], m[6], m[10], m[0], m[11], m[8], m[3], m[4], m[13], m[7], m[5], m[15], m[14], m[1], m[9]]);
    let v = mix_all(v, [m[12], m[5], m[1], m[15], m[14], m[13], m[4], m[10], m[0], m[7], m[6], m[3], m[9], m[2], m[8], m[11]]);
    let v = mix_all(v, [m[13], m[11], m[7], m[14], m[12], m[1], m[3], m[9], m[5], m[0], m[15], m[4], m[8], m[6], m[2], m[10]]);
    let v = mix_all(v, [m[6], m[15], m[14], m[9], m[11], m[3], m[0], m[8], m[12], m[2], m[13], m[7], m[1], m[4], m[10], m[5]]);
    mix_all(v, [m[10], m[2], m[8], m[4], m[7], m[6], m[1], m[5], m[15], m[11], m[9], m[14], m[3], m[12], m[13], m[0]])
}

// The local vector before the rounds (section 3.2).
#[inline(always)]
fn first_vector(h: [u32; 8], t: u64, last: bool) -> [u32; 16]
    ensures { result ≡ local_vector h t last }
{
    let [a, b, c, d, e, f, g, i] = h;
    let inverted = if last { !IV[6] } else { IV[6] };
    [
        a,
        b,
        c,
        d,
        e,
        f,
        g,
        i,
        IV[0],
        IV[1],
        IV[2],
        IV[3],
        IV[4] ^ (t % 0x1_0000_0000) as u32,
        IV[5] ^ (t >> 32) as u32,
        inverted,
        IV[7],
    ]
}

// Both halves of the vector in the state (section 3.2).
#[inline(always)]
fn finish(h: [u32; 8], v: [u32; 16]) -> [u32; 8]
    ensures { result ≡ next_state h v }
{
    [
        h[0] ^ v[0] ^ v[8],
        h[1] ^ v[1] ^ v[9],
        h[2] ^ v[2] ^ v[10],
        h[3] ^ v[3] ^ v[11],
        h[4] ^ v[4] ^ v[12],
        h[5] ^ v[5] ^ v[13],
        h[6] ^ v[6] ^ v[14],
        h[7] ^ v[7] ^ v[15],
    ]
}

/// Applies F (section 3.2): mixes a block of sixteen words into the state, with the counter and whether it is the last.
#[tactic(auto, unfolding(crate::specs::Blake2s::compression))]
pub fn compress(h: &mut [u32; 8], m: [u32; 16], t: u64, last: bool)
    ensures { h.new ≡ compression h.old m t last }
{
    *h = finish(*h, ten_rounds(first_vector(*h, t, last), m));
}
