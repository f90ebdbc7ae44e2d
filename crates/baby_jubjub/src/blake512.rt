//! BLAKE-512, the finalist of SHA-3 (submission of 2010, section 2.3), of texts that fit one block.

ghost use Rattle.std.specs.Prelude.{◌≡◌, ◌+◌, ◌*◌, ◌<◌, ◌≤◌, ◌^◌, All, length};
ghost use Rattle.std.specs.List.{flat_map};
ghost use Rattle.std.specs.Int.{w64, to_be_bytes};
ghost use Rattle.baby_jubjub.specs.Blake512.{blake_mixture, blake_round, round_words, blake_rounds, blake_vector, blake_finish};
ghost use Rattle.baby_jubjub.specs.Blake512.{blake_start, blake_compression, blake_words, big_word, big_words, blake512, word_with};

// The initial value.
const START: [u64; 8] = [
    0x6a09_e667_f3bc_c908,
    0xbb67_ae85_84ca_a73b,
    0x3c6e_f372_fe94_f82b,
    0xa54f_f53a_5f1d_36f1,
    0x510e_527f_ade6_82d1,
    0x9b05_688c_2b3e_6c1f,
    0x1f83_d9ab_fb41_bd6b,
    0x5be0_cd19_137e_2179,
];

// The first digits of pi.
const CONSTANTS: [u64; 16] = [
    0x243f_6a88_85a3_08d3,
    0x1319_8a2e_0370_7344,
    0xa409_3822_299f_31d0,
    0x082e_fa98_ec4e_6c89,
    0x4528_21e6_38d0_1377,
    0xbe54_66cf_34e9_0c6c,
    0xc0ac_29b7_c97c_50dd,
    0x3f84_d5b5_b547_0917,
    0x9216_d5d9_8979_fb1b,
    0xd131_0ba6_98df_b5ac,
    0x2ffd_72db_d01a_dfb7,
    0xb8e1_afed_6a26_7e96,
    0xba7c_9045_f12c_7f99,
    0x24a1_9947_b391_6cf7,
    0x0801_f2e2_858e_fc16,
    0x6369_20d8_7157_4e69,
];

// G.
#[inline(always)]
fn mix(a: u64, b: u64, c: u64, d: u64, x: u64, y: u64) -> [u64; 4]
    ensures { result ≡ blake_mixture a b c d x y }
{
    let a = a.wrapping_add(b).wrapping_add(x);
    let d = (d ^ a).rotate_right(32);
    let c = c.wrapping_add(d);
    let b = (b ^ c).rotate_right(25);
    let a = a.wrapping_add(b).wrapping_add(y);
    let d = (d ^ a).rotate_right(16);
    let c = c.wrapping_add(d);
    let b = (b ^ c).rotate_right(11);
    [a, b, c, d]
}

// A round, with its words.
#[rattlefmt::skip]
#[inline(always)]
fn mix_all(v: [u64; 16], s: [u64; 16]) -> [u64; 16]
    ensures { result ≡ blake_round v s }
{
    let [a0, a1, a2, a3, b0, b1, b2, b3, c0, c1, c2, c3, d0, d1, d2, d3] = v;
    // The columns.
    let [a0, b0, c0, d0] = mix(a0, b0, c0, d0, s[0], s[1]);
    let [a1, b1, c1, d1] = mix(a1, b1, c1, d1, s[2], s[3]);
    let [a2, b2, c2, d2] = mix(a2, b2, c2, d2, s[4], s[5]);
    let [a3, b3, c3, d3] = mix(a3, b3, c3, d3, s[6], s[7]);
    // The diagonals.
    let [a0, b1, c2, d3] = mix(a0, b1, c2, d3, s[8], s[9]);
    let [a1, b2, c3, d0] = mix(a1, b2, c3, d0, s[10], s[11]);
    let [a2, b3, c0, d1] = mix(a2, b3, c0, d1, s[12], s[13]);
    let [a3, b0, c1, d2] = mix(a3, b0, c1, d2, s[14], s[15]);
    [a0, a1, a2, a3, b0, b1, b2, b3, c0, c1, c2, c3, d0, d1, d2, d3]
}

// The word at a place, with the constant at another.
#[inline(always)]
fn word_with(m: &[u64; 16], j: usize, k: usize) -> u64
    requires first { j < 16 }
    requires second { k < 16 }
    ensures { result ≡ word_with m.now j k }
{
    m[j] ^ CONSTANTS[k]
}

// The words of a round.
#[rattlefmt::skip]
#[tactic(auto, unfolding(crate::specs::Blake512::round_words))]
#[inline(always)]
fn ordered(m: &[u64; 16], order: [usize; 16]) -> [u64; 16]
    requires { All (λ k. k < 16) order }
    ensures { result ≡ round_words m.now order }
{
    let [a, b, c, d, e, f, g, h, i, j, k, l, n, o, p, q] = order;
    [
        word_with(m, a, b), word_with(m, b, a), word_with(m, c, d), word_with(m, d, c),
        word_with(m, e, f), word_with(m, f, e), word_with(m, g, h), word_with(m, h, g),
        word_with(m, i, j), word_with(m, j, i), word_with(m, k, l), word_with(m, l, k),
        word_with(m, n, o), word_with(m, o, n), word_with(m, p, q), word_with(m, q, p),
    ]
}

// The sixteen rounds.
#[rattlefmt::skip]
#[inline(always)]
fn sixteen_rounds(v: [u64; 16], m: [u64; 16]) -> [u64; 16]
    ensures { result ≡ blake_rounds m v }
{
    let v = mix_all(v, ordered(&m, [0, 1, 2, 3, 4, 5, 6, 7, 8, 9, 10, 11, 12, 13, 14, 15]));
    let v = mix_all(v, ordered(&m, [14, 10, 4, 8, 9, 15, 13, 6, 1, 12, 0, 2, 11, 7, 5, 3]));
    let v = mix_all(v, ordered(&m, [11, 8, 12, 0, 5, 2, 15, 13, 10, 14, 3, 6, 7, 1, 9, 4]));
    let v = mix_all(v, ordered(&m, [7, 9, 3, 1, 13, 12, 11, 14, 2, 6, 5, 10, 4, 0, 15, 8]));
    let v = mix_all(v, ordered(&m, [9, 0, 5, 7, 2, 4, 10, 15, 14, 1, 11, 12, 6, 8, 3, 13]));
    let v = mix_all(v, ordered(&m, [2, 12, 6, 10, 0, 11, 8, 3, 4, 13, 7, 5, 15, 14, 1, 9]));
    let v = mix_all(v, ordered(&m, [12, 5, 1, 15, 14, 13, 4, 10, 0, 7, 6, 3, 9, 2, 8, 11]));
    let v = mix_all(v, ordered(&m, [13, 11, 7, 14, 12, 1, 3, 9, 5, 0, 15, 4, 8, 6, 2, 10]));
    let v = mix_all(v, ordered(&m, [6, 15, 14, 9, 11, 3, 0, 8, 12, 2, 13, 7, 1, 4, 10, 5]));
    let v = mix_all(v, ordered(&m, [10, 2, 8, 4, 7, 6, 1, 5, 15, 11, 9, 14, 3, 12, 13, 0]));
    let v = mix_all(v, ordered(&m, [0, 1, 2, 3, 4, 5, 6, 7, 8, 9, 10, 11, 12, 13, 14, 15]));
    let v = mix_all(v, ordered(&m, [14, 10, 4, 8, 9, 15, 13, 6, 1, 12, 0, 2, 11, 7, 5, 3]));
    let v = mix_all(v, ordered(&m, [11, 8, 12, 0, 5, 2, 15, 13, 10, 14, 3, 6, 7, 1, 9, 4]));
    let v = mix_all(v, ordered(&m, [7, 9, 3, 1, 13, 12, 11, 14, 2, 6, 5, 10, 4, 0, 15, 8]));
    let v = mix_all(v, ordered(&m, [9, 0, 5, 7, 2, 4, 10, 15, 14, 1, 11, 12, 6, 8, 3, 13]));
    mix_all(v, ordered(&m, [2, 12, 6, 10, 0, 11, 8, 3, 4, 13, 7, 5, 15, 14, 1, 9]))
}

// The vector before the rounds.
#[inline(always)]
fn first_vector(h: [u64; 8], t: u64) -> [u64; 16]
    ensures { result ≡ blake_vector h t }
{
    let [a, b, c, d, e, f, g, i] = h;
    [
        a,
        b,
        c,
        d,
        e,
        f,
        g,
        i,
        CONSTANTS[0],
        CONSTANTS[1],
        CONSTANTS[2],
        CONSTANTS[3],
        CONSTANTS[4] ^ t,
        CONSTANTS[5] ^ t,
        CONSTANTS[6],
        CONSTANTS[7],
    ]
}

// Both halves of the vector in the state.
#[inline(always)]
fn finish(h: [u64; 8], v: [u64; 16]) -> [u64; 8]
    ensures { result ≡ blake_finish h v }
{
    [
        h[0] ^ v[0] ^ v[8],
        h[1] ^ v[1] ^ v[9],
        h[2] ^ v[2] ^ v[10],
        h[3] ^ v[3] ^ v[11],
        h[4] ^ v[4] ^ v[12],
        h[5] ^ v[5] ^ v[13],
        h[6] ^ v[6] ^ v[14],
        h[7] ^ v[7] ^ v[15],
    ]
}

// The digest of a block.
#[tactic(auto, unfolding(crate::specs::Blake512::blake_compression))]
fn compressed(m: [u64; 16], t: u64) -> [u64; 8]
    ensures { result ≡ blake_compression blake_start m t }
{
    finish(START, sixteen_rounds(first_vector(START, t), m))
}

// The word at a place.
fn big_word(bytes: &[u8], i: usize) -> u64
    requires { i + 8 ≤ length bytes.now }
    ensures { result ≡ big_word bytes.now i }
{
    u64::from_be_bytes([
        bytes[i],
        bytes[i + 1],
        bytes[i + 2],
        bytes[i + 3],
        bytes[i + 4],
        bytes[i + 5],
        bytes[i + 6],
        bytes[i + 7],
    ])
}

// The 64 bytes of words.
fn bytes_of(words: [u64; 8]) -> [u8; 64]
    ensures { result ≡ flat_map (to_be_bytes w64) words }
{
    let mut bytes = [0; 64];
    'words: for i in 0..8 {
        bytes[8 * i..8 * i + 8].copy_from_slice(&words[i].to_be_bytes());
    }
    bytes
}

/// Returns the digest of 32 bytes.
#[tactic(auto, unfolding(crate::specs::Blake512::blake512, crate::specs::Blake512::blake_words, crate::specs::Blake512::big_words, crate::specs::Blake512::blake_block))]
pub fn blake512_of_32(text: &[u8; 32]) -> [u8; 64]
    ensures { result ≡ blake512 text.now }
{
    let a = big_word(text, 0);
    let b = big_word(text, 8);
    let c = big_word(text, 16);
    let d = big_word(text, 24);
    bytes_of(compressed(
        [a, b, c, d, 1 << 63, 0, 0, 0, 0, 0, 0, 0, 0, 1, 0, 256],
        256,
    ))
}

/// Returns the digest of 64 bytes.
#[tactic(auto, unfolding(crate::specs::Blake512::blake512, crate::specs::Blake512::blake_words, crate::specs::Blake512::big_words, crate::specs::Blake512::blake_block))]
pub fn blake512_of_64(text: &[u8; 64]) -> [u8; 64]
    ensures { result ≡ blake512 text.now }
{
    let a = big_word(text, 0);
    let b = big_word(text, 8);
    let c = big_word(text, 16);
    let d = big_word(text, 24);
    let e = big_word(text, 32);
    let f = big_word(text, 40);
    let g = big_word(text, 48);
    let h = big_word(text, 56);
    bytes_of(compressed(
        [a, b, c, d, e, f, g, h, 1 << 63, 0, 0, 0, 0, 1, 0, 512],
        512,
    ))
}
