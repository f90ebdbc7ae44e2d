//! The Base64 of a key of 33 bytes: no branch and no address depends on them.

ghost use Rattle.std.specs.Prelude.{◌≡◌, ◌<◌, ◌≤◌, ◌+◌, ◌-◌, ◌/◌, ◌*◌, length, take, drop, slice_index, true, IfSome, Ok};
ghost use Rattle.base64.specs.Engines.{standard};
ghost use Rattle.base64.specs.GeneralPurpose.{decode_of, encode_of, engine_symbols};

// Returns 1 if a value is at least another one, else 0.
fn at_least(value: u32, bound: u32) -> u32
    requires value { value < 64 }
    requires bound { bound ≤ 64 }
    ensures test { result ≡ (value + 64 - bound) / 64 }
    ensures bit { result ≤ 1 }
{
    (value + 64 - bound) / 64
}

// Returns 1 if a symbol is one of those from the first to the last, else 0.
fn is_within(symbol: u32, first: u32, last: u32) -> u32
    requires symbol { symbol < 256 }
    requires range { first ≤ last }
    requires last { last < 256 }
    ensures bit { result ≤ 1 }
{
    (symbol + 256 - first) / 256 * ((last + 256 - symbol) / 256)
}

// Returns the symbol of a value.
fn symbol_of(value: u32) -> u8
    requires { value < 64 }
    ensures { result ≡ slice_index (engine_symbols standard) value }
{
    let more = 65 + 6 * at_least(value, 26) + 3 * at_least(value, 63);
    let less = 75 * at_least(value, 52) + 15 * at_least(value, 62);
    (value + more - less) as u8
}

/// Returns the Base64 of 33 bytes.
pub fn word_of(bytes: &[u8; 33]) -> [u8; 44]
    ensures { result ≡ encode_of standard bytes.now }
{
    let mut word = [0; 44];
    'groups: for group in 0..11 {
        let a = bytes[3 * group] as u32;
        let b = bytes[3 * group + 1] as u32;
        let c = bytes[3 * group + 2] as u32;
        word[4 * group] = symbol_of(a / 4);
        word[4 * group + 1] = symbol_of(a % 4 * 16 + b / 16);
        word[4 * group + 2] = symbol_of(b % 16 * 4 + c / 64);
        word[4 * group + 3] = symbol_of(c % 64);
    }
    word
}

// Returns the value of a symbol, and some other number of what is none.
fn value_of(symbol: u8) -> u32
    ensures { result < 64 }
{
    let symbol = symbol as u32;
    let upper = is_within(symbol, 65, 90) * ((symbol + 191) % 256);
    let lower = is_within(symbol, 97, 122) * ((symbol + 185) % 256);
    let digit = is_within(symbol, 48, 57) * (symbol + 4);
    let other = is_within(symbol, 43, 43) * 62 + is_within(symbol, 47, 47) * 63;
    (upper + lower + digit + other) % 64
}

/// Returns the 33 bytes of which a word is the Base64, and whether it is that of any.
pub fn bytes_of(word: &[u8; 44]) -> ([u8; 33], bool)
    ensures { result.1 ≡ true → decode_of standard word.now ≡ Ok result.0 }
{
    let mut bytes = [0; 33];
    for group in 0..11 {
        let a = value_of(word[4 * group]);
        let b = value_of(word[4 * group + 1]);
        let c = value_of(word[4 * group + 2]);
        let d = value_of(word[4 * group + 3]);
        bytes[3 * group] = (a * 4 + b / 16) as u8;
        bytes[3 * group + 1] = (b % 16 * 16 + c / 4) as u8;
        bytes[3 * group + 2] = (c % 4 * 64 + d) as u8;
    }
    let is_whole = is_word_of(&bytes, word);
    (bytes, is_whole)
}

// Returns whether a word is this one. No branch depends on a symbol.
fn is_word(word: &[u8; 44], other: &[u8; 44]) -> bool
    ensures { result ≡ true → word.now ≡ other.now }
{
    let mut same = true;
    for i in 0..44 {
        same = same & (word[i] == other[i]);
    }
    same
}

// Returns whether a word is the Base64 of these bytes.
fn is_word_of(bytes: &[u8; 33], word: &[u8; 44]) -> bool
    ensures { result ≡ true → decode_of standard word.now ≡ Ok bytes.now }
{
    is_word(&word_of(bytes), word)
}
