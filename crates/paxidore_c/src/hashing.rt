//! The hashings of the library by number.

// Calls a function in the hashing that a number names; `Invalid` where it names none.
macro_rules! in_hashing {
    ($hashing:expr, $call:ident($($argument:expr),+)) => {
        match $hashing {
            1 => $call::<ark_crh::PlainSha256>($($argument),+),
            2 => $call::<ark_trees::LogHasher>($($argument),+),
            _ => paxidore_calls::refused::Refused::Invalid.code(),
        }
    };
}

pub(crate) use in_hashing;
