//! Windows.

ghost use Rattle.std.specs.Prelude.{ℕ, ◌*◌, ◌<◌, ◌^◌};

/// How the bits of an input are cut into windows.
pub trait Window {
    ghost WINDOW_SIZE: { ℕ };

    /// The bits of a window, one at least.
    const WINDOW_SIZE: usize;

    ghost NUM_WINDOWS: { ℕ };

    /// The windows. Three times all their bits fit a `usize`.
    const NUM_WINDOWS: usize;

    ghost some: { 0 < WINDOW_SIZE };

    ghost fits: { 3 * (WINDOW_SIZE * NUM_WINDOWS) < 2 ^ 64 };
}

/// 64 windows of 4 bits: inputs of up to 32 bytes.
pub struct Windows4x64;

impl Window for Windows4x64 {
    ghost use Rattle.std.proofs.Common.{lit<};

    ghost WINDOW_SIZE = { 4 };

    const WINDOW_SIZE: usize = 4;

    ghost NUM_WINDOWS = { 64 };

    const NUM_WINDOWS: usize = 64;

    ghost some = { lit< tt };

    ghost fits = { lit< tt };
}

/// 256 windows of 4 bits: inputs of up to 128 bytes, as two canonical points of Jubjub have.
pub struct Windows4x256;

impl Window for Windows4x256 {
    ghost use Rattle.std.proofs.Common.{lit<};

    ghost WINDOW_SIZE = { 4 };

    const WINDOW_SIZE: usize = 4;

    ghost NUM_WINDOWS = { 256 };

    const NUM_WINDOWS: usize = 256;

    ghost some = { lit< tt };

    ghost fits = { lit< tt };
}

/// 9 windows of 63: for Bowe-Hopwood hashes over Jubjub, whose order is fitting for 63 chunks.
pub struct Windows63x9;

impl Window for Windows63x9 {
    ghost use Rattle.std.proofs.Common.{lit<};

    ghost WINDOW_SIZE = { 63 };

    const WINDOW_SIZE: usize = 63;

    ghost NUM_WINDOWS = { 9 };

    const NUM_WINDOWS: usize = 9;

    ghost some = { lit< tt };

    ghost fits = { lit< tt };
}
