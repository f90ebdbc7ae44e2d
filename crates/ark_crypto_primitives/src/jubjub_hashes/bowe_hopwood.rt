//! Bowe-Hopwood hashes over Jubjub: the first coordinate of sums of elements, each as often as a signed digit says.

mod one;
mod pair;
mod parameters;

pub use one::BoweHopwoodCRH;
pub use pair::BoweHopwoodTwoToOneCRH;
pub use parameters::BoweHopwoodParameters;
