//! Positive numbers with an exponent, and spans of such numbers whose operations round outward: a result
//! holds the exact results for all members of its arguments, and each end is at most one part in 2^61
//! off.
#![tactic(auto)]

mod billionths;
mod ends;
mod laws;
mod numbers;
mod rounding;
mod spans;

pub use laws::operations_add_up;
pub use numbers::{Scaled, ScaledSpan};
