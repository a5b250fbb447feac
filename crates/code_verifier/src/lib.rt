//! The verifier of byte code, and code that was verified.
#![tactic(auto)]

mod fault;
mod marks;
mod pass;
pub mod placed;
mod slots;
pub mod verification;
pub mod verified;
pub mod verifier;

pub use mate_code::{VerifyFault, args};
pub use placed::Placed;
pub use verification::verify;
pub use verified::Verified;
pub use verifier::Verifier;
