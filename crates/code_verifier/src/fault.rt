//! The refusal of bytes that can't be decoded.

ghost use Rattle.std.specs.Prelude.{◌≡◌};
ghost use Rattle.code_verifier.specs.Faults.{decode_fault_of};

use mate_code::{DecodeFault, VerifyFault};

// The refusal of bytes that can't be decoded.
pub(crate) fn of_decode(fault: DecodeFault) -> VerifyFault
    ensures { result ≡ decode_fault_of fault }
{
    match fault {
        DecodeFault::BadOpcode { place } => VerifyFault::Decode { place },
        DecodeFault::CutShort { place } => VerifyFault::Decode { place },
    }
}
