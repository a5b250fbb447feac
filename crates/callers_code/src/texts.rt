//! Texts that exclude wrong bodies of `read`.

ghost use Rattle.std.specs.Prelude.{◌≡◌, MatchResult};
ghost use Rattle.vm_shape.specs.declared.fault.DescFault.TheVariants.{NoMemory};

use std::alloc::Global;
use vm_desc::read;
use vm_shape::{DescFault, Description};

pub fn the_greatest_quantum_is_read(alloc: Global) -> Result<Description, DescFault>
    ensures { MatchResult result (λ desc. desc.quantum ≡ 10000) (λ fault. fault ≡ NoMemory) }
{
    read(
        alloc,
        b"vm = 1\nquantum = 10000\n[[handler]]\nname = \"main\"\n",
    )
}
