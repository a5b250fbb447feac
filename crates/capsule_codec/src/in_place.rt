//! From a capsule to one in place, and back.

ghost use Rattle.std.specs.Prelude.{◌≡◌};
ghost use Rattle.capsule_codec.specs.Image.{capsule_parts, parts_in_place};

use crate::capsule::{Capsule, CapsuleRef};
use mate_num::Code;

impl Capsule {
    /// The same capsule, in place.
    pub fn in_place(&self) -> CapsuleRef<'_>
        ensures { parts_in_place result ≡ capsule_parts self.now }
    {
        CapsuleRef {
            vm_id: self.vm_id,
            handler: self.handler,
            version: self.version,
            code: self.code.as_slice(),
        }
    }
}

impl CapsuleRef<'_> {
    /// The capsule, with a copy of its code. It takes no memory.
    pub fn copy(&self) -> Capsule
        ensures { capsule_parts result ≡ parts_in_place self.now }
    {
        let Ok(code) = Code::try_from(self.code) else {
            unreachable!()
        };
        Capsule {
            vm_id: self.vm_id,
            handler: self.handler,
            version: self.version,
            code,
        }
    }
}
