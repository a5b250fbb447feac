//! The programs of a run.

use mate_num::{HandlerId, Image, Items};
use ts_checked::Checked;

/// A program: the image of a capsule for the handler, with its source if the program was compiled, and without
/// one if the image was loaded.
pub struct Program {
    pub handler: HandlerId,
    /// 1 to 4294967295.
    pub version: u32,
    pub source: Option<Checked>,
    pub image: Image,
}

/// What is to be dropped of it is dropped in one function, and so by one call wherever a program ends.
impl Drop for Program {
    fn drop(self) {
        let Program {
            handler: _,
            version: _,
            source: _source,
            image: _image,
        } = self;
    }
}

/// Programs, in the order of the lines that name their files.
pub type Programs = Items<Program>;
