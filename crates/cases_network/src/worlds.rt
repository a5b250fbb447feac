//! World scripts: the parts of the world, or the line that is refused.

use crate::parts::parts_of;
use cases_files::cause_word;
use mate_files::FILE_MAX;
use script_reader::world_script;
use script_steps::{ScriptFault, World};
use std::alloc::{AllocError, Global};
use vm_shape::Description;

/// The case is the script, with `|` for the end of a line, `%` for a tab, `^` for a carriage return, `~` for a vertical
/// tab, `&` for the code 127, and a backquote for the code 255.
pub fn answer(alloc: Global, desc: &Description, case: &str) -> Result<String, AllocError> {
    let bytes = script_of(alloc, case)?;
    if bytes.len() > FILE_MAX {
        return "too long".to_string(alloc);
    }
    match world_script(alloc, desc, bytes.as_slice()) {
        Ok(world) => whole(alloc, &world),
        Err(ScriptFault::BadLine { line, cause }) => {
            format!(in alloc; "bad {line} {}", cause_word(cause))
        }
        Err(ScriptFault::NoMemory) => "no memory".to_string(alloc),
    }
}

/// The parts of a world, and the names of its files.
fn whole(alloc: Global, world: &World) -> Result<String, AllocError> {
    let mut text = parts_of(alloc, world)?;
    for file in world.files.as_slice() {
        text.push_str(" ")?;
        text.push_str(file.as_str())?;
    }
    Ok(text)
}

fn script_of(alloc: Global, case: &str) -> Result<Vec<u8>, AllocError> {
    let mut bytes = Vec::new(alloc);
    for byte in case.as_bytes() {
        bytes.push(match *byte {
            b'|' => b'\n',
            b'%' => b'\t',
            b'^' => b'\r',
            b'~' => 11,
            b'&' => 127,
            b'`' => 255,
            other => other,
        })?;
    }
    Ok(bytes)
}
