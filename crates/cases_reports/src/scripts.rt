//! Node scripts: the steps and the files, or the line that is refused and the cause. `unescaped` gives the bytes of
//! the signs in them.

use cases_files::{cause_word, quoted};
use mate_files::FILE_MAX;
use script_steps::{ScriptFault, Step, node_script};
use std::alloc::{AllocError, Global};
use vm_shape::Description;

pub fn answer(alloc: Global, desc: &Description, case: &str) -> Result<String, AllocError> {
    let mut bytes = Vec::new(alloc);
    for sign in case.as_bytes() {
        bytes.push(unescaped(*sign))?;
    }
    if bytes.len() > FILE_MAX {
        return "too long".to_string(alloc);
    }
    match node_script(alloc, desc, &bytes) {
        Ok(script) => {
            let steps = steps_text(alloc, script.steps())?;
            let files = quoted(alloc, script.files())?;
            format!(in alloc; "ok [{steps}] {files}")
        }
        Err(ScriptFault::BadLine { line, cause }) => {
            format!(in alloc; "{line} {}", cause_word(cause))
        }
        Err(ScriptFault::NoMemory) => "no memory".to_string(alloc),
    }
}

/// The steps with their fields, with commas between them.
fn steps_text(alloc: Global, steps: &[Step]) -> Result<String, AllocError> {
    let mut text = String::new(alloc);
    for (place, step) in steps.iter().enumerate() {
        if place > 0 {
            text.push_str(", ")?;
        }
        text.push_str(&step_text(alloc, step)?)?;
    }
    Ok(text)
}

/// A step by its name, with its fields.
fn step_text(alloc: Global, step: &Step) -> Result<String, AllocError> {
    match step {
        Step::Install {
            handler,
            version,
            program,
        } => {
            format!(in alloc;
                "Install {{ handler: {handler:?}, version: {version}, program: {program} }}"
            )
        }
        Step::Load { program } => format!(in alloc; "Load {{ program: {program} }}"),
        Step::Post { handler, payload } => {
            format!(in alloc; "Post {{ handler: {handler:?}, payload: {payload:?} }}")
        }
        Step::Step { ctx, n } => format!(in alloc; "Step {{ ctx: ContextId({}), n: {n} }}", ctx.0),
        Step::Run => "Run".to_string(alloc),
        Step::Answer { ctx, value } => {
            format!(in alloc; "Answer {{ ctx: ContextId({}), value: {value} }}", ctx.0)
        }
        Step::Show => "Show".to_string(alloc),
        Step::Reset => "Reset".to_string(alloc),
    }
}

/// The byte of a sign of a case.
fn unescaped(sign: u8) -> u8 {
    match sign {
        b'|' => b'\n',
        b'^' => b'\r',
        b'%' => b'\t',
        b'@' => 11,
        b'$' => 1,
        b'&' => 127,
        b'`' => 255,
        _ => sign,
    }
}
