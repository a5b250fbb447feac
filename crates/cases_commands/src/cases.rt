//! A case of a command.

use crate::machines::Machines;
use crate::settings::{Ended, Setting, run, unread};
use crate::texts::bytes_of;
use std::alloc::{AllocError, Global};

/// The status of a case, and what was written to standard output and standard error; a case that can't be read has an
/// answer of its own.
pub fn answer(alloc: Global, machines: &Machines, case: &str) -> Result<String, AllocError> {
    let parts: Vec<&str> = case.split(" | ").collect(alloc)?;
    let [words, parts @ ..] = parts.as_slice() else {
        return "no words\n".to_string(alloc);
    };
    match parts {
        [parts @ .., "each out"] => each_write(alloc, machines, words, parts),
        parts => {
            let outcome = outcome(alloc, machines, words, parts, 0)?;
            format!(in alloc; "{}\n{}{}", outcome.status, outcome.written, outcome.told)
        }
    }
}

/// What happens if each write to standard output fails in turn.
fn each_write(
    alloc: Global,
    machines: &Machines,
    words: &str,
    parts: &[&str],
) -> Result<String, AllocError> {
    let whole = outcome(alloc, machines, words, parts, 0)?;
    for failing in 1..1000 {
        let cut = outcome(alloc, machines, words, parts, failing)?;
        if cut.status == whole.status {
            return "9 and a prefix each time\n".to_string(alloc);
        }
        let is_prefix = whole.written.as_str().starts_with(cut.written.as_str());
        if cut.status != 9 || cut.told.as_str() != "sink fault\n" || !is_prefix {
            break;
        }
    }
    "another answer\n".to_string(alloc)
}

/// Runs the words; write number `failing` to standard output fails, or none if that is 0.
fn outcome(
    alloc: Global,
    machines: &Machines,
    words: &str,
    parts: &[&str],
    failing: u64,
) -> Result<Ended, AllocError> {
    let mut setting = Setting::new(alloc);
    let mut right = add(&mut setting, "v.toml", machines.own.as_bytes())
        && add(&mut setting, "m.toml", machines.mixed.as_bytes())
        && setting.out.fail_at(failing).is_ok();
    for part in parts {
        right = set(alloc, &mut setting, part)? && right;
    }
    if !right {
        return unread(alloc);
    }
    run(alloc, &mut setting, words)
}

/// Takes a part of a case: a file, as a text or as bytes, the expansion of one, or a call that is to fail. False if
/// it is none of these.
fn set(alloc: Global, setting: &mut Setting, part: &str) -> Result<bool, AllocError> {
    if let Some(call) = part.strip_prefix("fail ") {
        return Ok(fail(setting, call));
    }
    if let Some(file) = part.strip_prefix("expand ") {
        return add_expanded(alloc, setting, file);
    }
    if let Some(file) = part.strip_prefix("bytes ") {
        return add_bytes(alloc, setting, file);
    }
    add_file(alloc, setting, part)
}

/// Adds a file that is written `NAME=TEXT`.
fn add_file(alloc: Global, setting: &mut Setting, file: &str) -> Result<bool, AllocError> {
    let Some((name, text)) = file.split_once('=') else {
        return Ok(false);
    };
    let bytes = bytes_of(alloc, text)?;
    Ok(add(setting, name, bytes.as_slice()))
}

/// Adds what `expand` writes for such a file under its name.
fn add_expanded(alloc: Global, setting: &mut Setting, file: &str) -> Result<bool, AllocError> {
    let Some((name, _)) = file.split_once('=') else {
        return Ok(false);
    };
    let mut apart = Setting::new(alloc);
    let right = add_file(alloc, &mut apart, file)?;
    let words = format!(in alloc; "expand {name}")?;
    let ended = run(alloc, &mut apart, words.as_str())?;
    Ok(right && ended.status == 0 && add(setting, name, ended.written.as_bytes()))
}

/// Adds a file that is written `NAME=HEX`, its bytes in hexadecimal digits.
fn add_bytes(alloc: Global, setting: &mut Setting, file: &str) -> Result<bool, AllocError> {
    let Some((name, digits)) = file.split_once('=') else {
        return Ok(false);
    };
    let Some(bytes) = cases_files::bytes_of(alloc, digits)? else {
        return Ok(false);
    };
    Ok(add(setting, name, bytes.as_slice()))
}

fn add(setting: &mut Setting, name: &str, bytes: &[u8]) -> bool {
    setting.files.add(name, bytes).is_ok()
}

/// Makes a call fail: `out 2` is the second write to standard output.
fn fail(setting: &mut Setting, call: &str) -> bool {
    let Some((of, number)) = call.split_once(' ') else {
        return false;
    };
    let Ok(number) = number.parse::<u64>() else {
        return false;
    };
    match of {
        "out" => setting.out.fail_at(number).is_ok(),
        "err" => setting.err.fail_at(number).is_ok(),
        "read" => setting.files.fail_at(number).is_ok(),
        _ => false,
    }
}
