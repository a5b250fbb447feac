//! Lists of texts: how many words there are, the second and the ninth, whether the first and the second are equal,
//! the whole list, and its first word alone.

use cases_files::quoted;
use mate_num::{Items, NoMemory, Text, Texts};
use std::alloc::{AllocError, Global};

pub fn answer(alloc: Global, case: &str) -> Result<String, AllocError> {
    match list_of(alloc, case) {
        Ok(texts) => parts(alloc, texts),
        Err(fault) => fault.to_string(alloc),
    }
}

fn list_of(alloc: Global, case: &str) -> Result<Texts, NoMemory> {
    let mut texts = Items::new(alloc);
    for word in case.split(' ') {
        texts.push(Text::of(alloc, word)?)?;
    }
    Ok(texts)
}

fn parts(alloc: Global, mut texts: Texts) -> Result<String, AllocError> {
    let whole = whole(alloc, &texts)?;
    texts.cut(1);
    format!(in alloc; "{whole} {}{}", text_at(&texts, 0), text_at(&texts, 1))
}

fn whole(alloc: Global, texts: &Texts) -> Result<String, AllocError> {
    let second = text_at(texts, 1);
    let ninth = text_at(texts, 8);
    let equal = texts.len() > 1 && text_at(texts, 0) == second;
    let (len, empty) = (texts.len(), texts.is_empty());
    let whole = quoted(alloc, texts.as_slice())?;
    format!(in alloc; "{len} {empty} {second} {ninth} {equal} {whole}")
}

fn text_at(texts: &Texts, index: usize) -> &str {
    match texts.get(index) {
        Some(text) => text.as_str(),
        None => "-",
    }
}
