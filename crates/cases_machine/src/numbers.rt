//! The machine's arithmetic: `LEFT OPERATOR RIGHT`, or `OPERATOR VALUE`.

use mate_num::Num16;
use std::alloc::{AllocError, Global};

pub fn answer(alloc: Global, case: &str) -> Result<String, AllocError> {
    match result_of(case) {
        Some(Num16(result)) => result.to_string(alloc),
        None => "none".to_string(alloc),
    }
}

fn result_of(case: &str) -> Option<Num16> {
    let Some((first, rest)) = case.split_once(' ') else {
        return None;
    };
    let Some((operator, right)) = rest.split_once(' ') else {
        return of_one(first, number(rest));
    };
    match (number(first), number(right)) {
        (Some(a), Some(b)) => of_two(a, operator, b),
        _ => None,
    }
}

fn number(word: &str) -> Option<Num16> {
    match word.parse::<i16>() {
        Ok(value) => Some(Num16(value)),
        Err(_) => None,
    }
}

fn of_one(operator: &str, a: Option<Num16>) -> Option<Num16> {
    match (operator, a) {
        ("neg", Some(a)) => Some(a.neg()),
        ("not", Some(a)) => Some(a.not()),
        _ => None,
    }
}

fn of_two(a: Num16, operator: &str, b: Num16) -> Option<Num16> {
    match operator {
        "+" => Some(a.add(b)),
        "-" => Some(a.sub(b)),
        "*" => Some(a.mul(b)),
        "/" => a.div(b),
        "%" => a.rem(b),
        "==" => Some(a.eq(b)),
        "!=" => Some(a.ne(b)),
        "<" => Some(a.lt(b)),
        ">" => Some(a.gt(b)),
        "<=" => Some(a.le(b)),
        ">=" => Some(a.ge(b)),
        "and" => Some(a.and(b)),
        "or" => Some(a.or(b)),
        _ => None,
    }
}
