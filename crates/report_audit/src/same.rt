//! Whether values, calls and ends are the same.

ghost use Rattle.std.specs.Prelude.{◌≡◌};
ghost use Rattle.mate_num.specs.Number.{int_same};
ghost use Rattle.audit_rules.specs.Same as told;

use mate_num::{Call, End, FaultKind};

/// Whether two values are the same.
fn same_value(a: &i16, b: &i16) -> bool
    ensures { result ≡ int_same a.now b.now }
{
    *a == *b
}

/// Whether the values are the same, one by one.
pub(crate) fn same_values(a: &[i16], b: &[i16]) -> bool
    ensures { result ≡ told.same_values a.now b.now }
{
    if a.len() != b.len() {
        return false;
    }
    for i in 0..a.len() {
        if !same_value(&a[i], &b[i]) {
            return false;
        }
    }
    true
}

/// Whether function, arguments and answer are the same.
fn same_call(a: &Call, b: &Call) -> bool
    ensures { result ≡ told.same_call a.now b.now }
{
    a.fun.0 == b.fun.0
        && (same_values(a.args.as_slice(), b.args.as_slice()) && same_value(&a.result, &b.result))
}

/// Whether the calls are the same, one by one.
pub(crate) fn same_calls(a: &[Call], b: &[Call]) -> bool
    ensures { result ≡ told.same_calls a.now b.now }
{
    if a.len() != b.len() {
        return false;
    }
    for i in 0..a.len() {
        if !same_call(&a[i], &b[i]) {
            return false;
        }
    }
    true
}

/// Faults by number.
fn fault_number(kind: FaultKind) -> u8
    ensures { result ≡ told.fault_number kind }
{
    match kind {
        FaultKind::DivZero => 0,
        FaultKind::Index => 1,
        FaultKind::BufferFull => 2,
        FaultKind::BufferEmpty => 3,
        FaultKind::Overrun => 4,
    }
}

/// Whether two ends are the same.
pub(crate) fn same_end(a: &End, b: &End) -> bool
    ensures { result ≡ told.same_end a.now b.now }
{
    match (a, b) {
        (End::Halt, End::Halt) => true,
        (End::Fault(kind), End::Fault(other)) => fault_number(*kind) == fault_number(*other),
        (
            End::Wants { fun, args },
            End::Wants {
                fun: other,
                args: others,
            },
        ) => { fun.0 == other.0 && same_values(args.as_slice(), others.as_slice()) }
        _ => false,
    }
}
