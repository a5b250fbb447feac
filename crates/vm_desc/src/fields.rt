//! The values of a description's keys.

ghost use Rattle.std.specs.Prelude.{◌≡◌, ◌≤◌, None, true, length, IfOk, IfSome, IsTrue};
ghost use Rattle.std.specs.List.{list_all};
ghost use Rattle.std.specs.Option.{ForSome};
ghost use Rattle.toml.specs.Data.{get_member, as_array};
ghost use Rattle.toml.specs.View.{view, array_view, table_view};
ghost use Rattle.vm_shape.specs.Names.{is_name};
ghost use Rattle.vm_desc.specs.Fields.{GivesField, field, taken, number, name, all_names, names, list_up_to, tables, tables_in, are_tables, section, member_of, allowed, seen, seen_table};

use arrayvec::ArrayVec;
use mate_num::Name;
use toml::value::Array;
use toml::{Table, Value};
use vm_shape::{DescFault, Key, name_of};

/// The value at `word`, if there is one.
pub fn at<'a>(table: &'a Table, word: &str) -> Option<&'a Value>
    ensures { seen result ≡ get_member word.now (table_view table.now) }
{
    table.get(word)
}

/// The value at `word` of a table that may be absent.
pub fn within<'a>(table: Option<&'a Table>, word: &str) -> Option<&'a Value>
    ensures { seen result ≡ member_of word.now (seen_table table.entry) }
{
    match table {
        Some(table) => at(table, word),
        None => None,
    }
}

/// `value`; `BadField` if there is none.
pub fn taken<T>(key: Key, value: Option<T>) -> Result<T, DescFault>
    ensures { result ≡ taken key value }
{
    match value {
        Some(value) => Ok(value),
        None => Err(DescFault::BadField { key }),
    }
}

/// The whole number at a key, from `low` to `high`; if it is absent, `default`. Any other value is a `BadField`.
pub fn number(
    key: Key,
    low: u32,
    high: u32,
    default: Option<u32>,
    value: Option<&Value>,
) -> Result<u32, DescFault>
    requires { ForSome default (λ n. (low ≤ n) × (n ≤ high)) }
    ensures value { result ≡ field key (number low high) default (seen value.entry) }
    ensures low { IfOk result (λ n. low ≤ n) }
    ensures high { IfOk result (λ n. n ≤ high) }
{
    match value {
        Some(value) => taken(key, whole_from(low, high, value)),
        None => taken(key, default),
    }
}

fn whole_from(low: u32, high: u32, value: &Value) -> Option<u32>
    ensures { result ≡ number low high (view value.now) }
{
    let Value::Integer(whole) = value else {
        return None;
    };
    let Ok(whole) = u32::try_from(*whole) else {
        return None;
    };
    if low <= whole && whole <= high {
        Some(whole)
    } else {
        None
    }
}

/// The name at a key; `BadField` if it is absent or no name.
pub fn name(key: Key, value: Option<&Value>) -> Result<Name, DescFault>
    ensures value { result ≡ field key name None (seen value.entry) }
    ensures form { IfOk result (λ name. IsTrue (is_name name)) }
{
    match value {
        Some(value) => taken(key, name_in(value)),
        None => Err(DescFault::BadField { key }),
    }
}

fn name_in(value: &Value) -> Option<Name>
    ensures value { result ≡ name (view value.now) }
    ensures form { IfSome result (λ name. IsTrue (is_name name)) }
{
    match value {
        Value::String(text) => name_of(text.as_str()),
        _ => None,
    }
}

/// The list at a key, of at most `N` names; if it is absent, the empty one.
pub fn names<const N: usize>(
    key: Key,
    value: Option<&Value>,
) -> Result<ArrayVec<Name, N>, DescFault>
    ensures value { GivesField (λ v. v.items) result (names key N (seen value.entry)) }
    ensures few { IfOk result (λ v. length v.items ≤ N) }
    ensures form { IfOk result (λ v. IsTrue (list_all is_name v.items)) }
{
    match value {
        Some(value) => names_in(key, list_at(key, N, value)?),
        None => Ok(ArrayVec::new()),
    }
}

fn names_in<const N: usize>(key: Key, items: &Array) -> Result<ArrayVec<Name, N>, DescFault>
    requires { length items.now.items ≤ N }
    ensures value { GivesField (λ v. v.items) result (taken key (all_names (array_view items.now))) }
    ensures few { IfOk result (λ v. length v.items ≤ N) }
    ensures form { IfOk result (λ v. IsTrue (list_all is_name v.items)) }
{
    let mut names: ArrayVec<Name, N> = ArrayVec::new();
    for item in items {
        let Some(name) = name_in(item) else {
            return Err(DescFault::BadField { key });
        };
        names.push(name);
    }
    Ok(names)
}

/// The list in `value`, of at most `most` items.
pub fn list_at<'a>(key: Key, most: usize, value: &'a Value) -> Result<&'a Array, DescFault>
    ensures value { GivesField (λ v. array_view v.now) result (list_up_to key most (as_array (view value.now))) }
    ensures few { IfOk result (λ v. length v.now.items ≤ most) }
{
    let Value::Array(items) = value else {
        return Err(DescFault::BadField { key });
    };
    if items.len() > most {
        return Err(DescFault::OverLimit { key });
    }
    Ok(items)
}

/// The list in `value`, of at most `most` items, all of them tables.
pub fn tables<'a>(key: Key, most: usize, value: &'a Value) -> Result<&'a Array, DescFault>
    ensures value { GivesField (λ v. tables_in (array_view v.now)) result (tables key most (view value.now)) }
    ensures tables { IfOk result (λ v. are_tables (array_view v.now) ≡ true) }
    ensures few { IfOk result (λ v. length v.now.items ≤ most) }
    ensures count { IfOk result (λ v. length (tables_in (array_view v.now)) ≡ length v.now.items) }
{
    let items = list_at(key, most, value)?;
    allowed(key, are_tables(items))?;
    Ok(items)
}

fn are_tables(items: &Array) -> bool
    ensures { result ≡ are_tables (array_view items.now) }
{
    for item in items {
        if !item.is_table() {
            return false;
        }
    }
    true
}

/// The table at a key, if the key is there.
pub fn section<'a>(key: Key, value: Option<&'a Value>) -> Result<Option<&'a Table>, DescFault>
    ensures { GivesField seen_table result (section key (seen value.entry)) }
{
    match value {
        Some(Value::Table(table)) => Ok(Some(table)),
        Some(_) => Err(DescFault::BadField { key }),
        None => Ok(None),
    }
}

/// `BadField` if what the value of `key` must meet doesn't hold.
pub fn allowed(key: Key, holds: bool) -> Result<(), DescFault>
    ensures { result ≡ allowed key holds }
{
    if holds {
        Ok(())
    } else {
        Err(DescFault::BadField { key })
    }
}
