//! Which keys may be where in a description.

ghost use Rattle.std.specs.Prelude.{◌≡◌};
ghost use Rattle.toml.specs.View.{view, array_view, table_view};
ghost use Rattle.vm_desc.specs.Places.{has_known, items_have_known, members_have_known};

use toml::value::Array;
use toml::{Table, Value};

/// A place in a description's text.
#[derive(Clone, Copy)]
pub enum Place {
    Document,
    Handler,
    Function,
    Trickle,
    Radio,
    /// Under a key whose value holds no keys.
    Value,
}

impl Place {
    ghost use Rattle.vm_shape.specs.Names.{stands_in};
    ghost use Rattle.vm_desc.specs.Places.{known_words, table_below, known_below};

    /// The place of what is under `word`; None if no description has that key here.
    pub fn below(self, word: &str) -> Option<Place>
        ensures { result ≡ known_below self word.now }
    {
        match self.table(word) {
            Some(table) => Some(table),
            None if self.has_value(word) => Some(Place::Value),
            None => None,
        }
    }

    // The place of a table that is under `word`.
    fn table(self, word: &str) -> Option<Place>
        ensures { result ≡ table_below self word.now }
    {
        let Place::Document = self else {
            return None;
        };
        match word {
            "handler" => Some(Place::Handler),
            "function" => Some(Place::Function),
            "trickle" => Some(Place::Trickle),
            "radio" => Some(Place::Radio),
            _ => None,
        }
    }

    fn has_value(self, word: &str) -> bool
        ensures { result ≡ stands_in (known_words self) word.now }
    {
        match self {
            Place::Document => matches!(
                word,
                "vm" | "shared" | "buffers" | "devices" | "turns" | "quantum"
            ),
            Place::Handler => matches!(word, "name" | "kind" | "contexts" | "period"),
            Place::Function => matches!(word, "name" | "kind" | "args" | "device" | "latency"),
            Place::Trickle => matches!(word, "imin" | "doublings" | "k"),
            Place::Radio => matches!(word, "delay" | "gap"),
            Place::Value => false,
        }
    }
}

/// Whether each key of `table`, at any depth and through lists, is one that a description has.
#[cycle(known)]
pub fn members_are_known(place: Place, table: &Table) -> bool
    ensures { result ≡ members_have_known place (table_view table.now) }
{
    'members: for (key, value) in table.iter() {
        match place.below(key.as_str()) {
            Some(below) if is_known(below, value) => {}
            _ => return false,
        }
    }
    true
}

#[cycle(known)]
fn is_known(place: Place, value: &Value) -> bool
    ensures { result ≡ has_known place (view value.now) }
{
    match value {
        Value::Array(array) => items_are_known(place, array),
        Value::Table(table) => members_are_known(place, table),
        _ => true,
    }
}

#[cycle(known)]
fn items_are_known(place: Place, array: &Array) -> bool
    ensures { result ≡ items_have_known place (array_view array.now) }
{
    'items: for item in array {
        if !is_known(place, item) {
            return false;
        }
    }
    true
}
