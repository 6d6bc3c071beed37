// The values of a TOML document.
ghost use Rattle.std.specs.List.{list_any};
ghost use Rattle.std.specs.BTreeMap.{keys};
ghost use Rattle.std.specs.Prelude.{MatchOption, string_bytes, ◌≡◌, List, ℕ, map, option_map, IfOk, IfErr, Some, None, ◌∷◌, []};
ghost use Rattle.toml.specs.Data.{get, string, as_array};
ghost use Rattle.toml.specs.View.{view, items_view};
ghost use Rattle.std.specs.Str.{bytes_eq};
ghost use Rattle.xa_config.specs.Document.{Says, NamesFirstFault, first};
ghost use Rattle.xa_config.specs.Keys.{unknown_in};
ghost use Rattle.xa_config.specs.Kinds.{text, text_in, is_table};

use crate::refusal::{ConfigRefused, WRONG_TYPE};
use std::alloc::Global;
use toml::Table;
pub use toml::Value;
use xa_types::Octets;

/// The document that the octets are.
pub fn parse(alloc: Global, octets: &[u8]) -> Result<Value, ConfigRefused>
    ensures found { IfOk result (λ document. Says octets.now (Some (view document))) }
    ensures refused { IfErr result (NamesFirstFault octets.now) }
{
    match toml::table_from_slice(alloc, octets) {
        Ok(table) => Ok(Value::Table(table)),
        Err(error) => {
            if error.is_memory() {
                return Err(ConfigRefused::NoMemory);
            }
            Err(ConfigRefused::Fault {
                number: 1,
                key: Octets::from_vec(Vec::new(alloc)),
            })
        }
    }
}

/// The value at a key of a table.
pub fn member<'a>(value: &'a Value, key: &str) -> Option<&'a Value>
    ensures { option_map (λ found. view found.now) result ≡ get key.now (view value.now) }
{
    value.get(key)
}

/// The octets of a text.
pub fn text(value: &Value) -> Result<&[u8], u8>
    ensures ok { IfOk result (λ octets. view value.now ≡ string octets.now) }
    ensures refused { IfErr result (λ number. (asked : List ℕ → List ℕ) → text asked (view value.now) ≡ number ∷ []) }
{
    match value.as_str() {
        Some(text) => Ok(text.as_bytes()),
        None => Err(WRONG_TYPE),
    }
}

/// The elements of an array.
pub fn items(value: &Value) -> Option<&[Value]>
    ensures { option_map (λ values. items_view values.now) result ≡ as_array (view value.now) }
{
    match value.as_array() {
        Some(values) => Some(values.as_slice()),
        None => None,
    }
}

/// Whether the value is a table.
pub fn is_table(value: &Value) -> bool
    ensures { result ≡ is_table (view value.now) }
{
    value.is_table()
}

fn is_known(known: &[&str], key: &String) -> bool
    ensures { result ≡ list_any (λ k. bytes_eq (string_bytes key.now) k.now) known.now }
{
    for k in known {
        if key.as_str() == *k {
            return true;
        }
    }
    false
}

/// The first key of a table that isn't among these.
pub fn unknown_key<'a>(value: &'a Value, known: &[&str]) -> Option<&'a str>
    ensures { MatchOption result (unknown_in (map (λ k. k.now) known.now) (view value.now) ≡ [])
        (λ key. first (unknown_in (map (λ k. k.now) known.now) (view value.now)) ≡ Some key.now) }
{
    let Some(table) = value.as_table() else {
        return None;
    };
    for key in table.keys() {
        if !is_known(known, key) {
            return Some(key.as_str());
        }
    }
    None
}

/// The octets of a text; of another value none.
pub fn octets_of(value: &Value) -> &[u8]
    ensures { result.now ≡ text_in (view value.now) }
{
    match value.as_str() {
        Some(text) => text.as_bytes(),
        None => &[],
    }
}
