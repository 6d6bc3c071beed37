// The kinds of data that a service accepts.
ghost use Rattle.std.specs.Prelude.{◌≡◌, ◌++◌, ◌^◌, ◌<◌, ◌≤◌, [], Some, MatchResult, length, map, codes};
ghost use Rattle.std.specs.List.{list_any};
ghost use Rattle.std.specs.Str.{bytes_eq};
ghost use Rattle.toml.specs.Data.{get};
ghost use Rattle.toml.specs.View.{view};
ghost use Rattle.xa_config.specs.Document.{Reads, TellsFirst, first};
ghost use Rattle.xa_config.specs.Faults.{dotted};
ghost use Rattle.xa_config.specs.Keys.{elements, optional_array};
ghost use Rattle.xa_config.specs.Kinds.{is_kind, kind, text_in};
ghost use Rattle.xa_config.specs.Meaning.{bits_of, accepts_of};

use crate::document::{Value, member, octets_of, text};
use crate::entry::Entry;
use crate::refusal::{ConfigRefused, DOUBLED, NO_SUCH};
use xa_types::{Accepts, Name};

fn is_text_of_shape(octets: &[u8], shape: Name) -> bool
    ensures { result ≡ bytes_eq octets.now (codes "c:" ++ shape) }
{
    match octets {
        [b'c', b':', name @ ..] => name == shape.octets(),
        _ => false,
    }
}

fn is_text_of_any(octets: &[u8], shapes: &[Name]) -> bool
    ensures { result ≡ list_any (λ shape. bytes_eq octets.now (codes "c:" ++ shape)) shapes.now }
{
    for shape in shapes {
        if is_text_of_shape(octets, *shape) {
            return true;
        }
    }
    false
}

fn is_kind(octets: &[u8], shapes: &[Name]) -> bool
    ensures { result ≡ is_kind shapes.now octets.now }
{
    octets == b"octet".as_slice() || is_text_of_any(octets, shapes)
}

fn is_listed(values: &[Value], octets: &[u8]) -> bool
    ensures { result ≡ list_any (λ value. bytes_eq octets.now (text_in (view value))) values.now }
{
    for value in values {
        if octets == octets_of(value) {
            return true;
        }
    }
    false
}

fn is_shape_listed(values: &[Value], shape: Name) -> bool
    ensures { result ≡ list_any (λ value. bytes_eq (text_in (view value)) (codes "c:" ++ shape)) values.now }
{
    for value in values {
        if is_text_of_shape(octets_of(value), shape) {
            return true;
        }
    }
    false
}

// An element of `accepts`: a kind, which is none of the earlier elements.
#[tactic(auto, unfolding(crate::specs::Kinds::kind))]
fn check_kind(value: &Value, shapes: &[Name], earlier: &[Value]) -> Result<(), u8>
    ensures { MatchResult result
        (λ _. kind shapes.now (map view earlier.now) (view value.now) ≡ [])
        (λ number. first (kind shapes.now (map view earlier.now) (view value.now)) ≡ Some number) }
{
    let octets = text(value)?;
    if is_listed(earlier, octets) {
        return Err(DOUBLED);
    }
    if !is_kind(octets, shapes) {
        return Err(NO_SUCH);
    }
    Ok(())
}

// One bit for each shape.
#[tactic(auto, unfolding(crate::specs::Meaning::bits_of))]
fn bits_of(values: &[Value], shapes: &[Name]) -> u64
    requires { length shapes.now ≤ 64 }
    ensures bits { result ≡ bits_of (map text_in (map view values.now)) shapes.now }
    ensures few { result < 2 ^ length shapes.now }
{
    match shapes {
        [] => 0,
        [shape, rest @ ..] => u64::from(is_shape_listed(values, *shape))
            + 2 * bits_of(values, rest),
    }
}

impl Entry<'_> {
    fn check_kinds(&self, key: &str, values: &[Value], shapes: &[Name]) -> Result<(), ConfigRefused>
        ensures { MatchResult result
            (λ _. elements (dotted self.now.place.now key.now) (kind shapes.now) [] (map view values.now) ≡ [])
            (TellsFirst (elements (dotted self.now.place.now key.now) (kind shapes.now) [] (map view values.now))) }
    {
        for (place, value) in values.iter().enumerate() {
            match check_kind(value, shapes, &values[..place]) {
                Ok(()) => {}
                Err(number) => return Err(self.refuse_element(number, key, place)),
            }
        }
        Ok(())
    }

    /// The kinds that are accepted, where these are the shapes.
    #[tactic(auto, unfolding(crate::specs::Keys::optional_array, crate::specs::Meaning::accepts_of))]
    pub fn accepts(&self, key: &str, shapes: &[Name]) -> Result<Accepts, ConfigRefused>
        requires { length shapes.now ≤ 64 }
        ensures { Reads (optional_array self.now.place.now key.now 0 65 (kind shapes.now) (view self.now.table.now))
            (accepts_of shapes.now (get key.now (view self.now.table.now))) result }
    {
        let Some(value) = member(self.table, key) else {
            return Ok(Accepts::all());
        };
        let values = self.array(key, value, 0, 65)?;
        self.check_kinds(key, values, shapes)?;
        Ok(Accepts {
            octet: is_listed(values, b"octet"),
            structs: bits_of(values, shapes),
        })
    }
}
