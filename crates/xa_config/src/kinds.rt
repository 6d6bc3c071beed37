// The kinds of value that a key may have. An `Err` is the number of the value's first fault.
ghost use Rattle.std.specs.Prelude.{◌≡◌, ◌≤◌, ℕ, List, [], Some, IfOk, IfErr, map};
ghost use Rattle.std.specs.List.{list_any};
ghost use Rattle.std.specs.Str.{bytes_eq};
ghost use Rattle.toml.specs.Data.{Data};
ghost use Rattle.toml.specs.View.{view};
ghost use Rattle.xa_types.specs.Configured.{is_among};
ghost use Rattle.xa_types.specs.Name.{is_name, is_identifier};
ghost use Rattle.xa_config.specs.Document.{Judges, first};
ghost use Rattle.xa_config.specs.Field.{field_of};
ghost use Rattle.xa_config.specs.Kinds.{number, truth, program, name, new_name, name_among, field, queue, text_in, number_in, truth_in};

use crate::document::{Value, text};
use crate::field::{field_of, identifier};
use crate::refusal::{BAD_NAME, DOUBLED, FIELD_TYPE, NO_SUCH, OUT_OF_RANGE, WRONG_TYPE};
use xa_types::{FieldSetup, Name};

/// What the elements of an array are read as, each beside those before it.
pub trait Elements {
    type Element: Drop;

    /// The faults of an element, by their numbers, where these stand before it.
    ghost faults: { Self → List Data → Data → List ℕ };

    /// What an element without a fault says.
    ghost says: { Self → Data → Self.Element };

    /// What an element says, where these were read before it.
    fn judge(&self, value: &Value, earlier: &[Self::Element]) -> Result<Self::Element, u8>
        ensures { (before : List Data) → earlier.now ≡ map (says self.now) before
            → Judges (faults self.now before (view value.now)) (says self.now (view value.now)) result };
}

/// A whole number from `least` to `most`.
#[tactic(auto, unfolding(crate::specs::Kinds::number))]
pub fn number(value: &Value, least: u32, most: u32) -> Result<u32, u8>
    ensures judged { Judges (number least most (view value.now)) (number_in (view value.now)) result }
    ensures within { IfOk result (λ found. found ≤ most) }
{
    let Some(found) = value.as_integer() else {
        return Err(WRONG_TYPE);
    };
    if found < i64::from(least) || found > i64::from(most) {
        return Err(OUT_OF_RANGE);
    }
    Ok(found as u32)
}

/// A truth value.
#[tactic(auto, unfolding(crate::specs::Kinds::truth))]
pub fn truth(value: &Value) -> Result<bool, u8>
    ensures { Judges (truth (view value.now)) (truth_in (view value.now)) result }
{
    match value.as_bool() {
        Some(found) => Ok(found),
        None => Err(WRONG_TYPE),
    }
}

/// The octets of a program, which are 1 to 255.
#[tactic(auto, unfolding(crate::specs::Kinds::program))]
pub fn program(value: &Value) -> Result<&[u8], u8>
    ensures refused { IfErr result (λ number. first (program (view value.now)) ≡ Some number) }
    ensures found { IfOk result (λ octets. (program (view value.now) ≡ []) × (octets.now ≡ text_in (view value.now))) }
{
    let octets = text(value)?;
    if octets.is_empty() || octets.len() > 255 {
        return Err(OUT_OF_RANGE);
    }
    Ok(octets)
}

/// A name.
#[tactic(auto, unfolding(crate::specs::Kinds::name))]
pub fn name(value: &Value) -> Result<Name, u8>
    ensures { Judges (name (view value.now)) (text_in (view value.now)) result }
{
    let octets = text(value)?;
    match Name::read(octets) {
        Ok(name) => Ok(name),
        Err(_) => Err(BAD_NAME),
    }
}

/// Whether the octets are one of these names.
pub fn is_among(names: &[Name], octets: &[u8]) -> bool
    ensures { result ≡ is_among names.now octets.now }
{
    for name in names {
        if octets == name.octets() {
            return true;
        }
    }
    false
}

/// A name that is none of the earlier ones.
#[tactic(auto, unfolding(crate::specs::Kinds::new_name))]
pub fn new_name(value: &Value, earlier: &[Name]) -> Result<Name, u8>
    ensures { Judges (new_name is_name earlier.now (view value.now)) (text_in (view value.now)) result }
{
    let octets = text(value)?;
    let Ok(name) = Name::read(octets) else {
        return Err(BAD_NAME);
    };
    if is_among(earlier, octets) {
        return Err(DOUBLED);
    }
    Ok(name)
}

/// An identifier that is none of the earlier names.
#[tactic(auto, unfolding(crate::specs::Kinds::new_name))]
pub fn new_identifier(value: &Value, earlier: &[Name]) -> Result<Name, u8>
    ensures { Judges (new_name is_identifier earlier.now (view value.now)) (text_in (view value.now)) result }
{
    let octets = text(value)?;
    let Some(name) = identifier(octets) else {
        return Err(BAD_NAME);
    };
    if is_among(earlier, octets) {
        return Err(DOUBLED);
    }
    Ok(name)
}

/// A name that is one of these.
#[tactic(auto, unfolding(crate::specs::Kinds::name_among))]
pub fn name_among(value: &Value, names: &[Name]) -> Result<Name, u8>
    ensures { Judges (name_among names.now (view value.now)) (text_in (view value.now)) result }
{
    let octets = text(value)?;
    let Ok(name) = Name::read(octets) else {
        return Err(BAD_NAME);
    };
    if !is_among(names, octets) {
        return Err(NO_SUCH);
    }
    Ok(name)
}

/// The queues of a service: names among these, of which each stands there once.
#[derive(Drop)]
pub struct QueueNames<'a> {
    pub names: &'a [Name],
}

impl Elements for QueueNames<'_> {
    type Element = Name;

    ghost faults = { λ of. queue of.names.now };

    ghost says = { λ _. text_in };

    #[tactic(auto, unfolding(crate::specs::Kinds::queue))]
    fn judge(&self, value: &Value, earlier: &[Name]) -> Result<Name, u8> {
        let octets = text(value)?;
        let Ok(name) = Name::read(octets) else {
            return Err(BAD_NAME);
        };
        if is_among(earlier, octets) {
            return Err(DOUBLED);
        }
        if !is_among(self.names, octets) {
            return Err(NO_SUCH);
        }
        Ok(name)
    }
}

fn has_name(fields: &[FieldSetup], octets: &[u8]) -> bool
    ensures { result ≡ list_any (λ field. bytes_eq octets.now field.name) fields.now }
{
    for field in fields {
        if octets == field.name.octets() {
            return true;
        }
    }
    false
}

/// The fields of a shape, of which no two have one name.
pub struct Fields;

impl Elements for Fields {
    type Element = FieldSetup;

    ghost faults = { λ _. field };

    ghost says = { λ _ value. field_of (text_in value) };

    #[tactic(auto, unfolding(crate::specs::Kinds::field))]
    fn judge(&self, value: &Value, earlier: &[FieldSetup]) -> Result<FieldSetup, u8> {
        let octets = text(value)?;
        let Some(field) = field_of(octets) else {
            return Err(FIELD_TYPE);
        };
        if has_name(earlier, field.name.octets()) {
            return Err(DOUBLED);
        }
        Ok(field)
    }
}
