// A table of the configuration, and what is read at its keys.
ghost use Rattle.std.specs.Prelude.{◌≡◌, ◌≤◌, ◌∷◌, [], ℕ, List, map, IfOk, IfErr, MatchResult, option_map, length};
ghost use Rattle.toml.specs.Data.{Data, get};
ghost use Rattle.toml.specs.View.{view};
ghost use Rattle.xa_types.specs.Configured.{is_within};
ghost use Rattle.xa_types.specs.Name.{is_name, is_identifier};
ghost use Rattle.xa_config.specs.Document.{TellsFirst, Reads};
ghost use Rattle.xa_config.specs.Faults.{fault, dotted, indexed};
ghost use Rattle.xa_config.specs.Keys.{optional, needed, unknown, array_of, elements, needed_array};
ghost use Rattle.xa_config.specs.Kinds.{number, truth, name, new_name, name_among, program, text_in, list_in};
ghost use Rattle.xa_config.specs.Meaning.{number_at, truth_at, text_at, list_at};

use crate::document::{Value, items, member, unknown_key};
use crate::kinds::{self, Elements};
use crate::refusal::{
    ConfigRefused, MISSING_KEY, OUT_OF_RANGE, UNKNOWN_KEY, WRONG_TYPE, dotted, refuse_dotted,
    refuse_indexed,
};
use std::alloc::Global;
use xa_types::{Name, Octets, Sequence};

/// A table, and the place that the keys of its faults begin with.
#[derive(Drop)]
pub struct Entry<'a> {
    pub alloc: Global,
    pub place: &'a [u8],
    pub table: &'a Value,
}

fn has_length(values: &[Value], least: usize, most: usize) -> bool
    ensures { result ≡ is_within least most (length values.now) }
{
    values.len() >= least && values.len() <= most
}

impl Entry<'_> {
    // The fault of that number at a key.
    fn refuse(&self, number: u8, key: &str) -> ConfigRefused
        ensures { TellsFirst (fault (dotted self.now.place.now key.now) number ∷ []) result }
    {
        refuse_dotted(self.alloc, number, self.place, key.as_bytes())
    }

    /// The fault of that number at an element.
    pub fn refuse_element(&self, number: u8, key: &str, place: usize) -> ConfigRefused
        ensures { TellsFirst (fault (indexed (dotted self.now.place.now key.now) place) number ∷ []) result }
    {
        match dotted(self.alloc, self.place, key.as_bytes()) {
            Ok(key) => refuse_indexed(self.alloc, number, key.slice(), place),
            Err(_) => ConfigRefused::NoMemory,
        }
    }

    /// Refuses the first key that isn't among these.
    #[tactic(auto, using(crate::proofs::Tells::tells_map), unfolding(crate::specs::Keys::unknown))]
    pub fn no_unknown(&self, known: &[&str]) -> Result<(), ConfigRefused>
        ensures { MatchResult result
            (λ _. unknown self.now.place.now (map (λ k. k.now) known.now) (view self.now.table.now) ≡ [])
            (TellsFirst (unknown self.now.place.now (map (λ k. k.now) known.now) (view self.now.table.now))) }
    {
        match unknown_key(self.table, known) {
            Some(key) => Err(self.refuse(UNKNOWN_KEY, key)),
            None => Ok(()),
        }
    }

    /// The elements of an array, of which there are `least` to `most`.
    pub fn array<'b>(
        &self,
        key: &str,
        value: &'b Value,
        least: usize,
        most: usize,
    ) -> Result<&'b [Value], ConfigRefused>
        ensures found { IfOk result (λ values. list_in (view value.now) ≡ map view values.now) }
        ensures left { IfOk result (λ values. (kind : List Data → Data → List ℕ)
            → array_of (dotted self.now.place.now key.now) least most kind (view value.now)
            ≡ elements (dotted self.now.place.now key.now) kind [] (map view values.now)) }
        ensures refused { IfErr result (λ refusal. (kind : List Data → Data → List ℕ)
            → TellsFirst (array_of (dotted self.now.place.now key.now) least most kind (view value.now)) refusal) }
    {
        let Some(values) = items(value) else {
            return Err(self.refuse(WRONG_TYPE, key));
        };
        if !has_length(values, least, most) {
            return Err(self.refuse(OUT_OF_RANGE, key));
        }
        Ok(values)
    }

    /// The elements of an array, of which there are 1 to 64.
    #[tactic(auto, unfolding(crate::specs::Keys::needed_array, crate::specs::Meaning::list_at))]
    pub fn list<E: Elements>(
        &self,
        key: &str,
        of: &E,
    ) -> Result<Sequence<E::Element>, ConfigRefused>
        ensures { Reads (needed_array self.now.place.now key.now 1 64 (E.faults of.now) (view self.now.table.now))
            (map (E.says of.now) (list_at key.now (view self.now.table.now))) result }
    {
        let Some(value) = member(self.table, key) else {
            return Err(self.refuse(MISSING_KEY, key));
        };
        let values = self.array(key, value, 1, 64)?;
        let Ok(mut elements) = Vec::with_capacity(self.alloc, values.len()) else {
            return Err(ConfigRefused::NoMemory);
        };
        for value in values {
            match of.judge(value, elements.as_slice()) {
                Ok(element) => elements.push_reserved(element),
                Err(number) => return Err(self.refuse_element(number, key, elements.len())),
            }
        }
        Ok(Sequence::from_vec(elements))
    }

    /// The number at a key, from `least` to `most`.
    #[tactic(auto, unfolding(crate::specs::Keys::optional, crate::specs::Meaning::number_at))]
    pub fn number(
        &self,
        key: &str,
        least: u32,
        most: u32,
        default: u32,
    ) -> Result<u32, ConfigRefused>
        requires { default ≤ most }
        ensures read { Reads (optional self.now.place.now key.now (number least most) (view self.now.table.now))
            (number_at key.now default (view self.now.table.now)) result }
        ensures within { IfOk result (λ found. found ≤ most) }
    {
        match member(self.table, key) {
            None => Ok(default),
            Some(value) => match kinds::number(value, least, most) {
                Ok(found) => Ok(found),
                Err(number) => Err(self.refuse(number, key)),
            },
        }
    }

    /// The truth value at a key, or false.
    #[tactic(auto, unfolding(crate::specs::Keys::optional, crate::specs::Meaning::truth_at))]
    pub fn truth(&self, key: &str) -> Result<bool, ConfigRefused>
        ensures { Reads (optional self.now.place.now key.now truth (view self.now.table.now))
            (truth_at key.now (view self.now.table.now)) result }
    {
        match member(self.table, key) {
            None => Ok(false),
            Some(value) => match kinds::truth(value) {
                Ok(found) => Ok(found),
                Err(number) => Err(self.refuse(number, key)),
            },
        }
    }

    /// The name at a key, or another.
    #[tactic(auto, unfolding(crate::specs::Keys::optional, crate::specs::Meaning::text_at))]
    pub fn name_or(&self, key: &str, default: Name) -> Result<Name, ConfigRefused>
        ensures { Reads (optional self.now.place.now key.now name (view self.now.table.now))
            (text_at key.now default (view self.now.table.now)) result }
    {
        match member(self.table, key) {
            None => Ok(default),
            Some(value) => match kinds::name(value) {
                Ok(found) => Ok(found),
                Err(number) => Err(self.refuse(number, key)),
            },
        }
    }

    /// A name that no earlier entry has.
    #[tactic(auto, unfolding(crate::specs::Keys::needed, crate::specs::Meaning::text_at))]
    pub fn new_name(&self, key: &str, earlier: &[Name]) -> Result<Name, ConfigRefused>
        ensures { Reads (needed self.now.place.now key.now (new_name is_name earlier.now) (view self.now.table.now))
            (text_at key.now [] (view self.now.table.now)) result }
    {
        match member(self.table, key) {
            None => Err(self.refuse(MISSING_KEY, key)),
            Some(value) => match kinds::new_name(value, earlier) {
                Ok(found) => Ok(found),
                Err(number) => Err(self.refuse(number, key)),
            },
        }
    }

    /// An identifier that no earlier entry has.
    #[tactic(auto, unfolding(crate::specs::Keys::needed, crate::specs::Meaning::text_at))]
    pub fn new_identifier(&self, key: &str, earlier: &[Name]) -> Result<Name, ConfigRefused>
        ensures { Reads (needed self.now.place.now key.now (new_name is_identifier earlier.now) (view self.now.table.now))
            (text_at key.now [] (view self.now.table.now)) result }
    {
        match member(self.table, key) {
            None => Err(self.refuse(MISSING_KEY, key)),
            Some(value) => match kinds::new_identifier(value, earlier) {
                Ok(found) => Ok(found),
                Err(number) => Err(self.refuse(number, key)),
            },
        }
    }

    /// A name that is one of these.
    #[tactic(auto, unfolding(crate::specs::Keys::needed, crate::specs::Meaning::text_at))]
    pub fn name_among(&self, key: &str, names: &[Name]) -> Result<Name, ConfigRefused>
        ensures { Reads (needed self.now.place.now key.now (name_among names.now) (view self.now.table.now))
            (text_at key.now [] (view self.now.table.now)) result }
    {
        match member(self.table, key) {
            None => Err(self.refuse(MISSING_KEY, key)),
            Some(value) => match kinds::name_among(value, names) {
                Ok(found) => Ok(found),
                Err(number) => Err(self.refuse(number, key)),
            },
        }
    }

    /// The octets of a program, if there is one.
    #[tactic(auto, unfolding(crate::specs::Keys::optional))]
    pub fn program(&self, key: &str) -> Result<Option<Octets>, ConfigRefused>
        ensures { Reads (optional self.now.place.now key.now program (view self.now.table.now))
            (option_map text_in (get key.now (view self.now.table.now))) result }
    {
        match member(self.table, key) {
            None => Ok(None),
            Some(value) => match kinds::program(value) {
                Ok(octets) => Ok(Some(Octets::of(self.alloc, octets)?)),
                Err(number) => Err(self.refuse(number, key)),
            },
        }
    }
}
