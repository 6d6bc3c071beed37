// The arrays of tables of a configuration, and what they come to together.
ghost use Rattle.std.specs.Prelude.{◌≡◌, ◌≤◌, [], ℕ, List, map, IfOk, IfErr, MatchOption, length, vec_capacity, true, false};
ghost use Rattle.std.specs.List.{list_all};
ghost use Rattle.toml.specs.Data.{Data, get};
ghost use Rattle.toml.specs.View.{view};
ghost use Rattle.xa_config.specs.declared.refusal.ConfigRefused.TheVariants.{NoMemory};
ghost use Rattle.xa_config.specs.Document.{TellsFirst, Reads};
ghost use Rattle.xa_config.specs.Faults.{Fault, in_order, indexed};
ghost use Rattle.xa_config.specs.Kinds.{is_table};
ghost use Rattle.xa_config.specs.Meaning.{list_at, name_of, names_of};
ghost use Rattle.xa_config.specs.Tables.{at_entry, is_array_of_tables, table_faults};

use crate::document::{Value, is_table, items, member};
use crate::entry::Entry;
use crate::refusal::{ConfigRefused, MISSING_KEY, TOO_MANY, WRONG_TYPE, indexed, refuse};
use std::alloc::Global;
use xa_types::{Name, Sequence};

/// What the entries of an array of tables are read as.
pub trait Rows {
    type Row: Drop;

    /// Whether entries can be read.
    ghost can_read: { Self → Type 0 };

    /// The faults of an entry, at its place and beside the names of the earlier ones.
    ghost faults: { Self → List ℕ → List (List ℕ) → Data → List Fault };

    /// The row that an entry without a fault says.
    ghost says: { Self → Data → Self.Row };

    /// The name of a row.
    ghost named: { Self.Row → List ℕ };

    /// The row of an entry, where these are the names of the earlier ones.
    fn read(&self, entry: &Entry<'_>, earlier: &[Name]) -> Result<Self::Row, ConfigRefused>
        requires { can_read self.now }
        ensures read { Reads (faults self.now entry.now.place.now earlier.now (view entry.now.table.now)) (says self.now (view entry.now.table.now)) result }
        ensures named { IfOk result (λ found. named found ≡ name_of (view entry.now.table.now)) };

    /// The name of a row.
    fn name(row: &Self::Row) -> Name
        ensures { result ≡ named row.now };
}

fn all_tables(values: &[Value]) -> bool
    ensures { result ≡ list_all (λ value. is_table (view value)) values.now }
{
    for value in values {
        if !is_table(value) {
            return false;
        }
    }
    true
}

// The entries of a table, of which there are `least` to `most`.
fn entries<'a>(
    alloc: Global,
    document: &'a Value,
    key: &str,
    least: usize,
    most: usize,
) -> Result<&'a [Value], ConfigRefused>
    ensures found { IfOk result (λ values. list_at key.now (view document.now) ≡ map view values.now) }
    ensures few { IfOk result (λ values. length values.now ≤ most) }
    ensures left { IfOk result (λ values. (entry : List ℕ → List (List ℕ) → Data → List Fault)
        → table_faults key.now least most entry (view document.now) ≡ in_order (at_entry key.now entry) [] (map view values.now)) }
    ensures refused { IfErr result (λ refusal. (entry : List ℕ → List (List ℕ) → Data → List Fault)
        → TellsFirst (table_faults key.now least most entry (view document.now)) refusal) }
{
    let Some(values) = entries_at(document, key) else {
        return Err(refuse(alloc, WRONG_TYPE, key.as_bytes()));
    };
    if values.len() < least {
        return Err(refuse(alloc, MISSING_KEY, key.as_bytes()));
    }
    if values.len() > most {
        return Err(refuse(alloc, TOO_MANY, key.as_bytes()));
    }
    Ok(values)
}

// The elements at a key, if they are tables; none where the key isn't there.
fn entries_at<'a>(document: &'a Value, key: &str) -> Option<&'a [Value]>
    ensures { MatchOption result
        (is_array_of_tables (get key.now (view document.now)) ≡ false)
        (λ values. (is_array_of_tables (get key.now (view document.now)) ≡ true) × (list_at key.now (view document.now) ≡ map view values.now)) }
{
    let Some(value) = member(document, key) else {
        return Some(&[]);
    };
    let values = items(value)?;
    if !all_tables(values) {
        return None;
    }
    Some(values)
}

// Room for so many entries, and for their names.
fn with_room<T: Drop>(alloc: Global, count: usize) -> Result<(Vec<T>, Vec<Name>), ConfigRefused>
    ensures none { IfOk result (λ lists. (lists.0.items ≡ []) × (lists.1.items ≡ [])) }
    ensures room { IfOk result (λ lists. (count ≤ vec_capacity lists.0) × (count ≤ vec_capacity lists.1)) }
    ensures refused { IfErr result (λ refusal. refusal ≡ NoMemory) }
{
    let Ok(entries) = Vec::with_capacity(alloc, count) else {
        return Err(ConfigRefused::NoMemory);
    };
    let Ok(names) = Vec::with_capacity(alloc, count) else {
        return Err(ConfigRefused::NoMemory);
    };
    Ok((entries, names))
}

fn row_at<R: Rows>(
    alloc: Global,
    rows: &R,
    key: &str,
    value: &Value,
    earlier: &[Name],
) -> Result<R::Row, ConfigRefused>
    requires { R.can_read rows.now }
    ensures read { Reads (R.faults rows.now (indexed key.now (length earlier.now)) earlier.now (view value.now)) (R.says rows.now (view value.now)) result }
    ensures named { IfOk result (λ found. R.named found ≡ name_of (view value.now)) }
{
    let place = indexed(alloc, key.as_bytes(), earlier.len())?;
    let entry = Entry {
        alloc,
        place: place.slice(),
        table: value,
    };
    rows.read(&entry, earlier)
}

fn all_rows<R: Rows>(
    alloc: Global,
    rows: &R,
    key: &str,
    values: &[Value],
) -> Result<(Sequence<R::Row>, Sequence<Name>), ConfigRefused>
    requires { R.can_read rows.now }
    ensures { Reads (in_order (at_entry key.now (R.faults rows.now)) [] (map view values.now))
        (map (R.says rows.now) (map view values.now), names_of (map view values.now)) result }
{
    let (mut kept, mut names) = with_room(alloc, values.len())?;
    for value in values {
        let row = row_at(alloc, rows, key, value, names.as_slice())?;
        names.push_reserved(R::name(&row));
        kept.push_reserved(row);
    }
    Ok((Sequence::from_vec(kept), Sequence::from_vec(names)))
}

/// The rows of an array of `least` to `most` tables, and their names.
pub fn rows_of<R: Rows>(
    alloc: Global,
    document: &Value,
    key: &str,
    least: usize,
    most: usize,
    rows: &R,
) -> Result<(Sequence<R::Row>, Sequence<Name>), ConfigRefused>
    requires { R.can_read rows.now }
    ensures read { Reads (table_faults key.now least most (R.faults rows.now) (view document.now))
        (map (R.says rows.now) (list_at key.now (view document.now)), names_of (list_at key.now (view document.now))) result }
    ensures few { IfOk result (λ found. length found.1 ≤ most) }
{
    let values = entries(alloc, document, key, least, most)?;
    all_rows(alloc, rows, key, values)
}
