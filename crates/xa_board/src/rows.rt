// The rows that stand on the board.
ghost use Rattle.std.specs.Prelude.{◌≡◌, ◌≤◌, ◌<◌, ◌&&◌, [], ◌∷◌, ◌++◌, vec_len, vec_capacity, length, map, slice_get, option_map, filter, not, IfOk};
ghost use Rattle.std.specs.Option.{option_copied};
ghost use Rattle.std.specs.Str.{bytes_eq};
ghost use Rattle.xa_types.specs.Rows.{is_row_of, row_of, same_truth};
ghost use Rattle.xa_board.specs.Board.{rows_seen};
ghost use Rattle.xa_board.specs.Changes.{without, is_on, rows_on};
ghost use Rattle.xa_board.specs.Digests.{digest_of, digests_of};

use std::alloc::Global;
use std::marker::Model;
use xa_types::{Name, NoMemory, QueueId, Row};

/// How many rows may stand.
pub const ROWS: usize = 256;

/// The rows that stand, in their order, with room for 256, and a digest of each one's service. A look-up reads the digests, and only
/// those rows whose digest is that of the service that it looks for.
#[derive(Drop)]
pub struct Rows {
    rows: Vec<Row>,
    digests: Vec<u32>,
}

impl Model for Rows {
    ghost use Rattle.xa_types.specs.declared.row.Row.{Row};
    ghost use Rattle.std.specs.Prelude.{List};
    ghost use Rattle.xa_board.specs.Digests.{HasDigests};

    ghost Value = { List Row };

    ghost view = { λ r. r.rows.items };

    ghost invariant = { HasDigests };
}

// Of names with different digests the octets differ.
fn digest_of(name: &Name) -> u32
    ensures { result ≡ digest_of name.now }
{
    let mut digest = 0;
    for octet in name.octets() {
        digest = digest % 0x100_0000 * 131 + u32::from(*octet);
    }
    digest
}

fn digest_all(rows: &[Row], digests: &mut Vec<u32>)
    requires { length rows.now ≤ vec_capacity digests.old }
    ensures digests { digests.new.items ≡ digests_of rows.now }
    ensures capacity { vec_capacity digests.old ≤ vec_capacity digests.new }
{
    digests.clear();
    for row in rows {
        digests.push_reserved(digest_of(&row.service));
    }
}

/// Whether both names have the same octets.
pub fn is_same(a: &Name, b: &Name) -> bool
    ensures { result ≡ bytes_eq a.now b.now }
{
    a.octets() == b.octets()
}

fn is_row_of(row: &Row, service: &Name, queue: QueueId) -> bool
    ensures { result ≡ is_row_of service.now queue.0 row.now }
{
    is_same(&row.service, service) && row.queue.0 == queue.0
}

/// The row of a service on a queue.
pub fn row_of<'a>(rows: &'a [Row], service: &Name, queue: QueueId) -> Option<&'a Row>
    ensures { option_copied result ≡ row_of service.now queue.0 rows.now }
{
    for row in rows {
        if is_row_of(row, service, queue) {
            return Some(row);
        }
    }
    None
}

/// How many rows of a queue there are among at most 256.
pub fn count_on(rows: &[Row], queue: QueueId) -> u32
    requires { length rows.now ≤ 256 }
    ensures { result ≡ length (rows_on queue.0 rows.now) }
{
    let mut count = 0;
    for row in rows {
        if row.queue.0 == queue.0 {
            count += 1;
        }
    }
    count
}

/// The service of the first row of a queue.
pub fn first_on(rows: &[Row], queue: QueueId) -> Option<Name>
    ensures { result ≡ option_map (λ row. row.service) (slice_get (rows_on queue.0 rows.now) 0) }
{
    for row in rows {
        if row.queue.0 == queue.0 {
            return Some(row.service);
        }
    }
    None
}

// Whether a call of the service sees the row. The digests are that of the row's service and that of the other one.
fn is_seen(row: &Row, digests: (u32, u32), service: &Name, conversational: bool) -> bool
    requires row { digests.0 ≡ digest_of row.now.service }
    requires service { digests.1 ≡ digest_of service.now }
    ensures { result ≡ (bytes_eq row.now.service service.now && same_truth row.now.conversational conversational) }
{
    digests.0 == digests.1 && is_same(&row.service, service) && row.conversational == conversational
}

// Puts the rows that a call of that service sees in place of those that stand in `found`, where there is room.
fn find(rows: &[Row], digests: &[u32], service: &Name, conversational: bool, found: &mut Vec<Row>)
    requires digests { digests.now ≡ digests_of rows.now }
    requires room { length rows.now ≤ vec_capacity found.old }
    ensures rows { found.new.items ≡ rows_seen service.now conversational rows.now }
    ensures capacity { vec_capacity found.old ≤ vec_capacity found.new }
{
    found.clear();
    let digest = digest_of(service);
    for (place, row) in rows.iter().enumerate() {
        if is_seen(row, (digests[place], digest), service, conversational) {
            found.push_reserved(*row);
        }
    }
}

impl Rows {
    /// No row, with room for 256.
    pub fn new(alloc: Global) -> Result<Rows, NoMemory>
        ensures { IfOk result (λ rows. rows ≡ []) }
    {
        let rows = Vec::with_capacity(alloc, ROWS)?;
        let digests = Vec::with_capacity(alloc, ROWS)?;
        Ok(Rows { rows, digests })
    }

    /// The rows.
    pub fn as_slice(&self) -> &[Row]
        ensures { result.now ≡ self.now }
    {
        &self.rows
    }

    /// Takes out the row of a service on a queue.
    pub fn take_out(&mut self, service: &Name, queue: QueueId)
        ensures { self.new ≡ without service.now queue.0 self.old }
    {
        self.rows.retain(|row| !is_row_of(row, service, queue));
        digest_all(&self.rows, &mut self.digests);
    }

    /// Puts a row last, in place of that of its service and queue. Fewer than 256 stand beside it.
    pub fn put(&mut self, row: Row)
        requires { length (without row.service row.queue.0 self.old) < 256 }
        ensures { self.new ≡ without row.service row.queue.0 self.old ++ row ∷ [] }
    {
        self.take_out(&row.service, row.queue);
        self.digests.push_reserved(digest_of(&row.service));
        self.rows.push_reserved(row);
    }

    /// Takes out all rows of a queue.
    pub fn take_out_all(&mut self, queue: QueueId)
        ensures { self.new ≡ filter (λ row. not (is_on queue.0 row)) self.old }
    {
        self.rows.retain(|row| row.queue.0 != queue.0);
        digest_all(&self.rows, &mut self.digests);
    }

    /// Puts the rows that a call of that service sees in place of those that stand in `found`, where there is room.
    pub fn find(&self, service: &Name, conversational: bool, found: &mut Vec<Row>)
        requires { length self.now ≤ vec_capacity found.old }
        ensures rows { found.new.items ≡ rows_seen service.now conversational self.now }
        ensures capacity { vec_capacity found.old ≤ vec_capacity found.new }
    {
        find(&self.rows, &self.digests, service, conversational, found);
    }
}
