use crate::{Row, Stamp};
use std::marker::Model;

/// What a lookup of a service found: a version of the board with its stamp, and the rows of that service there, in the
/// board's order. It is seen as a record in which the rows are a list.
#[derive(Drop)]
pub struct Found {
    pub version: u64,
    pub stamp: Stamp,
    pub rows: Vec<Row>,
}

impl Model for Found {
    ghost use Rattle.std.specs.Prelude.{◌-◌, vec_len, vec_capacity};
    ghost use Rattle.xa_types.specs.Found.{FoundRows};

    ghost Value = { FoundRows };

    ghost view = { λ found. record {
      version = found.version;
      stamp = found.stamp;
      rows = found.rows.items;
      room = vec_capacity found.rows - vec_len found.rows;
    } };
}
