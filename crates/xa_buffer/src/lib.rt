//! Buffers of typed data (XATMI, tpalloc, tprealloc and tptypes): X_OCTET, and X_C_TYPE with the fields of a configured
//! shape.
//!
//! The fields of a shape lie one after another in declared order, without padding between them. A short has 2 octets, an
//! int 4 and a long 8: signed numbers, big-endian in two's complement. A char has one, a number from 0 to 255. A string of
//! `n` has `n` octets, of which zeros follow its text. So an `entry` of account int, amount long and memo string 16 with 7,
//! 250 and `rent` is, in hex,
//!
//! ```text
//! 00000007 00000000000000fa 72656e74000000000000000000000000
//! ```
#![tactic(auto)]

mod buffer;
mod laws;
mod refusal;
mod shapes;
mod structure;
mod value;

pub use buffer::Buffer;
pub use laws::{
    fields_lie_apart, packed_is_sound, packed_tells_all, stays_of_its_shape, unpacks_what_it_packed,
};
pub use refusal::BufferRefused;
pub use shapes::Shapes;
pub use value::FieldValue;
