//! Frames: what the monitor and a server's program say to one another, as octets on a pipe.
//!
//! A frame is a header of twelve octets and a body. The header is 0x58 0x41, the version 0x01, the kind, the body's
//! length (u32) and the tag (u32). Numbers are big-endian, signed ones two's complement. A body has at most 66,000
//! octets, and any kind may have any tag.
//!
//! | Kind | | Body |
//! |---|---|---|
//! | 0x01 | READY | a name |
//! | 0x02 | NEXT | nothing |
//! | 0x03 | OP | u8 and fields, below |
//! | 0x04 | RETURN | u8 (0 TPSUCCESS, 1 TPFAIL, 2 TPEXIT), the code (i32), data |
//! | 0x05 | FORWARD | a word, data |
//! | 0x11 | INVOKE | names of the service and the routine, the mode (u8), data |
//! | 0x12 | REPLY | u8 and fields, below |
//! | 0x13 | SHUTDOWN | nothing |
//!
//! A word is a length (u8) and so many octets, and a name is a word that is one. A kind of buffers is 0x00 for none, 0x01
//! for X_OCTET, or 0x02 and the name of the subtype for X_C_TYPE. Data is a kind, 0x00 where it is absent, and after 0x01
//! and 0x02 a length (u32), at most 65,536, and so many octets. The mode is 0 where a reply is wanted, 1 where none is,
//! and for a conversation 2 where the service receives first and 3 where it sends. Flags are a u8: 1 TPNOBLOCK,
//! 2 TPNOTIME, 4 TPNOREPLY, 8 TPNOTRAN, 16 TPSIGRSTRT. A body ends where its fields end.
//!
//! | OP | | Fields |
//! |---|---|---|
//! | 1 | tpcall | flags, word, kind (of the TPNOCHANGE buffer), data |
//! | 2 | tpacall | flags, word, data |
//! | 3 | tpgetrply | flags, u64, kind |
//! | 4 | tpgetrply with TPGETANY | flags, kind |
//! | 5 | tpcancel | u64 |
//! | 6 | tpconnect | flags, u8 (0 neither, 1 TPSENDONLY, 2 TPRECVONLY, 3 both), word, data |
//! | 7 | tpsend | flags, u64, u8 (1 with TPRECVONLY, else 0), data |
//! | 8 | tprecv | flags, u64 |
//! | 9 | tpdiscon | u64 |
//! | 10 | tpsprio | u8 (1 TPABSOLUTE, else 0), i32 |
//! | 11 | tpadvertise | word, word |
//! | 12 | tpunadvertise | word |
//! | 13 | tick | u32 |
//!
//! | REPLY | | Fields |
//! |---|---|---|
//! | 0 | done | |
//! | 1 | a descriptor | u64 |
//! | 2 | the time | u64 |
//! | 3 | an answer | u64, u8: 0 TPSUCCESS, code (i32), data; 1 TPFAIL, code (i32), data; 2 an error, u8 |
//! | 4 | a message | data |
//! | 5 | an event | u8, code (i32), data |
//! | 6 | an error | u8 |
//!
//! Errors are numbered 1 to 15 and events 1 to 6, in the order of `Fault` and `ConvEvent`.
#![tactic(auto)]

mod choices;
mod fields;
mod frame;
mod header;
mod laws;
mod op;
mod payload;
mod reader;
mod reading;
mod reply;
mod writing;

pub use frame::{Body, Frame};
pub use laws::{malformed_for_ever, one_frame};
pub use reader::{NextRefused, Reader};
pub use writing::{
    append, append_answer, append_invoke, append_reply, append_return, encode, kind_octet,
};
