use crate::{ConvEvent, Data, Fault};

/// What becomes of a request: the code and data of TPSUCCESS, those of TPFAIL, or an error.
#[derive(Drop)]
pub enum Answer {
    Success(i32, Data),
    Failed(i32, Data),
    Error(Fault),
}

/// What a call is told. `Answered` has the descriptor, which is 0 for tpcall.
#[derive(Drop)]
pub enum Reply {
    Done,
    Descriptor(u64),
    Now(u64),
    Answered(u64, Answer),
    Message(Data),
    Event(ConvEvent, i32, Data),
    Fault(Fault),
}
