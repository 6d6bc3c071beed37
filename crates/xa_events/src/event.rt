// The events of the machine. docs/machine.md says where each stands and when it may come.
use xa_types::{
    Answer, CallerId, ConvEvent, Data, Fault, Generation, Mode, Name, QueueId, RequestId, Sequence,
    ServerId,
};

/// A service was advertised on a queue. `op` is 0 at the boot.
#[derive(Clone, Copy)]
pub struct Advertised {
    pub by: CallerId,
    pub op: u32,
    pub service: Name,
    pub queue: QueueId,
    pub routine: Name,
    pub version: u64,
}

/// A service was withdrawn from a queue.
#[derive(Clone, Copy)]
pub struct Withdrawn {
    pub by: CallerId,
    pub op: u32,
    pub service: Name,
    pub queue: QueueId,
    pub version: u64,
}

/// A queue accepted a request, by the version of the board that its caller read.
#[derive(Drop)]
pub struct Accepted {
    pub by: CallerId,
    pub op: u32,
    pub request: RequestId,
    pub version: u64,
    pub service: Name,
    pub queue: QueueId,
    pub routine: Name,
    pub priority: u8,
    pub mode: Mode,
    pub payload: Data,
}

/// A server took a request; it is the `k`-th take from its queue.
#[derive(Clone, Copy)]
pub struct Taken {
    pub request: RequestId,
    pub server: ServerId,
    pub generation: Generation,
    pub k: u64,
}

/// A server passed its request on to another service, for the `hop`-th time. Its small fields stand together, so that
/// it takes no more room than `Accepted`, and no event does.
#[derive(Drop)]
pub struct Forwarded {
    pub request: RequestId,
    pub generation: Generation,
    pub version: u64,
    pub server: ServerId,
    pub queue: QueueId,
    pub hop: u8,
    pub priority: u8,
    pub service: Name,
    pub routine: Name,
    pub payload: Data,
}

/// A request that waited at a queue that is down was given up.
#[derive(Clone, Copy)]
pub struct Swept {
    pub request: RequestId,
    pub queue: QueueId,
}

/// The clock was moved on, and shows `now`.
#[derive(Clone, Copy)]
pub struct Ticked {
    pub by: CallerId,
    pub op: u32,
    pub now: u64,
}

/// A server was started, or its start failed.
#[derive(Clone, Copy)]
pub struct Started {
    pub server: ServerId,
    pub generation: Generation,
    pub tick: u64,
}

/// How a request ended at its server. `BadForward` has the version of the board that was looked up, or 0 where neither
/// the board nor a queue is the reason.
#[derive(Drop)]
pub enum Outcome {
    Returned(i32, Data),
    Failed(i32, Data),
    BadReturn,
    BadForward(u64),
    Died,
    Starved,
}

/// A request ended.
#[derive(Drop)]
pub struct Ended {
    pub request: RequestId,
    pub server: ServerId,
    pub generation: Generation,
    pub outcome: Outcome,
}

/// Why a life of a server ended. `BadBytes` has the place among the octets that the server wrote, `OutOfTurn` the
/// kind and the tag of the frame.
#[derive(Clone, Copy, Debug, PartialEq, Eq)]
pub enum StopCause {
    Shutdown,
    Exit,
    EndOfInput,
    ReadFault,
    WriteFault,
    BadBytes(u64),
    OutOfTurn(u8, u32),
    Starved,
}

/// A life of a server ended.
#[derive(Clone, Copy)]
pub struct Stopped {
    pub server: ServerId,
    pub generation: Generation,
    pub cause: StopCause,
}

/// A caller was told what became of its request.
#[derive(Drop)]
pub struct Replied {
    pub by: CallerId,
    pub op: u32,
    pub request: RequestId,
    pub answer: Answer,
}

/// A caller gave up its descriptor. `op` is 0 where no call asked for it.
#[derive(Clone, Copy)]
pub struct Cancelled {
    pub by: CallerId,
    pub op: u32,
    pub request: RequestId,
}

/// The time of a call for a reply ran out. `requests` are those that were looked at, and `of_call` says whether it was
/// a tpcall, whose request lapses with it.
#[derive(Drop)]
pub struct Lapsed {
    pub by: CallerId,
    pub op: u32,
    pub requests: Sequence<RequestId>,
    pub of_call: bool,
    pub now: u64,
    pub deadline: u64,
}

/// No reply had come to a call that doesn't wait. `requests` are those that were looked at.
#[derive(Drop)]
pub struct Unready {
    pub by: CallerId,
    pub op: u32,
    pub requests: Sequence<RequestId>,
}

/// A message was sent in the conversation that `request` began. `passes` says whether it gives control away.
#[derive(Drop)]
pub struct Sent {
    pub by: CallerId,
    pub op: u32,
    pub request: RequestId,
    pub payload: Data,
    pub passes: bool,
}

/// What an end of a conversation received: a message, and whether it gives control; or how the other end ended.
#[derive(Drop)]
pub enum Item {
    Message(Data, bool),
    Ending(ConvEvent, i32, Data),
}

/// An end of a conversation received something.
#[derive(Drop)]
pub struct Received {
    pub by: CallerId,
    pub op: u32,
    pub request: RequestId,
    pub item: Item,
}

/// The originator broke its conversation. `op` is 0 where no call asked for it.
#[derive(Clone, Copy)]
pub struct Broken {
    pub by: CallerId,
    pub op: u32,
    pub request: RequestId,
}

/// A caller set the priority of its next request.
#[derive(Clone, Copy)]
pub struct Prioritized {
    pub by: CallerId,
    pub op: u32,
    pub absolute: bool,
    pub amount: i32,
}

/// What shows that a refusal is right.
#[derive(Clone, Copy)]
pub enum Evidence {
    /// The call alone.
    Argument,
    /// The version of the board that was looked up.
    Version(u64),
    /// The version of which each listed queue was down or closed.
    AllDown(u64),
    /// The descriptor that isn't open; 0 where any would do.
    Descriptor(u64),
    /// How many reply cells the caller has.
    Cells(u32),
    /// How many connections the caller may have open.
    Connections(u32),
    /// How many rows the board may have.
    Rows(u32),
    /// The tick that the clock showed.
    Clock(u64),
    /// The queue that was full, and how many waited there.
    Queue(QueueId, u32),
    /// No block was in the pool.
    Pool,
    /// The descriptor of a conversation, whose direction was full or empty.
    Conversation(u64),
    /// The tick that the clock showed, and the deadline.
    Deadline(u64, u64),
    /// Whether the caller has control.
    Control(bool),
    /// The caller may not make this call.
    Role,
    /// The routine of the row that stands.
    Routine(Name),
    /// No row of that service stands on the caller's queue.
    NoRow,
    /// The descriptor of a conversation whose other end has ended, the event and the code, which is 0.
    Ended(u64, ConvEvent, i32),
}

/// A call was refused.
#[derive(Clone, Copy)]
pub struct Refused {
    pub by: CallerId,
    pub op: u32,
    pub fault: Fault,
    pub evidence: Evidence,
}

/// One atomic step of the machine.
#[derive(Drop)]
pub enum Event {
    Advertise(Advertised),
    Withdraw(Withdrawn),
    Accept(Accepted),
    Take(Taken),
    Forward(Forwarded),
    Sweep(Swept),
    /// A server is given up: it takes no more, and isn't started again.
    Gone(ServerId),
    /// A queue has no server left.
    Down(QueueId),
    /// A queue accepts no more.
    Close(QueueId),
    Tick(Ticked),
    Start(Started),
    StartFailed(Started),
    End(Ended),
    Stop(Stopped),
    Answer(Replied),
    Cancel(Cancelled),
    Lapse(Lapsed),
    Refuse(Refused),
    NotYet(Unready),
    /// A client has made its last call.
    Leave(CallerId),
    Send(Sent),
    Receive(Received),
    Break(Broken),
    Priority(Prioritized),
}

/// What a server does.
#[derive(Clone, Copy)]
pub enum Doing {
    Off,
    Idle(Generation),
    Busy(Generation, RequestId),
    Dying(Generation),
}
