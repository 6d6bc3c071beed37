use crate::{Data, Kind, Octets};

/// The flags of a call (XATMI, TPNOBLOCK, TPNOTIME, TPNOREPLY, TPNOTRAN, TPSIGRSTRT).
#[derive(Clone, Copy, Default)]
pub struct CallFlags {
    pub no_block: bool,
    pub no_time: bool,
    pub no_reply: bool,
    pub no_tran: bool,
    pub sig_restart: bool,
}

/// Which of TPSENDONLY and TPRECVONLY a tpconnect has.
#[derive(Clone, Copy)]
pub enum Direction {
    Neither,
    SendOnly,
    RecvOnly,
    Both,
}

/// What a call sends: the service's name as it was written, the data, and the kind of the reply buffer where
/// TPNOCHANGE is set, for tpcall alone.
#[derive(Drop)]
pub struct Ask {
    pub service: Octets,
    pub payload: Data,
    pub flags: CallFlags,
    pub expect: Option<Kind>,
    pub direction: Direction,
}

/// A call. The `bool` of `Send` is TPRECVONLY, that of `Priority` TPABSOLUTE.
#[derive(Drop)]
pub enum Op {
    Call(Ask),
    Acall(Ask),
    Get(u64, CallFlags, Option<Kind>),
    GetAny(CallFlags, Option<Kind>),
    Cancel(u64),
    Connect(Ask),
    Send(u64, CallFlags, bool, Data),
    Receive(u64, CallFlags),
    Disconnect(u64),
    Priority(bool, i32),
    Advertise(Octets, Octets),
    Unadvertise(Octets),
    Tick(u32),
}

/// What a service is invoked for, and for a conversation what it does first.
#[derive(Clone, Copy)]
pub enum Mode {
    Reply,
    NoReply,
    ConvReceives,
    ConvSends,
}

/// How a service returns: TPSUCCESS, TPFAIL, or Tuxedo's TPEXIT (XATMI, tpreturn).
#[derive(Clone, Copy)]
pub enum Rval {
    Success,
    Fail,
    Exit,
}
