use xa_types::{Data, Mode, Name, Octets, Op, Reply, Rval};

/// What a frame says.
#[derive(Drop)]
pub enum Body {
    /// A program is ready, and this is its server's name.
    Ready(Name),
    /// A program asks for the next request.
    Next,
    /// A service makes a call.
    Op(Op),
    /// A service returns (XATMI, tpreturn).
    Return(Rval, i32, Data),
    /// A service passes its request on (Tuxedo, tpforward): to that service, as it was written, with that data.
    Forward(Octets, Data),
    /// A service is to run: its name, its routine, what it is invoked for, and what came with the request.
    Invoke(Name, Name, Mode, Data),
    /// What a service's call is told.
    Reply(Reply),
    /// A program is to end.
    Shutdown,
}

/// A frame: a tag, and what it says.
#[derive(Drop)]
pub struct Frame {
    pub tag: u32,
    pub body: Body,
}
