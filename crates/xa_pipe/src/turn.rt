// Where a life stands.

/// What comes next in a life.
#[derive(Clone, Copy)]
pub enum Turn {
    /// READY of the program.
    AwaitsReady,
    /// NEXT of the program.
    AwaitsNext,
    /// An INVOKE or SHUTDOWN of the monitor.
    AwaitsInvoke,
    /// A RETURN or a FORWARD of the program, or an OP.
    Serving,
    /// A RETURN or a FORWARD of the program: its server's calls have come to their end.
    Finishing,
    /// A call of the service, and the REPLY of the monitor.
    Performing,
    /// Nothing more, after a RETURN with TPEXIT.
    Exited,
}

/// Whether the link took the last frame that was due to the program: all of it, a front, or nothing.
#[derive(Clone, Copy)]
pub enum Written {
    Whole,
    Cut,
    Missing,
}
