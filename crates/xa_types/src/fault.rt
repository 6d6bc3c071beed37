ghost use Rattle.std.specs.Prelude.{◌≡◌};
ghost use Rattle.xa_types.specs.Fault.{fault_text, event_text};

/// An error of a call, by the standard's name for it (XATMI, tperrno). `NoMemory` is want of memory.
#[derive(Clone, Copy)]
pub enum Fault {
    Inval,
    NoEnt,
    IType,
    OType,
    BadDesc,
    Limit,
    Block,
    Time,
    Proto,
    System,
    Match,
    SvcFail,
    SvcErr,
    Event,
    NoMemory,
}

impl Fault {
    /// The name of the error.
    pub fn text(&self) -> &'static str
        ensures { result.now ≡ fault_text self.now }
    {
        match self {
            Fault::Inval => "TPEINVAL",
            Fault::NoEnt => "TPENOENT",
            Fault::IType => "TPEITYPE",
            Fault::OType => "TPEOTYPE",
            Fault::BadDesc => "TPEBADDESC",
            Fault::Limit => "TPELIMIT",
            Fault::Block => "TPEBLOCK",
            Fault::Time => "TPETIME",
            Fault::Proto => "TPEPROTO",
            Fault::System => "TPESYSTEM",
            Fault::Match => "TPEMATCH",
            Fault::SvcFail => "TPESVCFAIL",
            Fault::SvcErr => "TPESVCERR",
            Fault::Event => "TPEEVENT",
            Fault::NoMemory => "NOMEM",
        }
    }
}

/// An event of a conversation (XATMI, tprecv). `NoMemory` is want of memory.
#[derive(Clone, Copy)]
pub enum ConvEvent {
    DisconImm,
    SendOnly,
    SvcErr,
    SvcFail,
    SvcSucc,
    NoMemory,
}

impl ConvEvent {
    /// The name of the event.
    pub fn text(&self) -> &'static str
        ensures { result.now ≡ event_text self.now }
    {
        match self {
            ConvEvent::DisconImm => "TPEV_DISCONIMM",
            ConvEvent::SendOnly => "TPEV_SENDONLY",
            ConvEvent::SvcErr => "TPEV_SVCERR",
            ConvEvent::SvcFail => "TPEV_SVCFAIL",
            ConvEvent::SvcSucc => "TPEV_SVCSUCC",
            ConvEvent::NoMemory => "NOMEM",
        }
    }
}
