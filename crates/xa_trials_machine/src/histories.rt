//! Histories of small domains: the domain, how many clients, the events, and the place of the event that may not
//! come where it stands, or none where nothing is left to do.
use crate::domains::Domain;
use crate::steps::{Each, Heard, Payload, Shown, Step, Way};
use xa_events::StopCause;
use xa_types::{ConvEvent, Fault, Mode};

/// The domain, the clients, the events one part after another, and the place of the event that is refused.
pub type History = (Domain, u16, &'static [&'static [Step]], Option<u64>);

const ABSENT: Payload = Payload::Absent;

const START: Step = Step::Start(1, 1);

const DIES: Step = Step::Stop(1, 1, StopCause::EndOfInput);

const BOOT: &[Step] = &[Step::Boot(b"ECHO", b"ECHO", 1), START];

// The client leaves, and the queue is closed.
const PARTING: &[Step] = &[Step::Leave(1), Step::Close(1)];

// The same, and the server is shut down.
const ENDING: &[Step] = &[
    Step::Leave(1),
    Step::Close(1),
    Step::Stop(1, 1, StopCause::Shutdown),
];

// The server is given up: its service is withdrawn, and the queue goes down.
const GIVEN_OVER: &[Step] = &[
    Step::Gone(1),
    Step::Withdraw(0, 0, b"ECHO", 2),
    Step::Down(1),
];

const SENT: &[Step] = &[Step::Ask(1, Payload::Text(b"hello")), Step::Taken(1, 1)];

const PASSING_BOOT: &[Step] = &[
    Step::Boot(b"A", b"PASS", 1),
    Step::Boot(b"B", b"PASS", 2),
    Step::Boot(b"C", b"ECHO", 3),
    START,
];

const COMPANY_BOOT: &[Step] = &[
    Step::Boot(b"A", b"PASS", 1),
    Step::Boot(b"B", b"PASS", 2),
    Step::Boot(b"CHAT", b"CHAT", 3),
    START,
];

const PARLOUR_BOOT: &[Step] = &[Step::Boot(b"CHAT", b"CHAT", 1), START];

const LOUNGE_BOOT: &[Step] = &[
    Step::Boot(b"CHAT", b"CHAT", 1),
    Step::Boot(b"QUIT", b"QUIT", 2),
    START,
];

/// Calls, their answers and their refusals.
pub static CALLS: [History; 4] = [
    // a call is answered
    (
        Domain::Echo,
        1,
        &[
            BOOT,
            SENT,
            &[
                Step::Return(1, Payload::Text(b"hello")),
                Step::Told(1, 1, Payload::Text(b"hello")),
            ],
            ENDING,
        ],
        None,
    ),
    // a server dies
    (
        Domain::Echo,
        1,
        &[
            BOOT,
            SENT,
            &[Step::Ended(1, Way::Died), DIES],
            GIVEN_OVER,
            &[
                Step::Failed(1, 1, Fault::SvcErr),
                Step::Refused(2, Fault::NoEnt, Shown::Version(2)),
            ],
            PARTING,
        ],
        None,
    ),
    // a call is refused
    (
        Domain::Echo,
        1,
        &[
            BOOT,
            &[Step::Refused(1, Fault::Inval, Shown::Argument)],
            ENDING,
        ],
        None,
    ),
    // one of two servers dies
    (
        Domain::Town,
        2,
        &[&[
            Step::Boot(b"ECHO", b"ECHO", 1),
            Step::Put(0, 0, b"LEN", 2, b"LEN", 2),
            Step::Start(2, 1),
            START,
            Step::Call(1, 2, b"ECHO", b"ECHO", Payload::Text(b"hello")),
            Step::Send(
                2,
                1,
                1,
                2,
                b"LEN",
                2,
                b"LEN",
                7,
                Mode::Reply,
                Payload::Text(b"hello"),
            ),
            Step::Take(2, 1, 2, 1, 1),
            Step::Taken(1, 1),
            Step::Ended(1, Way::Died),
            DIES,
            Step::Gone(1),
            Step::End(2, 1, 2, 1, Way::Success(5, ABSENT)),
            Step::Withdraw(0, 0, b"ECHO", 3),
            Step::Down(1),
            Step::Failed(1, 1, Fault::SvcErr),
            Step::Refused(2, Fault::NoEnt, Shown::Version(3)),
            Step::Leave(1),
            Step::Tell(2, 1, 1, Way::Success(5, ABSENT)),
            Step::Leave(2),
            Step::Close(1),
            Step::Close(2),
            Step::Stop(2, 1, StopCause::Shutdown),
        ]],
        None,
    ),
];

/// Forwards, cancels, and what is refused at a limit.
pub static FORWARDS: [History; 6] = [
    // a call is forwarded twice
    (
        Domain::Passing,
        1,
        &[
            PASSING_BOOT,
            &[
                Step::Call(1, 3, b"A", b"PASS", Payload::Text(b"B C hi")),
                Step::Taken(1, 1),
                Step::Forward(1, b"B", b"PASS", Payload::Text(b"C hi")),
                Step::Taken(1, 2),
                Step::Forward(2, b"C", b"ECHO", Payload::Text(b"hi")),
                Step::Taken(1, 3),
                Step::Return(1, Payload::Text(b"hi")),
                Step::Told(1, 1, Payload::Text(b"hi")),
            ],
            ENDING,
        ],
        None,
    ),
    // a forward fails
    (
        Domain::Passing,
        1,
        &[
            PASSING_BOOT,
            &[
                Step::Call(1, 3, b"A", b"PASS", Payload::Text(b"NONE x")),
                Step::Taken(1, 1),
                Step::Ended(1, Way::BadForward(3)),
                Step::Failed(1, 1, Fault::SvcErr),
            ],
            ENDING,
        ],
        None,
    ),
    // one of three is cancelled
    (
        Domain::Echo,
        1,
        &[
            BOOT,
            &[
                Step::Ask(1, Payload::Text(b"1")),
                Step::Ask(2, Payload::Text(b"2")),
                Step::Ask(3, Payload::Text(b"3")),
                Step::Cancel(4, 2),
                Step::Refused(5, Fault::BadDesc, Shown::Descriptor(2)),
                Step::Taken(1, 1),
                Step::Return(1, Payload::Text(b"1")),
                Step::Taken(2, 2),
                Step::Return(2, Payload::Text(b"2")),
                Step::Taken(3, 3),
                Step::Return(3, Payload::Text(b"3")),
                Step::Told(6, 1, Payload::Text(b"1")),
                Step::Told(7, 3, Payload::Text(b"3")),
                Step::Refused(8, Fault::BadDesc, Shown::Descriptor(0)),
            ],
            ENDING,
        ],
        None,
    ),
    // a queue is full
    (
        Domain::Narrow,
        1,
        &[
            BOOT,
            &[
                Step::Ask(1, ABSENT),
                Step::Refused(2, Fault::Block, Shown::Queue(1)),
                Step::Taken(1, 1),
                Step::Return(1, ABSENT),
                Step::Told(3, 1, ABSENT),
            ],
            ENDING,
        ],
        None,
    ),
    // a reply does not fit
    (
        Domain::Echo,
        1,
        &[
            BOOT,
            &[
                Step::Ask(1, Payload::Entry),
                Step::Taken(1, 1),
                Step::Return(1, Payload::Entry),
                Step::Failed(2, 1, Fault::OType),
                Step::Refused(3, Fault::BadDesc, Shown::Descriptor(1)),
            ],
            ENDING,
        ],
        None,
    ),
    // a call gives up
    (
        Domain::Echo,
        2,
        &[
            BOOT,
            &[
                Step::Prefer(1, 10),
                Step::Send(1, 2, 1, 1, b"ECHO", 1, b"ECHO", 10, Mode::Reply, ABSENT),
                Step::NotYet(3),
                Step::Tick(2, 1, 60),
                Step::Lapse(4, 60, 60),
                DIES,
            ],
            GIVEN_OVER,
            &[
                Step::Sweep(1),
                Step::Cancel(0, 1),
                Step::Leave(1),
                Step::Leave(2),
                Step::Close(1),
            ],
        ],
        None,
    ),
];

/// Servers that end, and a board that changes.
pub static LIVES: [History; 4] = [
    // all descriptors are in use
    (
        Domain::Echo,
        1,
        &[
            BOOT,
            &[
                Step::Each(Each::Ask, 1, 50),
                Step::Refused(51, Fault::Limit, Shown::Cells(50)),
                Step::Each(Each::Serve, 1, 1),
                Step::Told(52, 1, ABSENT),
                Step::Send(1, 53, 51, 1, b"ECHO", 1, b"ECHO", 50, Mode::Reply, ABSENT),
                Step::Each(Each::Cancel, 2, 51),
                Step::Each(Each::Serve, 2, 51),
            ],
            ENDING,
        ],
        None,
    ),
    // a server can't be started
    (
        Domain::Echo,
        1,
        &[
            &[Step::Boot(b"ECHO", b"ECHO", 1), Step::StartFailed(1, 1)],
            GIVEN_OVER,
            &[Step::Refused(1, Fault::NoEnt, Shown::Version(2))],
            PARTING,
        ],
        None,
    ),
    // a server dies twice
    (
        Domain::Restarting,
        1,
        &[
            BOOT,
            &[
                Step::Ask(1, Payload::Text(b"x")),
                Step::Ask(2, Payload::Text(b"y")),
                Step::Ask(3, Payload::Text(b"z")),
                Step::Ask(4, Payload::Text(b"w")),
                Step::Taken(1, 1),
                Step::Ended(1, Way::Died),
                DIES,
                Step::Start(1, 2),
                Step::Failed(5, 1, Fault::SvcErr),
                Step::Take(1, 2, 1, 2, 2),
                Step::End(1, 2, 1, 2, Way::Success(0, Payload::Text(b"y"))),
                Step::Told(6, 2, Payload::Text(b"y")),
                Step::Take(1, 3, 1, 2, 3),
                Step::End(1, 3, 1, 2, Way::Died),
                Step::Stop(1, 2, StopCause::EndOfInput),
            ],
            GIVEN_OVER,
            &[
                Step::Sweep(4),
                Step::Failed(7, 3, Fault::SvcErr),
                Step::Failed(8, 4, Fault::System),
                Step::Refused(9, Fault::NoEnt, Shown::Version(2)),
            ],
            PARTING,
        ],
        None,
    ),
    // a server exits twice
    (
        Domain::Exiting,
        1,
        &[
            &[
                Step::Boot(b"EXIT", b"EXIT", 1),
                START,
                Step::Call(1, 1, b"EXIT", b"EXIT", ABSENT),
                Step::Taken(1, 1),
                Step::Ended(1, Way::Failure(1, ABSENT)),
                Step::Stop(1, 1, StopCause::Exit),
                Step::Start(1, 2),
                Step::Tell(1, 1, 1, Way::Failure(1, ABSENT)),
                Step::Call(2, 1, b"EXIT", b"EXIT", ABSENT),
                Step::Take(1, 2, 1, 2, 2),
                Step::End(1, 2, 1, 2, Way::Failure(1, ABSENT)),
                Step::Stop(1, 2, StopCause::Exit),
                Step::Gone(1),
                Step::Withdraw(0, 0, b"EXIT", 2),
                Step::Down(1),
                Step::Tell(1, 2, 2, Way::Failure(1, ABSENT)),
                Step::Refused(3, Fault::NoEnt, Shown::Version(2)),
            ],
            PARTING,
        ],
        None,
    ),
];

/// Conversations.
pub static TALKS: [History; 4] = [
    // a chat is held
    (
        Domain::Parlour,
        1,
        &[
            PARLOUR_BOOT,
            &[
                Step::Connect(1, b"CHAT", Payload::Text(b"a"), Mode::ConvReceives),
                Step::Taken(1, 1),
                Step::Say(1, 2, b"b", false),
                Step::Hear(2, 1, Heard::Message(b"b", false)),
                Step::Say(1, 3, b"c", true),
                Step::Refused(4, Fault::Proto, Shown::Control(false)),
                Step::Hear(2, 2, Heard::Message(b"c", true)),
                Step::Say(2, 3, b"abc", false),
                Step::Hear(1, 5, Heard::Message(b"abc", false)),
                Step::Say(2, 4, b"cba", false),
                Step::Ended(1, Way::Success(3, Payload::Text(b"bye"))),
                Step::Hear(1, 6, Heard::Message(b"cba", false)),
                Step::Hear(
                    1,
                    7,
                    Heard::Ending(ConvEvent::SvcSucc, 3, Payload::Text(b"bye")),
                ),
                Step::Refused(8, Fault::BadDesc, Shown::Descriptor(1)),
            ],
            ENDING,
        ],
        None,
    ),
    // a chat is broken off
    (
        Domain::Lounge,
        1,
        &[
            LOUNGE_BOOT,
            &[
                Step::Connect(2, b"CHAT", ABSENT, Mode::ConvSends),
                Step::Taken(1, 1),
                Step::Break(1, 2),
                Step::Refused(3, Fault::BadDesc, Shown::Descriptor(1)),
                Step::Refuse(2, 1, Fault::Event, Shown::Ended(0, ConvEvent::DisconImm)),
                Step::Ended(1, Way::Failure(1, ABSENT)),
            ],
            ENDING,
        ],
        None,
    ),
    // a service quits with failure
    (
        Domain::Lounge,
        1,
        &[
            LOUNGE_BOOT,
            &[
                Step::Connect(2, b"QUIT", Payload::Text(b"fail"), Mode::ConvReceives),
                Step::Taken(1, 1),
                Step::Ended(1, Way::Failure(0, ABSENT)),
                Step::Refused(2, Fault::Event, Shown::Ended(1, ConvEvent::SvcFail)),
            ],
            ENDING,
        ],
        None,
    ),
    // a service quits with success
    (
        Domain::Lounge,
        1,
        &[
            LOUNGE_BOOT,
            &[
                Step::Connect(2, b"QUIT", Payload::Text(b"ok"), Mode::ConvReceives),
                Step::Taken(1, 1),
                Step::Ended(1, Way::Success(0, ABSENT)),
                Step::Refused(2, Fault::Event, Shown::Ended(1, ConvEvent::SvcErr)),
            ],
            ENDING,
        ],
        None,
    ),
];

/// A service that is advertised, and requests with one event at fault.
pub static CHANGES: [History; 4] = [
    // a service is advertised
    (
        Domain::Market,
        1,
        &[
            &[
                Step::Boot(b"ADV", b"ADV", 1),
                START,
                Step::Call(1, 1, b"ADV", b"ADV", Payload::Text(b"+ NEW ECHO")),
                Step::Taken(1, 1),
                Step::Put(2, 1, b"NEW", 1, b"ECHO", 2),
                Step::Return(1, Payload::Text(b"OK")),
                Step::Told(1, 1, Payload::Text(b"OK")),
                Step::Call(2, 2, b"NEW", b"ECHO", Payload::Text(b"x")),
                Step::Taken(2, 2),
                Step::Return(2, Payload::Text(b"x")),
                Step::Told(2, 2, Payload::Text(b"x")),
                Step::Call(3, 2, b"ADV", b"ADV", Payload::Text(b"+ NEW LEN")),
                Step::Taken(3, 3),
                Step::Refuse(2, 2, Fault::Match, Shown::Routine(b"ECHO")),
                Step::Return(3, Payload::Text(b"TPEMATCH")),
                Step::Told(3, 3, Payload::Text(b"TPEMATCH")),
                Step::Call(4, 2, b"ADV", b"ADV", Payload::Text(b"- NEW")),
                Step::Taken(4, 4),
                Step::Withdraw(2, 3, b"NEW", 3),
                Step::Return(4, Payload::Text(b"OK")),
                Step::Told(4, 4, Payload::Text(b"OK")),
                Step::Refused(5, Fault::NoEnt, Shown::Version(3)),
                Step::Refused(6, Fault::Proto, Shown::Role),
            ],
            ENDING,
        ],
        None,
    ),
    // a request is forwarded that was ended
    (
        Domain::Passing,
        1,
        &[
            PASSING_BOOT,
            &[
                Step::Call(1, 3, b"A", b"PASS", Payload::Text(b"B x")),
                Step::Taken(1, 1),
                Step::Return(1, Payload::Text(b"x")),
                Step::Forward(1, b"B", b"PASS", Payload::Text(b"x")),
            ],
        ],
        Some(7),
    ),
    // a request is forwarded while a conversation is open
    (
        Domain::Company,
        1,
        &[
            COMPANY_BOOT,
            &[
                Step::Call(1, 3, b"A", b"PASS", Payload::Text(b"B x")),
                Step::Taken(1, 1),
                Step::Send(
                    2,
                    1,
                    1,
                    3,
                    b"CHAT",
                    1,
                    b"CHAT",
                    50,
                    Mode::ConvReceives,
                    ABSENT,
                ),
                Step::Forward(1, b"B", b"PASS", Payload::Text(b"x")),
            ],
        ],
        Some(7),
    ),
    // a queue is swept that is up
    (
        Domain::Echo,
        1,
        &[BOOT, &[Step::Ask(1, ABSENT), Step::Sweep(1)]],
        Some(3),
    ),
];

/// Calls with one event at fault.
pub static FAULTS: [History; 5] = [
    // a client that left sets a priority
    (
        Domain::Echo,
        1,
        &[BOOT, &[Step::Leave(1), Step::Prefer(1, 10)]],
        Some(3),
    ),
    // the clock goes back
    (
        Domain::Echo,
        1,
        &[BOOT, &[Step::Tick(1, 1, 60), Step::Tick(1, 2, 59)]],
        Some(3),
    ),
    // an answered request is cancelled
    (
        Domain::Echo,
        1,
        &[
            BOOT,
            &[
                Step::Ask(1, ABSENT),
                Step::Taken(1, 1),
                Step::Return(1, ABSENT),
                Step::Told(2, 1, ABSENT),
                Step::Cancel(3, 1),
            ],
        ],
        Some(6),
    ),
    // a call gives up a tick early
    (
        Domain::Echo,
        2,
        &[
            BOOT,
            &[
                Step::Ask(1, ABSENT),
                Step::Tick(2, 1, 59),
                Step::Lapse(2, 59, 60),
            ],
        ],
        Some(4),
    ),
    // no reply has come to a descriptor that was cancelled
    (
        Domain::Echo,
        1,
        &[
            BOOT,
            &[Step::Ask(1, ABSENT), Step::Cancel(2, 1), Step::NotYet(3)],
        ],
        Some(4),
    ),
];

/// Conversations with one event at fault, and a request that is taken twice.
pub static TALK_FAULTS: [History; 4] = [
    // an end sends without control
    (
        Domain::Parlour,
        1,
        &[
            PARLOUR_BOOT,
            &[
                Step::Connect(1, b"CHAT", ABSENT, Mode::ConvSends),
                Step::Taken(1, 1),
                Step::Say(1, 2, b"b", false),
            ],
        ],
        Some(4),
    ),
    // a message is skipped
    (
        Domain::Parlour,
        1,
        &[
            PARLOUR_BOOT,
            &[
                Step::Connect(1, b"CHAT", ABSENT, Mode::ConvReceives),
                Step::Taken(1, 1),
                Step::Say(1, 2, b"b", false),
                Step::Say(1, 3, b"c", false),
                Step::Hear(2, 1, Heard::Message(b"c", false)),
            ],
        ],
        Some(6),
    ),
    // a service breaks the conversation
    (
        Domain::Parlour,
        1,
        &[
            PARLOUR_BOOT,
            &[
                Step::Connect(1, b"CHAT", ABSENT, Mode::ConvSends),
                Step::Taken(1, 1),
                Step::Break(2, 1),
            ],
        ],
        Some(4),
    ),
    // a request is taken twice
    (
        Domain::Town,
        1,
        &[&[
            Step::Boot(b"ECHO", b"ECHO", 1),
            Step::Put(0, 0, b"LEN", 2, b"LEN", 2),
            Step::Start(2, 1),
            START,
            Step::Call(1, 2, b"ECHO", b"ECHO", ABSENT),
            Step::Taken(1, 1),
            Step::Ended(1, Way::Died),
            Step::Taken(1, 2),
        ]],
        Some(7),
    ),
];
