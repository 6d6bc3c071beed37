//! Servers with several lives, by what their programs say: what each call is told, which lives are noted, and how the
//! server ends. Which starts count once the clock has moved is tried with the rule itself.
use crate::lives::{Life, NEXT, READY, SOUND};
use crate::restarts::{NONE, Noted, ONE, TWO, serves_one_of};
use crate::rows::none_fails;
use crate::running::Runtime;
use xa_program::events::StopCause;

const ONE_LIFE: &[u8] = b"[[queue]]\nname = \"Q\"\n\
    [[server]]\nname = \"S\"\nqueue = \"Q\"\nrestart = true\ngrace = 10\n\
    [[service]]\nname = \"ECHO\"\nqueues = [\"Q\"]\n";

const TWO_LIVES: &[u8] = b"[[queue]]\nname = \"Q\"\n\
    [[server]]\nname = \"S\"\nqueue = \"Q\"\nrestart = true\nmaxgen = 2\ngrace = 10\n\
    [[service]]\nname = \"ECHO\"\nqueues = [\"Q\"]\n";

const THREE_LIVES: &[u8] = b"[[queue]]\nname = \"Q\"\n\
    [[server]]\nname = \"S\"\nqueue = \"Q\"\nrestart = true\nmaxgen = 3\ngrace = 10\n\
    [[service]]\nname = \"ECHO\"\nqueues = [\"Q\"]\n";

const FOUR_LIVES: &[u8] = b"[[queue]]\nname = \"Q\"\n\
    [[server]]\nname = \"S\"\nqueue = \"Q\"\nrestart = true\nmaxgen = 4\ngrace = 10\n\
    [[service]]\nname = \"ECHO\"\nqueues = [\"Q\"]\n";

const SEVEN_LIVES: &[u8] = b"[[queue]]\nname = \"Q\"\n\
    [[server]]\nname = \"S\"\nqueue = \"Q\"\nrestart = true\nmaxgen = 7\ngrace = 10\n\
    [[service]]\nname = \"ECHO\"\nqueues = [\"Q\"]\n";

const NO_RESTART: &[u8] = b"[[queue]]\nname = \"Q\"\n\
    [[server]]\nname = \"S\"\nqueue = \"Q\"\nmaxgen = 9\ngrace = 10\n\
    [[service]]\nname = \"ECHO\"\nqueues = [\"Q\"]\n";

// RETURNs to the first invocation without data: by TPSUCCESS, by TPFAIL and by TPEXIT.
const RETURN: &[u8] = b"XA\x01\x04\0\0\0\x06\0\0\0\x01\0\0\0\0\x07\0";

const FAIL: &[u8] = b"XA\x01\x04\0\0\0\x06\0\0\0\x01\x01\0\0\0\x07\0";

const EXIT: &[u8] = b"XA\x01\x04\0\0\0\x06\0\0\0\x01\x02\0\0\0\x07\0";

// By TPSUCCESS and by TPEXIT with X_C_TYPE of a subtype that isn't configured, which isn't sound.
const UNSOUND: &[u8] = b"XA\x01\x04\0\0\0\x0f\0\0\0\x01\0\0\0\0\x07\x02\x04pair\0\0\0\0";

const UNSOUND_EXIT: &[u8] = b"XA\x01\x04\0\0\0\x0f\0\0\0\x01\x02\0\0\0\x07\x02\x04pair\0\0\0\0";

const WAITS: Option<Life<'static>> = Some((&[READY, NEXT], SOUND));

const RETURNS: Option<Life<'static>> = Some((&[READY, NEXT, RETURN], SOUND));

const EXITS: Option<Life<'static>> = Some((&[READY, NEXT, EXIT], SOUND));

const THREE: &[u8] = b"client a\ncall ECHO none\ncall ECHO none\ncall ECHO none\n";

const SIX: &[u8] = b"client a\ncall ECHO none\ncall ECHO none\ncall ECHO none\n\
    call ECHO none\ncall ECHO none\ncall ECHO none\n";

const FAILED_THRICE: &[&[u8]] = &[
    b"a 1 TPESVCFAIL 7 none\na 2 TPESVCFAIL 7 none\na 3 TPESVCFAIL 7 none\n",
];

const ENDED: Noted = Noted::Stop(StopCause::EndOfInput);

const EXITED: Noted = Noted::Stop(StopCause::Exit);

const SHUT: Noted = Noted::Stop(StopCause::Shutdown);

// The configuration, the script, the server's lives or `None` where it can't be started, the transcripts that may come, and
// what is noted. A call that comes as the last life ends behind its answer is swept from the queue, or finds no row of it.
type Row = (
    &'static [u8],
    &'static [u8],
    &'static [Option<Life<'static>>],
    &'static [&'static [u8]],
    &'static [Noted],
);

static ROWS: [Row; 10] = [
    // Each way in which a life ends.
    (
        SEVEN_LIVES,
        SIX,
        &[
            None,
            Some((&[], SOUND)),
            WAITS,
            Some((&[READY, NEXT, b"nonsense, no frame"], SOUND)),
            RETURNS,
            Some((&[READY, NEXT, FAIL], SOUND)),
            Some((&[READY, NEXT, UNSOUND], SOUND)),
        ],
        &[
            b"a 1 TPESVCERR\na 2 TPESVCERR\na 3 OK 7 none\na 4 TPESVCFAIL 7 none\na 5 TPESVCERR\na 6 TPENOENT\n",
            b"a 1 TPESVCERR\na 2 TPESVCERR\na 3 OK 7 none\na 4 TPESVCFAIL 7 none\na 5 TPESVCERR\na 6 TPESYSTEM\n",
        ],
        &[
            Noted::StartFailed(1),
            Noted::Start(2),
            ENDED,
            Noted::Start(3),
            ENDED,
            Noted::Start(4),
            Noted::Stop(StopCause::BadBytes(26)),
            Noted::Start(5),
            ENDED,
            Noted::Start(6),
            ENDED,
            Noted::Start(7),
            ENDED,
            Noted::Gone,
        ],
    ),
    (
        TWO_LIVES,
        THREE,
        &[EXITS, Some((&[READY, NEXT, UNSOUND_EXIT], SOUND))],
        &[b"a 1 TPESVCFAIL 7 none\na 2 TPESVCERR\na 3 TPENOENT\n"],
        &[
            Noted::Start(1),
            EXITED,
            Noted::Start(2),
            EXITED,
            Noted::Gone,
        ],
    ),
    // Its next life is told to end.
    (
        FOUR_LIVES,
        THREE,
        &[EXITS, EXITS, EXITS, WAITS],
        FAILED_THRICE,
        &[
            Noted::Start(1),
            EXITED,
            Noted::Start(2),
            EXITED,
            Noted::Start(3),
            EXITED,
            Noted::Start(4),
            SHUT,
        ],
    ),
    // A second RETURN, out of turn.
    (
        THREE_LIVES,
        THREE,
        &[WAITS, None, Some((&[READY, NEXT, RETURN, RETURN], SOUND))],
        &[
            b"a 1 TPESVCERR\na 2 OK 7 none\na 3 TPENOENT\n",
            b"a 1 TPESVCERR\na 2 OK 7 none\na 3 TPESYSTEM\n",
        ],
        &[
            Noted::Start(1),
            ENDED,
            Noted::StartFailed(2),
            Noted::Start(3),
            Noted::Stop(StopCause::OutOfTurn(4, 1)),
            Noted::Gone,
        ],
    ),
    // One that doesn't greet, and one that says more behind its TPEXIT.
    (
        FOUR_LIVES,
        ONE,
        &[
            Some((&[NEXT], SOUND)),
            None,
            Some((&[READY, NEXT, EXIT, b"XA"], SOUND)),
            WAITS,
        ],
        &[b"a 1 TPESVCFAIL 7 none\n"],
        &[
            Noted::Start(1),
            Noted::Stop(StopCause::OutOfTurn(2, 0)),
            Noted::StartFailed(2),
            Noted::Start(3),
            EXITED,
            Noted::Start(4),
            SHUT,
        ],
    ),
    // Starts that fail count.
    (
        THREE_LIVES,
        TWO,
        &[None, None, RETURNS],
        &[
            b"a 1 OK 7 none\na 2 TPENOENT\n",
            b"a 1 OK 7 none\na 2 TPESYSTEM\n",
        ],
        &[
            Noted::StartFailed(1),
            Noted::StartFailed(2),
            Noted::Start(3),
            ENDED,
            Noted::Gone,
        ],
    ),
    // Without RESTART there is one life.
    (
        NO_RESTART,
        TWO,
        &[RETURNS, RETURNS],
        &[
            b"a 1 OK 7 none\na 2 TPENOENT\n",
            b"a 1 OK 7 none\na 2 TPESYSTEM\n",
        ],
        &[Noted::Start(1), ENDED, Noted::Gone],
    ),
    (NO_RESTART, NONE, &[WAITS], &[b""], &[Noted::Start(1), SHUT]),
    (
        ONE_LIFE,
        ONE,
        &[None, WAITS],
        &[b"a 1 TPENOENT\n"],
        &[Noted::StartFailed(1), Noted::Gone],
    ),
    (ONE_LIFE, NONE, &[WAITS], &[b""], &[Noted::Start(1), SHUT]),
];

fn first_not_served<R: Runtime>(rt: &R) -> Option<usize> {
    for (place, row) in ROWS.iter().enumerate() {
        let (config, script, lives, wrote, noted) = *row;
        if !serves_one_of(rt, (config, script), lives, wrote, noted) {
            return Some(place);
        }
    }
    None
}

#[test]
fn servers_end_and_start_again(rt: HostRuntime) {
    none_fails(&rt, first_not_served(&rt));
}
