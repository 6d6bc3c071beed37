//! Scripts that are read, and lines at fault.
ghost use Rattle.std.specs.Prelude.{◌≡◌, true};
ghost use Rattle.xa_types.specs.Configured.{is_configured};

use crate::memory::setup_of;
use crate::rows::none_fails;
use std::alloc::Global;
use xa_script::{Script, ScriptRefused, read, read_upto};
use xa_types::{Data, Op, Setup};

const SETUP: &[u8] = b"queue = [{ name = 'Q' }]\nserver = [{ name = 'S', queue = 'Q' }]\n\
    shape = [{ name = 'entry', fields = ['account int', 'amount long', 'memo string 4', 'rate short', 'mark char'] }]";

// How many clients are read, and the text of the last call of the last one; or the line at fault, and the cause.
type Told<'a> = Result<(usize, Option<&'a [u8]>), (u32, u8)>;

// A script, of how many clients at most, and what is told.
static SCRIPTS: [(&[u8], u16, Told<'static>); 23] = [
    (b"", 64, Ok((0, None))),
    (b"client a", 1, Ok((1, None))),
    (b"client a\r\ncall TEST1 none\r\n", 1, Ok((1, None))),
    (
        b"# c\n\n   \n  client  a \n#x\n call  TEST1   text  \"hello\"  ",
        1,
        Ok((1, Some(b"hello"))),
    ),
    (
        b"client a\ncall TEST1 none\ncall .2 text \"a\\\"b\\\\c # d\"\n",
        1,
        Ok((1, Some(b"a\"b\\c # d"))),
    ),
    (
        b"client a\nclient A\nclient \"a\"\ncall TEST1 text \"\"",
        3,
        Ok((3, Some(b""))),
    ),
    (b"client a\n# \x80\n", 1, Err((2, 1))),
    (b"client .\x1f\n", 1, Err((1, 1))),
    (b"\ncall TEST1 none\nbogus\n", 64, Err((2, 3))),
    (b"client a2345678901234567890123456789012", 64, Err((1, 5))),
    (b"client a\nclient .a\n", 1, Err((2, 5))),
    (b"client a\ncall TEST1 none\nclient a\n", 1, Err((3, 6))),
    (b"client a\nclient b\n\x01\n", 1, Err((2, 7))),
    (b"client a\n\nbogus 1\nclient b\n", 1, Err((3, 2))),
    (b"call TEST1\nclient a\n", 1, Err((1, 3))),
    (b"client a\ncall TEST1 none none\n", 1, Err((2, 4))),
    (b"client a\ncall TEST1 text hello\n", 1, Err((2, 4))),
    (b"client a\ncall TEST1 text \"hello\n", 1, Err((2, 4))),
    (b"client a\ncall TEST1 text \"a\\n\"\n", 1, Err((2, 4))),
    (b"client a\ncall TEST1 text \"a\" x\n", 1, Err((2, 4))),
    (b"client\n", 1, Err((1, 4))),
    (b"client a b\n", 1, Err((1, 4))),
    (b" # c\n", 1, Err((1, 2))),
];

// What is read of a script of at most so many clients; too long a one isn't tried.
fn tried(alloc: Global, setup: &Setup, octets: &[u8], most: u16) -> Result<Script, ScriptRefused>
    requires { is_configured setup.now ≡ true }
{
    if octets.len() > 100_000 || most == 0 || most > 64 {
        Err(ScriptRefused::NoMemory)
    } else if most == 64 {
        read(alloc, octets, setup)
    } else {
        read_upto(alloc, octets, setup, most)
    }
}

// The text of a call.
fn text_of(op: &Op) -> Option<&[u8]> {
    match op {
        Op::Call(ask) => match &ask.payload {
            Data::Octet(octets) => Some(octets.slice()),
            _ => None,
        },
        _ => None,
    }
}

// The text of the last call of the last client.
fn text(script: &Script) -> Option<&[u8]> {
    match script.clients.slice() {
        [.., client] => match client.ops.slice() {
            [.., op] => text_of(op),
            [] => None,
        },
        [] => None,
    }
}

fn has(script: &Script, told: Told) -> bool {
    match told {
        Ok((clients, words)) => { script.clients.slice().len() == clients && text(script) == words }
        Err(_) => false,
    }
}

fn is_fault(refused: ScriptRefused, told: Told) -> bool {
    match told {
        Ok(_) => false,
        Err((line, cause)) => refused == ScriptRefused::BadLine { line, cause },
    }
}

fn is_told(alloc: Global, setup: &Setup, octets: &[u8], most: u16, told: Told) -> bool
    requires { is_configured setup.now ≡ true }
{
    match tried(alloc, setup, octets, most) {
        Ok(script) => has(&script, told),
        Err(refused) => is_fault(refused, told),
    }
}

fn first_not_told(alloc: Global, setup: &Setup) -> Option<usize>
    requires { is_configured setup.now ≡ true }
{
    for (place, (octets, most, told)) in SCRIPTS.iter().enumerate() {
        if !is_told(alloc, setup, octets, *most, *told) {
            return Some(place);
        }
    }
    None
}

// The place of the first that isn't told as it should be; without a setup, of the first.
fn first_not_tried(alloc: Global) -> Option<usize> {
    match setup_of(alloc, SETUP) {
        Some(setup) => first_not_told(alloc, &setup),
        None => Some(0),
    }
}

#[test]
fn scripts_are_read_or_their_first_fault_is_told(rt: HostRuntime) {
    none_fails(&rt, first_not_tried(rt.alloc()));
}

// A line behind that of a client, and its least cause; 0 where it is read.
static LINES: [(&[u8], u8); 121] = [
    (b"bogus", 2),
    (b"Call TEST1 none", 2),
    (b"clients b", 2),
    (b"client", 4),
    (b"client b c", 4),
    (b"call", 4),
    (b"call TEST1", 4),
    (b"call TEST1 maybe", 4),
    (b"call TEST1 none x", 4),
    (b"call TEST1 none noblock notime noreply notran sigrstrt", 0),
    (b"call TEST1 none notran notran", 4),
    (b"call TEST1 none nochange", 4),
    (b"call TEST1 none nochange text", 4),
    (b"call TEST1 none nochange c:other", 8),
    (b"call TEST1 none nochange octet noblock nochange octet", 4),
    (b"call TEST1 none nochange octet", 0),
    (b"call TEST1 none nochange c:entry notime", 0),
    (b"call TEST1 text", 4),
    (b"call TEST1 text hello", 4),
    (b"call TEST1 text \"hello", 4),
    (b"call TEST1 text \"a\\n\"", 4),
    (b"call TEST1 text \"a\" x", 4),
    (b"call TEST1 text \"a\"noblock", 4),
    (b"call TEST1 octet", 4),
    (b"call TEST1 octet 6162", 0),
    (b"call TEST1 octet 616", 4),
    (b"call TEST1 octet 6G", 4),
    (b"call TEST1 octet 6A", 4),
    (b"call TEST1 fill 3", 4),
    (b"call TEST1 fill 3 61", 0),
    (b"call TEST1 fill 70000 00", 0),
    (b"call TEST1 fill 70001 00", 4),
    (b"call TEST1 fill 03 61", 4),
    (b"call TEST1 fill 3 6", 4),
    (b"call TEST1 fill 3 616", 4),
    (b"call TEST1 c", 4),
    (b"call TEST1 c other", 8),
    (b"call TEST1 c other account", 4),
    (b"call TEST1 c entry", 0),
    (
        b"call TEST1 c entry account=7 amount=-9223372036854775808 memo=\"a b\" rate=-32768 mark=255 noblock",
        0,
    ),
    (b"call TEST1 c entry account", 4),
    (b"call TEST1 c entry account=", 4),
    (b"call TEST1 c entry account=7 account=7", 4),
    (b"call TEST1 c entry other=7", 8),
    (b"call TEST1 c entry other=7 other=7", 4),
    (b"call TEST1 c entry .account=7", 4),
    (b"call TEST1 c entry account=07", 4),
    (b"call TEST1 c entry account=-0", 4),
    (b"call TEST1 c entry account=+7", 4),
    (b"call TEST1 c entry account=2147483647", 0),
    (b"call TEST1 c entry account=2147483648", 8),
    (b"call TEST1 c entry account=-2147483648", 0),
    (b"call TEST1 c entry account=-2147483649", 8),
    (b"call TEST1 c entry account=\"7\"", 8),
    (b"call TEST1 c entry amount=9223372036854775808", 8),
    (b"call TEST1 c entry amount=99999999999999999999", 8),
    (b"call TEST1 c entry memo=7", 8),
    (b"call TEST1 c entry memo=\"four\"", 0),
    (b"call TEST1 c entry memo=\"fives\"", 8),
    (b"call TEST1 c entry memo=\"four", 4),
    (b"call TEST1 c entry memo=\"four\"x", 4),
    (b"call TEST1 c entry rate=32768", 8),
    (b"call TEST1 c entry mark=256", 8),
    (b"call TEST1 c entry mark=-1", 8),
    (b"acall", 4),
    (b"acall TEST1 none noreply", 9),
    (b"acall TEST1 c entry account=7 notime noblock", 0),
    (b"acall TEST1 none nochange octet", 4),
    (b"acall TEST1 c other", 8),
    (b"get", 4),
    (b"get x", 4),
    (b"get 01", 4),
    (b"get -1", 4),
    (b"get 18446744073709551615 noblock", 0),
    (b"get 18446744073709551616", 4),
    (b"get 1 2", 4),
    (b"get 1 nochange c:entry", 0),
    (b"get 1 nochange c:other", 8),
    (b"getany", 0),
    (b"getany nochange octet noreply noblock", 0),
    (b"getany 1", 4),
    (b"getany nochange c:other notime", 8),
    (b"cancel", 4),
    (b"cancel 1", 0),
    (b"cancel 1 noblock", 4),
    (b"connect TEST1 none", 4),
    (b"connect TEST1 none up", 4),
    (b"connect TEST1 none both notime", 9),
    (b"connect TEST1 c entry account=7 recv", 9),
    (b"connect TEST1 c other neither", 8),
    (b"connect TEST1 none send send", 4),
    (b"send", 4),
    (b"send 1", 4),
    (b"send 1 none noblock", 9),
    (b"send 1 none recv noblock", 9),
    (b"send 1 none noblock recv", 4),
    (b"send 1 c other", 8),
    (b"recv", 4),
    (b"recv 1 noblock", 9),
    (b"recv 1 nochange octet", 4),
    (b"discon", 4),
    (b"discon 1", 9),
    (b"discon 1 1", 4),
    (b"prio abs", 4),
    (b"prio up 1", 4),
    (b"prio abs 1000", 0),
    (b"prio abs 1001", 4),
    (b"prio add -1000", 0),
    (b"prio add -1001", 4),
    (b"prio add 1 1", 4),
    (b"advertise A", 4),
    (b"advertise A B", 0),
    (b"advertise A B C", 4),
    (b"unadvertise", 4),
    (b"unadvertise A", 0),
    (b"unadvertise A B", 4),
    (b"tick", 4),
    (b"tick 0", 4),
    (b"tick 2147483647", 0),
    (b"tick 2147483648", 4),
    (b"tick 1 1", 4),
];

fn line_is_told(alloc: Global, setup: &Setup, line: &[u8], cause: u8) -> bool
    requires { is_configured setup.now ≡ true }
{
    let mut script = Vec::new(alloc);
    if script.extend_from_slice(b"client a\n").is_err() || script.extend_from_slice(line).is_err() {
        return false;
    }
    match tried(alloc, setup, &script, 2) {
        Ok(_) => cause == 0,
        Err(refused) => refused == ScriptRefused::BadLine { line: 2, cause },
    }
}

fn first_line_not_told(alloc: Global, setup: &Setup) -> Option<usize>
    requires { is_configured setup.now ≡ true }
{
    for (place, (line, cause)) in LINES.iter().enumerate() {
        if !line_is_told(alloc, setup, line, *cause) {
            return Some(place);
        }
    }
    None
}

// The place of the first line that isn't told as it should be; without a setup, of the first.
fn first_line_not_tried(alloc: Global) -> Option<usize> {
    match setup_of(alloc, SETUP) {
        Some(setup) => first_line_not_told(alloc, &setup),
        None => Some(0),
    }
}

#[test]
fn lines_are_read_or_their_least_cause_is_told(rt: HostRuntime) {
    none_fails(&rt, first_line_not_tried(rt.alloc()));
}

// The lines of 65 clients, of nine octets each.
const CLIENTS: &[u8] =
    b"client A\nclient B\nclient C\nclient D\nclient E\nclient F\nclient G\nclient H\nclient I\nclient J\n\
    client K\nclient L\nclient M\nclient N\nclient O\nclient P\nclient Q\nclient R\nclient S\nclient T\n\
    client U\nclient V\nclient W\nclient X\nclient Y\nclient Z\nclient a\nclient b\nclient c\nclient d\n\
    client e\nclient f\nclient g\nclient h\nclient i\nclient j\nclient k\nclient l\nclient m\nclient n\n\
    client o\nclient p\nclient q\nclient r\nclient s\nclient t\nclient u\nclient v\nclient w\nclient x\n\
    client y\nclient z\nclient 0\nclient 1\nclient 2\nclient 3\nclient 4\nclient 5\nclient 6\nclient 7\n\
    client 8\nclient 9\nclient +\nclient -\nclient _\n";

fn push_many(octets: &mut Vec<u8>, octet: u8, count: usize) -> bool {
    octets
        .resize(octets.len().saturating_add(count), octet)
        .is_ok()
}

// A script of one call, whose service and text have so many octets.
fn push_call(octets: &mut Vec<u8>, service: usize, text: usize) -> bool {
    octets.extend_from_slice(b"client a\ncall ").is_ok()
        && push_many(octets, b'S', service)
        && octets.extend_from_slice(b" text \"").is_ok()
        && push_many(octets, b'x', text)
        && octets.push(b'"').is_ok()
}

fn is_longest(alloc: Global, setup: &Setup) -> bool
    requires { is_configured setup.now ≡ true }
{
    let mut script = Vec::new(alloc);
    push_call(&mut script, 255, 65_537)
        && is_told(alloc, setup, &script, 1, Ok((1, script.get(276..65_813))))
}

fn is_too_long(alloc: Global, setup: &Setup) -> bool
    requires { is_configured setup.now ≡ true }
{
    let mut script = Vec::new(alloc);
    push_call(&mut script, 256, 0) && is_told(alloc, setup, &script, 1, Err((2, 4)))
}

fn clients_have_an_end(alloc: Global, setup: &Setup) -> bool
    requires { is_configured setup.now ≡ true }
{
    is_told(alloc, setup, &CLIENTS[..576], 64, Ok((64, None)))
        && is_told(alloc, setup, CLIENTS, 64, Err((65, 7)))
}

fn all_has_an_end(alloc: Global) -> bool {
    match setup_of(alloc, SETUP) {
        Some(setup) => {
            clients_have_an_end(alloc, &setup)
                && is_longest(alloc, &setup)
                && is_too_long(alloc, &setup)
        }
        None => false,
    }
}

#[test]
fn scripts_have_64_clients_and_services_255_octets_at_most(rt: HostRuntime) {
    assert!(rt; all_has_an_end(rt.alloc()));
}
