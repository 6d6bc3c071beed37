ghost use Rattle.std.specs.Prelude.{◌≡◌, ◌∷◌, [], ◌<◌, ◌≤◌, ◌^◌, Ok, true, length, IfOk, IfErr, IfSome, MatchOption};
ghost use Rattle.std.specs.List.{position};
ghost use Rattle.std.specs.Str.Lines.{lines, strip_carriage_return};
ghost use Rattle.xa_types.specs.Configured.{is_configured};
ghost use Rattle.xa_script.specs.Script.{IsScript, IsScriptOf};
ghost use Rattle.xa_script.specs.Readings.{NamesFirstFault, OneScript, NoFaultyScript, OneFirstFault, SoundIsScript};
ghost use Rattle.xa_script.specs.Draft.{is_line_end};

use crate::draft::Draft;
use crate::structures::Shaped;
use memchr::memchr;
use std::alloc::Global;
use xa_types::{Name, NoMemory, Op, Sequence, Setup};

/// How many clients a script may have.
const MOST_CLIENTS: u16 = 64;

/// A client of a script: its name and its calls, in order.
#[derive(Drop)]
pub struct Client {
    pub name: Name,
    pub ops: Sequence<Op>,
}

/// A script: its clients, in order.
#[derive(Drop)]
pub struct Script {
    pub clients: Sequence<Client>,
}

/// Why a script was not read. Lines count from 1.
#[derive(Clone, Copy, Debug, PartialEq, Eq)]
pub enum ScriptRefused {
    BadLine { line: u32, cause: u8 },
    NoMemory,
}

impl From<NoMemory> for ScriptRefused {
    ghost use Rattle.std.specs.Prelude.{◌≡◌};
    ghost use Rattle.xa_script.specs.declared.script.ScriptRefused.TheVariants.{NoMemory};

    ghost from_gives = { λ _ e. e ≡ NoMemory };

    fn from(_: NoMemory) -> Self {
        ScriptRefused::NoMemory
    }
}

fn without_return(line: &[u8]) -> &[u8]
    ensures { result.now ≡ strip_carriage_return line.now }
{
    match line {
        [front @ .., b'\r'] => front,
        _ => line,
    }
}

fn line_len(octets: &[u8]) -> Option<usize>
    ensures { result ≡ position is_line_end octets.now }
{
    memchr(b'\n', octets)
}

// The first line, and what stands behind it.
fn next_line(octets: &[u8]) -> Option<(&[u8], &[u8])>
    ensures line { MatchOption result (lines octets.now ≡ []) (λ x. lines octets.now ≡ x.0.now ∷ lines x.1.now) }
    ensures shorter { IfSome result (λ x. length x.1.now < length octets.now) }
{
    if octets.is_empty() {
        return None;
    }
    match line_len(octets) {
        Some(end) => Some((without_return(&octets[..end]), &octets[end + 1..])),
        None => Some((octets, &octets[octets.len()..])),
    }
}

fn read_lines(
    alloc: Global,
    octets: &[u8],
    setup: &Shaped,
    most: u16,
) -> Result<Draft, ScriptRefused>
    requires { length octets.now < 2 ^ 32 }
    ensures found { IfOk result (IsScriptOf setup.now most (lines octets.now)) }
    ensures refused { IfErr result (NamesFirstFault setup.now most octets.now) }
{
    let mut draft = Draft::new(alloc);
    let mut rest = octets;
    let mut line = 0;
    while let Some((text, behind)) = next_line(rest) {
        line += 1;
        if let Some(cause) = draft.take_line(alloc, setup, most, text)? {
            let cause = cause.number();
            return Err(ScriptRefused::BadLine { line, cause });
        }
        rest = behind;
    }
    Ok(draft)
}

/// Reads a script, of fewer than 2^32 octets and at most so many clients, of which there may be 1 to 64.
///
/// A refusal is for want of memory, or names the first line at fault and the least of its causes: 1 an octet outside
/// 0x20 to 0x7E, 2 a first word that is no listed one, 3 a call before any client, 4 a word that is missing, too many
/// or not of its form, 5 a client whose word is no name, 6 one whose name an earlier client has, 7 one client more than
/// there may be, 8 a subtype, field, value or kind that the setup doesn't take, 9 a call that is not served: all but a
/// tpcall, the setting of a priority, and a change of the board.
pub fn read_upto(
    alloc: Global,
    octets: &[u8],
    setup: &Setup,
    clients: u16,
) -> Result<Script, ScriptRefused>
    requires short { length octets.now < 2 ^ 32 }
    requires configured { is_configured setup.now ≡ true }
    requires clients { (1 ≤ clients) × (clients ≤ 64) }
    ensures found { IfOk result (IsScript setup.now clients octets.now) }
    ensures refused { IfErr result (NamesFirstFault setup.now clients octets.now) }
{
    let setup = Shaped::new(alloc, setup)?;
    let draft = read_lines(alloc, octets, &setup, clients)?;
    Ok(draft.finish()?)
}

/// `read_upto` with 64 clients.
pub fn read(alloc: Global, octets: &[u8], setup: &Setup) -> Result<Script, ScriptRefused>
    requires short { length octets.now < 2 ^ 32 }
    requires configured { is_configured setup.now ≡ true }
    ensures found { IfOk result (IsScript setup.now 64 octets.now) }
    ensures refused { IfErr result (NamesFirstFault setup.now 64 octets.now) }
{
    read_upto(alloc, octets, setup, MOST_CLIENTS)
}

/// What `read_upto` answers is determined: the octets are one script at most, and none where a line is at fault; one
/// line at most is the first at fault, with one least cause; and where none is, the octets are a script.
pub fn one_reading()
    ensures script { OneScript }
    ensures fault { NoFaultyScript }
    ensures line { OneFirstFault }
    ensures sound { SoundIsScript }
{}
