// What a domain leaves is handed back.
ghost use Rattle.std.specs.Prelude.{◌≡◌, List, length};
ghost use Rattle.xa_history.specs.xa_script.declared.script.Client.{Client};
ghost use Rattle.xa_domain.specs.Room.{HasRoom};
ghost use Rattle.xa_domain.specs.Joined.{IsJoined};
ghost use Rattle.xa_domain.specs.Handed.{HandsBack, halt_of};

use crate::gathering::{Gathered, gather};
use crate::homes::close_homes;
use crate::room::Room;
use xa_boot::Booted;
use xa_boot::desk::Stopped;
use xa_boot::link::{Link, Starter};
use xa_boot::links::CutLife;
use xa_boot::pipe::EndedLife;
use xa_boot::stamp::Record;
use xa_boot::work::Halt;

/// How a script was served: why the run halted, if it did; the homes of the board, the queues, the clock and the callers,
/// in this order; and by server its lives that ended, the one that went on at a halt, and its starter. Where memory ran out
/// before the boot there are no homes, and where it ran out before that no starters.
pub struct Served<L: Link, T> {
    pub halt: Option<Halt>,
    pub homes: Record,
    pub lives: Vec<Vec<EndedLife<L>>>,
    pub cut: Vec<Option<CutLife<L>>>,
    pub starters: Vec<T>,
}

// Why the run halted. Where a worker only saw that another one halted, and none came to a halt itself, memory ran out.
fn halt_of(stopped: Option<Stopped>) -> Option<Halt>
    ensures { result ≡ halt_of stopped }
{
    match stopped {
        None => None,
        Some(Stopped::Here(halt)) => Some(halt),
        Some(Stopped::Elsewhere) => Some(Halt::NoMemory),
    }
}

/// Brings together what the workers of a domain leave, once each of them is done, and hands it back. It takes no memory.
pub fn hand_back<L: Link, T: Starter<L>>(booted: Booted<L, T>, room: Room<L, T>) -> Served<L, T>
    requires room { HasRoom (length booted.domain.setup.queues) booted.domain.clients (length booted.domain.setup.servers) room }
    requires joined { (scripts : List Client) × IsJoined T.shows scripts booted }
    ensures { (scripts : List Client) → IsJoined T.shows scripts booted
        → HandsBack T.shows scripts booted result }
{
    let Booted {
        domain,
        clients,
        servers,
        closer,
    } = booted;
    let Room {
        tokens,
        homes,
        callers,
        lives,
        cut,
        starters,
    } = room;
    let room = Gathered {
        tokens,
        callers,
        stopped: None,
        lives,
        cut,
        starters,
    };
    let Gathered {
        tokens,
        callers,
        stopped,
        lives,
        cut,
        starters,
    } = gather(&domain, clients, servers, closer, room);
    Served {
        halt: halt_of(stopped),
        homes: close_homes(domain, tokens, homes, callers),
        lives,
        cut,
        starters,
    }
}
