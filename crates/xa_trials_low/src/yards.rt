//! Which lives a yard starts, in memory and of the program's own server.
use crate::memory::{ASKED, SAID, gives, link_of, setup_of};
use std::alloc::Global;
use xa_child::LocalYard;
use xa_link::{Link, MemoryLink, MemoryStarter, MemoryYard, StartRefused, Starter, Yard, put};
use xa_types::Generation;

// A starter's place, the generation, and what the life gives; where it can't be started, nothing.
static STARTS: [(usize, u64, Option<&[u8]>); 7] = [
    (0, 0, None),
    (0, 3, Some(b"z")),
    (0, 2, None),
    (0, 1, Some(b"x")),
    (0, 1, None),
    (0, 4, None),
    (1, 1, None),
];

const TWO_SERVERS: &[u8] = b"queue = [{ name = 'Q' }]
server = [{ name = 'S', queue = 'Q' }, { name = 'T', queue = 'Q' }]";

fn life(alloc: Global, text: &[u8]) -> Option<MemoryLink> {
    link_of(alloc, text, [0; 3], 3)
}

// The first server has three lives, of which the second is missing.
fn yard_of(alloc: Global) -> Option<MemoryYard> {
    let lives = [life(alloc, b"x"), None, life(alloc, b"z")];
    let servers = [Vec::from_array(alloc, lives).ok()?];
    Some(MemoryYard::new(alloc, Vec::from_array(alloc, servers).ok()?))
}

// Whether the starter starts what gives these octets; without octets, whether it fails.
fn starts(starter: &mut MemoryStarter, generation: u64, want: Option<&[u8]>) -> bool {
    let server = starter.server();
    match starter.start(&server, Generation(generation)) {
        Ok(mut link) => want.is_some() && gives(&mut link, &[want]),
        Err(refused) => want.is_none() && refused == StartRefused::Failed,
    }
}

// Whether there are two starters, which start what they should.
fn start_each(starters: &mut [MemoryStarter]) -> bool {
    for (place, generation, want) in &STARTS {
        let Some(starter) = starters.get_mut(*place) else {
            return false;
        };
        if !starts(starter, *generation, *want) {
            return false;
        }
    }
    starters.len() == 2
}

fn starters_of<Y: Yard>(alloc: Global, yard: &mut Y) -> Option<Vec<Y::Start>> {
    let setup = setup_of(alloc, TWO_SERVERS)?;
    yard.starters(&setup).ok()
}

fn is_right(alloc: Global, yard: &mut MemoryYard) -> bool {
    match starters_of(alloc, yard) {
        Some(mut starters) => start_each(&mut starters),
        None => false,
    }
}

fn starts_each_life_once(alloc: Global) -> bool {
    match yard_of(alloc) {
        Some(mut yard) => is_right(alloc, &mut yard),
        None => false,
    }
}

#[test]
fn yards_in_memory_start_each_life_once(rt: HostRuntime) {
    assert!(rt; starts_each_life_once(rt.alloc()));
}

// Whether the server's program says that, and takes nothing behind its end.
fn echoes<L: Link>(link: &mut L) -> bool {
    put(link, ASKED).is_ok() && gives(link, &[Some(SAID), Some(b"")]) && put(link, b"x").is_err()
}

fn first_echoes<L: Link + Drop, S: Starter<L>>(starter: &mut S) -> bool {
    let server = starter.server();
    match starter.start(&server, Generation(1)) {
        Ok(mut link) => echoes(&mut link),
        Err(_) => false,
    }
}

fn one_of_two_echoes(alloc: Global) -> bool {
    match starters_of(alloc, &mut LocalYard::new(alloc)) {
        Some(mut starters) => match starters.as_mut_slice() {
            [starter, _] => first_echoes(starter),
            _ => false,
        },
        None => false,
    }
}

#[test]
fn an_echo_comes_from_memory(rt: HostRuntime) {
    assert!(rt; one_of_two_echoes(rt.alloc()));
}
