//! The pool of blocks: what one worker is told of a pool with one block, what a block has room for, and two workers that
//! take and give.
ghost use Rattle.std.specs.Prelude.{◌≡◌, ◌++◌, [], ◌∷◌, vec_capacity};
ghost use Rattle.xa_pool.specs.Known.{IsPassOf};

use std::process::Abort;
use std::sync::Wait;
use std::thread::{Threads, join_mut};
use xa_pool::{Block, BlockPass, Pool};

const ROUNDS: u32 = 10_000;

#[derive(Clone, Copy)]
enum Call {
    Take,
    Give,
}

// Calls of one worker at a pool with one block, and whether each gets or gives a block.
static CALLS: [(Call, bool); 5] = [
    (Call::Take, true),
    (Call::Take, false),
    (Call::Give, true),
    (Call::Take, true),
    (Call::Give, true),
];

// How many octets are put into a block, and how many are in it then.
static SIZES: [(usize, usize); 5] = [
    (3, 3),
    (65_537, 3),
    (65_536, 65_536),
    (65_537, 65_536),
    (0, 0),
];

// Takes a block, or gives back the one that is held. Whether it did.
fn gets_or_gives<R: Wait>(
    rt: &R,
    pool: &Pool,
    pass: &mut BlockPass,
    held: &mut Option<Block>,
    call: Call,
) -> bool
    requires { IsPassOf pool.now pass.old }
    ensures { IsPassOf pool.now pass.new }
{
    match (call, held.take()) {
        (Call::Take, None) => {
            *held = pool.take(rt, pass).ok();
            held.is_some()
        }
        (Call::Give, Some(block)) => pool.give(rt, pass, block).is_ok(),
        (_, other) => {
            *held = other;
            false
        }
    }
}

fn are_answered<R: Wait>(rt: &R, pool: &Pool, pass: &mut BlockPass) -> bool
    requires { IsPassOf pool.now pass.old }
    ensures { IsPassOf pool.now pass.new }
{
    let mut held = None;
    for &(call, wanted) in &CALLS {
        if gets_or_gives(rt, pool, pass, &mut held, call) != wanted {
            return false;
        }
    }
    true
}

// Puts so many octets into a block that is taken, one size after another, and gives it back.
fn are_held<R: Wait>(rt: &R, pool: &Pool, pass: &mut BlockPass, octets: &[u8]) -> bool
    requires { IsPassOf pool.now pass.old }
    ensures { IsPassOf pool.now pass.new }
{
    let Ok(mut block) = pool.take(rt, pass) else {
        return false;
    };
    for &(put, stand) in &SIZES {
        if put > octets.len() {
            return false;
        }
        let is_put = block.fill(&octets[..put]).is_ok();
        if is_put != (put == stand) || block.octets().len() != stand {
            return false;
        }
    }
    pool.give(rt, pass, block).is_ok()
}

// Takes a block wherever one is at home, and gives it back. Whether each was empty and its own while it had it.
fn are_own<R: Wait>(rt: &R, pool: &Pool, pass: &mut BlockPass, mark: u8) -> bool
    requires { IsPassOf pool.now pass.old }
    ensures { IsPassOf pool.now pass.new }
{
    for _ in 0..ROUNDS {
        let Ok(mut block) = pool.take(rt, pass) else {
            continue;
        };
        let is_own = block.octets().is_empty()
            && block.fill(&[mark]).is_ok()
            && block.octets().first() == Some(&mark);
        if pool.give(rt, pass, block).is_err() || !is_own {
            return false;
        }
    }
    true
}

fn next_pass<R: Abort>(rt: &R, passes: &mut Vec<BlockPass>) -> BlockPass
    ensures items { passes.old.items ≡ passes.new.items ++ result ∷ [] }
    ensures room { vec_capacity passes.new ≡ vec_capacity passes.old }
{
    match passes.pop() {
        Some(pass) => pass,
        None => panic!(rt; "no pass"),
    }
}

#[test]
fn one_block_is_taken_and_given(rt: HostRuntime) {
    let Ok((pool, mut passes)) = Pool::new(&rt, rt.alloc(), 1, 1) else {
        panic!(rt; "no memory")
    };
    let Ok(octets) = Vec::from_elem(rt.alloc(), 7, 65_537) else {
        panic!(rt; "no memory")
    };
    let mut pass = next_pass(&rt, &mut passes);
    let right = are_answered(&rt, &pool, &mut pass);
    let held = are_held(&rt, &pool, &mut pass, &octets);
    passes.push_reserved(pass);
    let home = pool.close(passes);
    assert!(rt; right && held && home == 1);
}

// Two workers on two threads.
fn are_own_to_each<R: Threads + Wait + Sync>(
    rt: &R,
    pool: &Pool,
    one: &mut BlockPass,
    other: &mut BlockPass,
) -> bool
    requires { IsPassOf pool.now one.old × IsPassOf pool.now other.old }
    ensures { IsPassOf pool.now one.new × IsPassOf pool.now other.new }
{
    let (first, second) = join_mut(
        rt,
        &mut || are_own(rt, pool, one, 1),
        &mut || are_own(rt, pool, other, 2),
    );
    first && second
}

#[test]
fn all_blocks_come_home(rt: HostRuntime) {
    let Ok((pool, mut passes)) = Pool::new(&rt, rt.alloc(), 1, 2) else {
        panic!(rt; "no memory")
    };
    let mut one = next_pass(&rt, &mut passes);
    let mut other = next_pass(&rt, &mut passes);
    let right = are_own_to_each(&rt, &pool, &mut one, &mut other);
    passes.push_reserved(other);
    passes.push_reserved(one);
    let home = pool.close(passes);
    assert!(rt; right && home == 1);
}
