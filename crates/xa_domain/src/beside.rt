// Workers beside each other, each on a thread of its own, with what they share.
ghost use Rattle.std.specs.Prelude.{◌≡◌, ◌+◌, ◌<◌, ◌^◌, length};
ghost use Rattle.std.specs.Thread.{IsSync, IsSend};
ghost use Rattle.xa_domain.specs.Beside.{MayWorkAt, WorkedAt, EachMayWorkFrom, EachWorkedFrom, EachMayWork, EachWorked};

use crate::forks::{Halting, fork};
use std::sync::Wait;
use std::thread::Threads;

// One worker works at its place.
fn work_at<S, W, F: Fn(&S, usize, &mut W)>(shared: &S, place: usize, worker: &mut W, work: &F)
    requires { MayWorkAt F.Fn work.now shared.now place worker.old }
    ensures { WorkedAt F.Fn work.now shared.now place worker.old worker.new }
{
    work(shared, place, worker);
}

// Each works on a thread of its own. The first has that place.
#[cycle(all)]
fn all_from<R: Threads + Wait + Sync, S: Halting + Sync, W: Send, F: Fn(&S, usize, &mut W) + Sync>(
    rt: &R,
    shared: &S,
    from: usize,
    work: &F,
    workers: &mut [W],
)
    requires room { from + length workers.old < 2 ^ 64 }
    requires may { EachMayWorkFrom F.Fn work.now shared.now from workers.old }
    ensures { EachWorkedFrom F.Fn work.now shared.now from workers.old workers.new }
{
    let Some((first, rest)) = workers.split_first_mut() else {
        return;
    };
    if rest.is_empty() {
        work_at(shared, from, first, work);
    } else {
        first_beside_rest(rt, shared, from, work, first, rest);
    }
}

// A function of its own, so that what its closures require is what it is given.
#[cycle(all)]
fn first_beside_rest<
    R: Threads + Wait + Sync,
    S: Halting + Sync,
    W: Send,
    F: Fn(&S, usize, &mut W) + Sync,
>(rt: &R, shared: &S, from: usize, work: &F, first: &mut W, rest: &mut [W])
    requires room { from + 1 + length rest.old < 2 ^ 64 }
    requires first { MayWorkAt F.Fn work.now shared.now from first.old }
    requires rest { EachMayWorkFrom F.Fn work.now shared.now (from + 1) rest.old }
    ensures first { WorkedAt F.Fn work.now shared.now from first.old first.new }
    ensures rest { EachWorkedFrom F.Fn work.now shared.now (from + 1) rest.old rest.new }
{
    let next = from + 1;
    fork(
        rt,
        shared,
        &mut ||
            requires { MayWorkAt F.Fn work.now shared.now from first.now }
            ensures { WorkedAt F.Fn work.entry.now shared.entry.now from first.entry.now first.exit.now }
        { work_at(shared, from, first, work) },
        &mut ||
            requires { IsSync R.row × IsSync S.row × IsSync F.row × IsSend W.row × (next + length rest.now < 2 ^ 64) × EachMayWorkFrom F.Fn work.now shared.now next rest.now }
            ensures { EachWorkedFrom F.Fn work.entry.now shared.entry.now next rest.entry.now rest.exit.now }
        { all_from(rt, shared, next, work, rest) },
    );
}

// Each works on a thread of its own, at its place among them.
pub(crate) fn all_at_work<
    R: Threads + Wait + Sync,
    S: Halting + Sync,
    W: Send,
    F: Fn(&S, usize, &mut W) + Sync,
>(rt: &R, shared: &S, workers: &mut [W], work: &F)
    requires { EachMayWork F.Fn work.now shared.now workers.old }
    ensures { EachWorked F.Fn work.now shared.now workers.old workers.new }
{
    all_from(rt, shared, 0, work, workers);
}

// The first works on a thread of its own at place 0, and the second in this one at place 1.
pub(crate) fn both_at_work<
    R: Threads + Wait,
    S: Halting + Sync,
    A: Send,
    B,
    F: Fn(&S, usize, &mut A) + Sync,
    G: Fn(&S, usize, &mut B),
>(rt: &R, shared: &S, first: &mut A, second: &mut B, first_work: &F, second_work: &G)
    requires first { MayWorkAt F.Fn first_work.now shared.now 0 first.old }
    requires second { MayWorkAt G.Fn second_work.now shared.now 1 second.old }
    ensures first { WorkedAt F.Fn first_work.now shared.now 0 first.old first.new }
    ensures second { WorkedAt G.Fn second_work.now shared.now 1 second.old second.new }
{
    fork(
        rt,
        shared,
        &mut ||
            requires { MayWorkAt F.Fn first_work.now shared.now 0 first.now }
            ensures { WorkedAt F.Fn first_work.entry.now shared.entry.now 0 first.entry.now first.exit.now }
        { work_at(shared, 0, first, first_work) },
        &mut ||
            requires { MayWorkAt G.Fn second_work.now shared.now 1 second.now }
            ensures { WorkedAt G.Fn second_work.entry.now shared.entry.now 1 second.entry.now second.exit.now }
        { work_at(shared, 1, second, second_work) },
    );
}
