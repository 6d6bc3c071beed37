// Two closures beside each other, and a halt where no thread can be made for the first. The kit's `join_mut` tells nobody that
// it made none, and calls the first last, for which the second may wait.
ghost use Rattle.std.specs.Prelude.{◌≡◌};

use std::snapshot::Snapshot;
use std::sync::Wait;
use std::thread::{Promise, Scope, Threads, scope, scope_env};

/// What is brought to a halt where a thread can't be made.
pub(crate) trait Halting {
    fn halt(&self);
}

// Work that leaves a value. Of a `&mut` that a thread's closure holds nothing is known behind its call: so the closures here
// hold a value of a type parameter, which hands its `&mut` back.
trait Task {
    type Output;

    ghost may_run: { Self → Type 0 };

    ghost leaves: { Self → Self.Output → Type 0 };

    fn run(self) -> Self::Output
        requires { may_run self }
        ensures { leaves self result };
}

// The value is what the task leaves.
#[derive(Drop)]
struct Ran<A>(Snapshot<A>);

impl<A: Task<Output = X>, X> Promise<X> for Ran<A> {
    ghost kept_by = { λ p r. A.leaves p.0.value r };
}

// A closure that is lent, and handed back once it was called.
#[derive(Drop)]
struct Lent<'a, F> {
    closure: &'a mut F,
}

impl<'a, F: FnMut()> Task for Lent<'a, F> {
    type Output = &'a mut F;

    ghost may_run = { λ t. F.pre t.closure.now };

    ghost leaves = { λ t r. (r.ghost_name ≡ t.closure.ghost_name) × F.step t.closure.now tt r.now };

    fn run(self) -> &'a mut F {
        let Lent { closure } = self;
        closure();
        closure
    }
}

// The first runs on a new thread and the second on this one. Where no thread can be made both run on this one, behind the halt.
fn both_in<
    's,
    'e,
    R: Threads,
    H: Halting,
    A: Task<Output = X> + Send + Drop + 'e,
    B: Task<Output = Y>,
    X: Send + Drop + 'e,
    Y,
>(rt: &R, scope: &'s Scope<'s, &'e ()>, halting: &H, first: A, second: B) -> (X, Y)
    requires first { A.may_run first }
    requires second { B.may_run second }
    ensures first { A.leaves first result.0 }
    ensures second { B.leaves second result.1 }
{
    let promise = Ran(Snapshot::of(&first));
    let begun = scope.spawn_with(
        promise,
        move || -> X
            requires { A.may_run first }
            ensures { A.leaves first result }
        { first.run() },
    );
    match begun {
        Ok(thread) => {
            let left = second.run();
            (thread.join(rt), left)
        }
        Err(refused) => {
            halting.halt();
            ((refused.value)(), second.run())
        }
    }
}

// As `both_in`, in a scope of its own.
fn both<
    'e,
    R: Threads + Wait,
    H: Halting,
    A: Task<Output = X> + Send + Drop + 'e,
    B: Task<Output = Y> + Drop + 'e,
    X: Send + Drop + 'e,
    Y,
>(rt: &R, halting: &H, first: A, second: B) -> (X, Y)
    requires { A.may_run first × B.may_run second }
    ensures { A.leaves first result.0 × B.leaves second result.1 }
{
    scope(
        scope_env::<'e>(),
        rt,
        move |scope| -> (X, Y)
            requires { A.may_run first × B.may_run second }
            ensures { A.leaves first result.0 × B.leaves second result.1 }
        { both_in(rt, scope, halting, first, second) },
    )
}

/// Calls the first on a new thread and the second on this one. Where no thread can be made it brings about the halt, and calls
/// the first and then the second on this one.
pub(crate) fn fork<'a, R: Threads + Wait, H: Halting, F: FnMut() + Send, G: FnMut()>(
    rt: &R,
    halting: &H,
    first: &'a mut F,
    second: &'a mut G,
)
    requires { F.pre first.old × G.pre second.old }
    ensures { F.step first.old tt first.new × G.step second.old tt second.new }
{
    let (first, second) = both(
        rt,
        halting,
        Lent { closure: first },
        Lent { closure: second },
    );
    take_back(first);
    take_back(second);
}

// Does nothing: that a reference which came back is used ties it, for the borrow checker, to the one that was lent.
fn take_back<T>(it: &mut T)
    ensures { it.new ≡ it.old }
{}
