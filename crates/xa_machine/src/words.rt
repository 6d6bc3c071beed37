// Words on requests, and small steps of a table.
ghost use Rattle.std.specs.Prelude.{◌≡◌, ◌<◌, ◌≤◌, ◌||◌, cond, ◌==◌, [], vec_len, vec_capacity};
ghost use Rattle.std.specs.Bool.{Decides};
ghost use Rattle.std.specs.List.{list_any};
ghost use Rattle.xa_events.specs.Words.{same_request, has, added, without};
ghost use Rattle.xa_machine.specs.Tables.{raised};

use xa_types::RequestId;

/// Whether both are one request.
pub fn same_request(a: RequestId, b: RequestId) -> bool
    ensures { result ≡ same_request a b }
{
    a.caller.0 == b.caller.0 && a.number == b.number
}

/// Whether the request is among these.
pub fn has(request: RequestId, requests: &[RequestId]) -> bool
    ensures { result ≡ has request requests.now }
{
    requests.iter().any(|other| same_request(request, *other))
}

/// Whether the tick is among these.
pub fn has_tick(ticks: &[u64], tick: u64) -> bool
    ensures { result ≡ list_any (λ n. n == tick) ticks.now }
{
    ticks.iter().any(|other| *other == tick)
}

/// Whether there is none.
pub fn is_none(requests: &[RequestId]) -> bool
    ensures { Decides result (requests.now ≡ []) }
{
    match requests {
        [] => true,
        _ => false,
    }
}

/// One of both.
pub fn pick<T: Copy>(first: bool, one: T, other: T) -> T
    ensures { result ≡ cond first one other }
{
    if first { one } else { other }
}

/// Whether one of both holds.
pub fn either(one: bool, other: bool) -> bool
    ensures { result ≡ one || other }
{
    one || other
}

/// The greater of both, where there is a second.
pub fn raised(by: Option<u64>, least: u64) -> u64
    ensures { result ≡ raised by least }
{
    match by {
        Some(n) => n.max(least),
        None => least,
    }
}

// Takes the request out, where there is one.
fn take_out(requests: &mut Vec<RequestId>, out: Option<RequestId>)
    ensures items { requests.new.items ≡ without out requests.old.items }
    ensures capacity { vec_capacity requests.new ≡ vec_capacity requests.old }
    ensures len { vec_len requests.new ≤ vec_len requests.old }
{
    if let Some(out) = out {
        requests.retain(|request| !same_request(*request, out));
    }
}

// Puts the request behind the others, where there is one.
fn put_in(requests: &mut Vec<RequestId>, request: Option<RequestId>)
    requires { vec_len requests.old < vec_capacity requests.old }
    ensures { requests.new.items ≡ added request requests.old.items }
{
    if let Some(request) = request {
        requests.push_reserved(request);
    }
}

/// Takes one out and puts another in.
pub fn change(requests: &mut Vec<RequestId>, enters: Option<RequestId>, leaves: Option<RequestId>)
    requires { vec_len requests.old < vec_capacity requests.old }
    ensures { requests.new.items ≡ added enters (without leaves requests.old.items) }
{
    take_out(requests, leaves);
    put_in(requests, enters);
}
