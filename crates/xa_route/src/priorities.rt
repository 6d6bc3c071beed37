// The priority of a request.
ghost use Rattle.std.specs.Prelude.{◌≡◌};
ghost use Rattle.xa_types.specs.Priority.{clamped, priority_of};

// Taken into 1 to 100.
fn clamped(amount: i64) -> u8
    ensures { result ≡ clamped amount }
{
    amount.clamp(1, 100) as u8
}

/// The priority of a request to a service with that priority of its own, where the caller set the next one: absolute,
/// or added to the service's own.
pub fn priority(own: u8, next: Option<(bool, i32)>) -> u8
    ensures { result ≡ priority_of own next }
{
    match next {
        None => own,
        Some((true, amount)) => clamped(i64::from(amount)),
        Some((false, amount)) => clamped(i64::from(own) + i64::from(amount)),
    }
}
