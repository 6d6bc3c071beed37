//! How a test fails at a row of its table.
use std::process::Abort;

/// Fails the test where there is a row that isn't as it should be, and says its place.
pub fn none_fails<R: Abort>(rt: &R, failed: Option<usize>) {
    if let Some(place) = failed {
        panic!(rt; "row {place}")
    }
}
