// What a record comes to, in words.
ghost use Rattle.std.specs.Prelude.{◌≡◌, ◌++◌, decimal, IfOk, OnOk};
ghost use Rattle.xa_audit.specs.Verdict.{verdict_line};

use crate::judging::Verdict;
use itoa::Buffer;
use std::alloc::Global;
use xa_types::{NoMemory, Octets};

// Puts a number between what stands before and behind it.
fn put_number(out: &mut Vec<u8>, before: &[u8], number: u64, behind: &[u8]) -> Result<(), NoMemory>
    ensures { OnOk result (out.new.items ≡ out.old.items ++ before.now ++ decimal number ++ behind.now) }
{
    out.extend_from_slice(before)?;
    let mut digits = Buffer::new();
    out.extend_from_slice(digits.format(number).as_bytes())?;
    out.extend_from_slice(behind)?;
    Ok(())
}

/// The line that says it: `run of N events`, `refused at PLACE` or `unfinished after N events`.
pub fn verdict_line(alloc: Global, verdict: Verdict) -> Result<Octets, NoMemory>
    ensures { IfOk result (λ octets. octets ≡ verdict_line verdict) }
{
    let mut out = Vec::new(alloc);
    match verdict {
        Verdict::Run(many) => put_number(&mut out, b"run of ", many, b" events\n")?,
        Verdict::At(place) => put_number(&mut out, b"refused at ", place, b"\n")?,
        Verdict::Unfinished(many) => {
            put_number(&mut out, b"unfinished after ", many, b" events\n")?
        }
    }
    Ok(Octets::from_vec(out))
}
