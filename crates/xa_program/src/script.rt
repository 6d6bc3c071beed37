// The script that a run reads.
ghost use Rattle.std.specs.Prelude.{◌≡◌, ◌≤◌, true, IfOk, IfErr, OnOk};
ghost use Rattle.xa_domain.specs.xa_types.Configured.{is_configured};
ghost use Rattle.xa_domain.specs.Serving.{IsBuilt};
ghost use Rattle.xa_program.specs.Headline.{IsTheScript};
ghost use Rattle.xa_program.specs.Input.{input_by};
ghost use Rattle.xa_program.specs.Progress.{ScriptRefusedAs};

use crate::status::{Input, Status};
use std::alloc::Global;
use xa_domain::script::{Script, ScriptRefused, read_upto};
use xa_link::{ShelfRefused, Source, read_all};
use xa_types::Setup;

/// How many octets a script may have.
const LONGEST_SCRIPT: usize = 1_048_576;

/// The script of at most so many clients that the input holds, to its end. The octets are left with the caller: if a large
/// vector is given back before the run, the C library's `malloc` moves later ones as they grow, and leaves holes behind.
pub fn read_script<I: Source>(
    alloc: Global,
    setup: &Setup,
    most: u16,
    input: &mut I,
    kept: &mut Vec<u8>,
) -> Result<Script, Status>
    requires configured { is_configured setup.now ≡ true }
    requires most { (1 ≤ most) × (most ≤ 64) }
    ensures script { IfOk result (λ script. IsTheScript setup.now most (input_by I.shows input.old input.new) script.clients) }
    ensures built { IfOk result (λ script. IsBuilt script.clients) }
    ensures quiet { OnOk result ((I.shows input.new).faults ≡ (I.shows input.old).faults) }
    ensures refused { IfErr result (ScriptRefusedAs setup.now most (input_by I.shows input.old input.new) (I.shows input.old).faults (I.shows input.new).faults) }
{
    let octets = match read_all(alloc, input, LONGEST_SCRIPT) {
        Ok(octets) => octets,
        Err(ShelfRefused::Failed) => return Err(Status::ScriptRead),
        Err(ShelfRefused::TooLong) => return Err(Status::TooLong(Input::Script)),
        Err(ShelfRefused::NoMemory) => return Err(Status::NoMemory),
    };
    match read_upto(alloc, octets.as_slice(), setup, most) {
        Ok(script) => {
            *kept = octets;
            Ok(script)
        }
        Err(ScriptRefused::BadLine { line, cause }) => Err(Status::BadLine { line, cause }),
        Err(ScriptRefused::NoMemory) => Err(Status::NoMemory),
    }
}
