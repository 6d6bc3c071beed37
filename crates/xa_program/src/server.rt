// The command `server`: the work of a server's program, and the status that it ends with.
ghost use Rattle.xa_program.specs.Headline.{streams_by};
ghost use Rattle.xa_program.specs.Server.{ServerEnds};

use crate::status::Status;
use std::alloc::Global;
use xa_child::{WorkRefused, work};
use xa_link::{Sink, Source};
use xa_types::Name;

/// The work of the server's program of that name, as `work` of `xa_child` does it, and the status that stands for how
/// it ended.
pub fn child_work<I: Source, O: Sink>(
    alloc: Global,
    name: &Name,
    input: &mut I,
    out: &mut O,
) -> Status
    ensures { ServerEnds name.now (streams_by I.shows O.shows input.old input.new out.old out.new) result }
{
    match work(alloc, name, input, out) {
        Ok(()) => Status::Done,
        Err(WorkRefused::ReadFault) => Status::ScriptRead,
        Err(WorkRefused::WriteFault) => Status::WriteFault,
        Err(WorkRefused::BadFrame(place)) => Status::BadFrame(place),
        Err(WorkRefused::NoMemory) => Status::NoMemory,
    }
}
