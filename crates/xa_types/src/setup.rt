// The setup of a domain.
ghost use Rattle.std.specs.Prelude.{◌≡◌, IfOk};

use crate::{Accepts, Name, NoMemory, Octets, Sequence};
use std::alloc::Global;

/// The kind of a field of X_C_TYPE: signed numbers of 2, 4 and 8 octets, a number of one, or so many octets of text.
#[derive(Clone, Copy, PartialEq, Eq)]
pub enum FieldKind {
    Short,
    Int,
    Long,
    Char,
    Text(u32),
}

/// A field of X_C_TYPE.
#[derive(Clone, Copy)]
pub struct FieldSetup {
    pub name: Name,
    pub kind: FieldKind,
}

/// A subtype of X_C_TYPE: its fields in the order in which they lie.
#[derive(Drop)]
pub struct ShapeSetup {
    pub name: Name,
    pub fields: Sequence<FieldSetup>,
}

impl Entry for ShapeSetup {
    fn copy(&self, alloc: Global) -> Result<ShapeSetup, NoMemory> {
        Ok(ShapeSetup {
            name: self.name,
            fields: Sequence::from_vec(Vec::from_slice(alloc, self.fields.slice())?),
        })
    }
}

/// A queue, at which `capacity` requests may wait, and the group that it is of.
#[derive(Clone, Copy)]
pub struct QueueSetup {
    pub name: Name,
    pub group: Name,
    pub capacity: u32,
}

/// A server, with Tuxedo's RESTART, MAXGEN and GRACE (UBBCONFIG). GRACE counts ticks. `program` is `None` where the
/// monitor's own program serves.
#[derive(Drop)]
pub struct ServerSetup {
    pub name: Name,
    pub queue: Name,
    pub program: Option<Octets>,
    pub restart: bool,
    pub maxgen: u8,
    pub grace: u32,
}

fn copy_program(program: &Option<Octets>, alloc: Global) -> Result<Option<Octets>, NoMemory>
    ensures { IfOk result (λ copied. copied ≡ program.now) }
{
    match program {
        Some(program) => Ok(Some(program.copy(alloc)?)),
        None => Ok(None),
    }
}

impl Entry for ServerSetup {
    fn copy(&self, alloc: Global) -> Result<ServerSetup, NoMemory> {
        Ok(ServerSetup {
            name: self.name,
            queue: self.queue,
            program: copy_program(&self.program, alloc)?,
            restart: self.restart,
            maxgen: self.maxgen,
            grace: self.grace,
        })
    }
}

/// A service: its routine, the queues on which it is advertised, the priority of its requests, the kinds of data that
/// it accepts, and whether it is for conversations.
#[derive(Drop)]
pub struct ServiceSetup {
    pub name: Name,
    pub routine: Name,
    pub queues: Sequence<Name>,
    pub priority: u8,
    pub accepts: Accepts,
    pub conversational: bool,
}

impl Entry for ServiceSetup {
    fn copy(&self, alloc: Global) -> Result<ServiceSetup, NoMemory> {
        Ok(ServiceSetup {
            name: self.name,
            routine: self.routine,
            queues: Sequence::from_vec(Vec::from_slice(alloc, self.queues.slice())?),
            priority: self.priority,
            accepts: self.accepts,
            conversational: self.conversational,
        })
    }
}

/// A domain as it is configured. `block_time` is in ticks, and `blocks` is a number of blocks; `play` needs neither.
#[derive(Drop)]
pub struct Setup {
    pub block_time: u32,
    pub blocks: u32,
    pub shapes: Sequence<ShapeSetup>,
    pub queues: Sequence<QueueSetup>,
    pub servers: Sequence<ServerSetup>,
    pub services: Sequence<ServiceSetup>,
}

// What a setup has several of.
trait Entry: Drop {
    fn copy(&self, alloc: Global) -> Result<Self, NoMemory>
        ensures { IfOk result (λ copied. copied ≡ self.now) };
}

fn copy_entries<E: Entry>(entries: &Sequence<E>, alloc: Global) -> Result<Sequence<E>, NoMemory>
    ensures { IfOk result (λ copied. copied ≡ entries.now) }
{
    let entries = entries.slice();
    let mut copies = Vec::with_capacity(alloc, entries.len())?;
    for entry in entries {
        copies.push_reserved(entry.copy(alloc)?);
    }
    Ok(Sequence::from_vec(copies))
}

impl Setup {
    /// A copy.
    pub fn copy(&self, alloc: Global) -> Result<Setup, NoMemory>
        ensures { IfOk result (λ copied. copied ≡ self.now) }
    {
        Ok(Setup {
            block_time: self.block_time,
            blocks: self.blocks,
            shapes: copy_entries(&self.shapes, alloc)?,
            queues: Sequence::from_vec(Vec::from_slice(alloc, self.queues.slice())?),
            servers: copy_entries(&self.servers, alloc)?,
            services: copy_entries(&self.services, alloc)?,
        })
    }
}
