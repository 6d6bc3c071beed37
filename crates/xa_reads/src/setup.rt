// A setup as lines: one for the domain and one for each entry of a table, with every value of it. Names have no space.
use bstr::ByteSlice;
use std::io::{self, Write};
use xa_types::{
    FieldKind, FieldSetup, Name, Octets, QueueSetup, ServerSetup, ServiceSetup, Setup, ShapeSetup,
};

fn word_of(kind: FieldKind) -> &'static str {
    match kind {
        FieldKind::Short => "short",
        FieldKind::Int => "int",
        FieldKind::Long => "long",
        FieldKind::Char => "char",
        FieldKind::Text(_) => "string",
    }
}

// `account int`, `memo string 16`
fn write_field(out: &mut Vec<u8>, field: &FieldSetup) -> io::Result<()> {
    let name = field.name.octets().as_bstr();
    let word = word_of(field.kind);
    match field.kind {
        FieldKind::Text(size) => write!(out, "{name} {word} {size}"),
        _ => write!(out, "{name} {word}"),
    }
}

// `shape entry account int, memo string 16`
fn write_shape(out: &mut Vec<u8>, shape: &ShapeSetup) -> io::Result<()> {
    write!(out, "shape {}", shape.name.octets().as_bstr())?;
    let mut mark = " ";
    for field in shape.fields.slice() {
        write!(out, "{mark}")?;
        write_field(out, field)?;
        mark = ", ";
    }
    writeln!(out)
}

// `queue QA BACK 20`: its name, group and capacity
fn write_queue(out: &mut Vec<u8>, queue: &QueueSetup) -> io::Result<()> {
    let QueueSetup {
        name,
        group,
        capacity,
    } = queue;
    writeln!(
        out,
        "queue {} {} {capacity}",
        name.octets().as_bstr(),
        group.octets().as_bstr()
    )
}

// The program as a text in quotes, or `-` where the monitor's own serves.
fn write_program(out: &mut Vec<u8>, program: &Option<Octets>) -> io::Result<()> {
    match program {
        Some(program) => write!(out, "{:?}", program.slice().as_bstr()),
        None => write!(out, "-"),
    }
}

// `server A1 QA "./booking" false 3 600`: its name, queue, program, restart, maxgen and grace
fn write_server(out: &mut Vec<u8>, server: &ServerSetup) -> io::Result<()> {
    let ServerSetup {
        name,
        queue,
        program,
        restart,
        maxgen,
        grace,
    } = server;
    write!(
        out,
        "server {} {} ",
        name.octets().as_bstr(),
        queue.octets().as_bstr()
    )?;
    write_program(out, program)?;
    writeln!(out, " {restart} {maxgen} {grace}")
}

fn write_names(out: &mut Vec<u8>, names: &[Name]) -> io::Result<()> {
    for name in names {
        write!(out, " {}", name.octets().as_bstr())?;
    }
    Ok(())
}

// `service ACCT BOOK 70 true 1 true QA QT`: its name, routine and priority, whether it accepts X_OCTET, the bits of
// the shapes that it accepts in hexadecimal, of which the least is that of the first shape, whether it is
// conversational, and its queues
fn write_service(out: &mut Vec<u8>, service: &ServiceSetup) -> io::Result<()> {
    let ServiceSetup {
        name,
        routine,
        queues,
        priority,
        accepts,
        conversational,
    } = service;
    write!(
        out,
        "service {} {} {priority} ",
        name.octets().as_bstr(),
        routine.octets().as_bstr()
    )?;
    let octet = accepts.octet;
    let structs = accepts.structs;
    write!(out, "{octet} {structs:x} {conversational}")?;
    write_names(out, queues.slice())?;
    writeln!(out)
}

/// Adds the lines of a setup. The first is as `domain 60 256`, of its block time and blocks.
pub fn write_setup(out: &mut Vec<u8>, setup: &Setup) -> io::Result<()> {
    let block_time = setup.block_time;
    let blocks = setup.blocks;
    writeln!(out, "domain {block_time} {blocks}")?;
    for shape in setup.shapes.slice() {
        write_shape(out, shape)?;
    }
    for queue in setup.queues.slice() {
        write_queue(out, queue)?;
    }
    for server in setup.servers.slice() {
        write_server(out, server)?;
    }
    for service in setup.services.slice() {
        write_service(out, service)?;
    }
    Ok(())
}
