// Scripts, which are read to be seen or to be measured.
use crate::refused::Refused;
use std::alloc::Global;
use std::io::Write;
use xa_script::{Script, ScriptRefused, read};

// The most octets that a script has.
const MOST: usize = 1_048_576;

const CONFIGURATION: &[u8] = b"
queue = [{ name = 'Q' }]
server = [{ name = 'S', queue = 'Q' }]
service = [{ name = 'ECHO', queues = ['Q'] }]
shape = [
    { name = 'entry', fields = ['account int', 'amount long', 'memo string 16'] },
    { name = 'small', fields = ['s short', 'c char', 't string 1'] },
]
";

fn calls(script: &Script) -> usize {
    let mut calls = 0usize;
    for client in script.clients.slice() {
        calls = calls.saturating_add(client.ops.slice().len());
    }
    calls
}

/// Adds the line of a script: how many clients and calls it has, or its first line at fault with the least cause.
pub fn tell_script(alloc: Global, octets: &[u8], out: &mut Vec<u8>) -> Result<(), Refused> {
    if octets.len() > MOST {
        return Err(Refused::TooLong);
    }
    let setup = xa_config::read(alloc, CONFIGURATION)?;
    match read(alloc, octets, &setup) {
        Ok(script) => {
            let clients = script.clients.slice().len();
            writeln!(out, "script {clients} clients {} calls", calls(&script))?;
        }
        Err(ScriptRefused::BadLine { line, cause }) => {
            writeln!(out, "script line {line} cause {cause}")?
        }
        Err(ScriptRefused::NoMemory) => return Err(Refused::NoMemory),
    }
    Ok(())
}

/// Reads the octets so often as one script, for two shapes, a queue, a server and a service, and answers how many calls it
/// has.
pub fn read_script(alloc: Global, octets: &[u8], times: u32) -> Result<usize, Refused> {
    if octets.len() > MOST {
        return Err(Refused::TooLong);
    }
    let setup = xa_config::read(alloc, CONFIGURATION)?;
    let mut found = 0;
    for _ in 0..times {
        found = calls(&read(alloc, octets, &setup)?);
    }
    Ok(found)
}
