// Configurations, which are read to be seen or to be measured, and scripts between them.
use crate::refused::Refused;
use crate::scripts::tell_script;
use crate::setup::write_setup;
use bstr::ByteSlice;
use std::alloc::Global;
use std::io::Write;
use xa_config::{ConfigRefused, read};
use xa_types::Setup;

// What stands between two configurations, and belongs to neither.
const BETWEEN: &[u8] = b"\n====\n";

// What begins so is a script.
const SCRIPT: &[u8] = b"!script\n";

fn tell(alloc: Global, octets: &[u8], out: &mut Vec<u8>) -> Result<(), Refused> {
    match read(alloc, octets) {
        Ok(setup) => write_setup(out, &setup)?,
        Err(ConfigRefused::Fault { number: 1, .. }) => writeln!(out, "config 1")?,
        Err(ConfigRefused::Fault { number, key }) => {
            writeln!(out, "config {number} {}", key.slice().as_bstr())?
        }
        Err(ConfigRefused::NoMemory) => return Err(Refused::NoMemory),
    }
    Ok(())
}

/// Adds the lines of each configuration, those of its setup or that of its first fault, and of each script.
pub fn tell_each(alloc: Global, octets: &[u8], out: &mut Vec<u8>) -> Result<(), Refused> {
    for piece in octets.split_str(BETWEEN) {
        match piece.strip_prefix(SCRIPT) {
            Some(script) => tell_script(alloc, script, out)?,
            None => tell(alloc, piece, out)?,
        }
    }
    Ok(())
}

fn entries(setup: &Setup) -> usize {
    setup
        .shapes
        .slice()
        .len()
        .saturating_add(setup.queues.slice().len())
        .saturating_add(setup.servers.slice().len())
        .saturating_add(setup.services.slice().len())
}

/// Reads the octets so often as one configuration, and answers how many entries its tables have.
pub fn read_configuration(alloc: Global, octets: &[u8], times: u32) -> Result<usize, Refused> {
    let mut found = 0;
    for _ in 0..times {
        found = entries(&read(alloc, octets)?);
    }
    Ok(found)
}
