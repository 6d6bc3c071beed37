// The record of a run, written.
ghost use Rattle.std.specs.Prelude.{◌≡◌, ◌++◌, ◌≤◌, ◌∷◌, [], map, length, OnOk, IfOk};
ghost use Rattle.std.specs.List.{All, flat_map};
ghost use Rattle.xa_types.specs.Name.{IsName};
ghost use Rattle.xa_lines.specs.Line.{line_of, IsEvent};
ghost use Rattle.xa_audit.specs.Record.{line, counted, config_text, record_lines, IsRecord};

use itoa::Buffer;
use std::alloc::Global;
use xa_events::Event;
use xa_lines::put_event;
use xa_types::{Name, NoMemory, Octets};

// Puts the octets at the end, and the octet that ends a line.
fn put_line(out: &mut Vec<u8>, text: &[u8]) -> Result<(), NoMemory>
    ensures { OnOk result (out.new.items ≡ out.old.items ++ line text.now) }
{
    out.extend_from_slice(text)?;
    out.push(b'\n')?;
    Ok(())
}

// Puts the line of a word and a number.
fn put_counted(out: &mut Vec<u8>, word: &[u8], number: usize) -> Result<(), NoMemory>
    ensures { OnOk result (out.new.items ≡ out.old.items ++ line (counted word.now number)) }
{
    out.extend_from_slice(word)?;
    out.push(b' ')?;
    let mut digits = Buffer::new();
    put_line(out, digits.format(number).as_bytes())
}

fn put_names(out: &mut Vec<u8>, names: &[Name]) -> Result<(), NoMemory>
    ensures named { OnOk result (All IsName names.now) }
    ensures text { OnOk result (out.new.items ≡ out.old.items ++ flat_map line names.now) }
{
    for name in names {
        put_line(out, name.octets())?;
    }
    Ok(())
}

fn put_event_line(out: &mut Vec<u8>, event: &Event) -> Result<(), NoMemory>
    ensures fits { OnOk result (IsEvent event.now) }
    ensures text { OnOk result (out.new.items ≡ out.old.items ++ line (line_of event.now)) }
{
    put_event(out, event)?;
    out.push(b'\n')?;
    Ok(())
}

fn put_events(out: &mut Vec<u8>, events: &[Event]) -> Result<(), NoMemory>
    ensures fits { OnOk result (All IsEvent events.now) }
    ensures text { OnOk result (out.new.items ≡ out.old.items ++ flat_map line (map line_of events.now)) }
{
    for event in events {
        put_event_line(out, event)?;
    }
    Ok(())
}

fn put_lines(out: &mut Vec<u8>, names: &[Name], history: &[Event]) -> Result<(), NoMemory>
    ensures named { OnOk result (All IsName names.now) }
    ensures fits { OnOk result (All IsEvent history.now) }
    ensures text { OnOk result (out.new.items ≡ out.old.items ++ flat_map line (record_lines names.now history.now)) }
{
    put_counted(out, b"clients", names.len())?;
    put_names(out, names)?;
    put_events(out, history)?;
    put_counted(out, b"end", history.len())
}

fn put_config(out: &mut Vec<u8>, config: &[u8]) -> Result<(), NoMemory>
    ensures { OnOk result (out.new.items ≡ out.old.items ++ config_text config.now) }
{
    put_counted(out, b"config", config.len())?;
    put_line(out, config)
}

/// The record of a run: its configuration, the names of its clients, at most 64, and its events in merged order.
pub fn write(
    alloc: Global,
    config: &[u8],
    names: &[Name],
    history: &[Event],
) -> Result<Octets, NoMemory>
    requires { length names.now ≤ 64 }
    ensures { IfOk result (λ octets. IsRecord octets config.now names.now history.now) }
{
    let mut out = Vec::new(alloc);
    put_config(&mut out, config)?;
    put_lines(&mut out, names, history)?;
    Ok(Octets::from_vec(out))
}
