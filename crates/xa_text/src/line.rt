ghost use Rattle.std.specs.Prelude.{◌≡◌, ◌++◌, ◌+◌, ◌==◌, ◌<◌, [], if◌then◌else◌, OnOk, OnErr, codes, decimal};
ghost use Rattle.std.specs.Fmt.{signed_decimal};
ghost use Rattle.std.specs.List.{flat_map};
ghost use Rattle.xa_types.specs.declared.reply.Reply.TheVariants.{Answered, Message, Event};
ghost use Rattle.xa_text.specs.Line.{hex_pair, hex, data_text, coded, answer_text, event_rest, reply_text, call_text, line_text};
ghost use Rattle.std.specs.Io.{StartsWith};

use itoa::Buffer;
use xa_types::{Answer, ConvEvent, Data, Fault, Name, NoMemory, Reply};

pub(crate) fn push_text(out: &mut Vec<u8>, text: &[u8]) -> Result<(), NoMemory>
    ensures ok { OnOk result (out.new.items ≡ out.old.items ++ text.now) }
    ensures err { OnErr result (StartsWith out.new.items out.old.items) }
{
    Ok(out.extend_from_slice(text)?)
}

// Puts these texts at the end, one after another.
fn push_texts(out: &mut Vec<u8>, texts: &[&[u8]]) -> Result<(), NoMemory>
    ensures ok { OnOk result (out.new.items ≡ out.old.items ++ flat_map (λ text. text.now) texts.now) }
    ensures err { OnErr result (StartsWith out.new.items out.old.items) }
{
    for text in texts {
        push_text(out, text)?;
    }
    Ok(())
}

fn push_pairs(out: &mut Vec<u8>, octets: &[u8]) -> Result<(), NoMemory>
    ensures ok { OnOk result (out.new.items ≡ out.old.items ++ flat_map hex_pair octets.now) }
    ensures err { OnErr result (StartsWith out.new.items out.old.items) }
{
    let at = out.len();
    out.resize(at.saturating_add(octets.len().saturating_mul(2)), 0)?;
    match hex::encode_to_slice(octets, &mut out[at..]) {
        Ok(()) => Ok(()),
        Err(_) => unreachable!(),
    }
}

fn push_hex(out: &mut Vec<u8>, octets: &[u8]) -> Result<(), NoMemory>
    ensures ok { OnOk result (out.new.items ≡ out.old.items ++ hex octets.now) }
    ensures err { OnErr result (StartsWith out.new.items out.old.items) }
{
    if octets.is_empty() {
        return push_text(out, b"-");
    }
    push_pairs(out, octets)
}

fn push_data(out: &mut Vec<u8>, payload: &Data) -> Result<(), NoMemory>
    ensures ok { OnOk result (out.new.items ≡ out.old.items ++ data_text payload.now) }
    ensures err { OnErr result (StartsWith out.new.items out.old.items) }
{
    match payload {
        Data::Absent => push_text(out, b"none"),
        Data::Octet(octets) => {
            push_text(out, b"octet ")?;
            push_hex(out, octets.slice())
        }
        Data::Struct(subtype, octets) => {
            push_texts(out, &[b"c:", subtype.octets(), b" "])?;
            push_hex(out, octets.slice())
        }
    }
}

fn push_coded(out: &mut Vec<u8>, code: i32, payload: &Data) -> Result<(), NoMemory>
    ensures ok { OnOk result (out.new.items ≡ out.old.items ++ coded code payload.now) }
    ensures err { OnErr result (StartsWith out.new.items out.old.items) }
{
    let mut digits = Buffer::new();
    push_texts(out, &[b" ", digits.format(code).as_bytes(), b" "])?;
    push_data(out, payload)
}

fn push_answer(out: &mut Vec<u8>, answer: &Answer) -> Result<(), NoMemory>
    ensures ok { OnOk result (out.new.items ≡ out.old.items ++ answer_text answer.now) }
    ensures err { OnErr result (StartsWith out.new.items out.old.items) }
{
    match answer {
        Answer::Success(code, payload) => {
            push_text(out, b"OK")?;
            push_coded(out, *code, payload)
        }
        Answer::Failed(code, payload) => {
            push_text(out, b"TPESVCFAIL")?;
            push_coded(out, *code, payload)
        }
        Answer::Error(fault) => push_text(out, fault.text().as_bytes()),
    }
}

fn push_descriptor(out: &mut Vec<u8>, descriptor: u64) -> Result<(), NoMemory>
    ensures ok { OnOk result (out.new.items
        ≡ out.old.items ++ (if descriptor == 0 then [] else codes "CD " ++ decimal descriptor ++ codes " ")) }
    ensures err { OnErr result (StartsWith out.new.items out.old.items) }
{
    if descriptor == 0 {
        return Ok(());
    }
    let mut digits = Buffer::new();
    push_texts(out, &[b"CD ", digits.format(descriptor).as_bytes(), b" "])
}

pub(crate) fn push_answered(
    out: &mut Vec<u8>,
    descriptor: u64,
    answer: &Answer,
) -> Result<(), NoMemory>
    ensures ok { OnOk result (out.new.items ≡ out.old.items ++ reply_text (Answered descriptor answer.now)) }
    ensures err { OnErr result (StartsWith out.new.items out.old.items) }
{
    push_descriptor(out, descriptor)?;
    push_answer(out, answer)
}

pub(crate) fn push_message(out: &mut Vec<u8>, payload: &Data) -> Result<(), NoMemory>
    ensures ok { OnOk result (out.new.items ≡ out.old.items ++ reply_text (Message payload.now)) }
    ensures err { OnErr result (StartsWith out.new.items out.old.items) }
{
    push_text(out, b"DATA ")?;
    push_data(out, payload)
}

fn push_event_rest(
    out: &mut Vec<u8>,
    event: ConvEvent,
    code: i32,
    payload: &Data,
) -> Result<(), NoMemory>
    ensures ok { OnOk result (out.new.items ≡ out.old.items ++ event_rest event code payload.now) }
    ensures err { OnErr result (StartsWith out.new.items out.old.items) }
{
    match event {
        ConvEvent::SendOnly => {
            push_text(out, b" ")?;
            push_data(out, payload)
        }
        ConvEvent::SvcFail | ConvEvent::SvcSucc => push_coded(out, code, payload),
        ConvEvent::DisconImm | ConvEvent::SvcErr | ConvEvent::NoMemory => Ok(()),
    }
}

pub(crate) fn push_event(
    out: &mut Vec<u8>,
    event: ConvEvent,
    code: i32,
    payload: &Data,
) -> Result<(), NoMemory>
    ensures ok { OnOk result (out.new.items ≡ out.old.items ++ reply_text (Event event code payload.now)) }
    ensures err { OnErr result (StartsWith out.new.items out.old.items) }
{
    push_texts(out, &[b"TPEEVENT ", event.text().as_bytes()])?;
    push_event_rest(out, event, code, payload)
}

pub(crate) fn push_done(out: &mut Vec<u8>) -> Result<(), NoMemory>
    ensures ok { OnOk result (out.new.items ≡ out.old.items ++ reply_text Reply.Done) }
    ensures err { OnErr result (StartsWith out.new.items out.old.items) }
{
    push_text(out, b"DONE")
}

pub(crate) fn push_given(out: &mut Vec<u8>, descriptor: u64) -> Result<(), NoMemory>
    ensures ok { OnOk result (out.new.items ≡ out.old.items ++ reply_text (Reply.Descriptor descriptor)) }
    ensures err { OnErr result (StartsWith out.new.items out.old.items) }
{
    let mut digits = Buffer::new();
    push_texts(out, &[b"CD ", digits.format(descriptor).as_bytes()])
}

pub(crate) fn push_now(out: &mut Vec<u8>, tick: u64) -> Result<(), NoMemory>
    ensures ok { OnOk result (out.new.items ≡ out.old.items ++ reply_text (Reply.Now tick)) }
    ensures err { OnErr result (StartsWith out.new.items out.old.items) }
{
    let mut digits = Buffer::new();
    push_texts(out, &[b"NOW ", digits.format(tick).as_bytes()])
}

pub(crate) fn push_fault(out: &mut Vec<u8>, fault: Fault) -> Result<(), NoMemory>
    ensures ok { OnOk result (out.new.items ≡ out.old.items ++ reply_text (Reply.Fault fault)) }
    ensures err { OnErr result (StartsWith out.new.items out.old.items) }
{
    push_text(out, fault.text().as_bytes())
}

fn push_reply(out: &mut Vec<u8>, reply: &Reply) -> Result<(), NoMemory>
    ensures ok { OnOk result (out.new.items ≡ out.old.items ++ reply_text reply.now) }
    ensures err { OnErr result (StartsWith out.new.items out.old.items) }
{
    match reply {
        Reply::Done => push_done(out),
        Reply::Descriptor(descriptor) => push_given(out, *descriptor),
        Reply::Now(tick) => push_now(out, *tick),
        Reply::Answered(descriptor, answer) => push_answered(out, *descriptor, answer),
        Reply::Message(payload) => push_message(out, payload),
        Reply::Event(event, code, payload) => push_event(out, *event, *code, payload),
        Reply::Fault(fault) => push_fault(out, *fault),
    }
}

pub(crate) fn push_call(out: &mut Vec<u8>, name: &Name, op: u32) -> Result<(), NoMemory>
    ensures ok { OnOk result (out.new.items ≡ out.old.items ++ call_text name.now op) }
    ensures err { OnErr result (StartsWith out.new.items out.old.items) }
{
    let mut digits = Buffer::new();
    push_texts(
        out,
        &[name.octets(), b" ", digits.format(op).as_bytes(), b" "],
    )
}

/// Puts one line of the transcript at the end: what the client of that name was told of its call with that number.
/// Where memory runs out, what stood there stays in front.
pub fn push_line(out: &mut Vec<u8>, name: &Name, op: u32, reply: &Reply) -> Result<(), NoMemory>
    ensures ok { OnOk result (out.new.items ≡ out.old.items ++ line_text name.now op reply.now) }
    ensures err { OnErr result (StartsWith out.new.items out.old.items) }
{
    push_call(out, name, op)?;
    push_reply(out, reply)?;
    push_text(out, b"\n")
}
