// The flags of a call, and the kind of its TPNOCHANGE buffer.
ghost use Rattle.std.specs.Prelude.{◌≡◌, Some, None, length, if◌then◌else◌};
ghost use Rattle.xa_script.specs.Words.{Reads};
ghost use Rattle.xa_script.specs.Calls.{no_flags, expect_of, flagged, nochange_at, flag_by, flags_from, flags_of};

use crate::structures::Shaped;
use crate::words::{NoForm, is, is_blank, word_at};
use xa_types::{CallFlags, Kind};

/// The flags of a call, and the kind of its TPNOCHANGE buffer where it has one; a buffer of a shape that the setup
/// hasn't got is of no kind.
#[derive(Clone, Copy)]
pub struct Flags {
    pub call: CallFlags,
    pub expect: Option<Option<Kind>>,
}

fn no_flags() -> CallFlags
    ensures { result ≡ no_flags }
{
    CallFlags::default()
}

// A kind is `octet`, or `c:` and the name of a shape.
#[tactic(auto, unfolding(crate::specs::Asked::expect_of))]
fn expect_of(setup: &Shaped, word: &[u8]) -> Result<Option<Kind>, NoForm>
    ensures { Reads (λ x. x) result (expect_of setup.now word.now) }
{
    if is(word, b"octet") {
        return Ok(Some(Kind::Octet));
    }
    match word {
        [b'c', b':', name @ ..] => match setup.find(name) {
            Some(shape) => Ok(Some(Kind::Struct(shape.name))),
            None => Ok(None),
        },
        _ => Err(NoForm),
    }
}

// The flags, where the one that they have more didn't stand already.
fn unless(stood: bool, flags: CallFlags) -> Result<CallFlags, NoForm>
    ensures { Reads (λ x. x) result (if stood then None else Some flags) }
{
    if stood { Err(NoForm) } else { Ok(flags) }
}

// The flags with one more, which doesn't stand already.
#[tactic(auto, unfolding(crate::specs::Calls::flagged))]
fn flagged(flags: CallFlags, word: &[u8]) -> Result<CallFlags, NoForm>
    ensures { Reads (λ x. x) result (flagged flags word.now) }
{
    if is(word, b"noblock") {
        unless(
            flags.no_block,
            CallFlags {
                no_block: true,
                ..flags
            },
        )
    } else if is(word, b"notime") {
        unless(
            flags.no_time,
            CallFlags {
                no_time: true,
                ..flags
            },
        )
    } else if is(word, b"noreply") {
        unless(
            flags.no_reply,
            CallFlags {
                no_reply: true,
                ..flags
            },
        )
    } else if is(word, b"notran") {
        unless(
            flags.no_tran,
            CallFlags {
                no_tran: true,
                ..flags
            },
        )
    } else if is(word, b"sigrstrt") {
        unless(
            flags.sig_restart,
            CallFlags {
                sig_restart: true,
                ..flags
            },
        )
    } else {
        Err(NoForm)
    }
}

// Takes the kind behind `nochange`, where such a call may have it and it doesn't stand already.
#[tactic(auto, unfolding(crate::specs::Calls::nochange_at))]
fn nochange_at<'a>(
    setup: &Shaped,
    buffered: bool,
    flags: &mut Flags,
    octets: &'a [u8],
) -> Result<&'a [u8], NoForm>
    ensures { Reads (λ x. (flags.new, x.now)) result (nochange_at setup.now buffered flags.old octets.now) }
{
    if !buffered || flags.expect.is_some() {
        return Err(NoForm);
    }
    let (word, rest) = word_at(octets)?;
    flags.expect = Some(expect_of(setup, word)?);
    Ok(rest)
}

// Takes one flag more by that word, and answers what stands behind it.
#[tactic(auto, unfolding(crate::specs::Calls::flag_by))]
fn flag_by<'a>(
    setup: &Shaped,
    buffered: bool,
    flags: &mut Flags,
    word: &[u8],
    octets: &'a [u8],
) -> Result<&'a [u8], NoForm>
    ensures { Reads (λ x. (flags.new, x.now)) result (flag_by setup.now buffered flags.old word.now octets.now) }
{
    if is(word, b"nochange") {
        return nochange_at(setup, buffered, flags, octets);
    }
    flags.call = flagged(flags.call, word)?;
    Ok(octets)
}

/// The flags that the rest of a line is, of which there are no more than octets; `nochange` is among them for a call
/// with a buffer alone.
#[tactic(auto, unfolding(crate::specs::Calls::flags_of))]
pub fn flags_of(setup: &Shaped, buffered: bool, octets: &[u8]) -> Result<Flags, NoForm>
    ensures { Reads (λ x. x) result (flags_of setup.now buffered octets.now) }
{
    let mut flags = Flags {
        call: no_flags(),
        expect: None,
    };
    let mut rest = octets;
    for _turn in 0..octets.len() {
        if is_blank(rest) {
            return Ok(flags);
        }
        let (word, behind) = word_at(rest)?;
        rest = flag_by(setup, buffered, &mut flags, word, behind)?;
    }
    if is_blank(rest) {
        Ok(flags)
    } else {
        Err(NoForm)
    }
}
