// What is read so far of a script, and what is wrong with a line.
ghost use Rattle.std.specs.Prelude.{◌≡◌, ◌++◌, ◌∷◌, [], Ok, Err, Some, length, IfOk, MatchResult};
ghost use Rattle.std.specs.Str.{bytes_eq};
ghost use Rattle.xa_types.specs.Configured.{is_among};
ghost use Rattle.xa_script.specs.Served.{is_served};
ghost use Rattle.xa_script.specs.Words.{Reads};
ghost use Rattle.xa_script.specs.Script.{client_names};
ghost use Rattle.xa_script.specs.Draft.{cause_number, client_with, client_of, begun, with_client, called, with_line, kept};

use crate::calls::{Verb, op_of, verb_of};
use crate::script::{Client, Script};
use crate::structures::Shaped;
use crate::words::{NoForm, ReadError, all_printed, is, is_blank, is_skipped, next_word, word_at};
use std::alloc::Global;
use std::marker::Model;
use std::mem;
use xa_types::{Name, NoMemory, Op, Sequence};

/// What is wrong with a line.
#[derive(Clone, Copy)]
pub enum Cause {
    /// An octet outside 0x20 to 0x7E.
    Unprinted,
    /// A first word that is no listed one.
    Unknown,
    /// A call before any `client`.
    BeforeClients,
    /// A word that is missing, too many or not of its form.
    Misshapen,
    /// A client whose word is no name.
    NoName,
    /// A client whose name an earlier one has.
    Doubled,
    /// One client more than there may be.
    OneTooMany,
    /// A subtype, field, value or kind that the setup doesn't take.
    NotTaken,
    /// A call that is not served.
    NotServed,
}

impl Cause {
    /// The number by which the cause is told.
    pub fn number(self) -> u8
        ensures { result ≡ cause_number self }
    {
        match self {
            Cause::Unprinted => 1,
            Cause::Unknown => 2,
            Cause::BeforeClients => 3,
            Cause::Misshapen => 4,
            Cause::NoName => 5,
            Cause::Doubled => 6,
            Cause::OneTooMany => 7,
            Cause::NotTaken => 8,
            Cause::NotServed => 9,
        }
    }
}

// Whether a domain serves the call.
fn is_served(op: &Op) -> bool
    ensures { result ≡ is_served op.now }
{
    match op {
        Op::Acall(ask) => !ask.flags.no_reply,
        Op::Connect(_) | Op::Send(..) | Op::Receive(..) | Op::Disconnect(_) => false,
        _ => true,
    }
}

// The one word behind `client`.
#[tactic(auto, unfolding(crate::specs::Draft::client_of))]
fn client_of(octets: &[u8]) -> Result<&[u8], NoForm>
    ensures { Reads (λ x. x.now) result (client_of octets.now) }
{
    let (word, rest) = word_at(octets)?;
    if is_blank(rest) {
        Ok(word)
    } else {
        Err(NoForm)
    }
}

/// What is read so far, seen as the list of its clients. Calls are added to the last one.
#[derive(Drop)]
pub struct Draft {
    done: Vec<Client>,
    name: Option<Name>,
    ops: Vec<Op>,
}

impl Model for Draft {
    ghost use Rattle.std.specs.Prelude.{List};
    ghost use Rattle.xa_script.specs.declared.script.Client.{Client};
    ghost use Rattle.xa_script.specs.Draft.{drafted, IsBegun};

    ghost Value = { List Client };

    ghost view = { λ d. drafted d.done.items d.name d.ops.items };

    ghost invariant = { λ d. IsBegun d.done.items d.name d.ops.items };
}

fn is_named(client: &Client, word: &[u8]) -> bool
    ensures { result ≡ bytes_eq word.now client.now.name }
{
    word == client.name.octets()
}

fn is_among(clients: &[Client], word: &[u8]) -> bool
    ensures { result ≡ is_among (client_names clients.now) word.now }
{
    for client in clients {
        if is_named(client, word) {
            return true;
        }
    }
    false
}

impl Draft {
    /// Nothing yet.
    pub fn new(alloc: Global) -> Draft
        ensures { result ≡ [] }
    {
        Draft {
            done: Vec::new(alloc),
            name: None,
            ops: Vec::new(alloc),
        }
    }

    fn has(&self, word: &[u8]) -> bool
        ensures { result ≡ is_among (client_names self.now) word.now }
    {
        is_among(self.done.as_slice(), word)
            || matches!(&self.name, Some(name) if word == name.octets())
    }

    fn len(&self) -> usize
        ensures { result ≡ length self.now }
    {
        self.done.len() + usize::from(self.name.is_some())
    }

    // The name of the client that the rest of its line begins, of whom there may be so many.
    fn new_name(&self, most: u16, octets: &[u8]) -> Result<Name, Cause>
        ensures { MatchResult result
            (λ name. with_client most self.now (client_of octets.now) ≡ Ok (self.now ++ client_with name [] ∷ []))
            (λ cause. with_client most self.now (client_of octets.now) ≡ Err cause) }
    {
        let Ok(word) = client_of(octets) else {
            return Err(Cause::Misshapen);
        };
        let Ok(name) = Name::read(word) else {
            return Err(Cause::NoName);
        };
        if self.has(word) {
            return Err(Cause::Doubled);
        }
        if self.len() >= usize::from(most) {
            return Err(Cause::OneTooMany);
        }
        Ok(name)
    }

    fn push(&mut self, alloc: Global, name: Name) -> Result<(), NoMemory>
        ensures { IfOk result (λ _. self.new ≡ self.old ++ client_with name [] ∷ []) }
    {
        let ops = Sequence::from_vec(mem::replace(&mut self.ops, Vec::new(alloc)));
        if let Some(name) = self.name.replace(name) {
            self.done.push(Client { name, ops })?;
        }
        Ok(())
    }

    fn begin(&mut self, alloc: Global, most: u16, octets: &[u8]) -> Result<Option<Cause>, NoMemory>
        ensures { IfOk result (λ cause. kept cause self.new ≡ with_client most self.old (client_of octets.now)) }
    {
        match self.new_name(most, octets) {
            Ok(name) => {
                self.push(alloc, name)?;
                Ok(None)
            }
            Err(cause) => Ok(Some(cause)),
        }
    }

    fn add(
        &mut self,
        alloc: Global,
        setup: &Shaped,
        verb: Verb,
        octets: &[u8],
    ) -> Result<Option<Cause>, NoMemory>
        ensures { IfOk result (λ cause. kept cause self.new ≡ called setup.now self.old (Some verb) octets.now) }
    {
        if self.name.is_none() {
            return Ok(Some(Cause::BeforeClients));
        }
        let op = match op_of(alloc, setup, verb, octets) {
            Ok(Some(op)) => op,
            Ok(None) => return Ok(Some(Cause::NotTaken)),
            Err(ReadError::NoForm) => return Ok(Some(Cause::Misshapen)),
            Err(ReadError::NoMemory) => return Err(NoMemory),
        };
        if !is_served(&op) {
            return Ok(Some(Cause::NotServed));
        }
        self.ops.push(op)?;
        Ok(None)
    }

    /// Goes on with a line, where there may be so many clients; or why the line is refused.
    #[tactic(auto, unfolding(crate::specs::Draft::with_line))]
    pub fn take_line(
        &mut self,
        alloc: Global,
        setup: &Shaped,
        most: u16,
        line: &[u8],
    ) -> Result<Option<Cause>, NoMemory>
        ensures { IfOk result (λ cause. kept cause self.new ≡ with_line setup.now most self.old line.now) }
    {
        if !all_printed(line) {
            return Ok(Some(Cause::Unprinted));
        }
        if is_skipped(line) {
            return Ok(None);
        }
        let (word, rest) = next_word(line);
        if is(word, b"client") {
            return self.begin(alloc, most, rest);
        }
        match verb_of(word) {
            Some(verb) => self.add(alloc, setup, verb, rest),
            None => Ok(Some(Cause::Unknown)),
        }
    }

    /// The script of all clients.
    pub fn finish(self) -> Result<Script, NoMemory>
        ensures { IfOk result (λ script. script.clients ≡ self) }
    {
        let Draft {
            mut done,
            name,
            ops,
        } = self;
        if let Some(name) = name {
            let ops = Sequence::from_vec(ops);
            done.push(Client { name, ops })?;
        }
        let clients = Sequence::from_vec(done);
        Ok(Script { clients })
    }
}
