// The words that the program was started with, and the command that they are.
ghost use Rattle.std.specs.Prelude.{◌≡◌, ◌⊎◌, Some, All, IfOk, IfErr, OnErr, IfSome, IsErrOf, map, option_and_then, string_bytes};
ghost use Rattle.std.specs.Str.{IsUtf8};
ghost use Rattle.xa_program.specs.Words.{own_word, words_behind, begins_with_dash, file_in, name_in, takes_file, filed_command, named_command, command_of, command_in, NamesFile};

use crate::status::Status;
use std::alloc::Global;
use xa_link::Arguments;
use xa_types::{Name, NoMemory, Octets};

/// The words that the program was started with, in their order, of which the first is its own.
pub fn all_words<A: Arguments>(alloc: Global, given: &A) -> Result<Vec<Octets>, NoMemory>
    ensures { IfOk result (λ all. IfSome (A.words given.now) (λ told. all.items ≡ told)) }
{
    let mut all = Vec::new(alloc);
    for place in 0..usize::MAX {
        match given.word(place)? {
            Some(word) => all.push(word)?,
            None => return Ok(all),
        }
    }
    Err(NoMemory)
}

/// The program's own word, which may be no text.
pub fn own_word(all: &[Octets]) -> &[u8]
    ensures { result.now ≡ own_word all.now }
{
    match all {
        [] => b"",
        [own, ..] => own.slice(),
    }
}

/// The words behind the program's own, as text. Where one of them is none, they are no command's.
pub fn words_behind(alloc: Global, all: &[Octets]) -> Result<Vec<String>, Status>
    ensures words { IfOk result (λ words. map string_bytes words.items ≡ words_behind all.now) }
    ensures usage { IsErrOf result Status.Usage → All IsUtf8 (words_behind all.now) → ⊥ }
    ensures refused { IfErr result (λ status. (status ≡ Status.Usage) ⊎ (status ≡ Status.NoMemory)) }
{
    match all {
        [] => Ok(Vec::new(alloc)),
        [_, behind @ ..] => texts_of(alloc, behind),
    }
}

fn texts_of(alloc: Global, words: &[Octets]) -> Result<Vec<String>, Status>
    ensures words { IfOk result (λ texts. map string_bytes texts.items ≡ words.now) }
    ensures usage { IsErrOf result Status.Usage → All IsUtf8 words.now → ⊥ }
    ensures refused { IfErr result (λ status. (status ≡ Status.Usage) ⊎ (status ≡ Status.NoMemory)) }
{
    let mut texts = Vec::new(alloc);
    for word in words {
        let text = match text_of(alloc, word) {
            Ok(text) => text,
            Err(status) => return Err(status),
        };
        if texts.push(text).is_err() {
            return Err(Status::NoMemory);
        }
    }
    Ok(texts)
}

fn text_of(alloc: Global, word: &Octets) -> Result<String, Status>
    ensures text { IfOk result (λ text. string_bytes text ≡ word.now) }
    ensures usage { IsErrOf result Status.Usage → IsUtf8 word.now → ⊥ }
    ensures starved { IsErrOf result Status.NoMemory → IsUtf8 word.now }
    ensures refused { IfErr result (λ status. (status ≡ Status.Usage) ⊎ (status ≡ Status.NoMemory)) }
{
    let Ok(text) = str::from_utf8(word.slice()) else {
        return Err(Status::Usage);
    };
    match String::from_str(alloc, text) {
        Ok(text) => Ok(text),
        Err(_) => Err(Status::NoMemory),
    }
}

/// What the program is asked to do.
#[derive(Drop)]
pub enum Command {
    /// Serves a script in the domain of the configuration that this file holds, and writes its transcript.
    Run(Octets),
    /// The same, but writes the record of the run.
    Record(Octets),
    /// Judges the record that this file holds.
    Audit(Octets),
    /// Plays a script whose calls go to this service.
    Play(Name),
    /// Serves as the server of this name.
    Server(Name),
}

fn begins_with_dash(octets: &[u8]) -> bool
    ensures { result ≡ begins_with_dash octets.now }
{
    match octets {
        [] => false,
        [first, ..] => *first == b'-',
    }
}

// The file that the word names.
fn file_of(alloc: Global, word: &[u8]) -> Result<Option<Octets>, NoMemory>
    ensures found { IfOk result (λ file. file ≡ file_in word.now) }
    ensures starved { OnErr result (file_in word.now ≡ Some word.now) }
{
    if begins_with_dash(word) {
        return Ok(None);
    }
    Ok(Some(Octets::of(alloc, word)?))
}

fn takes_file(command: &str) -> bool
    ensures { result ≡ takes_file command.now }
{
    command == "run" || command == "record" || command == "audit"
}

fn filed_command(command: &str, file: Octets) -> Option<Command>
    ensures { result ≡ filed_command command.now file }
{
    if command == "run" {
        Some(Command::Run(file))
    } else if command == "record" {
        Some(Command::Record(file))
    } else if command == "audit" {
        Some(Command::Audit(file))
    } else {
        None
    }
}

fn name_in(octets: &[u8]) -> Option<Name>
    ensures { result ≡ name_in octets.now }
{
    if begins_with_dash(octets) {
        return None;
    }
    Name::read(octets).ok()
}

fn named_command(command: &str, argument: &[u8]) -> Option<Command>
    ensures { result ≡ option_and_then (named_command command.now) (name_in argument.now) }
{
    let name = name_in(argument)?;
    if command == "play" {
        Some(Command::Play(name))
    } else if command == "server" {
        Some(Command::Server(name))
    } else {
        None
    }
}

fn command_of(alloc: Global, command: &str, argument: &str) -> Result<Option<Command>, NoMemory>
    ensures found { IfOk result (λ found. found ≡ command_of command.now argument.now) }
    ensures starved { OnErr result (NamesFile (command_of command.now argument.now)) }
{
    if !takes_file(command) {
        return Ok(named_command(command, argument.as_bytes()));
    }
    match file_of(alloc, argument.as_bytes())? {
        Some(file) => Ok(filed_command(command, file)),
        None => Ok(None),
    }
}

/// The command that the words after the program's own name make: `run CONFIG`, `record CONFIG`, `audit FILE`,
/// `play SERVICE` or `server NAME`, and no other. Memory is wanted for the name of a file alone.
pub fn read_words(alloc: Global, words: &[String]) -> Result<Option<Command>, NoMemory>
    ensures found { IfOk result (λ found. found ≡ command_in (map string_bytes words.now)) }
    ensures starved { OnErr result (NamesFile (command_in (map string_bytes words.now))) }
{
    match words {
        [command, argument] => command_of(alloc, command.as_str(), argument.as_str()),
        _ => Ok(None),
    }
}
