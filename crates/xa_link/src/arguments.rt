// The words that a program was started with.
ghost use Rattle.std.specs.Prelude.{◌≡◌, ℕ, List, Option, IfOk, IfSome, Some, None};
ghost use Rattle.xa_link.specs.Arguments.{word_at, arguments_words};

use std::alloc::Global;
use std::env::FillError;
use std::rt::Env;
use xa_types::{NoMemory, Octets};

// How many octets a word is first thought to have at most.
const WORD: usize = 256;

/// Has the words that a program was started with, of which the first is the program's own.
pub trait Arguments {
    /// The words, where it tells them.
    ghost words: { Self → Option (List (List ℕ)) };

    /// The word at that place, counted from 0. Behind the last word there is none.
    fn word(&self, place: usize) -> Result<Option<Octets>, NoMemory>
        ensures { IfOk result (λ word. IfSome (words self.now) (λ all. word ≡ word_at all place)) };
}

/// Has prepared words, and tells all.
#[derive(Drop)]
pub struct MemoryArguments {
    alloc: Global,
    words: Vec<Octets>,
}

impl MemoryArguments {
    /// `alloc` is where the memory of the answers comes from.
    pub fn new(alloc: Global, words: Vec<Octets>) -> MemoryArguments
        ensures { arguments_words result ≡ words.items }
    {
        MemoryArguments { alloc, words }
    }
}

impl Arguments for MemoryArguments {
    ghost words = { λ a. Some a.words.items };

    fn word(&self, place: usize) -> Result<Option<Octets>, NoMemory> {
        match self.words.get(place) {
            Some(word) => Ok(Some(word.copy(self.alloc)?)),
            None => Ok(None),
        }
    }
}

/// The words that the system gives. It tells nothing of them.
#[derive(Drop)]
pub struct SystemArguments<R: Env + AllocGlobal> {
    rt: R,
}

impl<R: Env + AllocGlobal> SystemArguments<R> {
    /// The words of this program.
    pub fn new(rt: R) -> SystemArguments<R> {
        SystemArguments { rt }
    }

    // The word, where it fits so many octets.
    fn read_word(&self, place: usize, room: usize) -> Result<Option<Octets>, ReadRefused> {
        let mut octets = Vec::new(self.rt.alloc());
        if octets.resize(room, 0u8).is_err() {
            return Err(ReadRefused::NoMemory);
        }
        match self.rt.arg(place, octets.as_mut_slice()) {
            Ok(n) => {
                octets.truncate(n);
                Ok(Some(Octets::from_vec(octets)))
            }
            Err(FillError::NotPresent) => Ok(None),
            Err(FillError::TooLong) => Err(ReadRefused::TooLong),
        }
    }
}

// Why a word wasn't read.
enum ReadRefused {
    TooLong,
    NoMemory,
}

impl<R: Env + AllocGlobal> Arguments for SystemArguments<R> {
    ghost words = { λ _. None };

    fn word(&self, place: usize) -> Result<Option<Octets>, NoMemory> {
        let mut room = WORD;
        for _ in 0..usize::BITS {
            match self.read_word(place, room) {
                Ok(word) => return Ok(word),
                Err(ReadRefused::NoMemory) => return Err(NoMemory),
                Err(ReadRefused::TooLong) => room = room.saturating_mul(2),
            }
        }
        Err(NoMemory)
    }
}
