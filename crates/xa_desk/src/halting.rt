// How each worker sees that the run halts.
use std::sync::atomic::AtomicU64;
use std::sync::atomic::Ordering::SeqCst;
use xa_server::types::Stamp;
use xa_server::work::Halt;

/// A word that each worker sees: why the run halts, if it does. The first that halts it is told to all. No clause says what
/// a worker sees there: each answers for its own halt.
#[derive(Drop)]
pub struct HaltWord {
    word: AtomicU64,
}

// 0 while the run goes on, 1 where memory ran out, and else two more than the stamp.
fn code_of(halt: Halt) -> u64 {
    match halt {
        Halt::NoMemory => 1,
        Halt::Worn(stamp) => stamp.0.saturating_add(2),
    }
}

impl HaltWord {
    /// The run goes on.
    pub fn new() -> HaltWord {
        HaltWord {
            word: AtomicU64::new(0),
        }
    }

    /// The run halts, where it didn't before.
    pub fn set(&self, halt: Halt) {
        let _ = self.word.compare_exchange(0, code_of(halt), SeqCst, SeqCst);
    }

    /// Why the run halts, if it does.
    pub fn get(&self) -> Option<Halt> {
        match self.word.load(SeqCst) {
            0 => None,
            1 => Some(Halt::NoMemory),
            code => Some(Halt::Worn(Stamp(code - 2))),
        }
    }
}
