use std::alloc::AllocError;
use thiserror::Error;
use xa_types::NoMemory;

/// Why a call of a buffer is refused. The buffer is as it was then.
#[derive(Debug, Drop, Error)]
pub enum BufferRefused {
    /// The subtype isn't there (TPENOENT).
    #[error("NoEntry")]
    NoEntry,
    /// A buffer of that kind can't have that size (TPEINVAL).
    #[error("BadSize")]
    BadSize,
    /// The shape has no field of that name.
    #[error("NoField")]
    NoField,
    /// A text for a number or a number for a text, a text with a zero octet, or a call that isn't for this kind of buffer.
    #[error("WrongKind")]
    WrongKind,
    /// The value, or the data, has more octets than there is room for.
    #[error("TooLong")]
    TooLong,
    /// Data of X_C_TYPE hasn't the size of its shape.
    #[error("WrongLength")]
    WrongLength,
    #[error("NoMemory")]
    NoMemory,
}

impl From<NoMemory> for BufferRefused {
    ghost use Rattle.std.specs.Prelude.{◌≡◌};
    ghost use Rattle.xa_buffer.specs.declared.refusal.BufferRefused.TheVariants.{NoMemory};

    ghost from_gives = { λ _ e. e ≡ NoMemory };

    fn from(_: NoMemory) -> Self {
        BufferRefused::NoMemory
    }
}

impl From<AllocError> for BufferRefused {
    ghost use Rattle.std.specs.Prelude.{◌≡◌};
    ghost use Rattle.xa_buffer.specs.declared.refusal.BufferRefused.TheVariants.{NoMemory};

    ghost from_gives = { λ _ e. e ≡ NoMemory };

    fn from(_: AllocError) -> Self {
        BufferRefused::NoMemory
    }
}
