//! Buffers of typed data: made, changed, packed and unpacked, and what is refused.
use crate::memory::setup_of;
use crate::rows::none_fails;
use std::alloc::Global;
use xa_buffer::{Buffer, BufferRefused, FieldValue, Shapes};
use xa_types::{Data, Kind, Name, Octets};

// The shape `large` has 65,536 octets, the most.
const SETUP: &[u8] = b"
queue = [{ name = 'Q' }]
server = [{ name = 'S', queue = 'Q' }]
shape = [
  { name = 'entry', fields = ['account int', 'amount long', 'memo string 16'] },
  { name = 'pair', fields = ['number short', 'letter char'] },
  { name = 'large', fields = [
    'f0 string 1024', 'f1 string 1024', 'f2 string 1024', 'f3 string 1024', 'f4 string 1024', 'f5 string 1024', 'f6 string 1024', 'f7 string 1024',
    'f8 string 1024', 'f9 string 1024', 'f10 string 1024', 'f11 string 1024', 'f12 string 1024', 'f13 string 1024', 'f14 string 1024', 'f15 string 1024',
    'f16 string 1024', 'f17 string 1024', 'f18 string 1024', 'f19 string 1024', 'f20 string 1024', 'f21 string 1024', 'f22 string 1024', 'f23 string 1024',
    'f24 string 1024', 'f25 string 1024', 'f26 string 1024', 'f27 string 1024', 'f28 string 1024', 'f29 string 1024', 'f30 string 1024', 'f31 string 1024',
    'f32 string 1024', 'f33 string 1024', 'f34 string 1024', 'f35 string 1024', 'f36 string 1024', 'f37 string 1024', 'f38 string 1024', 'f39 string 1024',
    'f40 string 1024', 'f41 string 1024', 'f42 string 1024', 'f43 string 1024', 'f44 string 1024', 'f45 string 1024', 'f46 string 1024', 'f47 string 1024',
    'f48 string 1024', 'f49 string 1024', 'f50 string 1024', 'f51 string 1024', 'f52 string 1024', 'f53 string 1024', 'f54 string 1024', 'f55 string 1024',
    'f56 string 1024', 'f57 string 1024', 'f58 string 1024', 'f59 string 1024', 'f60 string 1024', 'f61 string 1024', 'f62 string 1024', 'f63 string 1024',
  ] },
]";

// Data that is absent, is so many letters `a`, or is of a subtype with these octets or so many zeros.
#[derive(Clone, Copy)]
enum Payload {
    Absent,
    Letters(usize),
    Struct(&'static [u8], &'static [u8]),
    Zeros(&'static [u8], usize),
}

// How a buffer is made: of X_OCTET or of a subtype with a size, or of data.
#[derive(Clone, Copy)]
enum Made {
    Octet(u32),
    Struct(&'static [u8], u32),
    Of(Payload),
}

// What is asked of it: a field gets a number, a text or so many letters, or is read; all octets become these, or so many
// letters; its size changes or is told; it is packed.
#[derive(Clone, Copy)]
enum Ask {
    Number(&'static [u8], i64),
    Text(&'static [u8], &'static [u8]),
    Letters(&'static [u8], usize),
    Get(&'static [u8]),
    Put(&'static [u8]),
    PutLetters(usize),
    Resize(u32),
    Size,
    Pack,
}

// What it answers: that it is done, a number, a text or octets, so many zeros with letters behind them, or a refusal.
#[derive(Clone, Copy)]
enum Told {
    Done,
    Number(i64),
    Octets(&'static [u8]),
    Long(usize, usize),
    NoEntry,
    BadSize,
    NoField,
    WrongKind,
    TooLong,
    WrongLength,
}

// A buffer, what it is told as it is made, and its calls.
type Row = (Made, Told, &'static [(Ask, Told)]);

static ROWS: [Row; 17] = [
    (
        Made::Struct(b"entry", 28),
        Told::Done,
        &[
            (Ask::Pack, Told::Octets(&[0; 28])),
            (Ask::Number(b"account", 7), Told::Done),
            (Ask::Number(b"amount", 250), Told::Done),
            (Ask::Text(b"memo", b"rent"), Told::Done),
            (
                Ask::Pack,
                Told::Octets(b"\0\0\0\x07\0\0\0\0\0\0\0\xfarent\0\0\0\0\0\0\0\0\0\0\0\0"),
            ),
            (Ask::Get(b"memo"), Told::Octets(b"rent")),
            (Ask::Get(b"account"), Told::Number(7)),
            (Ask::Get(b"amount"), Told::Number(250)),
            (Ask::Number(b"account", 0x8000_0000), Told::TooLong),
            (Ask::Number(b"account", -0x8000_0001), Told::TooLong),
            (Ask::Text(b"memo", b"a text of 17 octe"), Told::TooLong),
            (Ask::Text(b"memo", b"re\0t"), Told::WrongKind),
            (Ask::Text(b"memo", b"a text of 17 oct\0"), Told::WrongKind),
            (Ask::Text(b"account", b"7"), Told::WrongKind),
            (Ask::Number(b"memo", 7), Told::WrongKind),
            (Ask::Number(b"rent", 7), Told::NoField),
            (Ask::Get(b"rent"), Told::NoField),
            (Ask::Put(b"rent"), Told::WrongKind),
            (Ask::Resize(27), Told::BadSize),
            (Ask::Resize(29), Told::BadSize),
            (Ask::Resize(0), Told::Done),
            (Ask::Resize(28), Told::Done),
            (Ask::Size, Told::Number(28)),
            (
                Ask::Pack,
                Told::Octets(b"\0\0\0\x07\0\0\0\0\0\0\0\xfarent\0\0\0\0\0\0\0\0\0\0\0\0"),
            ),
            (Ask::Number(b"account", -0x8000_0000), Told::Done),
            (Ask::Number(b"amount", -2), Told::Done),
            (Ask::Text(b"memo", b"a text of 16 oct"), Told::Done),
            (
                Ask::Pack,
                Told::Octets(b"\x80\0\0\0\xff\xff\xff\xff\xff\xff\xff\xfea text of 16 oct"),
            ),
            (Ask::Get(b"memo"), Told::Octets(b"a text of 16 oct")),
            (Ask::Get(b"account"), Told::Number(-0x8000_0000)),
            (Ask::Get(b"amount"), Told::Number(-2)),
            (Ask::Text(b"memo", b""), Told::Done),
            (Ask::Get(b"memo"), Told::Octets(b"")),
        ],
    ),
    (
        Made::Struct(b"pair", 0),
        Told::Done,
        &[
            (Ask::Number(b"number", 0x7fff), Told::Done),
            (Ask::Number(b"number", 0x8000), Told::TooLong),
            (Ask::Pack, Told::Octets(b"\x7f\xff\0")),
            (Ask::Number(b"number", -0x8000), Told::Done),
            (Ask::Number(b"number", -0x8001), Told::TooLong),
            (Ask::Number(b"letter", 0xff), Told::Done),
            (Ask::Number(b"letter", 0x100), Told::TooLong),
            (Ask::Number(b"letter", -1), Told::TooLong),
            (Ask::Get(b"number"), Told::Number(-0x8000)),
            (Ask::Get(b"letter"), Told::Number(0xff)),
            (Ask::Size, Told::Number(3)),
            (Ask::Pack, Told::Octets(b"\x80\0\xff")),
        ],
    ),
    (
        Made::Struct(b"large", 65_536),
        Told::Done,
        &[
            (Ask::Pack, Told::Long(65_536, 0)),
            (Ask::Letters(b"f63", 1_024), Told::Done),
            (Ask::Letters(b"f0", 1_025), Told::TooLong),
            (Ask::Text(b"f63", b"\0"), Told::WrongKind),
            (Ask::Number(b"f63", 0), Told::WrongKind),
            (Ask::Letters(b"f64", 1), Told::NoField),
            (Ask::PutLetters(1), Told::WrongKind),
            (Ask::Resize(65_535), Told::BadSize),
            (Ask::Size, Told::Number(65_536)),
            (Ask::Get(b"f63"), Told::Long(0, 1_024)),
            (Ask::Get(b"f62"), Told::Octets(b"")),
            (Ask::Pack, Told::Long(64_512, 1_024)),
        ],
    ),
    (
        Made::Octet(0),
        Told::Done,
        &[
            (Ask::Pack, Told::Octets(b"")),
            (Ask::Put(b"ab"), Told::Done),
            (Ask::Resize(3), Told::Done),
            (Ask::Pack, Told::Octets(b"ab\0")),
            (Ask::Resize(1), Told::Done),
            (Ask::Pack, Told::Octets(b"a")),
            (Ask::Resize(65_537), Told::BadSize),
            (Ask::PutLetters(65_537), Told::TooLong),
            (Ask::Number(b"account", 7), Told::WrongKind),
            (Ask::Text(b"memo", b"rent"), Told::WrongKind),
            (Ask::Get(b"memo"), Told::WrongKind),
            (Ask::Pack, Told::Octets(b"a")),
            (Ask::PutLetters(65_536), Told::Done),
            (Ask::Size, Told::Number(65_536)),
            (Ask::Pack, Told::Long(0, 65_536)),
            (Ask::Resize(0), Told::Done),
            (Ask::Pack, Told::Octets(b"")),
        ],
    ),
    (
        Made::Octet(65_536),
        Told::Done,
        &[(Ask::Pack, Told::Long(65_536, 0))],
    ),
    (Made::Octet(65_537), Told::BadSize, &[]),
    (Made::Struct(b"none", 0), Told::NoEntry, &[]),
    (Made::Struct(b"none", 27), Told::NoEntry, &[]),
    (Made::Struct(b"entry", 27), Told::BadSize, &[]),
    (Made::Of(Payload::Absent), Told::NoEntry, &[]),
    (
        Made::Of(Payload::Struct(b"none", &[0; 28])),
        Told::NoEntry,
        &[],
    ),
    (
        Made::Of(Payload::Struct(b"entry", &[0; 27])),
        Told::WrongLength,
        &[],
    ),
    (
        Made::Of(Payload::Struct(
            b"entry",
            b"\0\0\0\x07\xff\xff\xff\xff\xff\xff\xff\xffab\0cd\0\0\0\0\0\0\0\0\0\0\x01",
        )),
        Told::Done,
        &[
            (Ask::Get(b"memo"), Told::Octets(b"ab")),
            (Ask::Get(b"amount"), Told::Number(-1)),
            (Ask::Number(b"account", 8), Told::Done),
            (
                Ask::Pack,
                Told::Octets(
                    b"\0\0\0\x08\xff\xff\xff\xff\xff\xff\xff\xffab\0cd\0\0\0\0\0\0\0\0\0\0\x01",
                ),
            ),
        ],
    ),
    (
        Made::Of(Payload::Letters(65_536)),
        Told::Done,
        &[(Ask::Pack, Told::Long(0, 65_536))],
    ),
    (Made::Of(Payload::Letters(65_537)), Told::TooLong, &[]),
    (
        Made::Of(Payload::Zeros(b"large", 65_536)),
        Told::Done,
        &[(Ask::Pack, Told::Long(65_536, 0))],
    ),
    (
        Made::Of(Payload::Zeros(b"large", 65_537)),
        Told::WrongLength,
        &[],
    ),
];

fn is_refused(why: BufferRefused, told: Told) -> bool {
    match why {
        BufferRefused::NoEntry => matches!(told, Told::NoEntry),
        BufferRefused::BadSize => matches!(told, Told::BadSize),
        BufferRefused::NoField => matches!(told, Told::NoField),
        BufferRefused::WrongKind => matches!(told, Told::WrongKind),
        BufferRefused::TooLong => matches!(told, Told::TooLong),
        BufferRefused::WrongLength => matches!(told, Told::WrongLength),
        BufferRefused::NoMemory => false,
    }
}

fn is_done(answer: Result<(), BufferRefused>, told: Told) -> bool {
    match answer {
        Ok(()) => matches!(told, Told::Done),
        Err(why) => is_refused(why, told),
    }
}

// Whether the octets are these, or so many zeros with so many letters behind them.
fn are_told(octets: &[u8], told: Told) -> bool {
    match told {
        Told::Octets(want) => octets == want,
        Told::Long(zeros, letters) => match octets.split_at_checked(zeros) {
            Some((front, rest)) => {
                rest.len() == letters
                    && front.iter().all(|octet| *octet == 0)
                    && rest.iter().all(|octet| *octet == b'a')
            }
            None => false,
        },
        _ => false,
    }
}

fn is_valued(answer: Result<FieldValue, BufferRefused>, told: Told) -> bool {
    match answer {
        Ok(FieldValue::Whole(number)) => matches!(told, Told::Number(want) if number == want),
        Ok(FieldValue::Text(text)) => are_told(text.slice(), told),
        Err(why) => is_refused(why, told),
    }
}

fn is_packed(alloc: Global, buffer: &Buffer, told: Told) -> bool {
    match buffer.pack(alloc) {
        Ok(Data::Octet(octets)) => are_told(octets.slice(), told),
        Ok(Data::Struct(_, octets)) => are_told(octets.slice(), told),
        Ok(Data::Absent) | Err(_) => false,
    }
}

fn letters(alloc: Global, count: usize) -> Option<Octets> {
    Some(Octets::from_vec(vec![in alloc; b'a'; count].ok()?))
}

fn is_set(buffer: &mut Buffer, field: &[u8], value: Option<FieldValue>, told: Told) -> bool {
    let (Ok(field), Some(value)) = (Name::read(field), value) else {
        return false;
    };
    is_done(buffer.set_field(&field, &value), told)
}

fn is_got(alloc: Global, buffer: &Buffer, field: &[u8], told: Told) -> bool {
    match Name::read(field) {
        Ok(field) => is_valued(buffer.get_field(alloc, &field), told),
        Err(_) => false,
    }
}

fn text_of(alloc: Global, text: &[u8]) -> Option<FieldValue> {
    Some(FieldValue::Text(Octets::of(alloc, text).ok()?))
}

fn is_told(alloc: Global, buffer: &mut Buffer, ask: Ask, told: Told) -> bool {
    match ask {
        Ask::Number(field, number) => {
            is_set(buffer, field, Some(FieldValue::Whole(number)), told)
        }
        Ask::Text(field, text) => is_set(buffer, field, text_of(alloc, text), told),
        Ask::Letters(field, count) => {
            let text = letters(alloc, count).map(FieldValue::Text);
            is_set(buffer, field, text, told)
        }
        Ask::Get(field) => is_got(alloc, buffer, field, told),
        Ask::Put(octets) => is_done(buffer.set_octets(octets), told),
        Ask::PutLetters(count) => match letters(alloc, count) {
            Some(octets) => is_done(buffer.set_octets(octets.slice()), told),
            None => false,
        },
        Ask::Resize(size) => is_done(buffer.resize(size), told),
        Ask::Size => matches!(told, Told::Number(want) if i64::from(buffer.types().1) == want),
        Ask::Pack => is_packed(alloc, buffer, told),
    }
}

fn are_all_told(alloc: Global, mut buffer: Buffer, asks: &[(Ask, Told)]) -> bool {
    for (ask, told) in asks {
        if !is_told(alloc, &mut buffer, *ask, *told) {
            return false;
        }
    }
    true
}

fn zeros(alloc: Global, count: usize) -> Option<Octets> {
    Some(Octets::from_vec(vec![in alloc; 0; count].ok()?))
}

fn struct_of(subtype: &[u8], octets: Option<Octets>) -> Option<Data> {
    Some(Data::Struct(Name::read(subtype).ok()?, octets?))
}

fn data_of(alloc: Global, payload: Payload) -> Option<Data> {
    match payload {
        Payload::Absent => Some(Data::Absent),
        Payload::Letters(count) => Some(Data::Octet(letters(alloc, count)?)),
        Payload::Struct(subtype, octets) => struct_of(subtype, Octets::of(alloc, octets).ok()),
        Payload::Zeros(subtype, count) => struct_of(subtype, zeros(alloc, count)),
    }
}

fn kind_of(made: Made) -> Option<(Kind, u32)> {
    match made {
        Made::Octet(size) => Some((Kind::Octet, size)),
        Made::Struct(subtype, size) => Some((Kind::Struct(Name::read(subtype).ok()?), size)),
        Made::Of(_) => None,
    }
}

fn buffer_of(alloc: Global, shapes: &Shapes, made: Made) -> Option<Result<Buffer, BufferRefused>> {
    if let Made::Of(payload) = made {
        return Some(Buffer::unpack(alloc, &data_of(alloc, payload)?, shapes));
    }
    let (kind, size) = kind_of(made)?;
    Some(Buffer::alloc(alloc, &kind, size, shapes))
}

fn is_right(alloc: Global, shapes: &Shapes, (how, told, asks): Row) -> bool {
    match buffer_of(alloc, shapes, how) {
        Some(Ok(buffer)) => matches!(told, Told::Done) && are_all_told(alloc, buffer, asks),
        Some(Err(why)) => is_refused(why, told),
        None => false,
    }
}

fn shapes_of(alloc: Global) -> Option<Shapes> {
    Shapes::of(alloc, &setup_of(alloc, SETUP)?).ok()
}

// The place of the first row that isn't right; without shapes, of the first.
fn first_not_right(alloc: Global) -> Option<usize> {
    let Some(shapes) = shapes_of(alloc) else {
        return Some(0);
    };
    for (place, row) in ROWS.iter().enumerate() {
        if !is_right(alloc, &shapes, *row) {
            return Some(place);
        }
    }
    None
}

#[test]
fn buffers_are_filled_and_read(rt: HostRuntime) {
    none_fails(&rt, first_not_right(rt.alloc()));
}

static SOUND: [(Payload, bool); 9] = [
    (Payload::Absent, true),
    (Payload::Letters(65_536), true),
    (Payload::Letters(65_537), false),
    (Payload::Struct(b"pair", b"abc"), true),
    (Payload::Struct(b"pair", b"ab"), false),
    (Payload::Struct(b"pair", b"abcd"), false),
    (Payload::Struct(b"none", b"abc"), false),
    (Payload::Zeros(b"large", 65_536), true),
    (Payload::Zeros(b"large", 65_537), false),
];

fn first_not_judged(alloc: Global) -> Option<usize> {
    let Some(shapes) = shapes_of(alloc) else {
        return Some(0);
    };
    for (place, (payload, want)) in SOUND.iter().enumerate() {
        let judged = data_of(alloc, *payload).map(|payload| shapes.sound(&payload));
        if judged != Some(*want) {
            return Some(place);
        }
    }
    None
}

#[test]
fn sound_data_has_the_size_of_its_shape(rt: HostRuntime) {
    none_fails(&rt, first_not_judged(rt.alloc()));
}
