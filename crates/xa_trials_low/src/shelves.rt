//! Which files a shelf gives, in memory and of the system.
use std::alloc::Global;
use std::fs;
use xa_link::{FileShelf, MemoryShelf, Shelf, ShelfRefused};
use xa_types::Octets;

// A file's name, how many octets it may have, and what is read.
type Row = (&'static str, u32, Result<&'static [u8], ShelfRefused>);

static WANT: [Row; 4] = [
    ("a", 3, Ok(b"xyz")),
    ("a", 2, Err(ShelfRefused::TooLong)),
    ("empty", 0, Ok(b"")),
    ("none", 9, Err(ShelfRefused::Failed)),
];

// The fifth read fails.
static FAILED: [Row; 2] = [("a", 3, Err(ShelfRefused::Failed)), ("a", 3, Ok(b"xyz"))];

// Of this file a read gives but a part.
const LONG: [u8; 4097] = [b'x'; 4097];

// A folder can be opened, but not read.
static REAL: [Row; 3] = [
    ("long", 4097, Ok(&LONG)),
    ("long", 4096, Err(ShelfRefused::TooLong)),
    (".", 9, Err(ShelfRefused::Failed)),
];

fn is_read<S: Shelf>(shelf: &mut S, (name, limit, want): Row) -> bool {
    match shelf.read(name.as_bytes(), limit) {
        Ok(got) => want == Ok(got.slice()),
        Err(refused) => want == Err(refused),
    }
}

fn reads<S: Shelf>(shelf: &mut S, rows: &[Row]) -> bool {
    for row in rows {
        if !is_read(shelf, *row) {
            return false;
        }
    }
    true
}

// The names and the texts of the files in memory.
static FILES: [(&[u8], &[u8]); 2] = [(b"a", b"xyz"), (b"empty", b"")];

fn push_file(
    alloc: Global,
    files: &mut Vec<(Octets, Octets)>,
    name: &[u8],
    text: &[u8],
) -> Option<()> {
    let name = Octets::of(alloc, name).ok()?;
    let text = Octets::of(alloc, text).ok()?;
    files.push((name, text)).ok()
}

fn push_files(alloc: Global, files: &mut Vec<(Octets, Octets)>) -> bool {
    let mut are_pushed = true;
    for (name, text) in &FILES {
        are_pushed &= push_file(alloc, files, name, text).is_some();
    }
    are_pushed
}

fn gives_all(alloc: Global, files: Vec<(Octets, Octets)>) -> bool {
    match Vec::from_slice(alloc, &[5]) {
        Ok(fails) => {
            let mut shelf = MemoryShelf::new(files, fails);
            reads(&mut shelf, &WANT) && reads(&mut shelf, &FAILED)
        }
        Err(_) => false,
    }
}

fn gives_whole_files(alloc: Global) -> bool {
    let mut files = Vec::new(alloc);
    push_files(alloc, &mut files) && gives_all(alloc, files)
}

#[test]
fn shelves_in_memory_give_whole_files(rt: HostRuntime) {
    assert!(rt; gives_whole_files(rt.alloc()));
}

// The same on the disk, and a long one.
static WRITTEN: [(&str, &[u8]); 3] = [("a", b"xyz"), ("empty", b""), ("long", &LONG)];

fn are_written(rt: &HostRuntime) -> bool {
    let mut are_written = true;
    for (name, text) in &WRITTEN {
        are_written &= fs::write(rt, *name, *text).is_ok();
    }
    are_written
}

fn are_removed(rt: &HostRuntime) -> bool {
    let mut are_removed = true;
    for (name, _) in &WRITTEN {
        are_removed &= fs::remove_file(rt, *name).is_ok();
    }
    are_removed
}

fn are_read(rt: &HostRuntime) -> bool {
    match rt.clone() {
        Ok(own) => {
            let mut shelf = FileShelf::new(own, rt.alloc());
            reads(&mut shelf, &WANT) && reads(&mut shelf, &REAL)
        }
        Err(_) => false,
    }
}

#[test]
fn files_are_read_whole(rt: HostRuntime) {
    let are_written = are_written(&rt);
    let are_read = are_read(&rt);
    assert!(rt; are_removed(&rt) && are_written && are_read);
}
