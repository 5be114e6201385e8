use queue_controller::FreeGate;
use std::alloc::Global;
use std::rt::Files;
use std::sync::Wait;
use std::thread::Threads;
use std::{fs, io};
use zns_io::{Bytes, NoMemory, SureSink, SureSource};
use zns_program::{Status, Word, top};

// The most bytes that a row's output can have.
const ROOM: u32 = 1 << 20;

// The most bytes that are read or written at once.
const PIECE: u32 = 5_000;

// The columns of a row.
#[derive(Clone, Copy)]
struct Row<'a> {
    words: &'a str,
    input: &'a str,
    status: u8,
    told: &'a str,
}

// The columns of a line, if it has four, and the third is an exit status.
fn row_of(line: &str) -> Option<Row<'_>> {
    let (words, rest) = line.split_once(" | ")?;
    let (input, rest) = rest.split_once(" | ")?;
    let (status, told) = rest.split_once(" | ")?;
    match status.parse() {
        Ok(status) => Some(Row {
            words,
            input,
            status,
            told,
        }),
        Err(_) => None,
    }
}

fn no_memory(_error: NoMemory) -> io::Error {
    io::Error::from(io::ErrorKind::OutOfMemory)
}

fn words_of(alloc: Global, text: &str) -> Result<Vec<Word>, NoMemory> {
    let mut words = Vec::new(alloc);
    for word in text.split_whitespace() {
        words.push(Word::of(alloc, word)?)?;
    }
    Ok(words)
}

// The bytes of these files, one file after the other.
fn input_of(rt: &(impl Files + AllocGlobal), names: &str) -> io::Result<Vec<u8>> {
    let mut bytes = Vec::new(rt.alloc());
    for name in names.split_whitespace() {
        let file = fs::read(rt, name)?;
        bytes.extend_from_slice(&file)?;
    }
    Ok(bytes)
}

// Whether a run that ended with `status` wrote and reported what the row says.
fn tells(
    rt: &(impl Files + AllocGlobal),
    row: Row<'_>,
    status: Status,
    written: &[u8],
) -> io::Result<bool> {
    if status.number() != row.status {
        return Ok(false);
    }
    let line = status.line(rt.alloc()).map_err(no_memory)?;
    match line.as_slice() {
        [] => Ok(written == fs::read(rt, row.told)?.as_slice()),
        [text @ .., b'\n'] => Ok(written.is_empty() && text == row.told.as_bytes()),
        _ => Ok(false),
    }
}

/// Whether the program does what a row says.
///
/// # Errors
///
/// A file of the row can't be read, or memory runs out.
pub fn holds<R: Files + AllocGlobal + Threads + Wait + Sync>(
    rt: &R,
    line: &str,
) -> io::Result<bool> {
    let row = match row_of(line) {
        Some(row) => row,
        None => return Ok(false),
    };
    let alloc = rt.alloc();
    let words = words_of(alloc, row.words).map_err(no_memory)?;
    let mut source = SureSource::new(Bytes::from_vec(input_of(rt, row.input)?), PIECE);
    let mut sink = SureSink::new(alloc, ROOM, PIECE).map_err(no_memory)?;
    let status = top(rt, alloc, &words, &mut source, &mut sink, &FreeGate);
    tells(rt, row, status, sink.bytes())
}
