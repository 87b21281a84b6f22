//! Files and outputs, the host's and those in memory: what no clause says.

use orca_io::{FileShelf, MemShelf, MemSink, Shelf, ShelfError, Sink, SinkError, StdSink};
use std::alloc::{AllocError, Global};
use std::fmt::Display;
use std::io::ErrorKind;
use std::test::Fail;
use std::{fs, io};

const FOLDER: &str = "reading_test";

const FILE: &str = "reading_test/file";

// Whether a read of the file is answered so, and leaves these bytes.
fn reads<S: Shelf>(
    shelf: &mut S,
    name: &str,
    limit: u64,
    into: &mut Vec<u8>,
    want: &Result<(), ShelfError>,
    bytes: &str,
) -> bool {
    shelf.read_all(name, limit, into) == *want && into.as_slice() == bytes.as_bytes()
}

// The name of a file, the most bytes, what is answered, and all that was read by then.
const READS: [(&str, u64, Result<(), ShelfError>, &str); 6] = [
    (FILE, 4, Err(ShelfError::TooLong { seen: 5 }), "old "),
    (FILE, 0, Err(ShelfError::TooLong { seen: 1 }), "old "),
    ("reading_test/missing", 9, Err(ShelfError::Failed), "old "),
    (FOLDER, 9, Err(ShelfError::Failed), "old "),
    (FILE, 5, Ok(()), "old three"),
    (FILE, u64::MAX, Ok(()), "old threethree"),
];

#[test]
fn a_file_is_read_whole_or_refused(rt: HostRuntime) -> Result<(), Fail> {
    // What a run that was stopped may have left.
    let _ = fs::remove_dir_all(&rt, FOLDER);
    fs::create_dir(&rt, FOLDER)?;
    fs::write(&rt, FILE, "three")?;
    let mut shelf = FileShelf::new(&rt);
    let mut into = b"old ".as_slice().to_vec(rt.alloc())?;
    for (name, limit, want, bytes) in &READS {
        let told = reads(&mut shelf, name, *limit, &mut into, want, bytes);
        assert!(rt; told, "{name} {limit}");
    }
    fs::remove_dir_all(&rt, FOLDER)?;
    Ok(())
}

struct ClosedOutput;

impl Print for ClosedOutput {
    fn print<D: Display + Drop>(&self, _value: D) -> io::Result<()> {
        Err(io::Error::from(ErrorKind::BrokenPipe))
    }

    fn println<D: Display + Drop>(&self, _value: D) -> io::Result<()> {
        Err(io::Error::from(ErrorKind::BrokenPipe))
    }

    fn write_all(&self, _bytes: &[u8]) -> io::Result<()> {
        Err(io::Error::from(ErrorKind::BrokenPipe))
    }
}

#[test]
fn standard_output_takes_lines_unless_it_is_closed(rt: HostRuntime) {
    let mut out = StdSink::new(&rt);
    assert!(rt; out.put(b"a line\n").is_ok());
    assert!(rt; out.finish().is_ok());
    let mut closed = StdSink::new(&ClosedOutput);
    // A line is held back, and so are as many as there is room for.
    for _ in 0..1170 {
        assert!(rt; closed.put(b"a line\n").is_ok());
    }
    assert!(rt; closed.put(b"a line\n").is_err());
    assert!(rt; closed.put(b"a line\n").is_ok());
    assert!(rt; closed.finish().is_err());
    assert!(rt; closed.finish().is_ok());
    assert!(rt; closed.put(&[b'.'; 8193]).is_err());
}

// A full file and an empty one, where the second call fails.
fn shelf_of_two(alloc: Global) -> Result<MemShelf, AllocError> {
    let mut shelf = MemShelf::new(alloc);
    shelf.put_file("full", b"old")?;
    shelf.put_file("full", b"abc")?;
    shelf.put_file("empty", b"")?;
    shelf.fail_at(1)?;
    Ok(shelf)
}

// The same of a shelf in memory.
const READS_IN_MEMORY: [(&str, u64, Result<(), ShelfError>, &str); 6] = [
    ("full", 3, Ok(()), "abc"),
    ("full", 3, Err(ShelfError::Failed), "abc"),
    ("other", 3, Err(ShelfError::Failed), "abc"),
    ("full", 2, Err(ShelfError::TooLong { seen: 3 }), "abc"),
    ("empty", 0, Ok(()), "abc"),
    ("full", 4, Ok(()), "abcabc"),
];

#[test]
fn the_shelf_in_memory_answers_as_told(rt: HostRuntime) -> Result<(), Fail> {
    let alloc = rt.alloc();
    let mut shelf = shelf_of_two(alloc)?;
    let mut into = Vec::new(alloc);
    for (name, limit, want, bytes) in &READS_IN_MEMORY {
        let told = reads(&mut shelf, name, *limit, &mut into, want, bytes);
        assert!(rt; told, "{name} {limit}");
    }
    Ok(())
}

// A sink with room for five bytes, whose second call takes two bytes and fails, and whose fourth takes all and fails.
fn failing_sink(alloc: Global) -> Result<MemSink, AllocError> {
    let mut sink = MemSink::with_room(alloc, 5)?;
    sink.fail_at(1, 2)?;
    sink.fail_at(3, 9)?;
    Ok(sink)
}

// Whether a put of the piece is answered so, and the sink then has taken these bytes.
fn puts(sink: &mut MemSink, piece: &str, want: &Result<(), SinkError>, taken: &str) -> bool {
    sink.put(piece.as_bytes()) == *want && sink.taken() == taken.as_bytes()
}

// A piece, what is answered, and all that was taken by then.
const PUTS: [(&str, Result<(), SinkError>, &str); 5] = [
    ("ab", Ok(()), "ab"),
    ("cde", Err(SinkError::Failed), "abcd"),
    ("ef", Err(SinkError::Failed), "abcd"),
    ("e", Err(SinkError::Failed), "abcde"),
    ("", Ok(()), "abcde"),
];

#[test]
fn the_sink_in_memory_answers_as_told(rt: HostRuntime) -> Result<(), Fail> {
    let mut sink = failing_sink(rt.alloc())?;
    for (piece, want, taken) in &PUTS {
        assert!(rt; puts(&mut sink, piece, want, taken), "{piece}");
    }
    Ok(())
}
