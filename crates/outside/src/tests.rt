ghost use Rattle.std.specs.Prelude.{◌++◌};
ghost use Rattle.outside.specs.Writers.{Puts, Pushes};

use super::*;
use std::alloc::{AllocError, Global};
use std::fs;
use std::io::Cursor;
use std::test::Fail;

// A writer of a text in two pieces, as the crates above write theirs.
fn put_two<O: Sink>(sink: &mut O, first: &[u8], second: &[u8]) -> Result<(), WriteErr>
    ensures { Puts O.Sink sink.old sink.new (first.now ++ second.now) result }
{
    let mut out = OutBuffer::new();
    push_two(&mut out, sink, first, second)?;
    out.flush(sink)
}

// The same, as a part of a longer text.
fn push_two<O: Sink>(
    out: &mut OutBuffer,
    sink: &mut O,
    first: &[u8],
    second: &[u8],
) -> Result<(), WriteErr>
    ensures { Pushes O.Sink sink.old sink.new out.old out.new (first.now ++ second.now) result }
{
    out.push(sink, first)?;
    out.push(sink, second)
}

// A sink that takes 16 bytes a write and fails at some writes takes a prefix of the text.
#[test]
fn failing_writes_leave_a_front(rt: HostRuntime) -> Result<(), Fail> {
    let text = b"The quick brown fox jumps over the lazy dog";
    let cases = [
        (0, Ok(()), 43),
        (1, Err(WriteErr::Failed), 0),
        (2, Err(WriteErr::Failed), 16),
        (3, Err(WriteErr::Failed), 32),
        (4, Ok(()), 43),
    ];
    for (fails, answer, taken) in cases {
        let failing = [fails].to_vec(rt.alloc())?;
        let mut sink = MemSink::new(rt.alloc(), 16, failing);
        assert_eq!(rt; put_all(&mut sink, text), answer, "write {fails} fails");
        assert_eq!(rt; sink.bytes(), &text[..taken], "write {fails} fails");
    }
    Ok(())
}

#[test]
fn whole_texts_are_taken(rt: HostRuntime) -> Result<(), Fail> {
    let long = [b'x'; 5000];
    let mut sink = SafeSink::new(rt.alloc());
    put_two(&mut sink, b"first ", b"second")?;
    assert_eq!(rt; sink.bytes(), b"first second".as_slice());
    put_two(&mut sink, b"", &long)?;
    assert_eq!(rt; sink.bytes().len(), 5012);
    put_two(&mut sink, &long, &long)?;
    assert_eq!(rt; sink.bytes().len(), 15012);
    Ok(())
}

// Waiting pieces reach the sink in one write: the second write would fail, but there is none.
#[test]
fn pieces_wait(rt: HostRuntime) -> Result<(), Fail> {
    let failing = [2].to_vec(rt.alloc())?;
    let mut sink = MemSink::new(rt.alloc(), 4096, failing);
    assert_eq!(rt; put_two(&mut sink, b"one ", b"write"), Ok(()));
    assert_eq!(rt; sink.bytes(), b"one write".as_slice());
    assert_eq!(rt; put_two(&mut sink, b"no ", b"write"), Err(WriteErr::Failed));
    assert_eq!(rt; sink.bytes(), b"one write".as_slice());
    Ok(())
}

// A stream with room for 16 bytes takes a text of 16, and fails at a longer one.
#[test]
fn full_streams_fail(rt: HostRuntime) {
    let cases: [(&[u8], _); 2] = [
        (b"sixteen bytes ..", Ok(())),
        (b"seventeen bytes ..", Err(WriteErr::Failed)),
    ];
    for (text, answer) in cases {
        let mut sink = StreamSink::new(Cursor::new([0; 16]));
        assert_eq!(rt; put_all(&mut sink, text), answer, "{text:?}");
    }
    assert_eq!(rt;
        put_all(&mut StreamSink::new(rt.stderr()), b"a line\n"),
        Ok(())
    );
}

fn two_files(alloc: Global) -> Result<Vec<(String, Vec<u8>)>, AllocError> {
    let mut files = Vec::new(alloc);
    files.push((String::from_str(alloc, "a.otp")?, b"otp 1\n".to_vec(alloc)?))?;
    files.push((String::from_str(alloc, "b.lex")?, b"".to_vec(alloc)?))?;
    Ok(files)
}

// The length of what a shelf loads.
fn load_length<S: Shelf>(
    shelf: &mut S,
    alloc: Global,
    name: &str,
    limit: u64,
) -> Result<usize, LoadErr> {
    let bytes = shelf.load(alloc, name, limit)?;
    Ok(bytes.len())
}

// The second load fails, and so does each load of a name that is not held.
#[test]
fn chosen_loads_fail(rt: HostRuntime) -> Result<(), Fail> {
    let alloc = rt.alloc();
    let mut shelf = MemShelf::new(alloc, two_files(alloc)?, [2].to_vec(alloc)?);
    let cases = [
        ("a.otp", 6, Ok(6)),
        ("a.otp", 6, Err(LoadErr::Failed)),
        ("a.otp", 5, Err(LoadErr::TooLong)),
        ("b.lex", 0, Ok(0)),
        ("c.lex", 9, Err(LoadErr::Failed)),
        ("a.otp", 9, Ok(6)),
    ];
    for (name, limit, answer) in cases {
        let loaded = load_length(&mut shelf, alloc, name, limit);
        assert_eq!(rt; loaded, answer, "{name} in {limit} bytes");
    }
    Ok(())
}

#[test]
fn unknown_names_are_empty(rt: HostRuntime) -> Result<(), Fail> {
    let alloc = rt.alloc();
    let mut shelf = SafeShelf::new(two_files(alloc)?);
    let cases = [
        ("a.otp", 6, Ok(6)),
        ("a.otp", 5, Err(LoadErr::TooLong)),
        ("c.lex", 0, Ok(0)),
    ];
    for (name, limit, answer) in cases {
        let loaded = load_length(&mut shelf, alloc, name, limit);
        assert_eq!(rt; loaded, answer, "{name} in {limit} bytes");
    }
    Ok(())
}

// Files shorter and longer than one read, at their limits; a missing file, and a folder.
#[test]
fn files_are_loaded(rt: HostRuntime) -> Result<(), Fail> {
    let alloc = rt.alloc();
    fs::write(&rt, "short", "otp 1\n")?;
    fs::write(&rt, "long", [b'x'; 20000].as_slice())?;
    let mut shelf = FileShelf::new(alloc, &rt);
    let cases = [
        ("short", 6, Ok(6)),
        ("short", 5, Err(LoadErr::TooLong)),
        ("short", u64::MAX, Ok(6)),
        ("long", 20000, Ok(20000)),
        ("long", 19999, Err(LoadErr::TooLong)),
        ("missing", 9, Err(LoadErr::Failed)),
        (".", 9, Err(LoadErr::Failed)),
    ];
    for (name, limit, answer) in cases {
        let loaded = load_length(&mut shelf, alloc, name, limit);
        assert_eq!(rt; loaded, answer, "{name} in {limit} bytes");
    }
    let text = shelf.load(alloc, "short", 6)?;
    assert_eq!(rt; text.as_slice(), b"otp 1\n".as_slice());
    Ok(())
}
