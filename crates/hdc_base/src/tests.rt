//! Each store and sink at its answers, and on the real files and output.

use super::{Calls, FileStore, Load, MemSink, MemStore, Put, Sink, StdSink, Store, Text, Texts};
use std::alloc::{AllocError, Global};
use std::cell::Cell;
use std::fmt::Display;
use std::test::Fail;
use std::{fs, io};

fn texts(alloc: Global, held: &[&str]) -> Result<Texts, AllocError> {
    let mut texts = Texts::new(alloc);
    for text in held {
        texts.push(Text::from_slice(alloc, text.as_bytes())?)?;
    }
    Ok(texts)
}

#[test]
fn a_store_in_memory(rt: HostRuntime) -> Result<(), Fail> {
    let alloc = rt.alloc();
    let mut store = MemStore {
        names: texts(alloc, &["a", "b", "a", "bare"])?,
        texts: texts(alloc, &["one", "four", "second"])?,
        fails: Calls::from_slice(alloc, &[1])?,
        calls: 0,
        count: 0,
    };
    let mut into = Vec::new(alloc);
    let loads = [
        ("a", 3, Load::Failed, "", 1),
        ("a", 3, Load::Whole, "one", 1),
        ("b", 3, Load::Long, "", 1),
        ("b", 4, Load::Whole, "four", 1),
        ("bare", 9, Load::Failed, "", 2),
        ("absent", 9, Load::Failed, "", 3),
    ];
    for (name, limit, answer, bytes, count) in loads {
        assert_eq!(rt;
            store.load(name, limit, &mut into),
            answer,
            "{name} within {limit}"
        );
        assert_eq!(rt; into.as_slice(), bytes.as_bytes(), "{name} within {limit}");
        assert_eq!(rt; store.count, count, "{name} within {limit}");
    }
    Ok(())
}

#[test]
fn a_sink_in_memory(rt: HostRuntime) -> Result<(), Fail> {
    let alloc = rt.alloc();
    let Ok(mut sink) = MemSink::new(alloc, 6, Calls::from_slice(alloc, &[2])?) else {
        return Err(Fail::from("no memory"));
    };
    let puts = [
        ("ab", Put::Done, "ab", 0),
        ("no", Put::Failed, "ab", 1),
        ("cd", Put::Done, "abcd", 1),
        ("efg", Put::Failed, "abcdef", 2),
        ("", Put::Done, "abcdef", 2),
    ];
    for (piece, answer, bytes, count) in puts {
        assert_eq!(rt; sink.put(piece.as_bytes()), answer, "{piece}");
        assert_eq!(rt; sink.bytes(), bytes.as_bytes(), "{piece}");
        assert_eq!(rt; sink.count(), count, "{piece}");
    }
    Ok(())
}

#[test]
fn a_store_of_files(rt: HostRuntime) -> Result<(), Fail> {
    let path = "a_store_of_files.txt";
    let mut store = FileStore::new(&rt);
    let mut into = Vec::from_slice(rt.alloc(), b"before")?;
    fs::write(&rt, path, "four")?;
    let loads = [
        (path, 4, Load::Whole, "four", 0),
        (path, 3, Load::Long, "", 0),
        (path, u64::MAX, Load::Whole, "four", 0),
        ("no_such_file.txt", 4, Load::Failed, "", 1),
        (".", 4, Load::Failed, "", 2),
    ];
    for (name, limit, answer, bytes, count) in loads {
        assert_eq!(rt;
            store.load(name, limit, &mut into),
            answer,
            "{name} within {limit}"
        );
        assert_eq!(rt; into.as_slice(), bytes.as_bytes(), "{name} within {limit}");
        assert_eq!(rt; store.count(), count, "{name} within {limit}");
    }
    fs::remove_file(&rt, path)?;
    Ok(())
}

#[test]
fn a_file_of_many_reads(rt: HostRuntime) -> Result<(), Fail> {
    let path = "a_file_of_many_reads.txt";
    let text = vec![in rt.alloc(); b'x'; 1_048_577]?;
    let mut store = FileStore::new(&rt);
    let mut into = Vec::new(rt.alloc());
    fs::write(&rt, path, text.as_slice())?;
    assert_eq!(rt; store.load(path, 1_048_577, &mut into), Load::Whole);
    assert_eq!(rt; into.as_slice(), text.as_slice());
    assert_eq!(rt; store.load(path, 1_048_576, &mut into), Load::Long);
    assert_eq!(rt; into.len(), 0);
    fs::remove_file(&rt, path)?;
    Ok(())
}

#[test]
fn the_standard_output(rt: HostRuntime) {
    let mut sink = StdSink::new(&rt);
    assert_eq!(rt; sink.put(b"a short line\n"), Put::Done);
    assert_eq!(rt; sink.put(b""), Put::Done);
    assert_eq!(rt; sink.count(), 0);
}

/// An output that is interrupted, then takes a byte a write, and fails after so many writes.
#[derive(Drop)]
struct Slow {
    writes: Cell<u32>,
    most: u32,
}

impl Print for Slow {
    fn print<D: Display + Drop>(&self, _value: D) -> io::Result<()> {
        Err(io::Error::from(io::ErrorKind::Unsupported))
    }

    fn println<D: Display + Drop>(&self, _value: D) -> io::Result<()> {
        Err(io::Error::from(io::ErrorKind::Unsupported))
    }

    fn write_all(&self, _bytes: &[u8]) -> io::Result<()> {
        Err(io::Error::from(io::ErrorKind::Unsupported))
    }

    fn write_some(&self, bytes: &[u8]) -> io::Result<usize> {
        let writes = self.writes.get();
        self.writes.set(writes.saturating_add(1));
        if writes == 0 {
            return Err(io::Error::from(io::ErrorKind::Interrupted));
        }
        if writes > self.most {
            return Err(io::Error::from(io::ErrorKind::BrokenPipe));
        }
        Ok(bytes.len().min(1))
    }
}

#[test]
fn a_slow_output(rt: HostRuntime) {
    let slow = Slow {
        writes: Cell::new(0),
        most: 4,
    };
    let mut sink = StdSink::new(&slow);
    assert_eq!(rt; sink.put(b"abc"), Put::Done);
    assert_eq!(rt; sink.count(), 1);
    assert_eq!(rt; sink.put(b"abc"), Put::Failed);
    assert_eq!(rt; sink.count(), 2);
    assert_eq!(rt; slow.writes.get(), 6);
}
