//! What comes of words that name no job, of long files, and of stores and sinks that fail.

use super::job::{Outside, serve_words};
use std::test::Fail;

const USAGE: &str =
    "usage: hdc ACTION FILE [--procs P] [--input FILE] [--schedule FILE] [--budget B]\n";

fn first(text: &[u8]) -> Outside<'_> {
    Outside {
        name: "file",
        text,
        failing_loads: &[],
        failing_puts: &[],
        room: 2_000_000,
    }
}

#[test]
fn other_words_are_usage(rt: HostRuntime) -> Result<(), Fail> {
    let rows: [&[&str]; 9] = [
        &[],
        &["hdc"],
        &["hdc", "run"],
        &["hdc", "run", "-file"],
        &["hdc", "run", "-"],
        &["hdc", "check", "file"],
        &["hdc", "run", "file", "more"],
        &["hdc", "run", "file", "--procs", "0"],
        &["hdc", "file", "run"],
    ];
    for words in rows {
        let left = serve_words(rt.alloc(), words, &first(b"main = 1"))?;
        assert_eq!(rt; left.status, 2);
        assert_eq!(rt; left.output.as_slice(), USAGE.as_bytes());
    }
    Ok(())
}

#[test]
fn a_file_may_have_a_mebibyte(rt: HostRuntime) -> Result<(), Fail> {
    let rows = [
        (1_048_576, 0, "value 1\nunfoldings 1\nwork 1\nmessages 0\n"),
        (1_048_577, 8, "limit long program\n"),
    ];
    for (size, status, report) in rows {
        let mut text = vec![in rt.alloc(); b' '; size]?;
        let program = b"main = 1";
        assert!(rt; program.len() <= text.len());
        for (to, from) in text.iter_mut().zip(program.iter()) {
            *to = *from;
        }
        let left = serve_words(rt.alloc(), &["hdc", "run", "file"], &first(text.as_slice()))?;
        assert_eq!(rt; left.status, status, "at {size}");
        assert_eq!(rt; left.output.as_slice(), report.as_bytes(), "at {size}");
    }
    Ok(())
}

#[test]
fn a_load_that_fails_leaves_nothing_written(rt: HostRuntime) -> Result<(), Fail> {
    let mut failing = first(b"main = 1");
    failing.failing_loads = &[1];
    let left = serve_words(rt.alloc(), &["hdc", "run", "file"], &failing)?;
    assert_eq!(rt; left.status, 5);
    assert_eq!(rt; left.output.len(), 0);
    let left = serve_words(rt.alloc(), &["hdc", "run", "absent"], &first(b"main = 1"))?;
    assert_eq!(rt; left.status, 5);
    assert_eq!(rt; left.output.len(), 0);
    Ok(())
}

#[test]
fn a_put_that_fails_leaves_a_front_written(rt: HostRuntime) -> Result<(), Fail> {
    let mut failing = first(b"main = 1");
    failing.failing_puts = &[1];
    let left = serve_words(rt.alloc(), &["hdc", "run", "file"], &failing)?;
    assert_eq!(rt; left.status, 6);
    assert_eq!(rt; left.output.len(), 0);
    let mut narrow = first(b"main = 1");
    narrow.room = 9;
    let left = serve_words(rt.alloc(), &["hdc", "run", "file"], &narrow)?;
    assert_eq!(rt; left.status, 6);
    assert_eq!(rt; left.output.as_slice(), b"value 1\nu".as_slice());
    Ok(())
}

#[test]
fn there_is_one_load_and_one_put(rt: HostRuntime) -> Result<(), Fail> {
    let mut second = first(b"main = 1");
    second.failing_loads = &[2];
    second.failing_puts = &[2];
    let left = serve_words(rt.alloc(), &["hdc", "run", "file"], &second)?;
    assert_eq!(rt; left.status, 0);
    assert_eq!(rt; left.loads, 1);
    assert_eq!(rt;
        left.output.as_slice(),
        b"value 1\nunfoldings 1\nwork 1\nmessages 0\n".as_slice()
    );
    Ok(())
}
