//! A job in memory, and what came of it.

use hdc_base::{Calls, MemSink, MemStore, Text, Texts};
use hdc_top::serve;
use std::alloc::{AllocError, Global};
use std::test::Fail;

/// A store with one text and a sink, as a test describes them.
#[derive(Drop)]
pub struct Outside<'a> {
    pub name: &'a str,
    pub text: &'a [u8],
    pub failing_loads: &'a [u64],
    pub failing_puts: &'a [u64],
    pub room: u64,
}

/// What a job left: its status, what its sink took, and how often its store was asked.
#[derive(Drop)]
pub struct Left {
    pub status: u8,
    pub output: Vec<u8>,
    /// How many loads there were.
    pub loads: u64,
}

/// Serves the words over a store with one text, and a sink.
pub fn serve_words(alloc: Global, words: &[&str], outside: &Outside<'_>) -> Result<Left, Fail> {
    let words = owned(alloc, words)?;
    let mut store = store(alloc, outside)?;
    let puts = Calls::from_slice(alloc, outside.failing_puts)?;
    let Ok(mut sink) = MemSink::new(alloc, outside.room, puts) else {
        return Err(Fail::from(AllocError));
    };
    let status = serve(alloc, words.as_slice(), &mut store, &mut sink);
    let output = Vec::from_slice(alloc, sink.bytes())?;
    Ok(Left {
        status,
        output,
        loads: store.calls,
    })
}

fn owned(alloc: Global, words: &[&str]) -> Result<Vec<String>, AllocError> {
    let mut all = Vec::new(alloc);
    for word in words {
        all.push(String::from_str(alloc, word)?)?;
    }
    Ok(all)
}

fn store(alloc: Global, outside: &Outside<'_>) -> Result<MemStore, AllocError> {
    let mut names = Texts::new(alloc);
    names.push(Text::from_slice(alloc, outside.name.as_bytes())?)?;
    let mut texts = Texts::new(alloc);
    texts.push(Text::from_slice(alloc, outside.text)?)?;
    Ok(MemStore {
        names,
        texts,
        fails: Calls::from_slice(alloc, outside.failing_loads)?,
        calls: 0,
        count: 0,
    })
}
