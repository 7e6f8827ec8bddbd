//! The top call.

ghost use Rattle.std.specs.Prelude.{◌≡◌, ◌≢◌, ◌≤◌, ◌<◌, ℕ, List, None, map, length, string_bytes, IfOk};
ghost use Rattle.hdc_base.specs.Counts.{Rose};
ghost use Rattle.hdc_top.specs.Stopped.{most_bytes, IsRefused, PassesLimit};
ghost use Rattle.hdc_top.specs.declared.job.Silence.TheVariants as silence;
ghost use Rattle.hdc_top.specs.Report.{run_text, stop_text};
ghost use Rattle.hdc_top.specs.Words.{usage_text, job_of};
ghost use Rattle.hdc_top.specs.Due.{status_of, stop_status, too_long, IsDueFor, IsDueFrom, Delivers, DeliversPrefix, FileFails, IsFileText};

use crate::compiler::compile;
use crate::machine::{Record, run};
use crate::report::{run_text, stop_text};
use crate::status::{LIMIT, NOT_READ, NOT_WRITTEN, REFUSED, TRAP, USAGE, VALUE, WANT};
use crate::text::put;
use crate::words::{USAGE_LINE, job};
use hdc_base::{Limit, Load, Put, Sink, Stop, Store, Text, Want, Which};
use hdc_value::Outcome;
use std::alloc::Global;

/// The most bytes that a file may have.
const MOST_BYTES: u64 = 1_048_576;

/// What is due: a status, and the bytes to write with it.
#[derive(Drop)]
struct Due {
    status: u8,
    text: Text,
}

/// Why nothing is written.
#[derive(Clone, Copy, Debug, PartialEq, Eq)]
enum Silence {
    /// The store failed to read the file.
    NotRead,
    /// Want of memory.
    Want,
}

impl From<Want> for Silence {
    ghost from_gives = { λ _ s. s ≡ silence.Want };

    fn from(_want: Want) -> Silence {
        Silence::Want
    }
}

/// Does the job that the words name: reads the file from the store, runs its program, and puts the
/// report into the sink by one put. Answers the status.
///
/// The words are the program's name, `run`, and a FILE that does not begin with `-`. The statuses
/// are 0 for a value, 3 for a trap, 1 for a refusal, 8 for a limit and 2 for words that name no job,
/// each with its text written; 5 where the store failed on the file, with nothing written; 6 where
/// the sink failed, with a part of the text written; and 7 for want of memory, with nothing written.
pub fn serve<S: Store, K: Sink>(alloc: Global, words: &[String], store: &mut S, out: &mut K) -> u8
    // What is written is what is due, for a text that is the file's where the store tells that.
    ensures delivers { result ≢ NOT_READ → result ≢ NOT_WRITTEN → result ≢ WANT → Delivers (S.holds store.old) (map string_bytes words.now) result (K.taken out.old) (K.taken out.new) }

    // With 5 and 7 the sink is as it was, and with 6 it took a part of what is due.
    ensures unread { result ≡ NOT_READ → out.new ≡ out.old }
    ensures want { result ≡ WANT → out.new ≡ out.old }
    ensures partly { result ≡ NOT_WRITTEN → DeliversPrefix (S.holds store.old) (map string_bytes words.now) (K.taken out.old) (K.taken out.new) }

    // 5 comes only where the file's faults rose, and 6 only where the sink's did. So where neither
    // did, what is due is written, unless memory is wanting.
    ensures not_read { result ≡ NOT_READ → FileFails (S.faults store.old) (S.faults store.new) (map string_bytes words.now) }
    ensures not_written { result ≡ NOT_WRITTEN → Rose (K.faults out.old) (K.faults out.new) }
    ensures complete { (FileFails (S.faults store.old) (S.faults store.new) (map string_bytes words.now) → ⊥) → (Rose (K.faults out.old) (K.faults out.new) → ⊥) → result ≢ WANT → Delivers (S.holds store.old) (map string_bytes words.now) result (K.taken out.old) (K.taken out.new) }

    // 2 comes exactly where the words name no job, 8 where the file's text passes a limit, and 1
    // where it is refused and not too long.
    ensures usage { result ≡ USAGE → job_of (map string_bytes words.now) ≡ None }
    ensures no_job { job_of (map string_bytes words.now) ≡ None → result ≢ NOT_WRITTEN → result ≢ WANT → result ≡ USAGE }
    ensures limit { result ≡ LIMIT → (text : List ℕ) → IsFileText (S.holds store.old) (map string_bytes words.now) text → PassesLimit text }
    ensures past_limit { (text : List ℕ) → IsFileText (S.holds store.old) (map string_bytes words.now) text → PassesLimit text → result ≢ NOT_READ → result ≢ NOT_WRITTEN → result ≢ WANT → result ≡ LIMIT }
    ensures refused { result ≡ REFUSED → (text : List ℕ) → IsFileText (S.holds store.old) (map string_bytes words.now) text → IsRefused text }
    ensures no_program { (text : List ℕ) → IsFileText (S.holds store.old) (map string_bytes words.now) text → IsRefused text → length text ≤ most_bytes → result ≢ NOT_READ → result ≢ NOT_WRITTEN → result ≢ WANT → result ≡ REFUSED }
{
    match answer(alloc, words, store) {
        Ok(due) => match out.put(due.text.as_slice()) {
            Put::Done => due.status,
            Put::Failed => NOT_WRITTEN,
        },
        Err(Silence::NotRead) => NOT_READ,
        Err(Silence::Want) => WANT,
    }
}

// What is due for the words and the file.
fn answer<S: Store>(alloc: Global, words: &[String], store: &mut S) -> Result<Due, Silence>
    ensures due { IfOk result (λ d. IsDueFrom (S.holds store.old) (map string_bytes words.now) d.status d.text) }
    ensures not_read { result ≡ Err Silence.NotRead → FileFails (S.faults store.old) (S.faults store.new) (map string_bytes words.now) }
{
    let Some(file) = job(words) else {
        return Ok(usage(alloc)?);
    };
    let mut text = Vec::new(alloc);
    match store.load(file, MOST_BYTES, &mut text) {
        Load::Whole => Ok(answer_text(alloc, text.as_slice())?),
        Load::Long => Ok(too_long(alloc)?),
        Load::Failed => Err(Silence::NotRead),
        Load::Want => Err(Silence::Want),
    }
}

// What is due for a text.
fn answer_text(alloc: Global, text: &[u8]) -> Result<Due, Want>
    requires { length text.now ≤ 1048576 }
    ensures { IfOk result (λ d. IsDueFor text.now d.status d.text) }
{
    match compile(alloc, text) {
        Ok(code) => {
            let record = run(alloc, &code)?;
            ran(alloc, &record)
        }
        Err(stop) => stopped(alloc, stop),
    }
}

// The report of a run.
fn ran(alloc: Global, record: &Record) -> Result<Due, Want>
    ensures status { IfOk result (λ d. d.status ≡ status_of «record».now.outcome) }
    ensures text { IfOk result (λ d. d.text ≡ run_text «record».now.outcome «record».now.ticks) }
{
    let status = match record.outcome {
        Outcome::Value(_) => VALUE,
        Outcome::Trap(_) => TRAP,
    };
    Ok(Due {
        status,
        text: run_text(alloc, record)?,
    })
}

// The line of a refusal or a limit.
fn stopped(alloc: Global, stop: Stop) -> Result<Due, Want>
    ensures told { IfOk result (λ d. stop ≢ Stop.Want) }
    ensures status { IfOk result (λ d. d.status ≡ stop_status stop) }
    ensures text { IfOk result (λ d. d.text ≡ stop_text stop) }
{
    let status = match stop {
        Stop::Refused(_) => REFUSED,
        Stop::Limit(_) => LIMIT,
        Stop::Want => return Err(Want),
    };
    Ok(Due {
        status,
        text: stop_text(alloc, stop)?,
    })
}

// The limit on the length of a file.
fn too_long(alloc: Global) -> Result<Due, Want>
    ensures status { IfOk result (λ d. d.status ≡ LIMIT) }
    ensures text { IfOk result (λ d. d.text ≡ stop_text too_long) }
{
    stopped(alloc, Stop::Limit(Limit::Long(Which::Program)))
}

// The usage line.
fn usage(alloc: Global) -> Result<Due, Want>
    ensures status { IfOk result (λ d. d.status ≡ USAGE) }
    ensures text { IfOk result (λ d. d.text ≡ usage_text) }
{
    let mut text = Vec::new(alloc);
    put(&mut text, USAGE_LINE)?;
    Ok(Due {
        status: USAGE,
        text: Text::from_vec(text),
    })
}
