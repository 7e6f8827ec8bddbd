//! The words of a job.

ghost use Rattle.std.specs.Prelude.{◌≡◌, Some, None, map, not, codes, string_bytes, MatchOption};
ghost use Rattle.std.specs.Str.{bytes_eq};
ghost use Rattle.hdc_top.specs.Words.{job_of, begins_with_dash};

/// The usage line, which is written where the words name no job.
pub const USAGE_LINE: &str =
    "usage: hdc ACTION FILE [--procs P] [--input FILE] [--schedule FILE] [--budget B]\n";

/// The file of the job that the words name, where they name one.
pub fn job(words: &[String]) -> Option<&str>
    ensures { MatchOption result (job_of (map string_bytes words.now) ≡ None) (λ file. job_of (map string_bytes words.now) ≡ Some file.now) }
{
    match words {
        [_program, action, file] if is_run(action.as_str()) && is_file(file.as_str()) => {
            Some(file.as_str())
        }
        _ => None,
    }
}

fn is_run(action: &str) -> bool
    ensures { result ≡ bytes_eq action.now (codes "run") }
{
    action == "run"
}

// Whether the word is a file's name and no option.
fn is_file(word: &str) -> bool
    ensures { result ≡ not (begins_with_dash word.now) }
{
    word.as_bytes().first() != Some(&b'-')
}
