//! Comments.

ghost use Rattle.std.specs.Prelude.{◌≡◌, ◌≤◌, ◌<◌, length, IfSome, true};
ghost use Rattle.hdc_lex.specs.Pieces.{comment_end};
ghost use Rattle.hdc_lex.specs.Grammar.{begins_with_both};

use crate::run::behind;

/// How many bytes the comment has that begins with `{-` at the front of a text, where it ends.
pub fn comment_end(text: &[u8]) -> Option<usize>
    requires { length text.now ≤ 1048576 }
    ensures found { result ≡ comment_end 0 text.now }
    ensures some { IfSome result (λ n. 0 < n) }
    ensures within { IfSome result (λ n. n ≤ length text.now) }
{
    let mut depth: u32 = 0;
    let mut offset = 0;
    loop {
        let rest = behind(text, offset);
        if begins_with_both(b'{', b'-', rest) {
            depth += 1;
            offset += 2;
        } else if begins_with_both(b'-', b'}', rest) {
            if depth == 1 {
                return Some(offset + 2);
            }
            depth = depth.saturating_sub(1);
            offset += 2;
        } else if rest.len() < 2 {
            return None;
        } else {
            offset += 1;
        }
    }
}

/// Whether the two bytes stand at the front.
pub fn begins_with_both(first: u8, second: u8, text: &[u8]) -> bool
    ensures found { result ≡ begins_with_both first second text.now }
    ensures long { result ≡ true → 2 ≤ length text.now }
{
    match text {
        [a, b, ..] => *a == first && *b == second,
        _ => false,
    }
}
