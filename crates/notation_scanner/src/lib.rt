// Lines 13 and 14 for a text of any length, in one pass from left to right: what has begun and how many brackets are
// open is all that is kept, so nothing recurs. The crate spec states the lines (specs/WriteOut.antt).

#![tactic(auto)]

ghost use Rattle.std.specs.Prelude.{◌+◌, ◌^◌, ◌<◌, ◌≡◌, [], ◌∷◌, length};
ghost use Rattle.spec.specs.Table.{or_else, first_line};
ghost use Rattle.spec.specs.Notation.{first};
ghost use Rattle.spec.specs.WriteOut.{text_line, nesting_line};
ghost use Rattle.input_catalogue.specs.Checked.{told_checked};
ghost use Rattle.notation_tokens.specs.Told.{told_token};
ghost use Rattle.notation_scanner.specs.Places.{depth_after, told_place, deep_here, end_place, Finds, decision};

use input_catalogue::refused;
use notation_modes::{Mode, after_token, may_end};
use notation_tokens::{Token, token_of};
use spec::{Reason, Refusal};

// Where a text is wrong, and its first bracket that nests too deep. Of a text that is wrong, only that counts.
// No Result: the scan goes on past a bracket too deep, as line 13 comes first; edit nesting_before_text swaps the two.
#[derive(Clone, Copy)]
struct Faults {
    wrong: Option<usize>,
    deep: Option<usize>,
}

// How many brackets are open after a token.
fn depth_after(depth: usize, t: Token) -> usize
    requires { depth + 1 < 2 ^ 64 }
    ensures { result ≡ depth_after depth (told_token t) }
{
    match t {
        Token::Opening => depth + 1,
        Token::Closing => depth.saturating_sub(1),
        Token::Blank | Token::Minus | Token::Digit(_) | Token::Other => depth,
    }
}

// The first bracket that nests too deep, up to the token at i.
fn deep_after(deep: Option<usize>, depth: usize, t: Token, i: usize) -> Option<usize>
    ensures { told_place result ≡ first (told_place deep) (deep_here depth i (told_token t)) }
{
    match (deep, t) {
        (None, Token::Opening) => if depth < 8 { None } else { Some(i) },
        _ => deep,
    }
}

// Where a text of so many bytes is wrong because it ends too soon.
fn end_fault(mode: Mode, depth: usize, n: usize) -> Option<usize>
    ensures { told_place result ≡ end_place mode depth n }
{
    if may_end(mode) && depth == 0 {
        None
    } else {
        Some(n)
    }
}

// Where a text is wrong, and where it nests too deep.
fn find_faults(text: &[u8]) -> Faults
    ensures { Finds text.now result }
{
    let mut mode = Mode::Free;
    let mut depth = 0;
    let mut deep = None;
    for (i, b) in text.iter().enumerate() {
        let t = token_of(*b);
        mode = after_token(mode, depth, t);
        if let Mode::Wrong = mode {
            return Faults {
                wrong: Some(i),
                deep,
            };
        }
        deep = deep_after(deep, depth, t, i);
        depth = depth_after(depth, t);
    }
    let wrong = end_fault(mode, depth, text.len());
    Faults { wrong, deep }
}

// Line 13 comes before line 14; a text of n bytes that passes gives its length.
fn decided(wrong: Option<usize>, deep: Option<usize>, n: usize) -> Result<usize, Refusal>
    ensures { told_checked result ≡ decision (told_place wrong) (told_place deep) n }
{
    match wrong {
        Some(i) => refused(Reason::Text, 1, i),
        None => match deep {
            Some(i) => refused(Reason::Nesting, 1, i),
            None => Ok(n),
        },
    }
}

// Lines 13 and 14; a text that passes gives its length.
pub fn scan(text: &[u8]) -> Result<usize, Refusal>
    ensures { told_checked result
        ≡ or_else (first_line (text_line text.now ∷ nesting_line text.now ∷ []))
        (length text.now) }
{
    let found = find_faults(text);
    decided(found.wrong, found.deep, text.len())
}
