// What has begun in a text that is read from left to right, token by token, and whether any ending could mend it. The
// crate spec states it (specs/Scanner.antt).

#![tactic(auto)]

ghost use Rattle.std.specs.Prelude.{◌≡◌};
ghost use Rattle.spec.specs.Notation.{closing};
ghost use Rattle.notation_tokens.specs.Told.{told_token};
ghost use Rattle.notation_modes.specs.Modes.{ends, begins, after_digit, after_token};

use notation_tokens::Token;

// What has begun: nothing, a minus, a number so far, a group that is closed, its count so far. Wrong: no ending could
// mend the text any more.
// Wrong is no None: specs/Modes.antt has it as a mode, which `after_token` leads to and never from.
#[derive(Clone, Copy)]
pub enum Mode {
    Free,
    Signed,
    Number(usize),
    Closed,
    Count(usize),
    Wrong,
}

// May a sequence end here, or a blank stand.
pub fn may_end(mode: Mode) -> bool
    ensures { result ≡ ends mode }
{
    matches!(
        mode,
        Mode::Free | Mode::Number(_) | Mode::Closed | Mode::Count(_)
    )
}

// May an item begin.
fn may_begin(mode: Mode) -> bool
    ensures { result ≡ begins mode }
{
    matches!(mode, Mode::Free | Mode::Signed)
}

// A number from 1 to 24 begins. It and a count have rules of their own: 0 is a count, but no digit goes on behind it.
fn number(d: usize) -> Mode
    ensures { result ≡ after_digit Mode.Free d }
{
    match d {
        1..=24 => Mode::Number(d),
        _ => Mode::Wrong,
    }
}

// A number goes on.
fn more_number(v: usize, d: usize) -> Mode
    ensures { result ≡ after_digit (Mode.Number v) d }
{
    if 2 < v || 24 - 10 * v < d {
        return Mode::Wrong;
    }
    Mode::Number(10 * v + d)
}

// A count goes on, which no 0 leads.
fn more_count(n: usize, d: usize) -> Mode
    ensures { result ≡ after_digit (Mode.Count n) d }
{
    if n == 0 || 25 < n || 255 - 10 * n < d {
        return Mode::Wrong;
    }
    Mode::Count(10 * n + d)
}

// A count from 0 to 255 begins.
fn count(d: usize) -> Mode
    ensures { result ≡ after_digit Mode.Closed d }
{
    if d <= 255 {
        Mode::Count(d)
    } else {
        Mode::Wrong
    }
}

// What has begun after a digit.
fn after_digit(mode: Mode, d: usize) -> Mode
    ensures { result ≡ after_digit mode d }
{
    match mode {
        Mode::Free | Mode::Signed => number(d),
        Mode::Number(v) => more_number(v, d),
        Mode::Closed => count(d),
        Mode::Count(n) => more_count(n, d),
        Mode::Wrong => Mode::Wrong,
    }
}

// What has begun after a closing bracket, which wants one that is open.
fn close(mode: Mode, depth: usize) -> Mode
    ensures { result ≡ after_token mode depth closing }
{
    if depth != 0 && may_end(mode) {
        Mode::Closed
    } else {
        Mode::Wrong
    }
}

// What has begun after a token.
pub fn after_token(mode: Mode, depth: usize, t: Token) -> Mode
    ensures { result ≡ after_token mode depth (told_token t) }
{
    match t {
        Token::Blank => if may_end(mode) {
            Mode::Free
        } else {
            Mode::Wrong
        },
        Token::Opening => if may_begin(mode) {
            Mode::Free
        } else {
            Mode::Wrong
        },
        Token::Closing => close(mode, depth),
        Token::Minus => if let Mode::Free = mode {
            Mode::Signed
        } else {
            Mode::Wrong
        },
        Token::Digit(d) => after_digit(mode, d),
        Token::Other => Mode::Wrong,
    }
}
