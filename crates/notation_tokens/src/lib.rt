// What a byte of a text is. The crate spec states it (specs/Notation.antt).

#![tactic(auto)]

ghost use Rattle.std.specs.Prelude.{◌≡◌};
ghost use Rattle.spec.specs.Notation.{token_of};
ghost use Rattle.notation_tokens.specs.Told.{told_token};

// A digit carries its value.
#[derive(Clone, Copy)]
pub enum Token {
    Blank,
    Opening,
    Closing,
    Minus,
    Digit(usize),
    Other,
}

pub fn token_of(b: u8) -> Token
    ensures { told_token result ≡ token_of b }
{
    match b {
        b' ' => Token::Blank,
        b'(' => Token::Opening,
        b')' => Token::Closing,
        b'-' => Token::Minus,
        b'0'..=b'9' => Token::Digit((b - b'0') as usize),
        _ => Token::Other,
    }
}
