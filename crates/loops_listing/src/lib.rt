// What the program loops prints: a heading, then one line for its verdict. The crate spec states the text
// (specs/Listing.antt).

#![tactic(auto)]

ghost use Rattle.std.specs.Prelude.{◌+◌, ◌≤◌, ◌≡◌, length, take};
ghost use Rattle.io.specs.Counts.{IsPrefixLen};
ghost use Rattle.spec.specs.Listing.{Shows, told_verdict, Printed};
ghost use Rattle.array_row.specs.Row.{Appended};
ghost use Rattle.loops_listing.specs.Put.{Put, PutNumber, Refuses};

use spec::Refusal;

// A text that grows at the start of a buffer and ends before the byte `end`. There is no heap for a String. That `out`
// stays the same reference is in each contract, so that `put` knows what it holds at the end.
#[derive(Drop)]
struct Text<'a> {
    out: &'a mut [u8],
    end: usize,
}

impl<'a> Text<'a> {
    // Puts a word.
    fn word(&mut self, word: &[u8])
        requires { self.old.end + length word.now ≤ length self.old.out.now }
        ensures same_reference { self.new.out.ghost_name ≡ self.old.out.ghost_name }
        ensures there { Appended self.old.out.now self.old.end word.now self.new.out.now self.new.end }
    {
        self.end = array_row::append(self.out, self.end, word);
    }

    // Puts a word, and a number in decimal behind it.
    fn number(&mut self, word: &[u8], n: u64)
        requires { self.old.end + length word.now + 20 ≤ length self.old.out.now }
        ensures same_reference { self.new.out.ghost_name ≡ self.old.out.ghost_name }
        ensures there { PutNumber word.now n self.old.out.now self.old.end self.new.out.now self.new.end }
    {
        let mut digits = [0u8; 20];
        let k = io::decimal(n, &mut digits);
        self.word(word);
        self.word(&digits[..k]);
    }

    // Puts the line of a refusal: its number, plan and place. The number is call_codes', so that the edit
    // call_codes/retired_number shows in this program (docs/DECISIONS.md).
    fn refusal(&mut self, refusal: Refusal)
        requires { self.old.end + 70 ≤ length self.old.out.now }
        ensures same_reference { self.new.out.ghost_name ≡ self.old.out.ghost_name }
        ensures there { Put (Refuses refusal) 70 self.old.out.now self.old.end self.new.out.now self.new.end }
    {
        self.number(b"refused ", call_codes::number(refusal.reason) as u64);
        self.number(b" ", refusal.plan as u64);
        self.number(b" ", refusal.place as u64);
    }

    // Puts the line of a verdict.
    fn verdict(&mut self, verdict: Result<Option<usize>, Refusal>)
        requires { self.old.end + 70 ≤ length self.old.out.now }
        ensures same_reference { self.new.out.ghost_name ≡ self.old.out.ghost_name }
        ensures there { Put (Shows (told_verdict verdict)) 70
            self.old.out.now self.old.end self.new.out.now self.new.end }
    {
        match verdict {
            Ok(Some(c)) => self.number(b"joined ", c as u64),
            Ok(None) => self.word(b"apart"),
            Err(refusal) => self.refusal(refusal),
        }
    }
}

// The whole text, at the start of out; gives its length.
pub fn put(out: &mut [u8], verdict: Result<Option<usize>, Refusal>) -> usize
    requires { 79 ≤ length out.old }
    ensures text { Printed (told_verdict verdict) (take result out.new) }
    ensures room { IsPrefixLen result out.new }
{
    let mut text = Text { out, end: 0 };
    text.word(b"loops 1\n");
    text.verdict(verdict);
    text.word(b"\n");
    text.end
}
