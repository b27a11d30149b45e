// The printed line, put together piece by piece. It is 200 bytes of its own, since std's formatter says nothing of what failed: where it
// writes, no proof rules a failure out.
ghost use Rattle.std.specs.Prelude.{◌≡◌, ◌+◌, ◌≤◌, List, [], ◌++◌, ℕ, length, take};
ghost use Rattle.rejudging.specs.Line.{
  decimal,
  spaced,
  word_text,
  mode_number,
  three_text,
  window_text,
  engine_text,
  sheet_text,
  refusal_text,
  line_of,
};

use crate::Sheet;
use loaded_test::Word;
use refusal::Refusal;
use std::marker::Model;
use vehicle::Mode;
use window::Averages;

// A line as far as it is put.
#[derive(Drop)]
pub(crate) struct Line {
    bytes: [u8; 200],
    len: usize,
}

impl Model for Line {
    ghost Value = { List ℕ };

    ghost view = { λ l. take l.len l.bytes };

    ghost invariant = { λ l. l.len ≤ 200 };
}

#[tactic(auto, unfolding(crate::specs::Line::word_text))]
fn word_text(word: Option<Word>) -> &'static [u8]
    ensures { result.now ≡ word_text word }
{
    match word {
        None => b"open",
        Some(Word::Pass) => b"pass",
        Some(Word::Fail) => b"fail",
        Some(Word::Incomplete) => b"incomplete",
    }
}

// As `vectors` has it; a number is all that either prints of a mode.
fn mode_number(mode: Mode) -> u64
    ensures { result ≡ mode_number mode }
{
    match mode {
        Mode::One => 1,
        Mode::Two => 2,
    }
}

// Each method puts a piece behind the others, and asks for its room, which differs with each piece.
impl Line {
    fn new() -> Self
        ensures { result ≡ [] }
    {
        Line {
            bytes: [0; 200],
            len: 0,
        }
    }

    pub(crate) fn as_slice(&self) -> &[u8]
        ensures { result.now ≡ self.now }
    {
        &self.bytes[..self.len]
    }

    #[tactic(auto, using(std::proofs::lemmas::Slice::overwrites))]
    fn push(&mut self, piece: &[u8])
        requires { length self.old + length piece.now ≤ 200 }
        ensures { self.new ≡ self.old ++ piece.now }
    {
        let end = self.len + piece.len();
        self.bytes[self.len..end].copy_from_slice(piece);
        self.len = end;
    }

    // In digits, since `Display` states no text; a digit is cast where it is proved to fit.
    fn decimal(&mut self, n: u64)
        requires { length self.old + length (decimal n) ≤ 200 }
        ensures { self.new ≡ self.old ++ decimal n }
    {
        if n < 10 {
            self.push(&[b'0' + n as u8]);
            return;
        }
        self.decimal(n / 10);
        self.push(&[b'0' + (n % 10) as u8]);
    }

    #[tactic(auto, unfolding(crate::specs::Line::spaced))]
    fn spaced(&mut self, n: u64)
        requires { length self.old + length (spaced n) ≤ 200 }
        ensures { self.new ≡ self.old ++ spaced n }
    {
        self.push(b" ");
        self.decimal(n);
    }

    #[tactic(auto, unfolding(crate::specs::Line::three_text))]
    fn three(&mut self, a: u64, b: u64, c: u64)
        requires { length self.old + length (three_text a b c) ≤ 200 }
        ensures { self.new ≡ self.old ++ three_text a b c }
    {
        self.spaced(a);
        self.spaced(b);
        self.spaced(c);
    }

    #[tactic(auto, unfolding(crate::specs::Line::window_text))]
    fn window(&mut self, window: Option<Averages>)
        requires { length self.old + length (window_text window) ≤ 200 }
        ensures { self.new ≡ self.old ++ window_text window }
    {
        match window {
            Some(x) => self.three(x.hc as u64, x.co as u64, x.no as u64),
            None => self.push(b" - - -"),
        }
    }

    #[tactic(auto, unfolding(crate::specs::Line::engine_text))]
    fn engine(&mut self, engine: Option<u16>)
        requires { length self.old + length (engine_text engine) ≤ 200 }
        ensures { self.new ≡ self.old ++ engine_text engine }
    {
        match engine {
            Some(n) => self.spaced(n as u64),
            None => self.push(b" -"),
        }
    }

    #[tactic(auto, unfolding(crate::specs::Line::sheet_text))]
    fn sheet(&mut self, x: Sheet)
        requires { length self.old + length (sheet_text x) ≤ 200 }
        ensures { self.new ≡ self.old ++ sheet_text x }
    {
        self.push(word_text(x.word));
        self.spaced(mode_number(x.mode));
        self.spaced(x.t as u64);
        self.three(x.passing as u64, x.failing as u64, x.invalid as u64);
        self.window(x.window);
        self.engine(x.engine);
        self.push(b"\n");
    }

    #[tactic(auto, unfolding(crate::specs::Line::refusal_text, crate::specs::Line::refused_text))]
    fn refusal(&mut self, r: Refusal)
        requires { length self.old + length (refusal_text r) ≤ 200 }
        ensures { self.new ≡ self.old ++ refusal_text r }
    {
        self.push(b"refused");
        self.spaced(r.number() as u64);
        self.spaced(r.place() as u64);
        self.push(b"\n");
    }
}

#[tactic(auto, using(crate::proofs::Lengths::line_fits_lem), unfolding(crate::specs::Line::line_of))]
pub(crate) fn line_of(r: Result<Sheet, Refusal>) -> Line
    ensures { result ≡ line_of r }
{
    let mut line = Line::new();
    match r {
        Ok(x) => line.sheet(x),
        Err(refusal) => line.refusal(refusal),
    }
    line
}
