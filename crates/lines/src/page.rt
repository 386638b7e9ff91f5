// The page that the lines are written on, in fixed room: each word and number stands behind what is written.
ghost use Rattle.std.specs.Prelude.{◌≡◌, ℕ, ◌+◌, ◌≤◌, List, [], ◌++◌, length, take};
ghost use Rattle.lines.specs.declared.page.TheConstants.{ROOM};
ghost use Rattle.lines.specs.Text.{decimal};
ghost use Rattle.lines.specs.Lines.{said, one, two, three};

use itoa::Buffer;
use std::marker::Model;

// The bytes that a page has room for.
pub const ROOM: usize = 131072;

// An array with its end beside it: the project's rule of fixed memory leaves no String.
// No type shared with memory's `Trail`: that puts in order and takes out, this appends; they share two fields alone.
#[derive(Drop)]
pub struct Page {
    text: [u8; ROOM],
    end: usize,
}

// Clauses see the bytes that are written.
impl Model for Page {
    ghost Value = { List ℕ };

    ghost view = { λ p. take p.end p.text };

    ghost invariant = { λ p. p.end ≤ ROOM };
}

impl Page {
    // Nothing is written.
    pub fn new() -> Page
        ensures { result ≡ [] }
    {
        Page {
            text: [0; ROOM],
            end: 0,
        }
    }

    // All that is written.
    pub fn written(&self) -> &[u8]
        ensures { result.now ≡ self.now }
    {
        &self.text[..self.end]
    }

    // The bytes of a word. Not by `write!`, here and below: it may fail, and nothing that it promises says when it does not.
    // `.. ≤ ROOM` is a clause of each, in repaired.rt and sheet.rt too: it is of the text that the function writes.
    pub fn put(&mut self, word: &[u8])
        requires { length self.old + length word.now ≤ ROOM }
        ensures { self.new ≡ self.old ++ word.now }
    {
        let end = self.end + word.len();
        self.text[self.end..end].copy_from_slice(word);
        self.end = end;
    }

    // A number in decimal, without leading zeros.
    pub fn number(&mut self, x: usize)
        requires { length self.old + length (decimal x) ≤ ROOM }
        ensures { self.new ≡ self.old ++ decimal x }
    {
        let mut digits = Buffer::new();
        self.put(digits.format(x).as_bytes());
    }

    // A word and a number.
    pub fn said(&mut self, word: &[u8], x: usize)
        requires { length self.old + length (said word.now x) ≤ ROOM }
        ensures { self.new ≡ self.old ++ said word.now x }
    {
        self.put(word);
        self.number(x);
    }

    // A line of a word and a number. This and the next two stay apart: they are `one`, `two` and `three` of specs/Lines,
    // which may not change.
    #[tactic(auto, unfolding(crate::specs::Lines::one))]
    pub fn one(&mut self, word: &[u8], x: usize)
        requires { length self.old + length (one word.now x) ≤ ROOM }
        ensures { self.new ≡ self.old ++ one word.now x }
    {
        self.said(word, x);
        self.put(b"\n");
    }

    // A line of two words, each with its number.
    #[tactic(auto, unfolding(crate::specs::Lines::two))]
    pub fn two(&mut self, word: &[u8], x: usize, other: &[u8], y: usize)
        requires { length self.old + length (two word.now x other.now y) ≤ ROOM }
        ensures { self.new ≡ self.old ++ two word.now x other.now y }
    {
        self.said(word, x);
        self.one(other, y);
    }

    // A line of three words, each with its number.
    #[tactic(auto, unfolding(crate::specs::Lines::three))]
    pub fn three(&mut self, word: &[u8], x: usize, other: &[u8], y: usize, last: &[u8], z: usize)
        requires { length self.old + length (three word.now x other.now y last.now z) ≤ ROOM }
        ensures { self.new ≡ self.old ++ three word.now x other.now y last.now z }
    {
        self.said(word, x);
        self.two(other, y, last, z);
    }
}
