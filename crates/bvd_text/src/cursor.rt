//! A reader that goes through a text by characters and knows where it stands, so that faults have places.

ghost use Rattle.std.specs.Prelude.{◌≡◌, ◌<◌, ◌+◌, ◌^◌, ◌++◌, [], length, MatchOption};
ghost use Rattle.std.specs.Char.{encode_utf8};
ghost use Rattle.bvd_text.specs.Places.{place_behind};
ghost use Rattle.bvd_text.specs.Text.{BeginsWith, Passes};
ghost use Rattle.bvd_text.specs.Stands.{past};

use std::marker::Model;

/// A place in a text, line and column from 1. A column counts characters; a line feed alone ends a line.
#[derive(Clone, Copy, Debug, PartialEq, Eq)]
pub struct Place {
    pub line: u32,
    pub column: u32,
}

impl Place {
    // The place behind one more character.
    fn past(self, character: char) -> Place
        requires line { self.line + 1 < 2 ^ 32 }
        requires column { self.column + 1 < 2 ^ 32 }
        ensures { result ≡ past self character }
    {
        if character == '\n' {
            Place {
                line: self.line + 1,
                column: 1,
            }
        } else {
            Place {
                line: self.line,
                column: self.column + 1,
            }
        }
    }
}

// The first character, and the text behind it.
fn first(text: &str) -> Option<(char, &str)>
    ensures { MatchOption result (text.now ≡ []) (λ p. text.now ≡ encode_utf8 p.0 ++ p.1.now) }
{
    let mut chars = text.chars();
    let next = chars.next()?;
    Some((next, chars.as_str()))
}

/// A reader of a text by characters. Contracts see the bytes behind it and those before it.
#[derive(Drop)]
pub struct Cursor<'a> {
    text: &'a str,
    rest: &'a str,
    at: usize,
    place: Place,
}

impl<'a> Model for Cursor<'a> {
    ghost use Rattle.bvd_text.specs.Text.{Reading};
    ghost use Rattle.bvd_text.specs.Stands.{reading_at, IsCursor};

    ghost Value = { Reading };

    ghost view = { λ c. reading_at c.text.now c.at c.rest.now };

    ghost invariant = { λ c. IsCursor c.text.now c.at c.rest.now c.place };
}

impl<'a> Cursor<'a> {
    /// A reader at the text's start. Takes constant time.
    pub fn new(text: &'a str) -> Cursor<'a>
        requires { length text.now + 1 < 2 ^ 32 }
        ensures start { result.before ≡ [] }
        ensures text { result.rest ≡ text.now }
    {
        Cursor {
            text,
            rest: text,
            at: 0,
            place: Place { line: 1, column: 1 },
        }
    }

    /// The next character, and none exactly at the end. Takes constant time.
    pub fn peek(&self) -> Option<char>
        ensures { MatchOption result (self.now.rest ≡ []) (λ c. BeginsWith c self.now.rest) }
    {
        self.rest.chars().next()
    }

    /// Goes past the next character. Takes constant time.
    pub fn bump(&mut self) -> Option<char>
        ensures { MatchOption result ((self.old.rest ≡ []) × (self.new ≡ self.old)) (Passes self.old self.new) }
    {
        match first(self.rest) {
            Some((next, rest)) => {
                self.rest = rest;
                self.at += next.len_utf8();
                self.place = self.place.past(next);
                Some(next)
            }
            None => None,
        }
    }

    /// Where the reader stands.
    pub fn place(&self) -> Place
        ensures { result ≡ place_behind self.now.before }
    {
        self.place
    }

    /// How many bytes have been read.
    pub fn at(&self) -> usize
        ensures { result ≡ length self.now.before }
    {
        self.at
    }
}
