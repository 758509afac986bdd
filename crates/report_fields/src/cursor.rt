//! A place in a text, from which pieces, numbers and lists are taken one after another.
//!
//! What is taken need not be right: a line that is made of it counts only where its text is the bytes.

ghost use Rattle.std.specs.Prelude.{◌<◌, ◌^◌, All, IfOk, IfSome, IsUtf8};

use cq_terms::{IdLists, Ids, Longs, NoMemory, Texts};
use std::alloc::Global;

/// What is left of a text.
#[derive(Drop)]
pub struct Cursor<'a> {
    rest: &'a [u8],
}

impl<'a> Cursor<'a> {
    /// The beginning of a text.
    pub fn new(text: &'a [u8]) -> Cursor<'a> {
        Cursor { rest: text }
    }

    /// Goes past the piece, where the text goes on with it.
    pub fn takes(&mut self, piece: &str) -> bool {
        match self.rest.strip_prefix(piece.as_bytes()) {
            Some(rest) => {
                self.rest = rest;
                true
            }
            None => false,
        }
    }

    /// Goes past a byte.
    fn skip(&mut self) {
        if let Some((_, rest)) = self.rest.split_first() {
            self.rest = rest;
        }
    }

    /// Goes past the digits with which the text goes on, and gives their number, modulo 2^64.
    pub fn long(&mut self) -> u64 {
        let rest = self.rest;
        let mut number: u64 = 0;
        for (at, byte) in rest.iter().enumerate() {
            if !byte.is_ascii_digit() {
                self.rest = &rest[at..];
                return number;
            }
            number = number
                .wrapping_mul(10)
                .wrapping_add(u64::from(byte.wrapping_sub(b'0')));
        }
        self.rest = &[];
        number
    }

    /// The same, where the number is below 2^32.
    pub fn id(&mut self) -> Option<u32> {
        let number = self.long();
        if number < 1 << 32 {
            Some(number as u32)
        } else {
            None
        }
    }

    /// An array of numbers below 2^64.
    pub fn longs(&mut self, alloc: Global) -> Result<Option<Longs>, NoMemory>
        ensures fit { IfOk result (λ o. IfSome o (All (λ n. n < 2 ^ 64))) }
    {
        let mut longs = Longs::new(alloc);
        if self.takes("[]") {
            return Ok(Some(longs));
        }
        for _ in 0..self.rest.len() {
            // The bracket or a comma.
            self.skip();
            longs.push(self.long())?;
            if self.takes("]") {
                return Ok(Some(longs));
            }
        }
        Ok(None)
    }

    /// An array of numbers below 2^32.
    pub fn ids(&mut self, alloc: Global) -> Result<Option<Ids>, NoMemory>
        ensures fit { IfOk result (λ o. IfSome o (All (λ n. n < 2 ^ 32))) }
    {
        let mut ids = Ids::new(alloc);
        if self.takes("[]") {
            return Ok(Some(ids));
        }
        for _ in 0..self.rest.len() {
            self.skip();
            let Some(id) = self.id() else {
                return Ok(None);
            };
            ids.push(id)?;
            if self.takes("]") {
                return Ok(Some(ids));
            }
        }
        Ok(None)
    }

    /// An array of arrays of numbers below 2^32.
    pub fn id_lists(&mut self, alloc: Global) -> Result<Option<IdLists>, NoMemory>
        ensures fit { IfOk result (λ o. IfSome o (All (λ list. All (λ n. n < 2 ^ 32) list))) }
    {
        let mut lists = IdLists::new(alloc);
        if self.takes("[]") {
            return Ok(Some(lists));
        }
        for _ in 0..self.rest.len() {
            self.skip();
            let Some(list) = self.ids(alloc)? else {
                return Ok(None);
            };
            lists.push(list)?;
            if self.takes("]") {
                return Ok(Some(lists));
            }
        }
        Ok(None)
    }

    /// An array of texts that have no escape.
    pub fn texts(&mut self, alloc: Global) -> Result<Option<Texts>, NoMemory>
        ensures text { IfOk result (λ o. IfSome o (All IsUtf8)) }
    {
        let mut texts = Texts::new(alloc);
        if self.takes("[]") {
            return Ok(Some(texts));
        }
        for _ in 0..self.rest.len() {
            self.skip();
            let Some(text) = self.text() else {
                return Ok(None);
            };
            texts.push(String::from_str(alloc, text)?)?;
            if self.takes("]") {
                return Ok(Some(texts));
            }
        }
        Ok(None)
    }

    /// What stands between two quotes.
    fn text(&mut self) -> Option<&'a str>
        ensures text { IfSome result (λ text. IsUtf8 text.now) }
    {
        self.skip();
        let end = self.rest.iter().position(|byte| *byte == b'"')?;
        let (text, rest) = self.rest.split_at(end);
        self.rest = rest;
        self.skip();
        str::from_utf8(text).ok()
    }
}
