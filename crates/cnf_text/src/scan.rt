ghost use Rattle.std.specs.Prelude.{◌≡◌, ℕ, ◌+◌, ◌≤◌, ◌<◌, ◌^◌, length, true, IfOk};
ghost use Rattle.cnf_text.specs.Faults.{Judges};
ghost use Rattle.cnf_text.specs.Machine.{start, end_token, end_line, push_byte, step_at_start, step_in_comment, step_in_tokens, step, step_number, steps, is_between, is_commented, is_ended_at, Passes};

use crate::comment::comment_len;
use crate::fault::CnfFault;
use crate::numeral::short_numeral;
use crate::progress::Progress;
use crate::token::{MOST_TOKEN_BYTES, Token};
use lit_base::{Numeral, is_blank};
use std::alloc::Global;

/// Where in a line the next byte stands.
#[derive(Clone, Copy, Debug, PartialEq, Eq)]
pub(crate) enum Place {
    /// Behind blanks alone.
    LineStart,
    /// In a comment.
    Comment,
    /// In a line of tokens.
    Tokens,
    /// Behind the `%` that ends the input.
    Ended,
}

/// Where a reader stands in the text.
#[derive(Debug, Drop)]
pub(crate) struct Scan {
    pub line: u64,
    pub place: Place,
    pub token: Token,
    pub progress: Progress,
}

impl Scan {
    /// Before the first byte; takes no memory.
    pub(crate) fn new(alloc: Global) -> Scan
        ensures { result ≡ start }
    {
        Scan {
            line: 1,
            place: Place::LineStart,
            token: Token::new(),
            progress: Progress::new(alloc),
        }
    }

    /// Whether the `%` that ends the input was met.
    pub(crate) fn is_ended(&self) -> bool
        ensures { result ≡ is_ended_at self.now.place }
    {
        match self.place {
            Place::LineStart => false,
            Place::Comment => false,
            Place::Tokens => false,
            Place::Ended => true,
        }
    }

    /// Reads the bytes in turn, up to the first fault.
    pub(crate) fn run(&mut self, bytes: &[u8]) -> Result<(), CnfFault>
        requires { self.old.line + length bytes.now < 2 ^ 63 }
        ensures judged { Judges result self.new (steps self.old bytes.now) }
        ensures lines { self.new.line ≤ self.old.line + length bytes.now }
    {
        let mut at = 0;
        while at < bytes.len() {
            at += self.advance(&bytes[at..])?;
        }
        Ok(())
    }

    /// Reads a front of the bytes, at least one, and answers how many.
    fn advance(&mut self, bytes: &[u8]) -> Result<usize, CnfFault>
        requires some { 1 ≤ length bytes.now }
        requires lines { self.old.line + length bytes.now < 2 ^ 63 }
        ensures reads { Passes self.old bytes.now self.new result }
        ensures some { IfOk result (λ count. 1 ≤ count) }
    {
        if self.is_between() && self.progress.is_body() {
            if let Some(numeral) = short_numeral(bytes) {
                self.step_number(numeral)?;
                return Ok(numeral.len + 1);
            }
        }
        self.step(bytes[0])?;
        let passed = self.pass_comment(&bytes[1..])?;
        Ok(1 + passed)
    }

    /// Reads on to behind the LF of the comment, where the reader is in one, and answers how many bytes that are.
    fn pass_comment(&mut self, bytes: &[u8]) -> Result<usize, CnfFault>
        requires { self.old.line + length bytes.now < 2 ^ 63 }
        ensures reads { Passes self.old bytes.now self.new result }
        ensures all { IfOk result (λ count. is_commented self.new.place ≡ true → count ≡ length bytes.now) }
    {
        if !self.is_commented() {
            return Ok(0);
        }
        let len = comment_len(bytes);
        if len == bytes.len() {
            return Ok(len);
        }
        self.end_line()?;
        Ok(len + 1)
    }

    /// Whether the next byte begins a token, or none is open.
    fn is_between(&self) -> bool
        ensures { result ≡ is_between self.now.place self.now.token }
    {
        match self.place {
            Place::LineStart => true,
            Place::Comment => false,
            Place::Tokens => self.token.is_empty(),
            Place::Ended => false,
        }
    }

    /// Whether the next byte is one of a comment, or ends it.
    fn is_commented(&self) -> bool
        ensures { result ≡ is_commented self.now.place }
    {
        match self.place {
            Place::LineStart => false,
            Place::Comment => true,
            Place::Tokens => false,
            Place::Ended => false,
        }
    }

    /// Reads a number that is a whole token, and the blank behind it.
    fn step_number(&mut self, numeral: Numeral) -> Result<(), CnfFault>
        requires lines { self.old.line < 2 ^ 63 }
        requires small { numeral.value < 100000000 }
        ensures judged { Judges result self.new (step_number self.old numeral.positive numeral.value numeral.blank) }
        ensures lines { self.new.line ≤ self.old.line + 1 }
    {
        self.progress
            .take_number(numeral.positive, numeral.value as u32, self.line)?;
        self.place = Place::Tokens;
        self.token.clear();
        if numeral.blank == b'\n' {
            return self.end_line();
        }
        Ok(())
    }

    fn step(&mut self, byte: u8) -> Result<(), CnfFault>
        requires { self.old.line < 2 ^ 63 }
        ensures judged { Judges result self.new (step self.old byte) }
        ensures lines { self.new.line ≤ self.old.line + 1 }
    {
        match self.place {
            Place::LineStart => self.step_at_start(byte),
            Place::Comment => self.step_in_comment(byte),
            Place::Tokens => self.step_in_tokens(byte),
            Place::Ended => Ok(()),
        }
    }

    fn step_at_start(&mut self, byte: u8) -> Result<(), CnfFault>
        requires { self.old.line < 2 ^ 63 }
        ensures judged { Judges result self.new (step_at_start self.old byte) }
        ensures lines { self.new.line ≤ self.old.line + 1 }
    {
        if byte == b'\n' {
            return self.end_line();
        }
        if is_blank(byte) {
            return Ok(());
        }
        if byte == b'c' {
            self.place = Place::Comment;
        } else if byte == b'%' {
            self.place = Place::Ended;
        } else {
            self.place = Place::Tokens;
            self.token.clear();
            self.token.push(byte);
        }
        Ok(())
    }

    fn step_in_comment(&mut self, byte: u8) -> Result<(), CnfFault>
        requires { self.old.line < 2 ^ 63 }
        ensures judged { Judges result self.new (step_in_comment self.old byte) }
        ensures lines { self.new.line ≤ self.old.line + 1 }
    {
        if byte == b'\n' {
            self.end_line()
        } else {
            Ok(())
        }
    }

    fn step_in_tokens(&mut self, byte: u8) -> Result<(), CnfFault>
        requires { self.old.line < 2 ^ 63 }
        ensures judged { Judges result self.new (step_in_tokens self.old byte) }
        ensures lines { self.new.line ≤ self.old.line + 1 }
    {
        if !is_blank(byte) {
            return self.push_byte(byte);
        }
        self.end_token()?;
        if byte == b'\n' {
            return self.end_line();
        }
        Ok(())
    }

    /// Adds a byte to the open token.
    fn push_byte(&mut self, byte: u8) -> Result<(), CnfFault>
        ensures judged { Judges result self.new (push_byte self.old byte) }
        ensures lines { self.new.line ≡ self.old.line }
    {
        if self.token.len() >= MOST_TOKEN_BYTES {
            return Err(CnfFault::TooLong(self.line));
        }
        self.token.push(byte);
        Ok(())
    }

    /// Takes the open token, which is whole now.
    fn end_token(&mut self) -> Result<(), CnfFault>
        ensures judged { Judges result self.new (end_token self.old) }
        ensures lines { self.new.line ≡ self.old.line }
    {
        self.progress.take_token(self.token.as_slice(), self.line)?;
        self.token.clear();
        Ok(())
    }

    /// Takes the end of the line.
    fn end_line(&mut self) -> Result<(), CnfFault>
        requires { self.old.line < 2 ^ 63 }
        ensures judged { Judges result self.new (end_line self.old) }
        ensures lines { self.new.line ≤ self.old.line + 1 }
    {
        self.progress.take_line_end(self.line)?;
        self.line += 1;
        self.place = Place::LineStart;
        self.token.clear();
        Ok(())
    }
}
