ghost use Rattle.std.specs.Prelude.{◌≡◌, ℕ, ◌+◌, ◌≤◌, ◌<◌, ◌^◌, ◌==◌, length, true, false, Ok, IfOk, OnOk, IfSome};
ghost use Rattle.lrat_text.specs.Faults.{Judges};
ghost use Rattle.lrat_text.specs.Machine.{start, line_start, end_token, end_line, step_ready, step_feed, step_at_start, step_in_tokens, step, step_number, is_between, is_ready, line_at, behind_line, Passes, PassesLines, IsAhead};

use crate::fault::LineFault;
use crate::progress::Progress;
use crate::stage::Stage;
use crate::token::Token;
use lit_base::{Line, NoMemory, Numeral, is_blank, numeral_at_front};
use std::alloc::Global;

/// The most bytes of a line.
const MOST_LINE_BYTES: usize = 33_554_432;

/// The most digits of a number that is read at once.
const MOST_DIGITS: usize = 18;

/// Where in a line the next byte stands.
#[derive(Clone, Copy, Debug, PartialEq, Eq)]
pub(crate) enum Place {
    /// Behind blanks alone.
    LineStart,
    /// In a comment.
    Comment,
    /// In a line of tokens.
    Tokens,
    /// Behind the line with this number, whose step is to be handed out before the next byte is read.
    Ready(u64),
}

/// Where a reader stands in the text.
#[derive(Debug, Drop)]
pub(crate) struct Scan {
    pub line: u64,
    /// How many bytes of the line were read.
    pub read: usize,
    pub place: Place,
    pub token: Token,
    pub progress: Progress,
}

impl Scan {
    /// Before the first byte; takes no memory.
    pub(crate) fn new(alloc: Global) -> Scan
        ensures { result ≡ start }
    {
        Scan {
            line: 1,
            read: 0,
            place: Place::LineStart,
            token: Token::Empty,
            progress: Progress::new(alloc),
        }
    }

    /// The line that is ready, after which the reader stands at the start of the next, or none. After `NoMemory` it stands
    /// there too.
    pub(crate) fn take_line(&mut self, alloc: Global) -> Result<Option<Line>, NoMemory>
        ensures line { IfOk result (λ line. line ≡ line_at self.old.place self.old) }
        ensures behind { self.new ≡ behind_line self.old.place self.old }
    {
        let Place::Ready(line) = self.place else {
            return Ok(None);
        };
        let step = self.progress.step(alloc);
        self.begin_line();
        Ok(Some(Line { line, step: step? }))
    }

    /// Whether a line is ready.
    fn is_ready(&self) -> bool
        ensures { result ≡ is_ready self.now.place }
    {
        match self.place {
            Place::LineStart => false,
            Place::Comment => false,
            Place::Tokens => false,
            Place::Ready(_) => true,
        }
    }

    /// Reads the bytes in turn, up to the first line that is ready, and answers how many.
    pub(crate) fn run(&mut self, bytes: &[u8]) -> Result<usize, LineFault>
        requires lines { self.old.line + length bytes.now < 2 ^ 63 }
        requires idle { is_ready self.old.place ≡ false }
        ensures reads { Passes self.old bytes.now self.new result }
        ensures within { IfOk result (λ count. count ≤ length bytes.now) }
        ensures all { IfOk result (λ count. is_ready self.new.place ≡ false → count ≡ length bytes.now) }
        ensures some { IfOk result (λ count. 1 ≤ length bytes.now → 1 ≤ count) }
        ensures lines { PassesLines self.old.line self.new.line (length bytes.now) result }
    {
        let mut at = 0;
        while at < bytes.len() && !self.is_ready() {
            at += self.advance(&bytes[at..])?;
        }
        Ok(at)
    }

    /// Reads a front of the bytes, at least one, and answers how many.
    fn advance(&mut self, bytes: &[u8]) -> Result<usize, LineFault>
        requires some { 1 ≤ length bytes.now }
        requires lines { self.old.line + length bytes.now < 2 ^ 63 }
        requires idle { is_ready self.old.place ≡ false }
        ensures reads { Passes self.old bytes.now self.new result }
        ensures some { IfOk result (λ count. 1 ≤ count) }
        ensures within { IfOk result (λ count. count ≤ length bytes.now) }
        ensures lines { PassesLines self.old.line self.new.line (length bytes.now) result }
    {
        let count = self.pass_numbers(bytes)?;
        if count > 0 {
            return Ok(count);
        }
        self.step(bytes[0])?;
        Ok(1)
    }

    /// Reads the numbers that the bytes begin with, each with the blank behind it, up to the end of the line, and answers
    /// how many bytes they have. A number that is long or isn't whole yet is left, and so is what follows it.
    #[inline(always)]
    fn pass_numbers(&mut self, bytes: &[u8]) -> Result<usize, LineFault>
        requires lines { self.old.line + length bytes.now < 2 ^ 63 }
        requires idle { is_ready self.old.place ≡ false }
        ensures reads { Passes self.old bytes.now self.new result }
        ensures within { IfOk result (λ count. count ≤ length bytes.now) }
        ensures none { result ≡ Ok 0 → self.new ≡ self.old }
        ensures lines { PassesLines self.old.line self.new.line (length bytes.now) result }
    {
        if !self.is_between() {
            return Ok(0);
        }
        let mut at = 0;
        while at < bytes.len() {
            let Some(numeral) = self.numeral_ahead(&bytes[at..]) else {
                return Ok(at);
            };
            self.step_number(numeral)?;
            at += numeral.len + 1;
            if numeral.blank == b'\n' {
                return Ok(at);
            }
        }
        Ok(at)
    }

    /// The number that the bytes begin with, where it is a whole token within the line's limit. A long one may be left out.
    #[inline(always)]
    fn numeral_ahead(&self, bytes: &[u8]) -> Option<Numeral>
        requires { is_between self.now.place self.now.token ≡ true }
        ensures { IfSome result (λ numeral. IsAhead self.now numeral bytes.now) }
    {
        match numeral_at_front(bytes, MOST_DIGITS) {
            Some(numeral) => {
                if numeral.len >= MOST_LINE_BYTES.saturating_sub(self.read) {
                    return None;
                }
                Some(numeral)
            }
            None => None,
        }
    }

    /// Whether the next byte begins a token, or none is open.
    fn is_between(&self) -> bool
        ensures { result ≡ is_between self.now.place self.now.token }
    {
        match self.place {
            Place::LineStart => true,
            Place::Comment => false,
            Place::Tokens => self.token.is_empty(),
            Place::Ready(_) => false,
        }
    }

    /// Reads a number that is a whole token, and the blank behind it.
    #[inline(always)]
    fn step_number(&mut self, numeral: Numeral) -> Result<(), LineFault>
        requires lines { self.old.line < 2 ^ 63 }
        requires room { self.old.read + numeral.len < 33554432 }
        ensures judged { Judges result self.new (step_number self.old numeral.positive numeral.value numeral.len numeral.blank) }
        ensures between { OnOk result ((numeral.blank == 10) ≡ false → is_between self.new.place self.new.token ≡ true) }
        ensures lines { self.new.line ≤ self.old.line + 1 }
    {
        self.progress
            .take_number(numeral.positive, numeral.value, self.line)?;
        self.place = Place::Tokens;
        self.token = Token::Empty;
        self.read += numeral.len;
        if numeral.blank == b'\n' {
            return self.end_line();
        }
        self.read += 1;
        Ok(())
    }

    /// Reads a byte.
    pub(crate) fn step(&mut self, byte: u8) -> Result<(), LineFault>
        requires { self.old.line < 2 ^ 63 }
        ensures judged { Judges result self.new (step self.old byte) }
        ensures lines { self.new.line ≤ self.old.line + 1 }
    {
        if byte == b'\n' {
            return self.step_feed();
        }
        if self.read >= MOST_LINE_BYTES {
            return Err(LineFault::LineTooLong(self.line));
        }
        self.read += 1;
        match self.place {
            Place::LineStart => {
                self.step_at_start(byte);
                Ok(())
            }
            Place::Comment => Ok(()),
            Place::Tokens => self.step_in_tokens(byte),
            Place::Ready(_) => Ok(()),
        }
    }

    /// Reads an LF.
    fn step_feed(&mut self) -> Result<(), LineFault>
        requires { self.old.line < 2 ^ 63 }
        ensures judged { Judges result self.new (step_feed self.old.place self.old) }
        ensures lines { self.new.line ≤ self.old.line + 1 }
    {
        match self.place {
            Place::LineStart => {
                self.next_line();
                Ok(())
            }
            Place::Comment => {
                self.next_line();
                Ok(())
            }
            Place::Tokens => {
                self.end_token()?;
                self.end_line()
            }
            Place::Ready(_) => Ok(()),
        }
    }

    /// Reads another byte where the line has had blanks alone.
    fn step_at_start(&mut self, byte: u8)
        ensures judged { self.new ≡ step_at_start self.old byte }
        ensures lines { self.new.line ≡ self.old.line }
    {
        if is_blank(byte) {
            return;
        }
        if byte == b'c' {
            self.place = Place::Comment;
        } else {
            self.place = Place::Tokens;
            self.token = Token::Empty.with_byte(byte);
        }
    }

    /// Reads another byte in a line of tokens.
    fn step_in_tokens(&mut self, byte: u8) -> Result<(), LineFault>
        ensures judged { Judges result self.new (step_in_tokens self.old byte) }
        ensures lines { self.new.line ≡ self.old.line }
    {
        if is_blank(byte) {
            return self.end_token();
        }
        self.token = self.token.with_byte(byte);
        Ok(())
    }

    /// Takes the open token, which is whole now.
    fn end_token(&mut self) -> Result<(), LineFault>
        ensures judged { Judges result self.new (end_token self.old) }
        ensures lines { self.new.line ≡ self.old.line }
    {
        self.progress.take(self.token, self.line)?;
        self.token = Token::Empty;
        Ok(())
    }

    /// Takes the end of a line of tokens, where none is open.
    fn end_line(&mut self) -> Result<(), LineFault>
        requires { self.old.line < 2 ^ 63 }
        ensures judged { Judges result self.new (end_line self.old) }
        ensures lines { self.new.line ≤ self.old.line + 1 }
    {
        match self.progress.stage {
            Stage::Start => {
                self.next_line();
                Ok(())
            }
            Stage::Added => {
                self.keep_ready();
                Ok(())
            }
            Stage::Deleted => {
                self.keep_ready();
                Ok(())
            }
            _ => Err(LineFault::Unclosed(self.line)),
        }
    }

    /// Keeps what the line says until it is handed out.
    fn keep_ready(&mut self)
        requires { self.old.line < 2 ^ 63 }
        ensures { self.new ≡ step_ready self.old }
    {
        self.place = Place::Ready(self.line);
        self.line += 1;
        self.read = 0;
        self.token = Token::Empty;
    }

    /// Passes over to the next line.
    fn next_line(&mut self)
        requires { self.old.line < 2 ^ 63 }
        ensures { self.new ≡ line_start (self.old.line + 1) }
    {
        self.line += 1;
        self.begin_line();
    }

    /// Stands at the start of the line that it counts.
    pub(crate) fn begin_line(&mut self)
        ensures { self.new ≡ line_start self.old.line }
    {
        self.read = 0;
        self.place = Place::LineStart;
        self.token = Token::Empty;
        self.progress.clear();
    }
}
