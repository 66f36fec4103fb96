//! Reading a stream line by line, each with a bound, so that one line can neither take all memory nor end the stream.
//!
//! A line that is too long, or for which memory runs out, is read to its end and not kept. So the next line begins
//! where it begins in the stream. What the source has already of a line is moved at once, and other bytes are asked for one
//! by one, so a source should read ahead (`read_ahead`).

ghost use Rattle.std.specs.Prelude.{◌≡◌, ◌⊎◌, ◌≤◌, ℕ, List, [], ◌∷◌, ◌++◌, None, true, false, length, ◌<◌, IfOk, OnErr, IsOkUnless};
ghost use Rattle.std.specs.Option.{option_to_list};
ghost use Rattle.std.specs.Io.KnownBytes.{Consumes, IsAtEnd};
ghost use Rattle.fm_io.specs.Lines.{IsLine};
ghost use Rattle.fm_io.specs.LineReads.{IsKeptLine, IsNextLine, is_last};
ghost use Rattle.fm_io.specs.Runs.{most_counted};

use crate::source::Source;
use fm_records::refusal::Refusal;

/// The most bytes of a line, without its line feed: 64 MiB.
pub const MOST_LINE: usize = 67_108_864;

/// What is kept of a line.
#[derive(Debug, Clone, Copy, PartialEq, Eq, Drop)]
pub enum Line {
    /// All of it.
    Whole,
    /// Nothing of use: it has more than `MOST_LINE` bytes.
    TooLong,
    /// Nothing of use: memory ran out for it.
    OutOfMemory,
}

/// What comes next of a stream.
#[derive(Debug, Clone, Copy, PartialEq, Eq, Drop)]
pub enum Next {
    /// A line and its line feed.
    Line(Line),
    /// Bytes after the last line feed, and then the end.
    Last(Line),
    /// The end.
    End,
}

/// Reads the next line, up to its line feed, and keeps it without that. A line that is too long, or for which memory
/// runs out, is also read to its end. BadScript(0) if the source fails, and only then, short of 2^64 bytes of one
/// line. O(n), with a call of the source for each byte that it does not have already.
pub fn next_line<S: Source>(source: &mut S, line: &mut Vec<u8>) -> Result<Next, Refusal>
    ensures next { IfOk result (λ next. (bytes : List ℕ)
        × Consumes (S.remaining source.old) (S.remaining source.new) bytes
        × IsNextLine next bytes line.new.items) }
    ensures end { IfOk result (λ next. is_last next ≡ true → IsAtEnd (S.remaining source.new)) }
    ensures err { OnErr result ((bytes : List ℕ) × Consumes (S.remaining source.old) (S.remaining source.new) bytes
        × IsLine bytes
        × ((S.has_failed source.new ≡ true) ⊎ (most_counted ≤ length bytes))) }
    ensures cause { IsOkUnless result (Refusal.BadScript 0) }
{
    line.clear();
    let mut kept = Line::Whole;
    for count in 0..u64::MAX {
        keep_ahead(source, kept, line);
        match next_byte(source)? {
            None => return Ok(end_of(kept, line)),
            Some(b'\n') => return Ok(Next::Line(kept)),
            Some(byte) => kept = keep(kept, line, byte),
        }
    }
    Err(Refusal::BadScript(0))
}

// What is at the end of the stream, after what was kept of the bytes before that.
fn end_of(kept: Line, line: &[u8]) -> Next
    ensures last { is_last result ≡ true }
    ensures next { (bytes : List ℕ) → IsLine bytes → (kept ≡ Line.Whole) ⊎ (0 < length bytes)
        → IsKeptLine kept bytes line.now → IsNextLine result bytes line.now }
{
    match kept {
        Line::Whole => {
            if line.is_empty() {
                Next::End
            } else {
                Next::Last(kept)
            }
        }
        Line::TooLong | Line::OutOfMemory => Next::Last(kept),
    }
}

// Keeps what the source has already of the line, while that is not too long.
fn keep_ahead<S: Source>(source: &mut S, kept: Line, line: &mut Vec<u8>)
    ensures ahead { (bytes : List ℕ) → IsKeptLine kept bytes line.old.items → (more : List ℕ)
        × Consumes (S.remaining source.old) (S.remaining source.new) more × IsLine more
        × IsKeptLine kept (bytes ++ more) line.new.items }
{
    match kept {
        Line::Whole => source.take_ahead(line, MOST_LINE.saturating_sub(line.len())),
        Line::TooLong | Line::OutOfMemory => {}
    }
}

// Keeps one byte more of a line, while it is not too long and there is memory.
fn keep(kept: Line, line: &mut Vec<u8>, byte: u8) -> Line
    ensures { (bytes : List ℕ) → IsKeptLine kept bytes line.old.items
        → IsKeptLine result (bytes ++ byte ∷ []) line.new.items }
{
    match kept {
        Line::Whole => push_to(line, byte),
        Line::TooLong => Line::TooLong,
        Line::OutOfMemory => Line::OutOfMemory,
    }
}

// The same of a line that is whole so far.
fn push_to(line: &mut Vec<u8>, byte: u8) -> Line
    ensures { (bytes : List ℕ) → IsKeptLine Line.Whole bytes line.old.items
        → IsKeptLine result (bytes ++ byte ∷ []) line.new.items }
{
    if line.len() >= MOST_LINE {
        return Line::TooLong;
    }
    match line.push(byte) {
        Ok(()) => Line::Whole,
        Err(_) => Line::OutOfMemory,
    }
}

// The next byte, if there is one.
fn next_byte<S: Source>(source: &mut S) -> Result<Option<u8>, Refusal>
    ensures byte { IfOk result
        (λ byte. Consumes (S.remaining source.old) (S.remaining source.new) (option_to_list byte)) }
    ensures end { IfOk result (λ byte. byte ≡ None → IsAtEnd (S.remaining source.new)) }
    ensures err { OnErr result (Consumes (S.remaining source.old) (S.remaining source.new) []) }
    ensures failed { OnErr result (S.has_failed source.new ≡ true) }
    ensures cause { IsOkUnless result (Refusal.BadScript 0) }
{
    let mut piece = [0u8; 1];
    match source.get(&mut piece) {
        None => Err(Refusal::BadScript(0)),
        Some(0) => Ok(None),
        Some(_) => Ok(Some(piece[0])),
    }
}
