//! The bytes of a reader of lines, over slices.

ghost use Rattle.std.specs.Prelude.{◌≡◌, ◌⊎◌, ◌↔◌, ◌+◌, ◌≤◌, false, [], ◌++◌, length, take, min, IsSome, IsNone, IsErr, IfSome, IfNone, IfOk, IsOkAnd, position};
ghost use Rattle.std.specs.List.{position_or_len};
ghost use Rattle.v1_lines.specs.Holding.{HoldsLine, HoldsLongLine, IsHeldLine, IsLineBuffer, IsOneLine, TakesNoMore};
ghost use Rattle.v1_lines.specs.Lines.{has_line_feed, is_line_feed, IsLineText, line_end};
ghost use Rattle.v1_lines.specs.Reading.{TakesPiece};

use thiserror::Error;

/// A line has more than 4,096 bytes before its end.
#[derive(Clone, Copy, Debug, Error)]
#[error("a line has more than 4,096 bytes")]
pub struct LineTooLong;

/// How many bytes are held at most: a line and its end.
pub(crate) const MOST_HELD: usize = 4_097;

/// The place of the first line feed.
fn feed_place(bytes: &[u8]) -> Option<usize>
    ensures { result ≡ position is_line_feed bytes.now }
{
    bytes.iter().position(|byte| *byte == b'\n')
}

/// How many bytes there are up to the first line feed and with it, or in all where there is none.
fn line_len(bytes: &[u8]) -> usize
    ensures { result ≡ min (position_or_len is_line_feed bytes.now + 1) (length bytes.now) }
{
    match feed_place(bytes) {
        Some(place) => place + 1,
        None => bytes.len(),
    }
}

/// The line that is held, without its end, where it has one.
fn ended_line(held: &[u8]) -> Option<&[u8]>
    requires { IsOneLine held.now }
    ensures line { IfSome result (λ line. IsHeldLine line.now held.now) }
    ensures none { IfNone result (has_line_feed held.now ≡ false) }
{
    held.strip_suffix(b"\n")
}

/// How many bytes of a piece are taken behind what is held.
fn count_taken(held: &[u8], piece: &[u8]) -> usize
    requires { IsOneLine held.now }
    ensures count { let all = held.now ++ piece.now in
        length held.now + result ≡ min (line_end all) (length all) }
    ensures within { result ≤ length piece.now }
{
    match ended_line(held) {
        Some(_) => 0,
        None => {
            let room = MOST_HELD - held.len();
            line_len(&piece[..room.min(piece.len())])
        }
    }
}

/// Puts bytes behind those that are held.
fn put_behind(buffer: &mut [u8], held: usize, part: &[u8])
    requires { held + length part.now ≤ length buffer.old }
    ensures { take (held + length part.now) buffer.new ≡ take held buffer.old ++ part.now }
{
    buffer[held..held + part.len()].copy_from_slice(part);
}

/// Takes from the piece up to the end of the line that is held, and says how much.
pub(crate) fn take_in(buffer: &mut [u8], held: usize, piece: &[u8]) -> usize
    requires { IsLineBuffer buffer.old held }
    ensures taken { TakesPiece (take held buffer.old) piece.now result
        (take (held + result) buffer.new) }
    ensures none { (result ≡ 0)
        ↔ ((piece.now ≡ []) ⊎ TakesNoMore (take held buffer.old)) }
    ensures all { IsLineText (take (held + result) buffer.new) → result ≡ length piece.now }
    ensures kept { IsLineBuffer buffer.new (held + result) }
{
    let count = count_taken(&buffer[..held], piece);
    put_behind(buffer, held, &piece[..count]);
    count
}

/// What the held bytes are: a whole line, one that is too long, or neither yet.
pub(crate) fn line_in(held: &[u8]) -> Result<Option<&[u8]>, LineTooLong>
    requires { IsOneLine held.now }
    ensures line { IfOk result
        (λ found. IfSome found (λ line. IsHeldLine line.now held.now)) }
    ensures whole { IsOkAnd result (λ found. IsSome found) ↔ HoldsLine held.now }
    ensures none { IsOkAnd result (λ found. IsNone found) ↔ IsLineText held.now }
    ensures too_long { IsErr result ↔ HoldsLongLine held.now }
{
    if let Some(line) = ended_line(held) {
        return Ok(Some(line));
    }
    if held.len() == MOST_HELD {
        return Err(LineTooLong);
    }
    Ok(None)
}
