// One line of a text, and the frame that is due on it.
ghost use Rattle.std.specs.Prelude.{◌≤◌, length};
ghost use Rattle.refusals.specs.Numbers.{numbered};
ghost use Rattle.frames.specs.Bytes.{Shape, first_byte};
ghost use Rattle.frames.specs.Promises.{OtherTold, LineTold, DueTold};

use crate::characters::{bytes, digit};
use crate::{Cursor, Kind};
use refusals::Refusal;

// The place of the first character that is no digit.
fn first_other(text: &[u8]) -> Option<usize>
    ensures { OtherTold text.now result }
{
    text.iter().position(|c| digit(*c).is_none())
}

// How many bytes the line at `at` has, at least 1: digits up to LF, two for each byte; none where no text is left.
pub fn line_at(text: &[u8], at: usize) -> Result<Option<usize>, Refusal>
    requires { at ≤ length text.now }
    ensures { LineTold text.now at (numbered result) }
{
    let rest = &text[at..];
    match first_other(rest) {
        Some(n) if rest[n] == b'\n' && n > 0 && n % 2 == 0 => Ok(Some(n / 2)),
        None if rest.is_empty() => Ok(None),
        _ => Err(Refusal::Malformed),
    }
}

// The bytes of the frame of this kind that is due at c: 1 for a malformed line, 2 for missing text and for any other line.
pub fn due<const N: usize>(text: &[u8], c: Cursor, kind: Kind) -> Result<([u8; N], Cursor), Refusal>
    requires { (c.at ≤ length text.now) × Shape (first_byte kind) N }
    ensures { DueTold text.now c.at (first_byte kind) N (numbered result) }
{
    let Some(n) = line_at(text, c.at)? else {
        return Err(Refusal::NotDue);
    };
    if n != N {
        return Err(Refusal::NotDue);
    }
    let frame: [u8; N] = bytes(text, c.at);
    if frame[0] != kind as u8 {
        return Err(Refusal::NotDue);
    }
    let at = c.at + (2 * N + 1);
    Ok((frame, Cursor { at }))
}
