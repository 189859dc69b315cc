//! What a line says, by its fields, which are separated by one space.

ghost use Rattle.std.specs.Prelude.{◌≡◌, ◌↔◌, ◌*◌, Some, codes};

use crate::bytes::bytes_of;
use crate::numbers::number;
use dcsctp_types::{Side, SocketTime, StreamId};
use std::alloc::{AllocError, Global};
use std::time::Duration;

/// A command that runs.
#[derive(Drop)]
pub enum Command {
    /// The user of this socket begins an association.
    Connect(Side),

    /// The user of this socket ends its association at once.
    Close(Side),

    /// The user of this socket shuts its association down.
    Shutdown(Side),

    /// This socket is handed the other's packet of this number.
    Give(Side, usize),

    /// This socket is handed these bytes, from outside.
    Input(Side, Vec<u8>),

    /// The user of this socket sends a message of this stream and these bytes.
    Send(Side, StreamId, Vec<u8>),

    /// The user of this socket resets these streams.
    Reset(Side, Vec<StreamId>),

    /// The user of this socket takes a message, which is printed.
    Receive(Side),

    /// The association of this socket is printed.
    Show(Side),

    /// The state of this socket is printed.
    State(Side),

    /// This socket's clock is advanced to this moment.
    Time(Side, SocketTime),

    /// This socket's next deadline is printed.
    Timeout(Side),

    /// This socket is handed over, and restored from its own snapshot.
    Handover(Side),

    /// So many quiet rounds are made.
    Settle(usize),
}

/// A line.
#[derive(Drop)]
pub enum Line<'a> {
    /// The side's option of this name gets this value.
    Setting(Side, &'a str, &'a str),

    /// The side's generator gives these words, which are separated by spaces.
    Words(Side, &'a str),

    /// All else.
    Command(Command),
}

/// The line that a text is. Its second field names a side, or says how many rounds.
///
/// `None` if the keyword or the side is unknown, or a field is missing or one too many. So it is if the
/// number of a packet or of milliseconds isn't one up to 2^64 - 1, that of rounds one up to 1,000, or if bytes
/// or streams aren't written as such. The name and the value of an option and a list of words are not looked at here.
pub fn parse_line(alloc: Global, text: &str) -> Result<Option<Line<'_>>, AllocError> {
    let Some((keyword, rest)) = text.split_once(' ') else {
        return Ok(None);
    };
    match rest.split_once(' ') {
        None => Ok(short_line(keyword, rest)),
        Some((name, rest)) => match side(name) {
            Some(side) => line_with_rest(alloc, keyword, side, rest),
            None => Ok(None),
        },
    }
}

// The side of this name.
fn side(name: &str) -> Option<Side>
    ensures a { (result ≡ Some Side.A) ↔ (name.now ≡ codes "A") }
    ensures b { (result ≡ Some Side.B) ↔ (name.now ≡ codes "B") }
{
    match name {
        "A" => Some(Side::A),
        "B" => Some(Side::B),
        _ => None,
    }
}

// A line of two fields.
fn short_line<'a>(keyword: &str, field: &str) -> Option<Line<'a>> {
    match keyword {
        "settle" => {
            let rounds = number(field, 1000)?;
            Some(Line::Command(Command::Settle(rounds as usize)))
        }
        _ => plain_line(keyword, field),
    }
}

// One that names a side.
fn plain_line<'a>(keyword: &str, name: &str) -> Option<Line<'a>> {
    let side = side(name)?;
    let command = match keyword {
        "connect" => Command::Connect(side),
        "close" => Command::Close(side),
        "shutdown" => Command::Shutdown(side),
        "show" => Command::Show(side),
        "recv" => Command::Receive(side),
        "state" => Command::State(side),
        "timeout" => Command::Timeout(side),
        "handover" => Command::Handover(side),
        _ => return None,
    };
    Some(Line::Command(command))
}

// A line whose side is followed by more.
fn line_with_rest<'a>(
    alloc: Global,
    keyword: &str,
    side: Side,
    rest: &'a str,
) -> Result<Option<Line<'a>>, AllocError> {
    match keyword {
        "input" => input_line(alloc, side, rest),
        "send" => send_line(alloc, side, rest),
        "reset" => reset_line(alloc, side, rest),
        _ => Ok(line_with_text(keyword, side, rest)),
    }
}

// A line that hands in these bytes.
fn input_line<'a>(alloc: Global, side: Side, text: &str) -> Result<Option<Line<'a>>, AllocError> {
    match bytes_of(alloc, text)? {
        Some(bytes) => Ok(Some(Line::Command(Command::Input(side, bytes)))),
        None => Ok(None),
    }
}

// A line that sends a message: its stream, and then its bytes.
fn send_line<'a>(alloc: Global, side: Side, rest: &str) -> Result<Option<Line<'a>>, AllocError> {
    let Some((stream, text)) = rest.split_once(' ') else {
        return Ok(None);
    };
    let Some(stream) = number(stream, 0xffff) else {
        return Ok(None);
    };
    match bytes_of(alloc, text)? {
        Some(payload) => {
            let command = Command::Send(side, StreamId(stream as u16), payload);
            Ok(Some(Line::Command(command)))
        }
        None => Ok(None),
    }
}

// A line that resets streams, whose numbers are joined by commas.
fn reset_line<'a>(alloc: Global, side: Side, text: &str) -> Result<Option<Line<'a>>, AllocError> {
    let mut stream_ids = Vec::new(alloc);
    for field in text.split(',') {
        let Some(stream) = number(field, 0xffff) else {
            return Ok(None);
        };
        stream_ids.push(StreamId(stream as u16))?;
    }
    Ok(Some(Line::Command(Command::Reset(side, stream_ids))))
}

// Such a line, except for one with bytes or streams.
fn line_with_text<'a>(keyword: &str, side: Side, rest: &'a str) -> Option<Line<'a>> {
    match keyword {
        "opt" => {
            let (name, value) = rest.split_once(' ')?;
            Some(Line::Setting(side, name, value))
        }
        "words" => Some(Line::Words(side, rest)),
        "give" => {
            let number = number(rest, u64::MAX)?;
            Some(Line::Command(Command::Give(side, number as usize)))
        }
        "time" => {
            let moment = moment_at(number(rest, u64::MAX)?);
            Some(Line::Command(Command::Time(side, moment)))
        }
        _ => None,
    }
}

// The moment that many milliseconds after the making of the sockets.
fn moment_at(millis: u64) -> SocketTime
    ensures { result ≡ millis * 1_000_000 }
{
    SocketTime::zero() + Duration::from_millis(millis)
}
