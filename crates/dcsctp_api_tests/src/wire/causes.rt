//! The texts of error causes (RFC 9260, section 3.3.10).

use crate::wire::checks::same;
use dcsctp_wire::{ErrorCause, causes_text};
use std::alloc::Global;
use std::process::Abort;

const MISSING: ErrorCause<'static> = ErrorCause::MissingMandatoryParameter { types: &[0, 7] };

const UNRECOGNIZED: ErrorCause<'static> = ErrorCause::UnrecognizedChunkType {
    chunk: &[15, 0, 0, 4],
};

const NO_DATA: ErrorCause<'static> = ErrorCause::NoUserData { tsn: 1 };

const ENDING: ErrorCause<'static> = ErrorCause::CookieReceivedWhileShuttingDown;

const CLOSED: ErrorCause<'static> = ErrorCause::UserInitiatedAbort {
    text: b"Close called",
};

const VIOLATION: ErrorCause<'static> = ErrorCause::ProtocolViolation {
    text: b"a\tb\x7f\xffc ~",
};

const OTHER: ErrorCause<'static> = ErrorCause::Unknown {
    code: 4,
    value: b"hi",
};

/// Names, causes and their texts.
type Row = (&'static str, &'static [ErrorCause<'static>], &'static str);

#[rattlefmt::skip]
static TEXTS: [Row; 9] = [
    ("none", &[], ""),
    ("types", &[MISSING], "cause 2"),
    ("text", &[CLOSED], "cause 12: Close called"),
    ("a chunk", &[UNRECOGNIZED], "cause 6"),
    ("a TSN", &[NO_DATA], "cause 9"),
    ("no value", &[ENDING], "cause 10"),
    ("other value", &[OTHER], "cause 4"),
    ("dots", &[VIOLATION], "cause 13: a.b..c ~"),
    ("three", &[MISSING, CLOSED, NO_DATA], "cause 2,cause 12: Close called,cause 9"),
];

/// Asserts that the causes have this text.
fn have_text(
    rt: &impl Abort,
    alloc: Global,
    name: &str,
    causes: &[ErrorCause<'_>],
    expected: &str,
) {
    let text = causes_text(alloc, causes).expect(rt, name);
    same(rt, name, text.as_str(), expected);
}

#[test]
fn texts_of_causes_are_joined_by_commas(rt: HostRuntime) {
    for (name, causes, expected) in &TEXTS {
        have_text(&rt, rt.alloc(), name, causes, expected);
    }
}
