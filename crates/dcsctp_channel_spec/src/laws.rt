//! What a caller may rely on of the table. The functions do nothing: their contracts are the laws.

ghost use Rattle.dcsctp_channel_spec.specs.Contents.{ContentsReadBack, OnlyContentsAreRead};
ghost use Rattle.dcsctp_channel_spec.specs.Streams.{StreamsAreShared};
ghost use Rattle.dcsctp_channel_spec.specs.Laws.{EachSpeaksInTurn, MessagesAreReported, IncomingWereOpened, OpeningIsReportedOnce, EndsSayWhy, FreedByBothResets, RequestsAreApart, UsesAdvance, ClosesTakeEffect, LossFreesAll};

/// What each input reports names the channel of its stream: an end is the last of a channel, and a channel leaves
/// its stream only with its end.
pub fn reports_are_in_turn()
    ensures { EachSpeaksInTurn }
{}

/// What is reported of a channel is what came.
///
/// - `messages`: a message is reported once, as it came, where its channel is open; no other is.
/// - `incoming`: a channel of the peer is reported as its OPEN says, and only if that was accepted.
/// - `opened`: that the peer knows a channel is reported once.
/// - `ends`: an end says why.
pub fn reports_are_true()
    ensures messages { MessagesAreReported }
    ensures incoming { IncomingWereOpened }
    ensures opened { OpeningIsReportedOnce }
    ensures ends { EndsSayWhy }
{}

/// A stream is free again exactly when both directions were reset, or with the association (RFC 8831, section
/// 6.7).
pub fn streams_are_freed_by_both_resets()
    ensures both { FreedByBothResets }
    ensures lost { LossFreesAll }
{}

/// A reset is asked for only on a closing stream, once all that was sent before has left, and never while an
/// earlier request for the stream isn't answered. An ACK is sent once. An OPEN is sent where a channel gets its
/// stream.
pub fn requests_are_apart()
    ensures { RequestsAreApart }
{}

/// While a channel lasts, nothing of it is undone: it isn't open again, and no reset is forgotten. What closes a
/// channel at either end takes effect.
pub fn uses_advance()
    ensures advance { UsesAdvance }
    ensures closes { ClosesTakeEffect }
{}

/// What a user sends is what the other reads, also the empty message, and nothing else is read as that (RFC 8831,
/// section 6.6).
pub fn contents_read_back()
    ensures read_back { ContentsReadBack }
    ensures others { OnlyContentsAreRead }
{}

/// Each stream is given by one end alone, if their roles differ (RFC 8832, section 6).
pub fn streams_are_shared()
    ensures { StreamsAreShared }
{}
