//! What a caller may rely on of the definitions. The functions do nothing: their contracts are the laws.

ghost use Rattle.dcsctp_channel_laws.specs.Names.{CallsGiveNewNames, OpensGiveNewNames, PollsGiveNewNames, OpensHaveRoom};
ghost use Rattle.dcsctp_channel_laws.specs.Lives.{CallsReportLives, PollsReportLives, BeginApart, StreamsAreApart, StatesAreTrue};

use dcsctp_channel_calls::channel_messages::channel_spec::reports_are_in_turn;

/// A name is never given twice: each that a call gives to a channel, or reports of a channel of the peer, is at least
/// the number of names before, and the number after it is greater. A call takes nothing from the user, and a poll one
/// thing at most. What the peer may take is limited: no channel of its own has longer texts than the limits allow, no
/// message more bytes, and none is accepted where too many streams are in use.
pub fn names_are_new()
    ensures calls { CallsGiveNewNames }
    ensures opens { OpensGiveNewNames }
    ensures polls { PollsGiveNewNames }
    ensures room { OpensHaveRoom }
{}

/// Each channel that has a name is there, in one place, or has had its end, and nothing is said of it after that.
///
/// - `calls`, `polls`: so it is after each call and each poll, if it was so before. What a call reports, or a poll
///   handles, tells how each channel fares: it comes, something is said of it, it ends.
/// - `begins`: so it is at first.
/// - `apart`: no two streams have one channel.
/// - `shown`: its state is `Closed` where it isn't there, and nowhere else.
pub fn each_channel_ends_once()
    ensures calls { CallsReportLives }
    ensures polls { PollsReportLives }
    ensures begins { BeginApart }
    ensures apart { StreamsAreApart }
    ensures shown { StatesAreTrue }
{
    reports_are_in_turn();
}
