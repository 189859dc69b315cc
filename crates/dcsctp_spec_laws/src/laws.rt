//! Laws of the definitions, each the contract of a function without a body.

ghost use Rattle.std.specs.Prelude.{◌^◌};
ghost use Rattle.dcsctp_spec_laws.specs.TurnLaws.{InitLeavesAssociation, ChunksAreControlled, ActsAreControlled, TimersAreControlled};
ghost use Rattle.dcsctp_spec_laws.specs.AnswerLaws.{OneIsAnswered};
ghost use Rattle.dcsctp_spec_laws.specs.LastTagLaws.{LastTagIsSpent, LastTagStays};
ghost use Rattle.dcsctp_spec_laws.specs.LeftLaws.{MessagesLeftStay};
ghost use Rattle.dcsctp_spec_laws.specs.PartLaws.{WindowCountsParts};
ghost use Rattle.dcsctp_spec_laws.specs.SoundnessLaws.{CallsKeepSoundness, SnapshotsAreValid};
ghost use Rattle.dcsctp_spec_laws.specs.RangeLaws.{SetsFollowRule};
ghost use Rattle.dcsctp_spec_laws.specs.SackLaws.{SacksCoverReceived, SacksFit, TrackersStayTracked};
ghost use Rattle.dcsctp_spec_laws.specs.CongestionLaws.{WindowIsBounded};
ghost use Rattle.dcsctp_spec_laws.specs.WindowLaws.{PacketsKeepWindow, FlushesKeepWindow};
ghost use Rattle.dcsctp_spec_lemmas.specs.spec.endpoint.TimeTurns.{TimePassesQuietly};

/// An INIT leaves the association as it is, in every phase (RFC 9260, section 5.2).
pub fn init_leaves_association()
    ensures { InitLeavesAssociation }
{}

/// Each turn of a chunk is a turn of the association (RFC 9260, section 5). So what holds of every run of
/// associations holds of every run of endpoints.
pub fn chunks_are_controlled()
    ensures { ChunksAreControlled }
{}

/// Each turn that the user or a timer brings is a turn of the association (RFC 9260, sections 5.1 and 9).
pub fn acts_are_controlled()
    ensures { ActsAreControlled }
{}

/// Each turn of a timer of an open association is a turn of the association: a flush (RFC 9260, section 8.3),
/// or the outstanding request again (RFC 6525, section 5.1.1).
pub fn timers_are_controlled()
    ensures { TimersAreControlled }
{}

/// Time that passes before a socket's next deadline only moves the clock, except for a socket that awaits a
/// COOKIE ACK.
pub fn time_passes_quietly()
    ensures { TimePassesQuietly }
{}

/// Each call of a socket leaves verification tags other than 0, and the zero checksum method of the options or
/// none (RFC 9260, section 3.1; RFC 9653, section 5.1): whatever bytes it is handed, whatever its user does, and
/// when it is restored from any valid snapshot.
pub fn calls_keep_soundness()
    ensures { CallsKeepSoundness }
{}

/// If a socket is ready to be handed over, its snapshot is valid for its options. This rests on what holds
/// at all times. No verification tag is 0, and packets go without a checksum only by the method of the
/// options. The send queue is well-formed. Once the peer is known, there is a transfer layer. Data in flight
/// has bytes or is abandoned, and there are fewer than 2^31 items of it. Each incoming stream occurs once.
pub fn snapshots_are_valid()
    ensures { SnapshotsAreValid }
{}

/// What an association leaves when it ends stays until it is taken or the next one begins: with
/// `Options::follow_rfc` all messages that were ready before that turn.
pub fn messages_left_stay()
    ensures { MessagesLeftStay }
{}

/// With `Options::follow_rfc` a packet of which a HEARTBEAT, an INIT or a RE-CONFIG was answered brings no other such
/// answer.
pub fn one_is_answered()
    ensures { OneIsAnswered }
{}

/// Each turn leaves our verification tag of the last association as it is, or ends an association with a peer and
/// records its tag. With `Options::follow_rfc` a COOKIE ECHO under that tag makes nothing where there is no
/// association (RFC 9260, section 5.3.1): a copy that comes late doesn't deliver its messages again.
pub fn last_tag_is_spent()
    ensures stays { LastTagStays }
    ensures spent { LastTagIsSpent }
{}

/// What was received is a set of TSNs, kept in its one canonical form. After a TSN it has that one and what it
/// had before; after a FORWARD-TSN all up to a TSN too. The rule determines the set, and the definitions compute
/// it (RFC 9260, section 6.2; RFC 3758, section 3.6).
pub fn sets_follow_rule()
    ensures { SetsFollowRule }
{}

/// The gap ack blocks of a SACK, read back, cover what was received beyond the cumulative TSN, and nothing else.
/// Where there are more ranges than a SACK lists, they cover the lowest (RFC 9260, section 3.3.4).
pub fn sacks_cover_received()
    ensures { SacksCoverReceived }
{}

/// With `Options::follow_rfc` a SACK is cut to the room of its packet, and leaves some of it for a FORWARD-TSN. It is
/// never longer, so it is left out only where not even its header fits (RFC 9260, section 6.2).
pub fn sacks_fit()
    ensures { SacksFit }
{}

/// What the law on SACKs asks of a tracker is so when it is made, and data and FORWARD-TSNs leave it so.
pub fn trackers_stay_tracked()
    ensures { TrackersStayTracked }
{}

/// What is in use of the receive window is the bytes of all that is held, and the overhead of the queue for each part
/// and for each whole message that waits. With `Options::follow_rfc` a new queue has 256 bytes (RFC 9260, section 6.2).
pub fn window_counts_parts()
    ensures { WindowCountsParts }
{}

/// An acknowledgement lets the congestion window grow by one MTU at most, only if the window was fully used, and
/// not in fast recovery. A loss leaves half of it, but at least the least threshold; a timeout leaves one MTU
/// (RFC 9260, sections 7.2.1 to 7.2.4).
pub fn window_is_bounded()
    ensures { WindowIsBounded }
{}

/// A packet is filled with data only while less than the window is in flight, or nothing is. So no more is in
/// flight after it than before, or than the window and what the packet has room for (RFC 9260, section 6.1).
pub fn packets_keep_window()
    ensures { PacketsKeepWindow }
{}

/// After a flush of any number of packets no more is in flight than before, or than the window and one packet
/// (RFC 9260, section 6.1).
pub fn flushes_keep_window()
    ensures { FlushesKeepWindow }
{}
