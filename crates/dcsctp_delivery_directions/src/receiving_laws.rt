//! What an association has received of the messages that its peer's log has: what is held, waits, is ready and was
//! read was queued by the peer's user, and no message comes twice.

ghost use Rattle.dcsctp_delivery_directions.specs.receiving.Arriving.{ChunksCarryPieces, InterleavedCarryPieces, ForwardsSkip, InterleavedForwardsSkip};
ghost use Rattle.dcsctp_delivery_directions.specs.receiving.Ready.{ReadyWasQueued, SkippingKeeps, ResettingKeeps};
ghost use Rattle.dcsctp_delivery_directions.specs.receiving.Received.{ReceivingKeeps, ForwardingKeeps, LeavingKeeps, GrowingKeeps, AskingKeeps, BeginningReceives, AwaitingReceives, TakingReads};
ghost use Rattle.dcsctp_delivery_directions.specs.receiving.Tracked.{NewTsnsAreNew, PassingKeeps, MoreAreAssigned, TsnsAreRead};
ghost use Rattle.dcsctp_delivery_directions.specs.receiving.Clear.{ClearThroughData, ClearThroughForward, ClearThroughResets, ClearThroughRest, PerformingClears, RaisingKeeps};

/// What becomes ready by a chunk of data whose TSN is new was queued by the peer's user, each message once.
pub fn ready_was_queued()
    ensures { ReadyWasQueued }
{}

/// This holds for what becomes ready by a FORWARD-TSN, whatever it says, or by an I-FORWARD-TSN.
pub fn skipping_keeps()
    ensures { SkippingKeeps }
{}

/// A reset of streams leaves nothing else ready.
pub fn resetting_keeps()
    ensures { ResettingKeeps }
{}

/// The data tracker distinguishes new TSNs from received ones, and the reassembly queue finds the number of each, while
/// fewer than 2^31 are assigned.
pub fn tsns_are_told_apart()
    ensures fresh { NewTsnsAreNew }
    ensures passing { PassingKeeps }
    ensures more { MoreAreAssigned }
    ensures read { TsnsAreRead }
{}

/// A chunk of data that the peer sent says what its piece says. A FORWARD-TSN or I-FORWARD-TSN names messages of the
/// peer's log.
pub fn chunks_carry_pieces()
    ensures data { ChunksCarryPieces }
    ensures interleaved { InterleavedCarryPieces }
    ensures forward { ForwardsSkip }
    ensures forward_interleaved { InterleavedForwardsSkip }
{}

/// Whatever is received of what the peer sent, in any order and as often as it likes, leaves what was queued, each
/// message once. Each message that the user reads is one that wasn't read before.
pub fn receiving_keeps()
    ensures data { ReceivingKeeps }
    ensures forward { ForwardingKeeps }
    ensures reset { LeavingKeeps }
    ensures more { GrowingKeeps }
    ensures asked { AskingKeeps }
    ensures begun { BeginningReceives }
    ensures awaited { AwaitingReceives }
    ensures read { TakingReads }
{}

/// A stream that was reset stays clear, whatever comes of what the peer sent before the reset or on other streams.
pub fn streams_stay_clear()
    ensures data { ClearThroughData }
    ensures forward { ClearThroughForward }
    ensures reset { ClearThroughResets }
    ensures rest { ClearThroughRest }
{}

/// A stream is clear once its reset was performed. The peer may number the messages of such streams from 0 again, and
/// of those on which it sent nothing.
pub fn resets_clear()
    ensures cleared { PerformingClears }
    ensures raised { RaisingKeeps }
{}
