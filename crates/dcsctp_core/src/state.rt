//! The state of a socket (RFC 9260, section 4).

use crate::expiry::{Expiry, expire};
use crate::transmission_control_block::TransmissionControlBlock;
use dcsctp_transfer::Transfer;
use dcsctp_transfer::api::{Association, Message, Options, Pair, Phase, SocketState, SocketTime};
use dcsctp_transfer::send_timer::Timer;
use std::collections::VecDeque;

/// An INIT ACK is awaited.
#[derive(Debug, Drop)]
pub struct CookieWaitState {
    /// When the INIT is sent again. It runs.
    pub t1_init: Timer,

    /// Our own pair.
    pub my: Pair,
}

/// A COOKIE ACK is awaited.
#[derive(Drop)]
pub struct CookieEchoState {
    /// When the COOKIE ECHO is sent again. It runs.
    pub t1_cookie: Timer,

    /// The cookie that is echoed.
    pub cookie: Vec<u8>,

    /// The association.
    pub tcb: TransmissionControlBlock,
}

/// A SHUTDOWN or a SHUTDOWN ACK waits for its answer.
#[derive(Debug, Drop)]
pub struct ShutdownState {
    /// When it is sent again. It runs.
    pub t2_shutdown: Timer,
}

/// How far an open association is shut down (RFC 9260, section 9.2).
#[derive(Debug, Drop)]
pub enum OpenPhase {
    /// It isn't.
    Established,

    /// The user shuts it down: what was sent is still to be acknowledged.
    ShutdownPending,

    /// SHUTDOWN was sent: SHUTDOWN ACK is awaited.
    ShutdownSent(ShutdownState),

    /// The peer shuts it down: what was sent is still to be acknowledged.
    ShutdownReceived,

    /// SHUTDOWN ACK was sent: SHUTDOWN COMPLETE is awaited.
    ShutdownAckSent(ShutdownState),
}

/// An association whose handshake is over at this end.
#[derive(Drop)]
pub struct OpenState {
    /// How far it is shut down.
    pub phase: OpenPhase,

    /// The association.
    pub tcb: TransmissionControlBlock,
}

/// The state, with the data of its phase.
///
/// ```text
///                                       Closed
///                                         | connect
///                                     CookieWait
///                                         | INIT ACK with a cookie
///                                    CookieEchoed ----------------------+
///                                         | COOKIE ACK                  |
///            shutdown                Established       SHUTDOWN         | shutdown
///        +--------------------------------+---------------------+       |
///        v                                                      v       |
///  ShutdownPending <---- (from CookieEchoed) ---- - - - - - - - | - - --+
///        |    |  SHUTDOWN                                       |
///        |    +--------------------------------------> ShutdownReceived
///        | all acknowledged                                     | all acknowledged
///        v                 SHUTDOWN                             v
///  ShutdownSent -------------------------------------> ShutdownAckSent
///        | SHUTDOWN ACK                                         | SHUTDOWN ACK or COMPLETE
///        v                                                      v
///     Closed                                                  Closed
///
/// COOKIE ECHO leads from each phase to Established where its cookie makes an association; but for a restart in
/// ShutdownAckSent, which is refused.
/// close, an ABORT, a violation and too many errors lead from each phase to Closed; so do an INIT ACK without a
/// cookie and shutdown in CookieWait, T1 without restarts in CookieWait and CookieEchoed, and T2 without restarts
/// in ShutdownSent and ShutdownAckSent.
/// ```
#[derive(Drop)]
pub enum State {
    /// There is no association.
    Closed,

    /// An INIT ACK is awaited.
    CookieWait(CookieWaitState),

    /// A COOKIE ACK is awaited.
    CookieEchoed(CookieEchoState),

    /// The handshake is over at this end.
    Open(OpenState),
}

impl OpenPhase {
    ghost use Rattle.std.specs.Prelude.{◌≡◌};
    ghost use Rattle.dcsctp_transfer.specs.spec.endpoint.Endpoint.{phase_of};
    ghost use Rattle.dcsctp_transfer.specs.api.Calls.{open_state};
    ghost use Rattle.dcsctp_core.specs.View.{phase_of_open};

    /// The phase as a user sees it.
    fn phase(&self) -> Phase
        ensures { result ≡ phase_of (phase_of_open self.now) }
    {
        match self {
            OpenPhase::Established => Phase::Established,
            OpenPhase::ShutdownPending => Phase::ShutdownPending,
            OpenPhase::ShutdownSent(_) => Phase::ShutdownSent,
            OpenPhase::ShutdownReceived => Phase::ShutdownReceived,
            OpenPhase::ShutdownAckSent(_) => Phase::ShutdownAckSent,
        }
    }

    /// The state as a user sees it.
    fn socket_state(&self) -> SocketState
        ensures { result ≡ open_state (phase_of_open self.now) }
    {
        match self {
            OpenPhase::Established => SocketState::Connected,
            OpenPhase::ShutdownPending | OpenPhase::ShutdownSent(_) => SocketState::ShuttingDown,
            OpenPhase::ShutdownReceived | OpenPhase::ShutdownAckSent(_) => {
                SocketState::ShuttingDown
            }
        }
    }
}

impl State {
    ghost use Rattle.dcsctp_transfer.specs.spec.endpoint.MessageOutcomes.{is_shutting_down};
    ghost use Rattle.std.specs.Prelude.{◌≡◌, map};
    ghost use Rattle.dcsctp_transfer.specs.types.queues.Messages.{message_content};
    ghost use Rattle.dcsctp_transfer.specs.spec.endpoint.EndOutcomes.{ended_tag};
    ghost use Rattle.dcsctp_transfer.specs.spec.endpoint.Endpoint.{own_tag, association_of, is_cookie_echoed};
    ghost use Rattle.dcsctp_transfer.specs.api.Calls.{socket_state_of, is_closed};
    ghost use Rattle.std.specs.Option.{option_map};
    ghost use Rattle.std.specs.Borrow.{sem};
    ghost use Rattle.dcsctp_core.specs.View.{core_of, tcb_of, t1_of, transfer_of, established_from};
    ghost use Rattle.dcsctp_core.specs.Lending.{LendsTcb};
    ghost use Rattle.dcsctp_core.specs.Timing.{expiry_of, state_after_t1};

    /// The association, once the peer is known; `None` before. Allocates nothing.
    pub fn tcb(&self) -> Option<&TransmissionControlBlock>
        ensures { option_map (λ tcb. tcb.now) result ≡ tcb_of self.now }
    {
        match self {
            State::Closed | State::CookieWait(_) => None,
            State::CookieEchoed(echoed) => Some(&echoed.tcb),
            State::Open(opened) => Some(&opened.tcb),
        }
    }

    /// The same, to be changed in place. Allocates nothing.
    pub fn tcb_mut(&mut self) -> Option<&mut TransmissionControlBlock>
        ensures* writes_back { sem 𝓛 (LendsTcb self.entry result) }
        ensures tcb { option_map (λ tcb. tcb.now) result ≡ tcb_of self.old }
    {
        match self {
            State::Closed | State::CookieWait(_) => None,
            State::CookieEchoed(echoed) => Some(&mut echoed.tcb),
            State::Open(opened) => Some(&mut opened.tcb),
        }
    }

    /// Frees the room that the queues of an open association don't use.
    pub(crate) fn free_room(&mut self)
        ensures { self.new ≡ self.old }
    {
        if let State::Open(opened) = self {
            opened.tcb.transfer.free_room();
        }
    }

    /// Our verification tag in the association that ends now, if it has a peer; else that of the last one. Allocates
    /// nothing.
    pub(crate) fn ended_tag(&self, last: Option<u32>) -> Option<u32>
        ensures { result ≡ ended_tag (core_of self.now) last }
    {
        match self {
            State::Closed | State::CookieWait(_) => last,
            State::CookieEchoed(echoed) => Some(echoed.tcb.my.tag),
            State::Open(opened) => Some(opened.tcb.my.tag),
        }
    }

    /// The messages that are ready to be taken, in order, once the peer is known. All else is dropped.
    /// Allocates nothing.
    pub(crate) fn into_ready_messages(self, options: &Options) -> Option<VecDeque<Message>>
        ensures { option_map (λ messages. map message_content messages.items) result
            ≡ option_map (λ tcb. tcb.transfer.reassembly.incoming.ready) (tcb_of self) }
    {
        match self {
            State::Closed | State::CookieWait(_) => None,
            State::CookieEchoed(mut echoed) => {
                Some(echoed.tcb.transfer.take_ready_messages(options))
            }
            State::Open(mut opened) => Some(opened.tcb.transfer.take_ready_messages(options)),
        }
    }

    /// What is in flight and what was received, once the peer is known. All else is dropped. Allocates nothing.
    pub fn into_transfer(self) -> Option<Transfer>
        ensures { result ≡ transfer_of self }
    {
        match self {
            State::Closed | State::CookieWait(_) => None,
            State::CookieEchoed(echoed) => {
                let tcb = echoed.tcb;
                Some(tcb.transfer)
            }
            State::Open(opened) => {
                let tcb = opened.tcb;
                Some(tcb.transfer)
            }
        }
    }

    /// Establishes the association whose COOKIE ACK is awaited, which stops T1. Any other state is unchanged.
    pub fn establish(&mut self)
        ensures { self.new ≡ established_from self.old }
    {
        // Each arm writes by itself, so that a state isn't moved once more.
        match std::mem::replace(self, State::Closed) {
            State::CookieEchoed(echoed) => {
                *self = State::Open(OpenState {
                    phase: OpenPhase::Established,
                    tcb: echoed.tcb,
                });
            }
            State::Closed => {}
            State::CookieWait(wait) => *self = State::CookieWait(wait),
            State::Open(opened) => *self = State::Open(opened),
        }
    }

    /// Is there no association? Allocates nothing.
    pub fn is_closed(&self) -> bool
        ensures { result ≡ is_closed (core_of self.now) }
    {
        match self {
            State::Closed => true,
            State::CookieWait(_) | State::CookieEchoed(_) | State::Open(_) => false,
        }
    }

    /// Is a COOKIE ACK awaited? Allocates nothing.
    pub fn awaits_cookie_ack(&self) -> bool
        ensures { result ≡ is_cookie_echoed (core_of self.now) }
    {
        match self {
            State::CookieEchoed(_) => true,
            State::Closed | State::CookieWait(_) | State::Open(_) => false,
        }
    }

    /// Our own verification tag, 0 in `Closed`. Allocates nothing.
    pub fn verification_tag(&self) -> u32
        ensures { result ≡ own_tag (core_of self.now) }
    {
        match self {
            State::Closed => 0,
            State::CookieWait(wait) => wait.my.tag,
            State::CookieEchoed(echoed) => echoed.tcb.my.tag,
            State::Open(opened) => opened.tcb.my.tag,
        }
    }

    /// The association, none in `Closed`. Allocates nothing.
    pub fn association(&self) -> Option<Association>
        ensures { result ≡ association_of (core_of self.now) }
    {
        match self {
            State::Closed => None,
            State::CookieWait(wait) => Some(Association {
                phase: Phase::CookieWait,
                my: wait.my,
                held: None,
            }),
            State::CookieEchoed(echoed) => Some(echoed.tcb.association(Phase::CookieEchoed)),
            State::Open(opened) => Some(opened.tcb.association(opened.phase.phase())),
        }
    }

    /// Advances T1 to `now`, in `CookieWait` and `CookieEchoed` (RFC 9260, section 5.1). In another state
    /// nothing is due. Allocates nothing.
    pub fn expire_t1(&mut self, now: SocketTime) -> Expiry
        ensures answer { result ≡ expiry_of now (t1_of self.old) }
        ensures left { self.new ≡ state_after_t1 now self.old }
    {
        match self {
            State::Closed => Expiry::NotDue,
            State::CookieWait(wait) => expire(&mut wait.t1_init, now),
            State::CookieEchoed(echoed) => expire(&mut echoed.t1_cookie, now),
            State::Open(_) => Expiry::NotDue,
        }
    }

    /// Is the association being shut down (RFC 9260, section 9.2)? Then no message is accepted.
    pub fn is_shutting_down(&self) -> bool
        ensures { result ≡ is_shutting_down (core_of self.now) }
    {
        match self {
            State::Closed => false,
            State::CookieWait(_) | State::CookieEchoed(_) => false,
            State::Open(opened) => match opened.phase {
                OpenPhase::Established => false,
                OpenPhase::ShutdownPending | OpenPhase::ShutdownSent(_) => true,
                OpenPhase::ShutdownReceived | OpenPhase::ShutdownAckSent(_) => true,
            },
        }
    }

    /// The state as a user sees it.
    pub fn socket_state(&self) -> SocketState
        ensures { result ≡ socket_state_of (core_of self.now) }
    {
        match self {
            State::Closed => SocketState::Closed,
            State::CookieWait(_) => SocketState::Connecting,
            State::CookieEchoed(_) => SocketState::Connecting,
            State::Open(opened) => opened.phase.socket_state(),
        }
    }
}
