//! Which case a COOKIE ECHO is, and what its cookie shows (RFC 9260, sections 5.1.5 and 5.2.4).

ghost use Rattle.std.specs.Prelude.{◌≡◌};
ghost use Rattle.dcsctp_core.specs.types.Settings.{IsValid};
ghost use Rattle.dcsctp_core.specs.spec.association.CookieEchoChanges.{resolve};
ghost use Rattle.dcsctp_core.specs.spec.endpoint.CookieEchoOutcomes.{resolved_now};
ghost use Rattle.dcsctp_core.specs.api.Cookie.{cookie_of};
ghost use Rattle.dcsctp_core.specs.View.{core_of, tie_of, endpoint_of};
ghost use Rattle.dcsctp_core_handshake.specs.Resolution.{resolution_of, peer_by_cookie, outlasts_while_echoed};

use dcsctp_core::api::{Options, Pair, StateCookie};
use dcsctp_core::{Context, Peer, State};
use rand_core::Rng;

/// What a COOKIE ECHO is, by the table of RFC 9260, section 5.2.4, and by the age of its cookie.
#[derive(Clone, Copy, Debug, PartialEq, Eq)]
pub enum CookieResolution {
    /// The peer isn't known, and the association is made.
    EstablishNew,

    /// The peer restarted.
    RestartDetected,

    /// Both sides began at the same time.
    SimultaneousInit,

    /// The cookie is of an attempt that is over.
    Discard,

    /// The association is the existing one.
    MaintainExisting,

    /// The tags are those of no association.
    InvalidTag,

    /// It would make an association, and its cookie is stale.
    Stale,
}

impl CookieResolution {
    ghost use Rattle.dcsctp_core.specs.spec.association.CookieEchoChanges.{aged_resolution};

    // The case of a cookie that is stale, or isn't. A stale one makes no association; where none would be made its
    // age is no matter.
    fn aged(self, is_stale: bool) -> CookieResolution
        ensures { resolution_of result ≡ aged_resolution is_stale (resolution_of self) }
    {
        if !is_stale {
            return self;
        }
        match self {
            CookieResolution::EstablishNew => CookieResolution::Stale,
            CookieResolution::RestartDetected => CookieResolution::Stale,
            CookieResolution::SimultaneousInit => CookieResolution::Stale,
            CookieResolution::Discard => CookieResolution::Discard,
            CookieResolution::MaintainExisting => CookieResolution::MaintainExisting,
            CookieResolution::InvalidTag => CookieResolution::InvalidTag,
            CookieResolution::Stale => CookieResolution::Stale,
        }
    }
}

/// Which case a COOKIE ECHO is now, in a packet with this header tag: that of the table, unless it would make an
/// association and its cookie is older than `cookie_lifetime` or, with `Options::follow_rfc`, none that we made (RFC 9260,
/// section 5.1.5) or of the last association (section 5.3.1).
pub fn resolve_now<R: Rng>(
    context: &Context<R>,
    header_tag: u32,
    cookie: &StateCookie,
) -> CookieResolution
    ensures { resolution_of result
        ≡ resolved_now (endpoint_of context.now) (core_of context.now.state)
        header_tag (cookie_of cookie.now) }
{
    let is_stale = cookie.is_stale(context.options.cookie_lifetime, context.moment);
    let is_refused = context.is_foreign(cookie.tie_tag) || is_stale;
    let is_spent = context.is_tag_over(header_tag) || is_refused;
    resolve(&context.state, context.secret(), header_tag, cookie).aged(is_spent)
}

/// Which case of the table a COOKIE ECHO is, in a packet with this header tag. Cookies that were made without an
/// association bear `secret` as their tie tag. It is never `Stale`.
pub fn resolve(
    state: &State,
    secret: u64,
    header_tag: u32,
    cookie: &StateCookie,
) -> CookieResolution
    ensures { resolution_of result
        ≡ resolve (core_of state.now) (tie_of state.now) secret header_tag
        (cookie_of cookie.now) }
{
    let Some(tcb) = state.tcb() else {
        return if header_tag == cookie.my_tag {
            CookieResolution::EstablishNew
        } else {
            CookieResolution::InvalidTag
        };
    };
    let own_tag = header_tag == tcb.my.tag;
    let peer_tag = cookie.peer_tag == tcb.peer.tag;
    match (own_tag, peer_tag) {
        (true, true) => CookieResolution::MaintainExisting,
        (true, false) => CookieResolution::SimultaneousInit,
        (false, true) if cookie.tie_tag == secret => CookieResolution::Discard,
        (false, true) => CookieResolution::InvalidTag,
        (false, false) if cookie.tie_tag == tcb.tie_tag => CookieResolution::RestartDetected,
        (false, false) => CookieResolution::InvalidTag,
    }
}

/// Does what was sent while a COOKIE ACK is awaited go on in the association that a cookie makes? With
/// `Options::follow_rfc` it does if nothing was acknowledged, no request to reset streams was begun, and our own pair is
/// the same (RFC 9260, section 5.2.4, action B). Allocates nothing.
pub fn outlasts<R: Rng>(context: &Context<R>, cookie: &StateCookie) -> bool
    ensures { result ≡ outlasts_while_echoed (endpoint_of context.now) (core_of context.now.state)
        (cookie_of cookie.now) }
{
    let State::CookieEchoed(echoed) = &context.state else {
        return false;
    };
    let tcb = &echoed.tcb;
    if !context.options.follow_rfc || tcb.my.tag != cookie.my_tag {
        return false;
    }
    let peer = peer_by_cookie(&context.options, cookie);
    tcb.next_outgoing_reset_req_seq_nbr == tcb.my.first_tsn
        && tcb.capabilities.reconfig == peer.capabilities.reconfig
        && tcb
            .transfer
            .outlasts_peer(cookie.my_initial_tsn, &peer.capabilities)
}

/// The pair that is our own by a cookie.
pub fn own_by_cookie(cookie: &StateCookie) -> Pair
    ensures { result ≡ (cookie_of cookie.now).maker }
{
    Pair {
        tag: cookie.my_tag,
        first_tsn: cookie.my_initial_tsn,
    }
}

/// The peer that a cookie shows. Its window is no larger than our send buffer.
pub fn peer_by_cookie(options: &Options, cookie: &StateCookie) -> Peer
    requires { IsValid options.now }
    ensures { result ≡ peer_by_cookie options.now (cookie_of cookie.now) }
{
    let window = options.max_send_buffer_size as u32;
    Peer {
        pair: Pair {
            tag: cookie.peer_tag,
            first_tsn: cookie.peer_initial_tsn,
        },
        a_rwnd: cookie.a_rwnd.min(window),
        capabilities: cookie.peer_capabilities.negotiate(options),
    }
}
