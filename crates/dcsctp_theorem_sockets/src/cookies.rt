//! The theorems on cookies.

ghost use Rattle.dcsctp_theorem_sockets.specs.Ages.{CookiesAge};
ghost use Rattle.dcsctp_theorem_sockets.specs.Cookies.{CookiesWereGiven};
ghost use Rattle.dcsctp_theorem_sockets.specs.CookieLaws.{CookieLaws};

use dcsctp_spec_laws::{acts_are_controlled, chunks_are_controlled};
use dcsctp_spec_runs::{admitted_packets_may_be_worked, offer_reads_back, packets_are_controlled};
use dcsctp_theorem_association::effects_mean;
use dcsctp_wire_laws::built_packet_reads_as_itself;

/// Each COOKIE ECHO that a socket handles carries a cookie that this socket gave away before, in an INIT ACK of
/// an earlier turn (RFC 9260, section 5.1). So it is over every schedule that loses, repeats, delays and
/// reorders packets, as long as no act comes from outside.
pub fn cookies_were_given()
    ensures { CookiesWereGiven }
{
    effects_mean();
    acts_are_controlled();
    chunks_are_controlled();
    packets_are_controlled();
    admitted_packets_may_be_worked();
    offer_reads_back();
    built_packet_reads_as_itself();
}

/// Each turn of a socket that makes an association from a cookie comes at most `cookie_lifetime` after an
/// earlier turn of this socket that gave the cookie away in an INIT ACK (RFC 9260, section 5.1.5). It is so by
/// the socket's clock, in nanoseconds that are cut to 64 bits, over every schedule without an act from outside.
pub fn cookies_age()
    ensures { CookiesAge }
{
    cookies_were_given();
    chunks_are_controlled();
    acts_are_controlled();
}

/// What is known of cookies over every run.
pub fn cookie_laws()
    ensures { CookieLaws }
{
    cookies_were_given();
    cookies_age();
}
