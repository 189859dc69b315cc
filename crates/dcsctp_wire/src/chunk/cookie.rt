//! COOKIE ECHO (RFC 9260, section 3.3.11). A COOKIE ACK (RFC 9260, section 3.3.12) says nothing but its
//! type.

/// What a COOKIE ECHO says: its value is the cookie.
#[derive(Clone, Copy, Debug)]
pub struct CookieEchoChunk<'a> {
    /// The bytes of the state cookie, as they were in the INIT ACK.
    pub cookie: &'a [u8],
}
