//! The events that end an association.

ghost use Rattle.std.specs.Prelude.{◌≡◌, string_bytes};
ghost use Rattle.dcsctp_transfer.specs.types.Settings.{Ports};
ghost use Rattle.dcsctp_transfer.specs.api.Calls.{user_event};
ghost use Rattle.dcsctp_transfer.specs.api.Events.{event_content};
ghost use Rattle.dcsctp_core.specs.Handling.{end_event};

use dcsctp_transfer::api::{ErrorKind, SocketEvent};

/// The event that ends an association, with this error: OnClosed if it is `NoError`.
pub(crate) fn end_event(error: ErrorKind, message: String) -> SocketEvent
    ensures { (ports : Ports) → event_content result ≡ user_event ports
        (end_event error (string_bytes message)) }
{
    match error {
        ErrorKind::NoError => SocketEvent::OnClosed(),
        ErrorKind::TooManyRetries
        | ErrorKind::NotConnected
        | ErrorKind::ParseFailed
        | ErrorKind::WrongSequence
        | ErrorKind::PeerReported
        | ErrorKind::ProtocolViolation
        | ErrorKind::ResourceExhaustion
        | ErrorKind::UnsupportedOperation => SocketEvent::OnAborted(error, message),
    }
}
