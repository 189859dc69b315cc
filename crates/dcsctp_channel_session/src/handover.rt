//! Handing a socket with channels over to another process, by a snapshot in bytes.

ghost use Rattle.std.specs.Prelude.{◌≡◌, IfOk};
ghost use Rattle.dcsctp_session.specs.Status.{answer_status, handover_error_status, seal_error_status};
ghost use Rattle.dcsctp_channel_session.specs.Views.{channels_view, channels_readiness};
ghost use Rattle.dcsctp_channel_session.specs.Handover.{ChannelsHandedOver, channels_sealed, AreReadBack, CopiesChannels, restore_channels_status, RestoresChannelsBody, ChannelsRestored};

use crate::session::ChannelSession;
use dcsctp_channel_bytes::{from_bytes_with_channels, to_bytes_with_channels};
use dcsctp_channel_calls::api::{HandoverError, SocketFault};
use dcsctp_channel_calls::{ChannelsHandoverState, RestoreChannelsError};
use dcsctp_session::{Status, copy_bytes};
use dcsctp_snapshot_bytes::{SealError, seal, unseal};
use dcsctp_socket::{DcSctpSocket, Options};
use std::alloc::{AllocError, Global};

// The bytes of a snapshot and their seal, by the options of its socket. `Err`: an allocation failed.
fn sealed_bytes(
    alloc: Global,
    state: &ChannelsHandoverState,
    options: &Options,
) -> Result<Vec<u8>, AllocError>
    ensures bytes { IfOk result (λ bytes. bytes.items ≡ channels_sealed options.now state.now) }
    ensures read_back { IfOk result (λ _. AreReadBack state.now) }
{
    let mut bytes = to_bytes_with_channels(alloc, &state.socket, &state.channels)?;
    seal(&mut bytes, options)?;
    Ok(bytes)
}

// What a call returns that restores a socket.
fn of_restore(outcome: Result<Result<(), RestoreChannelsError>, SocketFault>) -> Status
    ensures { result ≡ answer_status restore_channels_status outcome }
{
    match outcome {
        Ok(Ok(())) => Status::Done,
        Ok(Err(RestoreChannelsError::NotNew)) => Status::NotClosed,
        Ok(Err(RestoreChannelsError::InvalidSnapshot)) => Status::InvalidSnapshot,
        Err(fault) => Status::of_fault(fault),
    }
}

// Why the socket can't be handed over.
fn of_handover_error(error: HandoverError) -> Status
    ensures { result ≡ handover_error_status error }
{
    match error {
        HandoverError::NotReady(_) => Status::NotReady,
    }
}

// Why the seal of a snapshot is refused.
fn of_seal_error(error: SealError) -> Status
    ensures { result ≡ seal_error_status error }
{
    match error {
        SealError::Broken => Status::InvalidSnapshot,
        SealError::OtherOptions => Status::OtherOptions,
    }
}

impl ChannelSession {
    /// Why the socket and its channels can't be handed over now, as bits; 0 if they can.
    pub fn handover_readiness(&self) -> u32
        ensures { result ≡ channels_readiness (channels_view self.now) }
    {
        self.channels.get_handover_readiness().0
    }

    /// Hands the socket over with its channels: takes their snapshot, and ends the association here.
    pub fn hand_over(&mut self) -> Status
        ensures { ChannelsHandedOver self.old result self.new }
    {
        match self.channels.get_handover_state_and_close() {
            Ok(Ok(state)) => {
                self.snapshot = Some(state);
                Status::Done
            }
            Ok(Err(error)) => of_handover_error(error),
            Err(fault) => Status::of_fault(fault),
        }
    }

    /// Copies the snapshot that was taken last, with its seal, and says how many bytes they have. A buffer that is too
    /// small is unchanged. `Status::OutOfMemory`: an allocation failed, and nothing has changed.
    pub fn snapshot_bytes(&self, buffer: &mut [u8], length: &mut usize) -> Status
        ensures { CopiesChannels (channels_view self.now).below.endpoint.options self.now.snapshot
            buffer.old length.old result buffer.new length.new }
    {
        let Some(state) = &self.snapshot else {
            *length = 0;
            return Status::NothingToCopy;
        };
        match sealed_bytes(self.alloc, state, &self.channels.socket().options()) {
            Ok(bytes) => copy_bytes(bytes.as_slice(), buffer, length),
            Err(_) => Status::OutOfMemory,
        }
    }

    // Restores the socket from the bytes of a snapshot, without their seal.
    fn restore_body(&mut self, body: &[u8]) -> Status
        ensures { RestoresChannelsBody body.now self.old result self.new }
    {
        match from_bytes_with_channels(self.alloc, body) {
            Ok(Some((socket, channels))) => of_restore(
                self.channels
                    .restore_from_state(&ChannelsHandoverState { socket, channels }),
            ),
            Ok(None) => Status::InvalidSnapshot,
            Err(_) => Status::OutOfMemory,
        }
    }

    /// Restores the socket, which is new, with its channels from a snapshot in bytes.
    ///
    /// `Status::NotClosed`: the socket isn't new. `Status::InvalidSnapshot`: the bytes are no snapshot with channels, one
    /// was changed, or what they say isn't valid for the options of this socket. `Status::OtherOptions`: the snapshot is
    /// of a socket with other options, as far as its seal has them. `Status::OutOfMemory` if there was no memory to read
    /// them, too. In these cases nothing has changed.
    pub fn restore(&mut self, bytes: &[u8]) -> Status
        ensures { ChannelsRestored bytes.now self.old result self.new }
    {
        match unseal(bytes, &self.channels.socket().options()) {
            Ok(body) => self.restore_body(body),
            Err(error) => of_seal_error(error),
        }
    }
}
