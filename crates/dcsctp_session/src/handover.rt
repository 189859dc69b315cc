//! Handing the socket of a session over to another process, by a snapshot in bytes.

ghost use Rattle.std.specs.Prelude.{◌≡◌, IfOk};
ghost use Rattle.dcsctp_core.specs.spec.Handover.{readiness_of};
ghost use Rattle.dcsctp_core.specs.spec.queues.Incoming.{AreInOrder};
ghost use Rattle.dcsctp_core.specs.api.Messages.{incoming_streams};
ghost use Rattle.dcsctp_session.specs.Views.{view};
ghost use Rattle.dcsctp_session.specs.Handover.{HandsOverSession, snapshot_sealed, IsReadBack, CopiesSnapshot, RestoresIfReadable, RestoresBody, RestoresSession};

use crate::copying::copy_bytes;
use crate::session::Session;
use crate::status::Status;
use dcsctp_core::api::handover::SocketHandoverState;
use dcsctp_snapshot_bytes::{from_bytes, seal, to_bytes, unseal};
use dcsctp_socket::{DcSctpSocket, Options};
use std::alloc::{AllocError, Global};

// The bytes of a snapshot and their seal, by the options of its socket. `Err`: an allocation failed.
fn sealed_bytes(
    alloc: Global,
    state: &SocketHandoverState,
    options: &Options,
) -> Result<Vec<u8>, AllocError>
    ensures bytes { IfOk result (λ bytes. bytes.items ≡ snapshot_sealed options.now state.now) }
    ensures read_back { IfOk result (λ _. IsReadBack state.now) }
{
    let mut bytes = to_bytes(alloc, state)?;
    seal(&mut bytes, options)?;
    Ok(bytes)
}

impl Session {
    /// Why the socket can't be handed over now, as bits; 0 if it can.
    pub fn handover_readiness(&self) -> u32
        ensures reasons { result ≡ readiness_of (view self.now).endpoint }
        ensures streams { AreInOrder (incoming_streams (view self.now).endpoint) }
    {
        self.socket.get_handover_readiness().0
    }

    /// Hands the socket over: takes its snapshot, and ends the association here.
    pub fn hand_over(&mut self) -> Status
        ensures { HandsOverSession self.old result self.new }
    {
        match self.socket.get_handover_state_and_close() {
            Ok(Ok(state)) => {
                self.taken.snapshot = Some(state);
                Status::Done
            }
            Ok(Err(error)) => Status::of_handover_error(error),
            Err(fault) => Status::of_fault(fault),
        }
    }

    /// Copies the snapshot that was taken last, with its seal, and says how many bytes they have. A buffer that
    /// is too small is unchanged. `Status::OutOfMemory`: an allocation failed, and nothing has changed.
    pub fn snapshot_bytes(&self, buffer: &mut [u8], length: &mut usize) -> Status
        ensures { CopiesSnapshot (view self.now).endpoint.options self.now.taken.snapshot
            buffer.old length.old result buffer.new length.new }
    {
        let Some(state) = &self.taken.snapshot else {
            *length = 0;
            return Status::NothingToCopy;
        };
        match sealed_bytes(self.alloc, state, &self.socket.options()) {
            Ok(bytes) => copy_bytes(bytes.as_slice(), buffer, length),
            Err(_) => Status::OutOfMemory,
        }
    }

    // Restores the socket from the bytes of a snapshot, without their seal.
    fn restore_body(&mut self, body: &[u8]) -> Status
        ensures { RestoresBody body.now self.old result self.new }
    {
        let state = match from_bytes(self.alloc, body) {
            Ok(Some(state)) => state,
            Ok(None) => return Status::InvalidSnapshot,
            Err(_) => return Status::OutOfMemory,
        };
        if !state.is_valid(&self.socket.options()) {
            return Status::InvalidSnapshot;
        }
        Status::of_restore(self.socket.restore_from_state(&state))
    }

    /// Restores the socket, which is closed, from a snapshot in bytes.
    ///
    /// `Status::InvalidSnapshot`: the bytes are no snapshot, one was changed, or what they say isn't valid for
    /// the options of this socket. `Status::OtherOptions`: the snapshot is of a socket with other options, as far
    /// as its seal has them. `Status::OutOfMemory` if there was no memory to read them, too. In these cases
    /// nothing has changed.
    pub fn restore(&mut self, bytes: &[u8]) -> Status
        ensures { RestoresSession bytes.now self.old result self.new }
    {
        match unseal(bytes, &self.socket.options()) {
            Ok(body) => self.restore_body(body),
            Err(error) => Status::of_seal_error(error),
        }
    }
}
