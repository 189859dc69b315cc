//! Sides that are handed over, and continue from a snapshot.

use crate::side::Side;
use dcsctp_socket::api::handover::{HandoverSocketState, SocketHandoverState};
use dcsctp_socket::{DcSctpSocket, RestoreError, Socket, SocketFault};
use dcsctp_testing::Counting;
use std::alloc::Global;
use std::process::Abort;

// The snapshot of an association that has sent and received nothing, and whose peer supports nothing. The next TSN
// comes after the last one that was acknowledged.
fn plain_snapshot(alloc: Global) -> SocketHandoverState {
    let mut state = SocketHandoverState::empty(alloc);
    state.socket_state = HandoverSocketState::Connected;
    state.my_verification_tag = 7;
    state.peer_verification_tag = 9;
    state.tx.next_tsn = 1;
    state
}

/// Restores a socket from a snapshot, which must be valid.
pub fn restore_from(
    rt: &impl Abort,
    socket: &mut Socket<Counting>,
    state: &SocketHandoverState,
) -> Result<Result<(), RestoreError>, SocketFault> {
    let is_valid = state.is_valid(&socket.options());
    assert!(rt; is_valid, "an invalid snapshot");
    socket.restore_from_state(state)
}

impl Side {
    /// Is handed over, which must succeed. The snapshot is kept.
    pub fn hand_over(&mut self, rt: &impl Abort) -> Result<(), SocketFault> {
        match self.socket.get_handover_state_and_close()? {
            Ok(state) => self.snapshot = Some(state),
            Err(refusal) => panic!(rt; "{:?}: {refusal:?}", self.name),
        }
        Ok(())
    }

    /// Continues from the snapshot that was kept, which must succeed.
    pub fn restore(&mut self, rt: &impl Abort) -> Result<(), SocketFault> {
        let Some(state) = self.snapshot.take() else {
            panic!(rt; "{:?}: no snapshot", self.name)
        };
        let answer = restore_from(rt, &mut self.socket, &state)?;
        assert_eq!(rt; answer, Ok(()), "{:?}: restored", self.name);
        Ok(())
    }

    /// The same from a snapshot whose peer supports nothing.
    pub fn restore_plain(&mut self, rt: &impl Abort) -> Result<(), SocketFault> {
        let state = plain_snapshot(self.alloc);
        let answer = restore_from(rt, &mut self.socket, &state)?;
        assert_eq!(rt; answer, Ok(()), "{:?}: restored", self.name);
        Ok(())
    }
}
