//! What takes no memory: each of these calls answers as its row says, and adds no event.

use crate::answers::ask;
use crate::exchange::Memoryless;
use crate::handing_over::restore_from;
use crate::shown::answers_at;
use crate::side::{Answer, Side};
use dcsctp_socket::api::handover::SocketHandoverState;
use dcsctp_socket::{
    DcSctpSocket, HandoverError, HandoverReadiness, ResetStreamsError, RestoreError, SocketFault,
    StreamId,
};
use dcsctp_testing::{at, begin_span, end_span};
use std::process::Abort;

impl Side {
    /// Does this, and in a marked run every allocation is refused meanwhile. `Err`: the allocation of a mark failed.
    pub fn act_without_memory(&mut self, rt: &impl Abort, index: usize, act: Memoryless) -> Answer {
        begin_span(self.alloc)?;
        let answer = self.act_within(rt, index, act);
        assert_eq!(rt; answer, Ok(()), "step {index}: it takes no memory");
        end_span(self.alloc)?;
        Ok(Ok(()))
    }

    // Does it between the marks.
    fn act_within(
        &mut self,
        rt: &impl Abort,
        index: usize,
        act: Memoryless,
    ) -> Result<(), SocketFault> {
        match act {
            Memoryless::Connects => self.socket.connect(),
            Memoryless::Closes => self.socket.close(),
            Memoryless::ShutsDown => self.socket.shutdown(),
            Memoryless::Passes(millis) => self.socket.advance_time(at(millis)),
            Memoryless::WaitsFor(millis) => {
                assert_eq!(rt; self.socket.poll_timeout(), at(millis), "step {index}");
                Ok(())
            }
            Memoryless::RefusesReset(refusal) => self.refuses_reset(rt, index, refusal),
            Memoryless::RefusesHandover(readiness) => self.refuses_handover(rt, index, readiness),
            Memoryless::RefusesRestore => {
                self.takes_no_snapshot(rt, index, Err(RestoreError::SocketNotClosed))
            }
            Memoryless::RestoresNothing => self.takes_no_snapshot(rt, index, Ok(())),
            Memoryless::SetsMessageSize(size) => {
                self.socket.set_max_message_size(size);
                Ok(())
            }
            Memoryless::Tells => {
                self.is_well(rt, index);
                Ok(())
            }
            Memoryless::Reads(count) => {
                self.read(rt, count);
                Ok(())
            }
            Memoryless::Shows(moment) => {
                let answers = ask(&self.socket, StreamId(2));
                assert_eq!(rt; answers, answers_at(moment), "step {index}");
                Ok(())
            }
        }
    }

    // A reset of a stream is refused so.
    fn refuses_reset(
        &mut self,
        rt: &impl Abort,
        index: usize,
        refusal: ResetStreamsError,
    ) -> Result<(), SocketFault> {
        let answer = self.socket.reset_streams(&[StreamId(1)])?;
        assert_eq!(rt; answer, Err(refusal), "step {index}");
        Ok(())
    }

    // A handover is refused for these reasons.
    fn refuses_handover(
        &mut self,
        rt: &impl Abort,
        index: usize,
        readiness: HandoverReadiness,
    ) -> Result<(), SocketFault> {
        let answer = self.socket.get_handover_state_and_close()?;
        let refusal = HandoverError::NotReady(readiness);
        assert_eq!(rt; answer.err(), Some(refusal), "step {index}");
        Ok(())
    }

    // The snapshot of a closed socket is answered so. It changes nothing.
    fn takes_no_snapshot(
        &mut self,
        rt: &impl Abort,
        index: usize,
        expected: Result<(), RestoreError>,
    ) -> Result<(), SocketFault> {
        let state = SocketHandoverState::empty(self.alloc);
        let answer = restore_from(rt, &mut self.socket, &state)?;
        assert_eq!(rt; answer, expected, "step {index}");
        Ok(())
    }
}
