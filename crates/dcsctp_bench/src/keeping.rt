//! A peer that keeps its answer to a request to reset streams, as some do.

// Where a packet with one answer has the type of its chunk, that of its parameter, the number of the request, and
// the last byte of the result; and how many bytes it has (RFC 6525, sections 3.1 and 4.4).
const CHUNK_TYPE: usize = 12;

const PARAMETER_TYPE: usize = 17;

const NUMBER: usize = 20;

const RESULT: usize = 27;

const LENGTH: usize = 28;

// RE-CONFIG, and a Re-configuration Response.
const RE_CONFIG: u8 = 130;

const RESPONSE: u8 = 16;

// An answer: the number of the request, and the result.
#[derive(Clone, Copy)]
struct Answer {
    number: u32,
    result: u8,
}

/// The answer that was given first to the request that came last.
#[derive(Clone, Copy)]
pub struct Kept {
    // None before the first.
    answer: Option<Answer>,
}

// The number of the request that a packet answers; none if it is no packet with one answer.
fn number_in(packet: &[u8]) -> Option<u32> {
    if packet.len() != LENGTH || packet[CHUNK_TYPE] != RE_CONFIG {
        return None;
    }
    if packet[PARAMETER_TYPE] != RESPONSE {
        return None;
    }
    Some(u32::from_be_bytes([
        packet[NUMBER],
        packet[NUMBER + 1],
        packet[NUMBER + 2],
        packet[NUMBER + 3],
    ]))
}

impl Kept {
    /// No answer was given yet.
    pub fn new() -> Kept {
        Kept { answer: None }
    }

    // The result that was given first to the request of this number. If none was, it is this one from now on.
    fn result_for(&mut self, number: u32, given: u8) -> u8 {
        match self.answer {
            Some(kept) if kept.number == number => kept.result,
            Some(_) | None => {
                self.answer = Some(Answer {
                    number,
                    result: given,
                });
                given
            }
        }
    }

    /// Gives the answer again that was given first, if the packet answers the same request.
    pub fn repeat(&mut self, packet: &mut [u8]) {
        let Some(number) = number_in(packet) else {
            return;
        };
        let given = packet.get(RESULT).copied().unwrap_or(0);
        let result = self.result_for(number, given);
        if let Some(byte) = packet.get_mut(RESULT) {
            *byte = result;
        }
    }
}
