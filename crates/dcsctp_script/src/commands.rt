//! The commands of a script, run on two sockets.

use crate::failure::{Failure, written};
use crate::script::Script;
use crate::words::Words;
use dcsctp_api::types::{Call, Outside, Side, Step};
use dcsctp_api::{DcSctpSocket, Message, PpId, SendOptions, SocketEvent, StreamId};
use dcsctp_script_lines::{
    Command, Line, parse_line, print_association, print_event, print_handover_refusal,
    print_refusal, print_reset_refusal, print_state, print_taken, print_timeout,
};
use dcsctp_world::{Reply, World};
use std::alloc::Global;
use std::io::{self, BufRead, Write};

// The next command; `None` at the end of the script. No other line may come.
fn next_command<R: BufRead>(
    alloc: Global,
    script: &mut Script<R>,
) -> Result<Option<Command>, Failure> {
    let Some(text) = script.next_line()? else {
        return Ok(None);
    };
    match command_in(parse_line(alloc, text)?) {
        Some(command) => Ok(Some(command)),
        None => Err(script.bad_line()),
    }
}

// The command that a line is, if it is one.
fn command_in(line: Option<Line<'_>>) -> Option<Command> {
    match line {
        Some(Line::Command(command)) => Some(command),
        Some(Line::Setting(..)) => None,
        Some(Line::Words(..)) => None,
        None => None,
    }
}

// What was printed of a side.
#[derive(Clone, Copy)]
struct Printed {
    events: usize,
    packets: u64,
}

impl Printed {
    fn new() -> Printed {
        Printed {
            events: 0,
            packets: 0,
        }
    }

    // Prints the events that are new. Packets are numbered from 1.
    fn print<W: Write>(
        &mut self,
        side: Side,
        events: &[SocketEvent],
        output: &mut W,
    ) -> io::Result<()> {
        for event in events.get(self.events..).unwrap_or(&[]) {
            if let SocketEvent::SendPacket(_) = event {
                self.packets = self.packets.saturating_add(1);
            }
            print_event(side, self.packets, event, output)?;
        }
        self.events = events.len();
        Ok(())
    }
}

/// Two sockets, and what was printed of each.
#[derive(Drop)]
pub struct Run {
    world: World<Words>,
    a: Printed,
    b: Printed,
}

impl Run {
    /// The two sockets of a world of which nothing was printed yet.
    pub fn new(world: World<Words>) -> Run {
        Run {
            world,
            a: Printed::new(),
            b: Printed::new(),
        }
    }

    /// Does what this command says and those that follow in the script, and prints the result of each.
    ///
    /// `BadLine`: a line isn't a command; the lines before it were run. `OutOfMemory`: an allocation failed,
    /// perhaps the reader's. `Broken`: the reader failed in another way, or the writer failed.
    pub fn obey_all<R: BufRead, W: Write>(
        &mut self,
        alloc: Global,
        first: Command,
        script: &mut Script<R>,
        output: &mut W,
    ) -> Result<(), Failure> {
        self.obey(first, output)?;
        for _ in 0..u64::MAX {
            let Some(command) = next_command(alloc, script)? else {
                break;
            };
            self.obey(command, output)?;
        }
        Ok(())
    }

    // Does what a command says, and prints its result.
    fn obey<W: Write>(&mut self, command: Command, output: &mut W) -> Result<(), Failure> {
        self.act(command, output)?;
        written(self.print_events(output))
    }

    // Does what a command says. Each arm is one call to the end, so that none has a command to drop.
    fn act<W: Write>(&mut self, command: Command, output: &mut W) -> Result<(), Failure> {
        match command {
            Command::Send(side, stream_id, payload) => self.send(side, stream_id, payload, output),
            Command::Reset(side, stream_ids) => self.reset(side, stream_ids, output),
            Command::Receive(side) => self.receive(side, output),
            Command::Connect(side) => self.apply(Step::Call(side, Call::Connect)),
            Command::Close(side) => self.apply(Step::Call(side, Call::Close)),
            Command::Shutdown(side) => self.apply(Step::Call(side, Call::Shutdown)),
            Command::Give(side, number) => self.apply(Step::Deliver(side, number)),
            Command::Time(side, now) => self.apply(Step::Call(side, Call::AdvanceTime(now))),
            Command::Input(side, bytes) => self.hand_in(Outside::Input(side, bytes)),
            Command::Show(side) => written(self.print_association(side, output)),
            Command::State(side) => written(self.print_state(side, output)),
            Command::Timeout(side) => written(self.print_timeout(side, output)),
            Command::Handover(side) => self.hand_over(side, output),
            Command::Settle(rounds) => self.settle(rounds),
        }
    }

    // Sends a message, without a protocol and in the default way, and prints its result and why it is
    // refused, if it is.
    fn send<W: Write>(
        &mut self,
        side: Side,
        stream_id: StreamId,
        payload: Vec<u8>,
        output: &mut W,
    ) -> Result<(), Failure> {
        let message = Message::new(stream_id, PpId(0), payload);
        let call = Call::Send(message, SendOptions::default());
        let reply = self.world.apply(&Step::Call(side, call))?;
        written(self.print_events(output))?;
        match reply {
            Reply::Sent(Err(error)) => written(print_refusal(side, &error, output)),
            _ => Ok(()),
        }
    }

    // Resets streams, and prints its result and why it is refused, if it is.
    fn reset<W: Write>(
        &mut self,
        side: Side,
        stream_ids: Vec<StreamId>,
        output: &mut W,
    ) -> Result<(), Failure> {
        let call = Call::ResetStreams(stream_ids);
        let reply = self.world.apply(&Step::Call(side, call))?;
        written(self.print_events(output))?;
        match reply {
            Reply::Reset(Err(error)) => written(print_reset_refusal(side, &error, output)),
            _ => Ok(()),
        }
    }

    // Hands the socket over and restores it from its snapshot. Prints the outcome, and why it is refused, if it
    // is.
    fn hand_over<W: Write>(&mut self, side: Side, output: &mut W) -> Result<(), Failure> {
        let reply = self.world.outside(Outside::Handover(side))?;
        written(self.print_events(output))?;
        match reply {
            Reply::HandedOver(Err(error)) => {
                written(print_handover_refusal(side, &error, output))
            }
            _ => Ok(()),
        }
    }

    // Takes a message and prints it.
    fn receive<W: Write>(&mut self, side: Side, output: &mut W) -> Result<(), Failure> {
        let reply = self.world.apply(&Step::Call(side, Call::GetNextMessage))?;
        match reply {
            Reply::Taken(message) => written(print_taken(side, message.as_ref(), output)),
            _ => Ok(()),
        }
    }

    // Prints the association of this side.
    fn print_association<W: Write>(&self, side: Side, output: &mut W) -> io::Result<()> {
        print_association(side, self.world.socket(side).association(), output)
    }

    // Prints the state of this side.
    fn print_state<W: Write>(&self, side: Side, output: &mut W) -> io::Result<()> {
        print_state(side, self.world.socket(side).state(), output)
    }

    // Prints this side's next deadline.
    fn print_timeout<W: Write>(&self, side: Side, output: &mut W) -> io::Result<()> {
        print_timeout(side, self.world.socket(side).poll_timeout(), output)
    }

    // Prints the new events.
    fn print_events<W: Write>(&mut self, output: &mut W) -> io::Result<()> {
        self.a.print(Side::A, self.world.events(Side::A), output)?;
        self.b.print(Side::B, self.world.events(Side::B), output)
    }

    // Takes a step.
    fn apply(&mut self, step: Step) -> Result<(), Failure> {
        let _reply = self.world.apply(&step)?;
        Ok(())
    }

    // Makes quiet rounds.
    fn settle(&mut self, rounds: usize) -> Result<(), Failure> {
        self.world.settle(rounds)?;
        Ok(())
    }

    // Does what comes from outside.
    fn hand_in(&mut self, outside: Outside) -> Result<(), Failure> {
        let _reply = self.world.outside(outside)?;
        Ok(())
    }
}
