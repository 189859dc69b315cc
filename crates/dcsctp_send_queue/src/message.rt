//! A message that waits.

ghost use Rattle.std.specs.Option.{option_map};
ghost use Rattle.std.specs.Prelude.{◌≡◌, ◌≤◌, drop, vec_len};
ghost use Rattle.dcsctp_api.specs.types.Ids.{lifecycle_number};
ghost use Rattle.dcsctp_api.specs.spec.queues.QueuedParts.{limit_in_part, name_in_part};

use crate::data::DataToSend;
use dcsctp_api::types::{HandoverStreamMessage, UnderWay, millis_ahead, moment_at};
use dcsctp_api::{
    Events, LifecycleId, Message, PpId, SendOptions, SocketEvent, SocketTime, StreamId,
};
use std::alloc::{AllocError, Global};
use std::marker::Model;

// The longest payload whose rest is moved to its front and not copied. It holds this many bytes at most for its
// last fragment, until that is acknowledged.
const LONGEST_MOVED: usize = 2048;

/// The number that a snapshot has for a message that may be sent again without a limit.
pub const NO_LIMIT: u16 = 65535;

/// How often a message may be sent again, by the number that a snapshot has for it.
pub fn limit_of(count: u16) -> Option<u16>
    ensures { result ≡ limit_in_part count }
{
    if count == NO_LIMIT {
        return None;
    }
    Some(count)
}

/// The name of a message, by the number that a snapshot has for it.
pub fn name_of(number: u64) -> Option<LifecycleId>
    ensures { option_map lifecycle_number result ≡ name_in_part number }
{
    if number == 0 {
        return None;
    }
    Some(LifecycleId::from(number))
}

/// A message that waits whole, or of which some fragments were sent. Its payload isn't empty.
///
/// A contract sees its payload as the list of its bytes, and the moment in nanoseconds.
#[derive(Debug, Drop)]
pub struct QueuedMessage {
    message_id: u64,
    ppid: PpId,
    is_unordered: bool,
    payload: Vec<u8>,
    max_retransmissions: Option<u16>,

    // The last moment at which it may be started; none: it never expires.
    expires_at: Option<SocketTime>,

    lifecycle_id: Option<LifecycleId>,
}

impl Model for QueuedMessage {
    ghost use Rattle.std.specs.Prelude.{◌<◌, vec_len};
    ghost use Rattle.std.specs.Option.{option_map};
    ghost use Rattle.dcsctp_api.specs.types.Ids.{lifecycle_number};
    ghost use Rattle.dcsctp_api.specs.types.queues.SendStreams.{Waiting};

    ghost Value = { Waiting };

    ghost view = { λ message. record {
      message_id = message.message_id;
      ppid = message.ppid.0;
      is_unordered = message.is_unordered;
      payload = message.payload.items;
      max_retransmissions = message.max_retransmissions;
      expires_at = message.expires_at;
      lifecycle = option_map lifecycle_number message.lifecycle_id;
    } };

    ghost invariant = { λ message. 0 < vec_len message.payload };
}

impl QueuedMessage {
    ghost use Rattle.dcsctp_api.specs.spec.queues.Sending.{may_be_abandoned};
    ghost use Rattle.std.specs.Prelude.{◌≡◌, ◌+◌, ◌-◌, ◌^◌, ◌<◌, ◌≤◌, ◌++◌, min, length, vec_len, IfOk, OnOk, OnErr};
    ghost use Rattle.dcsctp_send_queue.specs.Telling.{contents, AddsFront};
    ghost use Rattle.dcsctp_api.specs.spec.queues.SendEvents.{expiry_events, sent_events};
    ghost use Rattle.std.specs.Duration.{as_nanos, max_nanos};
    ghost use Rattle.std.specs.Option.{option_map};
    ghost use Rattle.dcsctp_api.specs.types.Ids.{lifecycle_number};
    ghost use Rattle.dcsctp_api.specs.types.queues.SendStreams.{is_expired};
    ghost use Rattle.dcsctp_send_queue.specs.Fragment.{CopiesRest};
    ghost use Rattle.dcsctp_api.specs.spec.queues.Sending.{fragment};
    ghost use Rattle.dcsctp_api.specs.types.SnapshotItems.{queued_part};
    ghost use Rattle.dcsctp_api.specs.spec.queues.OwnResets.{is_lasting};
    ghost use Rattle.dcsctp_api.specs.spec.queues.QueuedParts.{whole_message, waiting_again};

    /// May it be abandoned: has it a limit of retransmissions or of time?
    pub fn may_be_abandoned(&self) -> bool
        ensures { result ≡ may_be_abandoned self.now }
    {
        self.max_retransmissions.is_some() || self.expires_at.is_some()
    }

    /// The message that is added at the moment `now`.
    pub fn new(
        message_id: u64,
        now: SocketTime,
        message: Message,
        options: &SendOptions,
    ) -> QueuedMessage
        requires { 0 < vec_len message.payload }
        ensures { result ≡ record {
          message_id = message_id;
          ppid = message.ppid.0;
          is_unordered = options.now.unordered;
          payload = message.payload.items;
          max_retransmissions = options.now.max_retransmissions;
          expires_at = option_map (λ lifetime. min (now + as_nanos lifetime) max_nanos)
              options.now.lifetime;
          lifecycle = option_map lifecycle_number options.now.lifecycle_id;
        } }
    {
        QueuedMessage {
            message_id,
            ppid: message.ppid,
            is_unordered: options.unordered,
            payload: message.payload,
            max_retransmissions: options.max_retransmissions,
            expires_at: options.lifetime.map(|lifetime| now + lifetime),
            lifecycle_id: options.lifecycle_id,
        }
    }

    /// The message that a snapshot has, as it waits again if the snapshot is restored at the moment `now`. The
    /// payload is copied. `Err`: an allocation failed.
    pub fn from_handover(
        alloc: Global,
        now: SocketTime,
        part: &HandoverStreamMessage,
    ) -> Result<QueuedMessage, AllocError>
        requires { 0 < vec_len part.now.payload }
        ensures { IfOk result (λ message. message ≡ waiting_again now (queued_part part.now)) }
    {
        Ok(QueuedMessage {
            message_id: part.message_id,
            ppid: PpId(part.ppid),
            is_unordered: part.unordered,
            payload: Vec::from_slice(alloc, part.payload.as_slice())?,
            max_retransmissions: limit_of(part.max_retransmissions),
            expires_at: part.expires_in_ms.map(|millis| moment_at(now, millis)),
            lifecycle_id: name_of(part.lifecycle_id),
        })
    }

    /// The bytes of its payload, of which there is one at least.
    pub fn size(&self) -> usize
        ensures value { result ≡ length self.now.payload }
        ensures some { 0 < result }
    {
        self.payload.len()
    }

    /// Is the message too old to be started at the moment `now`?
    pub fn is_expired(&self, now: SocketTime) -> bool
        ensures { result ≡ is_expired now self.now }
    {
        match self.expires_at {
            None => false,
            Some(moment) => moment < now,
        }
    }

    /// Does it wait without a limit of time?
    pub fn is_lasting(&self) -> bool
        ensures { result ≡ is_lasting self.now }
    {
        match self.expires_at {
            None => true,
            Some(_) => false,
        }
    }

    /// Its name.
    pub fn message_id(&self) -> u64
        ensures { result ≡ self.now.message_id }
    {
        self.message_id
    }

    /// May the peer be given it out of order?
    pub fn is_unordered(&self) -> bool
        ensures { result ≡ self.now.is_unordered }
    {
        self.is_unordered
    }

    /// The id by which events report what becomes of it.
    pub fn lifecycle_id(&self) -> Option<LifecycleId>
        ensures { option_map lifecycle_number result ≡ self.now.lifecycle }
    {
        self.lifecycle_id
    }

    /// Reports that it was abandoned before it was fully sent, if it has a lifecycle id.
    pub fn tell_expired(&self, events: &mut Events) -> Result<(), AllocError>
        ensures ok { OnOk result
            (contents events.new ≡ contents events.old ++ expiry_events self.now) }
        ensures err { OnErr result
            (AddsFront (contents events.old) (expiry_events self.now) (contents events.new)) }
    {
        if let Some(id) = self.lifecycle_id {
            events.add(SocketEvent::OnLifecycleMessageExpired(id))?;
            events.add(SocketEvent::OnLifecycleEnd(id))?;
        }
        Ok(())
    }

    /// Reports that it was fully sent, if it has a lifecycle id.
    pub fn tell_fully_sent(&self, events: &mut Events) -> Result<(), AllocError>
        ensures ok { OnOk result
            (contents events.new ≡ contents events.old ++ sent_events self.now) }
        ensures err { OnErr result
            (AddsFront (contents events.old) (sent_events self.now) (contents events.new)) }
    {
        if let Some(id) = self.lifecycle_id {
            events.add(SocketEvent::OnLifecycleMessageFullySent(id))?;
        }
        Ok(())
    }

    /// What a snapshot that is made at the moment `now` has of it if it waits whole. The payload is copied.
    /// `Err`: an allocation failed.
    pub fn handover_message(
        &self,
        alloc: Global,
        now: SocketTime,
        stream_id: StreamId,
    ) -> Result<HandoverStreamMessage, AllocError>
        ensures { IfOk result (λ part. queued_part part ≡ whole_message now stream_id.0 self.now) }
    {
        Ok(HandoverStreamMessage {
            stream_id: stream_id.0,
            ppid: self.ppid.0,
            payload: Vec::from_slice(alloc, self.payload.as_slice())?,
            unordered: self.is_unordered,
            expires_in_ms: self.expires_at.map(|moment| millis_ahead(now, moment)),
            max_retransmissions: self.max_retransmissions.unwrap_or(NO_LIMIT),
            lifecycle_id: self.lifecycle_id.map_or(0, |id| id.value()),
            message_id: self.message_id,
            remaining_offset: 0,
            mid: None,
            ssn: None,
            fsn: 0,
        })
    }

    /// The next fragment, of that many bytes, which are copied. It isn't the last.
    #[inline(always)]
    pub fn part(
        &self,
        alloc: Global,
        under_way: UnderWay,
        size: usize,
    ) -> Result<DataToSend, AllocError>
        requires { under_way.sent + size < length self.now.payload }
        ensures ok { IfOk result (λ part. part ≡ fragment under_way self.now size) }
        ensures fits { under_way.sent + size < 2 ^ 64 }
    {
        let rest = &self.payload[under_way.sent..];
        let payload = Vec::from_slice(alloc, &rest[..size])?;
        Ok(DataToSend {
            message_id: self.message_id,
            stream_id: under_way.stream_id,
            ssn: under_way.ssn,
            mid: under_way.mid,
            fsn: under_way.next_fsn,
            ppid: self.ppid,
            is_unordered: self.is_unordered,
            is_beginning: under_way.sent == 0,
            is_end: false,
            payload,
            max_retransmissions: self.max_retransmissions,
            expires_at: self.expires_at,
            lifecycle_id: self.lifecycle_id,
        })
    }

    /// What is left of its payload, copied. `None` if nothing was sent, or the payload is short: then
    /// `last_part` takes the rest from the payload itself.
    #[inline(always)]
    pub fn copied_rest(&self, alloc: Global, sent: usize) -> Result<Option<Vec<u8>>, AllocError>
        requires { sent ≤ length self.now.payload }
        ensures { IfOk result (λ rest. CopiesRest sent self.now.payload rest) }
    {
        if sent == 0 || self.payload.len() <= LONGEST_MOVED {
            return Ok(None);
        }
        let rest = Vec::from_slice(alloc, &self.payload[sent..])?;
        Ok(Some(rest))
    }

    /// Its last fragment, with what `copied_rest` answered.
    #[inline(always)]
    pub fn last_part(self, under_way: UnderWay, rest: Option<Vec<u8>>) -> DataToSend
        requires rest { CopiesRest under_way.sent self.payload rest }
        requires within { under_way.sent ≤ length self.payload }
        ensures { result ≡ fragment under_way self (length self.payload - under_way.sent) }
    {
        let QueuedMessage {
            message_id,
            ppid,
            is_unordered,
            payload,
            max_retransmissions,
            expires_at,
            lifecycle_id,
        } = self;
        let payload = match rest {
            Some(rest) => rest,
            None => without_first(payload, under_way.sent),
        };
        DataToSend {
            message_id,
            stream_id: under_way.stream_id,
            ssn: under_way.ssn,
            mid: under_way.mid,
            fsn: under_way.next_fsn,
            ppid,
            is_unordered,
            is_beginning: under_way.sent == 0,
            is_end: true,
            payload,
            max_retransmissions,
            expires_at,
            lifecycle_id,
        }
    }
}

// What is left of a payload without that many bytes at its front. It keeps its room.
fn without_first(payload: Vec<u8>, sent: usize) -> Vec<u8>
    requires { sent ≤ vec_len payload }
    ensures { result.items ≡ drop sent payload.items }
{
    let mut payload = payload;
    if sent > 0 {
        let left = payload.len() - sent;
        payload.copy_within(sent.., 0);
        payload.truncate(left);
    }
    payload
}
