//! The streams in use, and the names of their channels. Nothing else touches the two maps.

ghost use Rattle.std.specs.Prelude.{◌≡◌, [], OnOk};
ghost use Rattle.dcsctp_channels.specs.Weights.{late_weight, late_count};
ghost use Rattle.dcsctp_channel_calls.specs.View.{entry_numbered, entry_put, without_entry, names_with};

use crate::rows;
use dcsctp_channel_calls::HeldStream;
use std::alloc::{AllocError, Global};
use std::collections::BTreeMap;

/// The streams in use, and the stream of each channel that has one.
#[derive(Drop)]
pub(crate) struct Table {
    pub(crate) channels: BTreeMap<u16, HeldStream>,
    pub(crate) names: BTreeMap<u64, u16>,

    /// Of how many streams a reset or an ACK is put off. Where there is none, no walk over the streams is needed.
    pub(crate) late: usize,
    ghost counted: { late ≡ late_count channels.entries },
}

// 1 where a reset or an ACK of the stream is put off.
fn weight(held: &HeldStream) -> usize
    ensures { result ≡ late_weight held.now }
{
    if rows::may_reset(held.stream) || rows::owes_now(held.stream) {
        1
    } else {
        0
    }
}

impl Table {
    /// No stream is in use. Allocates nothing.
    pub(crate) fn new(alloc: Global) -> Table
        ensures channels { result.channels.entries ≡ [] }
        ensures names { result.names.entries ≡ [] }
    {
        Table {
            channels: BTreeMap::new(alloc),
            names: BTreeMap::new(alloc),
            late: 0,
        }
    }

    /// What a stream is used for; none: it is free.
    pub(crate) fn at(&self, stream: u16) -> Option<HeldStream>
        ensures { result ≡ entry_numbered stream self.now.channels.entries }
    {
        self.channels.get(&stream).copied()
    }

    /// The stream of a channel, if it has one.
    pub(crate) fn stream_of(&self, name: u64) -> Option<u16>
        ensures { result ≡ entry_numbered name self.now.names.entries }
    {
        self.names.get(&name).copied()
    }

    /// Puts a stream into use, or changes its use.
    pub(crate) fn put(&mut self, stream: u16, held: HeldStream) -> Result<(), AllocError>
        ensures channels { OnOk result (self.new.channels.entries ≡ entry_put stream held
            self.old.channels.entries) }
        ensures names { self.new.names.entries ≡ self.old.names.entries }
    {
        let Some(late) = self.late.checked_add(weight(&held)) else {
            return Err(AllocError);
        };
        match self.channels.insert(stream, held)? {
            Some(before) => self.late = late - weight(&before),
            None => self.late = late,
        }
        Ok(())
    }

    /// Frees a stream. Allocates nothing.
    pub(crate) fn free(&mut self, stream: u16)
        ensures channels { self.new.channels.entries ≡ without_entry stream
            self.old.channels.entries }
        ensures names { self.new.names.entries ≡ self.old.names.entries }
    {
        if let Some(held) = self.channels.remove(&stream) {
            self.late -= weight(&held);
        }
    }

    // The stream has a channel that had none.
    fn name(&mut self, stream: u16, name: u64) -> Result<(), AllocError>
        ensures names { OnOk result (self.new.names.entries ≡ entry_put name stream
            self.old.names.entries) }
        ensures channels { self.new.channels.entries ≡ self.old.channels.entries }
    {
        let _ = self.names.insert(name, stream)?;
        Ok(())
    }

    // The channel has no stream any more.
    fn forget(&mut self, name: u64)
        ensures names { self.new.names.entries ≡ without_entry name self.old.names.entries }
        ensures channels { self.new.channels.entries ≡ self.old.channels.entries }
    {
        let _ = self.names.remove(&name);
    }

    /// Changes the channel of a stream from the one name to the other.
    pub(crate) fn rename(
        &mut self,
        stream: u16,
        old: Option<u64>,
        new: Option<u64>,
    ) -> Result<(), AllocError>
        ensures names { OnOk result (self.new.names.entries ≡ names_with stream old new
            self.old.names.entries) }
        ensures channels { self.new.channels.entries ≡ self.old.channels.entries }
    {
        match (old, new) {
            (None, None) => Ok(()),
            (None, Some(name)) => self.name(stream, name),
            (Some(name), None) => {
                self.forget(name);
                Ok(())
            }
            (Some(before), Some(name)) => {
                if before == name {
                    return Ok(());
                }
                self.forget(before);
                self.name(stream, name)
            }
        }
    }
}
