//! Several Read Requests of an owner at once, all or none.

ghost use Rattle.std.specs.Prelude.{◌≡◌, ◌+◌, ◌^◌, ◌<◌, ◌≤◌, false, length, All, OnOk, OnErr};
ghost use Rattle.nr_link.specs.Limits.{open_reads_max};
ghost use Rattle.nr_endpoint.specs.LinkState.{has_ended};
ghost use Rattle.nr_endpoint.specs.Calls.{after_calls, StandsOnAll};
ghost use Rattle.nr_endpoint.specs.Requesting.{FitsSink, after_reads, after_send_reads, read_calls, send_read_calls};

use crate::endpoint::Endpoint;
use crate::link::LinkSide;
use crate::reads::open_all;
use crate::requests::RemoteRead;
use nr_xdr::Memory;

impl LinkSide {
    /// Queues Read Requests, whose responses are expected then. An `Err` changes nothing.
    pub fn read_all(&mut self, reads: &[RemoteRead]) -> Result<(), Memory>
        requires count { length self.old.state.reads + length reads.now ≤ open_reads_max }
        requires fits { All FitsSink reads.now }
        ensures ok { OnOk result (self.new ≡ record self.old { state = after_reads reads.now self.old.state }) }
        ensures err { OnErr result (self.new ≡ self.old) }
        ensures live { OnErr result (has_ended self.old.state ≡ false) }
    {
        if self.ended.is_some() {
            return Ok(());
        }
        self.send_queue.request_all(reads)?;
        open_all(&mut self.reads, reads);
        Ok(())
    }

    /// Queues a Send and then Read Requests, whose responses are expected then. An `Err` changes nothing.
    pub fn send_and_read_all(&mut self, message: &[u8], reads: &[RemoteRead]) -> Result<(), Memory>
        requires size { length message.now < 2 ^ 32 }
        requires count { length self.old.state.reads + length reads.now ≤ open_reads_max }
        requires fits { All FitsSink reads.now }
        ensures ok { OnOk result (self.new ≡ record self.old { state = after_send_reads message.now reads.now self.old.state }) }
        ensures err { OnErr result (self.new ≡ self.old) }
        ensures live { OnErr result (has_ended self.old.state ≡ false) }
    {
        if self.ended.is_some() {
            return Ok(());
        }
        self.send_queue.send_and_request_all(message, reads)?;
        open_all(&mut self.reads, reads);
        Ok(())
    }
}

impl Endpoint {
    /// How many Read Requests are open.
    pub fn reads_open(&self) -> usize
        ensures { result ≡ length self.now.link.state.reads }
    {
        self.link.reads.len()
    }

    /// Queues Read Requests, in their order: all of them or, if memory runs out, nothing. As many more may be open. A side that has ended
    /// queues nothing.
    pub fn read_all(&mut self, reads: &[RemoteRead]) -> Result<(), Memory>
        requires count { length self.old.link.state.reads + length reads.now ≤ open_reads_max }
        requires fits { All FitsSink reads.now }
        ensures state { OnOk result (self.new.link ≡ after_calls self.old.link (read_calls reads.now)) }
        ensures stands { OnOk result (StandsOnAll self.old.link (read_calls reads.now) self.new.link) }
        ensures err { OnErr result (self.new.link ≡ self.old.link) }
        ensures live { OnErr result (has_ended self.old.link.state ≡ false) }
        ensures room { self.new.room ≡ self.old.room }
        ensures outside { self.new.outside ≡ self.old.outside }
        ensures staging { self.new.staging ≡ self.old.staging }
    {
        self.link.read_all(reads)
    }

    /// Queues a Send and then Read Requests, in their order: all of them or, if memory runs out, nothing. As many more Read Requests may be
    /// open. A side that has ended queues nothing.
    pub fn send_and_read_all(&mut self, message: &[u8], reads: &[RemoteRead]) -> Result<(), Memory>
        requires size { length message.now < 2 ^ 32 }
        requires count { length self.old.link.state.reads + length reads.now ≤ open_reads_max }
        requires fits { All FitsSink reads.now }
        ensures state { OnOk result (self.new.link ≡ after_calls self.old.link (send_read_calls message.now reads.now)) }
        ensures stands { OnOk result (StandsOnAll self.old.link (send_read_calls message.now reads.now) self.new.link) }
        ensures err { OnErr result (self.new.link ≡ self.old.link) }
        ensures live { OnErr result (has_ended self.old.link.state ≡ false) }
        ensures room { self.new.room ≡ self.old.room }
        ensures outside { self.new.outside ≡ self.old.outside }
        ensures staging { self.new.staging ≡ self.old.staging }
    {
        self.link.send_and_read_all(message, reads)
    }
}
