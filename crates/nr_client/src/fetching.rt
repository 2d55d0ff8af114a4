//! A job submits the READs of its pieces, and then takes their answers in order.

ghost use Rattle.std.specs.Prelude.{◌<◌};
ghost use Rattle.nr_shared.specs.Sharing.{SharedRests};
ghost use Rattle.nr_client.specs.private.JobReads.{AreAsked, Grows, IsDone, IsReady, IsRuleOf};

use crate::file_calls::read_call;
use crate::file_to_read::FileToRead;
use crate::jobs::{PieceRead, ReadJob};
use crate::read_data::piece_left;
use nr_links::{LinkSink, LinkSource};
use nr_reduce::Form;
use nr_requester::{Done, Ticket};
use nr_shared::{CallRule, Pass, SharedRequester};
use std::sync::Wait;

/// A piece of a file whose READ is outstanding: where it begins, and the ticket of its READ.
#[derive(Drop)]
pub(crate) struct AskedPiece {
    pub(crate) at: u64,
    pub(crate) ticket: Ticket,
}

/// Submits the READ of a piece. Whether it was submitted.
fn ask<R: Wait, I: LinkSource + Drop, O: LinkSink + Drop, C: CallRule>(
    rt: &R,
    shared: &SharedRequester<I, O, C>,
    file: &FileToRead<'_>,
    pass: &mut Pass<I, O, C>,
    at: u64,
    asked: &mut Vec<AskedPiece>,
) -> bool
    requires rule { IsRuleOf C.allows file.now.uid file.now.gid file.now.handle.now file.now.size }
    requires below { at < file.now.size }
    requires rests { SharedRests shared.now pass.old }
    requires asked { AreAsked file.now.uid file.now.gid file.now.handle.now file.now.size pass.old.main asked.old.items }
    ensures rests { SharedRests shared.now pass.new }
    ensures grows { Grows pass.old.main pass.new.main }
    ensures asked { AreAsked file.now.uid file.now.gid file.now.handle.now file.now.size pass.new.main asked.new.items }
{
    let count = piece_left(file.size, at);
    if let Err(_) = asked.reserve(1) {
        return false;
    }
    let call = match read_call(file.alloc, file.uid, file.gid, file.handle, at, count) {
        Ok(call) => call,
        Err(_) => return false,
    };
    let ticket = match shared.submit(rt, pass, call, Form::Auto) {
        Ok(ticket) => ticket,
        Err(_) => return false,
    };
    asked.push_reserved(AskedPiece { at, ticket });
    true
}

/// Submits the READs of the pieces of a job, up to one that can't be.
fn ask_all<R: Wait, I: LinkSource + Drop, O: LinkSink + Drop, C: CallRule>(
    rt: &R,
    shared: &SharedRequester<I, O, C>,
    file: &FileToRead<'_>,
    job: &mut ReadJob<I, O, C>,
    asked: &mut Vec<AskedPiece>,
)
    requires rule { IsRuleOf C.allows file.now.uid file.now.gid file.now.handle.now file.now.size }
    requires ready { IsReady shared.now file.now.uid file.now.gid file.now.handle.now file.now.size job.old }
    requires asked { AreAsked file.now.uid file.now.gid file.now.handle.now file.now.size job.old.pass.main asked.old.items }
    ensures done { IsDone shared.now file.now.uid file.now.gid file.now.handle.now file.now.size job.new }
    ensures asked { AreAsked file.now.uid file.now.gid file.now.handle.now file.now.size job.new.pass.main asked.new.items }
{
    let mut next = 0;
    'pieces: while next < job.offsets.len() {
        let at = job.offsets[next];
        let submitted = ask(rt, shared, file, &mut job.pass, at, asked);
        if !submitted {
            return;
        }
        next += 1;
    }
}

/// Takes the outcomes of READs, the oldest first, up to one that doesn't come.
fn take_all<R: Wait, I: LinkSource + Drop, O: LinkSink + Drop, C: CallRule>(
    rt: &R,
    shared: &SharedRequester<I, O, C>,
    _file: &FileToRead<'_>,
    job: &mut ReadJob<I, O, C>,
    asked: &mut Vec<AskedPiece>,
)
    requires done { IsDone shared.now _file.now.uid _file.now.gid _file.now.handle.now _file.now.size job.old }
    requires asked { AreAsked _file.now.uid _file.now.gid _file.now.handle.now _file.now.size job.old.pass.main asked.old.items }
    ensures done { IsDone shared.now _file.now.uid _file.now.gid _file.now.handle.now _file.now.size job.new }
    ensures asked { AreAsked _file.now.uid _file.now.gid _file.now.handle.now _file.now.size job.new.pass.main asked.new.items }
{
    'pieces: while asked.len() > 0 {
        let AskedPiece { at, ticket } = asked.remove(0);
        let Done {
            call,
            buffers,
            outcome,
        } = match shared.wait(rt, &mut job.pass, ticket) {
            Ok(done) => done,
            Err(_) => return,
        };
        drop(call);
        drop(buffers);
        match job.fetched.push(PieceRead { at, outcome }) {
            Ok(()) => {}
            Err(_) => return,
        }
    }
}

/// Forgets all READs that are outstanding.
fn forget_all<R: Wait, I: LinkSource + Drop, O: LinkSink + Drop, C: CallRule>(
    rt: &R,
    shared: &SharedRequester<I, O, C>,
    _file: &FileToRead<'_>,
    job: &mut ReadJob<I, O, C>,
    mut asked: Vec<AskedPiece>,
)
    requires done { IsDone shared.now _file.now.uid _file.now.gid _file.now.handle.now _file.now.size job.old }
    requires asked { AreAsked _file.now.uid _file.now.gid _file.now.handle.now _file.now.size job.old.pass.main asked.items }
    ensures done { IsDone shared.now _file.now.uid _file.now.gid _file.now.handle.now _file.now.size job.new }
{
    'pieces: while asked.len() > 0 {
        let AskedPiece { ticket, .. } = asked.remove(0);
        shared.forget(rt, &mut job.pass, ticket);
    }
}

/// Reads the pieces of a job, whose READs are outstanding at once, up to one that gets no answer.
pub(crate) fn fetch<R: Wait, I: LinkSource + Drop, O: LinkSink + Drop, C: CallRule>(
    rt: &R,
    shared: &SharedRequester<I, O, C>,
    file: &FileToRead<'_>,
    job: &mut ReadJob<I, O, C>,
)
    requires rule { IsRuleOf C.allows file.now.uid file.now.gid file.now.handle.now file.now.size }
    requires ready { IsReady shared.now file.now.uid file.now.gid file.now.handle.now file.now.size job.old }
    ensures { IsDone shared.now file.now.uid file.now.gid file.now.handle.now file.now.size job.new }
{
    let mut asked = Vec::new(file.alloc);
    ask_all(rt, shared, file, job, &mut asked);
    take_all(rt, shared, file, job, &mut asked);
    forget_all(rt, shared, file, job, asked);
}
