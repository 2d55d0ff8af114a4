//! A session of a client: requests of a user over one link.

ghost use Rattle.std.specs.Prelude.{◌≡◌, ◌<◌, ◌≤◌, OnOk, IfOk, IfErr, IfSome};
ghost use Rattle.nr_outside.specs.Streams.{sink_at, source_at};
ghost use Rattle.nr_nfs_base.specs.declared.attributes.Attributes.{Attributes};
ghost use Rattle.nr_links.specs.Asked.{Asks as AsksFor};
ghost use Rattle.nr_links.specs.Links.{CountsLost, EndsLink, HasOpenLink, IsNewLink, IsTold, MakesLink, ended_link};
ghost use Rattle.nr_link.specs.Agreement.{terms_with};
ghost use Rattle.nr_requester.specs.AfterCalls.{numbered_terms, opened_as};
ghost use Rattle.nr_shared.specs.Standing.{tries_max};
ghost use Rattle.nr_client.specs.Following.{FollowsOver};
ghost use Rattle.nr_client.specs.Jobs.{ReadsFileByJobs, jobs_max, link_at};
ghost use Rattle.nr_client.specs.Listing.{list_next};
ghost use Rattle.nr_client.specs.Dialing.{OpenFails, dialer_at, session_credits};
ghost use Rattle.nr_client.specs.Requests.{CountsFaultsOver, AsksOver, create_result, getattr_call, getattr_result, lookup_call, lookup_result, mkdir_call, mnt_call, mnt_result, readlink_call, readlink_result, remove_call, remove_result, symlink_call};
ghost use Rattle.nr_client.specs.Reading.{InputFaults, OutputFaults, ReadsFileOver};
ghost use Rattle.nr_client.specs.LinkParts.{RepresentsNewLink};
ghost use Rattle.nr_client.specs.Numbered.{ClosesNumbered, NumberedFails, OpensNumbered};
ghost use Rattle.nr_client.specs.Writing.{StopsAtFault, WritesFileOver};
ghost use Rattle.nr_client.specs.Walking.{parent_next, walk_next};

use crate::asking::{ask_nfs, mount_over};
use crate::client_end::ClientEnd;
use crate::file_to_read::FileToRead;
use crate::jobs::read_shared;
use crate::limits::CREDITS;
use crate::link::Link;
use crate::link_calls::Calls;
use crate::listing::list_over;
use crate::names::Names;
use crate::read_file::read_file_over;
use crate::requests::{
    getattr_call, lookup_call, mkdir_call, readlink_call, remove_call, symlink_call,
};
use crate::shared_link::SharedLink;
use crate::unnumbered::{UnnumberedSink, UnnumberedSource};
use crate::walking::{walk_over, walk_to_parent_over};
use crate::write_file::write_file_over;
use nr_links::{Dialer, LinkNumber, LinkSink, LinkSource, NumberedSink, NumberedSource};
use nr_nfs_base::{Attributes, Handle, MountPath, Name, Path, WccData};
use nr_nfs_res::{CreateOk, LookupOk, ReadlinkOk};
use nr_outside::{Sink, Source};
use std::alloc::Global;
use std::marker::{Brand, Model};
use std::sync::Wait;
use std::thread::Threads;

/// Requests of a user over one link. Each call has an AUTH_SYS credential with the user and the group, the machine `nfsrdma` and no
/// further groups.
pub struct Session<L> {
    alloc: Global,
    link: L,
    uid: u32,
    gid: u32,
}

impl<L> Model for Session<L> {
    ghost use Rattle.nr_client.specs.SessionState.{SessionState};
    ghost use Rattle.std.specs.Coded.{codes};
    ghost use Rattle.nr_endpoint.specs.Codes.{state_code};

    ghost Value = { SessionState L };

    ghost coded = { Prim.hlevel (codes, state_code) };

    ghost view = { λ s. record { link = s.link; uid = s.uid; gid = s.gid } };
}

impl<P: LinkSource, Q: LinkSink, N: LinkNumber> Session<
    Link<NumberedSource<P, N>, NumberedSink<Q, N>>,
> {
    /// A session of a user over a link to this address, with this many units for the client's Sends in each direction, of 1,024 bytes each, 1 to
    /// 16 (0 counts as 1, and more than 16 as 16), and with Sends with Invalidate, if it takes them and the server makes them. `DialFault` if the
    /// dialer failed. If memory runs out, the link is hung up as it was made.
    pub fn open<D: Dialer<Source = P, Sink = Q>>(
        alloc: Global,
        dialer: &mut D,
        addr: &str,
        uid: u32,
        gid: u32,
        units: u8,
        invalidates: bool,
    ) -> Result<Session<Link<NumberedSource<P, N>, NumberedSink<Q, N>>>, ClientEnd>
        requires { D.next dialer.old ≡ N.number }
        ensures asked { OnOk result (AsksFor (D.asked dialer.old) (D.asked dialer.new) addr.now) }
        ensures made { OnOk result (MakesLink (D.ended dialer.old) (D.ended dialer.new)) }
        ensures counts { OnOk result (IfSome (D.ended dialer.old) (λ log. log.made ≡ N.number)) }
        ensures fresh { IfOk result (λ s. IsNewLink (P.given s.link.source.source) (Q.taken s.link.sink.sink) (P.faults s.link.source.source) (Q.faults s.link.sink.sink)) }
        ensures told { IfOk result (λ s. IsTold (D.ended dialer.new) (P.given s.link.source.source) (P.left s.link.source.source) (Q.taken s.link.sink.sink)) }
        ensures state { IfOk result (λ s. (s.link.requester ≡ opened_as 1 1 session_credits (terms_with units invalidates) s.link.requester.staging) × ((s.link.read ≡ 0) × ((s.uid ≡ uid) × (s.gid ≡ gid)))) }
        ensures stands { IfOk result (λ s. RepresentsNewLink s.link.requester session_credits (terms_with units invalidates)) }
        ensures err { IfErr result (λ end. OpenFails end addr.now (dialer_at (D.asked dialer.old) (D.ended dialer.old) (D.lost dialer.old) (D.faults dialer.old))
            (dialer_at (D.asked dialer.new) (D.ended dialer.new) (D.lost dialer.new) (D.faults dialer.new))) }
        ensures counted { OnOk result (D.faults dialer.new ≡ D.faults dialer.old) }
        ensures lost { OnOk result (D.lost dialer.new ≡ D.lost dialer.old) }
    {
        let (source, sink) = match dialer.dial(addr) {
            Ok(link) => link,
            Err(_) => return Err(ClientEnd::DialFault),
        };
        let source = NumberedSource::new(source);
        let sink = NumberedSink::new(sink);
        match Link::open(alloc, source, sink, CREDITS, units, invalidates) {
            Ok(link) => Ok(Session {
                alloc,
                link,
                uid,
                gid,
            }),
            Err((source, sink)) => {
                dialer.hang_up(source.into_inner(), sink.into_inner());
                Err(ClientEnd::Memory)
            }
        }
    }

    /// Ends the session: its link, which this dialer made, is hung up. It can't fail, and takes no memory.
    pub fn close<D: Dialer<Source = P, Sink = Q>>(self, dialer: &mut D)
        requires { HasOpenLink (D.ended dialer.old) }
        ensures ended { EndsLink (D.ended dialer.old) (D.ended dialer.new)
            (ended_link N.number (P.given self.link.source.source) (P.left self.link.source.source) (Q.taken self.link.sink.sink)) }
        ensures lost { CountsLost (P.faults self.link.source.source) (Q.faults self.link.sink.sink) (D.lost dialer.old) (D.lost dialer.new) }
        ensures asked { D.asked dialer.new ≡ D.asked dialer.old }
        ensures faults { D.faults dialer.new ≡ D.faults dialer.old }
    {
        let Session {
            alloc: _alloc,
            link,
            uid: _uid,
            gid: _gid,
        } = self;
        let (source, sink) = link.into_link();
        dialer.hang_up(source.into_inner(), sink.into_inner());
    }
}

impl<
    'a,
    R: Wait,
    I: LinkSource + Drop,
    O: LinkSink + Drop,
    D: Dialer<Source = I, Sink = O>,
> Session<SharedLink<'a, R, I, O, D>> {
    /// A session of a user over a link to this address, of a client with this number, which isn't 0. If the link is lost, it is hung up and the next one
    /// is dialled to the same address, at most `tries` times in all, and the calls that weren't answered are sent again. The units of its Sends, and
    /// whether it takes Sends with Invalidate, are those of `open`.
    ///
    /// # Errors
    ///
    /// `DialFault` if the dialer failed, `Memory` if memory ran out: then a link that was made is hung up. The dialer comes back.
    pub fn open_numbered(
        rt: &'a R,
        alloc: Global,
        dialer: D,
        addr: &str,
        uid: u32,
        gid: u32,
        client: u64,
        tries: u32,
        units: u8,
        invalidates: bool,
    ) -> Result<Session<SharedLink<'a, R, I, O, D>>, (ClientEnd, D)>
    where
        D: Drop,
        requires client { 0 < client }
        requires tries { tries ≤ tries_max }
        ensures opened { IfOk result (λ s. OpensNumbered I.link I.left I.given I.faults D.asked D.ended D.faults tries (numbered_terms client units invalidates) addr.now dialer s.link.pass) }
        ensures user { IfOk result (λ s. (s.uid ≡ uid) × (s.gid ≡ gid)) }
        ensures err { IfErr result (λ back. NumberedFails I.link I.left I.given I.faults O.link O.taken O.faults D.asked D.ended D.faults tries (numbered_terms client units invalidates) addr.now dialer back.0 back.1) }
    {
        match SharedLink::open(rt, alloc, dialer, addr, client, tries, units, invalidates) {
            Ok(link) => Ok(Session {
                alloc,
                link,
                uid,
                gid,
            }),
            Err(back) => Err(back),
        }
    }

    /// Ends the session: the link at hand is hung up, if there is one. There is none if the last dial failed. The dialer comes back.
    pub fn close(self) -> D
        ensures { ClosesNumbered I.link I.left I.given I.faults O.link O.taken O.faults D.asked D.ended D.lost D.faults self.entry.link.pass result }
    {
        let Session {
            alloc: _alloc,
            link,
            uid: _uid,
            gid: _gid,
        } = self;
        link.close()
    }
}

impl<L: Calls> Session<L> {
    /// The file handle of the root of an export (MNT, RFC 1813 section 5.2.1).
    pub fn mount(&mut self, export: &MountPath) -> Result<Handle, ClientEnd>
        ensures asks { AsksOver L.relations mnt_result (mnt_call self.old.uid self.old.gid export.now) (L.at self.old.link) (L.at self.new.link) result }
        ensures user { (self.new.uid ≡ self.old.uid) × (self.new.gid ≡ self.old.gid) }
        ensures faults { CountsFaultsOver L.relations result (L.at self.old.link) (L.at self.new.link) }
    {
        mount_over(self.alloc, &mut self.link, self.uid, self.gid, export)
    }

    /// The attributes of a file (GETATTR, RFC 1813 section 3.3.1).
    pub fn stat(&mut self, file: &Handle) -> Result<Attributes, ClientEnd>
        ensures asks { AsksOver L.relations getattr_result (getattr_call self.old.uid self.old.gid file.now) (L.at self.old.link) (L.at self.new.link) result }
        ensures user { (self.new.uid ≡ self.old.uid) × (self.new.gid ≡ self.old.gid) }
        ensures faults { CountsFaultsOver L.relations result (L.at self.old.link) (L.at self.new.link) }
    {
        ask_nfs::<L, Attributes, ()>(
            self.alloc,
            &mut self.link,
            getattr_call(self.alloc, self.uid, self.gid, file),
        )
    }

    /// The object of a name in a directory (LOOKUP, RFC 1813 section 3.3.3).
    pub fn look_up(&mut self, dir: &Handle, name: &Name) -> Result<LookupOk, ClientEnd>
        ensures asks { AsksOver L.relations lookup_result (lookup_call self.old.uid self.old.gid dir.now name.now)
            (L.at self.old.link) (L.at self.new.link) result }
        ensures user { (self.new.uid ≡ self.old.uid) × (self.new.gid ≡ self.old.gid) }
        ensures faults { CountsFaultsOver L.relations result (L.at self.old.link) (L.at self.new.link) }
    {
        ask_nfs::<L, LookupOk, Option<Attributes>>(
            self.alloc,
            &mut self.link,
            lookup_call(self.alloc, self.uid, self.gid, dir, name),
        )
    }

    /// The path in a symbolic link (READLINK, RFC 1813 section 3.3.5).
    pub fn read_link(&mut self, file: &Handle) -> Result<ReadlinkOk, ClientEnd>
        ensures asks { AsksOver L.relations readlink_result (readlink_call self.old.uid self.old.gid file.now)
            (L.at self.old.link) (L.at self.new.link) result }
        ensures user { (self.new.uid ≡ self.old.uid) × (self.new.gid ≡ self.old.gid) }
        ensures faults { CountsFaultsOver L.relations result (L.at self.old.link) (L.at self.new.link) }
    {
        ask_nfs::<L, ReadlinkOk, Option<Attributes>>(
            self.alloc,
            &mut self.link,
            readlink_call(self.alloc, self.uid, self.gid, file),
        )
    }

    /// Removes a name from a directory (REMOVE, RFC 1813 section 3.3.12). The result is about the directory.
    pub fn remove(&mut self, dir: &Handle, name: &Name) -> Result<WccData, ClientEnd>
        ensures asks { AsksOver L.relations remove_result (remove_call self.old.uid self.old.gid dir.now name.now)
            (L.at self.old.link) (L.at self.new.link) result }
        ensures user { (self.new.uid ≡ self.old.uid) × (self.new.gid ≡ self.old.gid) }
        ensures faults { CountsFaultsOver L.relations result (L.at self.old.link) (L.at self.new.link) }
    {
        ask_nfs::<L, WccData, WccData>(
            self.alloc,
            &mut self.link,
            remove_call(self.alloc, self.uid, self.gid, dir, name),
        )
    }

    /// Makes a directory of this name in a directory, with mode 0755 (MKDIR, RFC 1813 section 3.3.9).
    pub fn mkdir(&mut self, dir: &Handle, name: &Name) -> Result<CreateOk, ClientEnd>
        ensures asks { AsksOver L.relations create_result (mkdir_call self.old.uid self.old.gid dir.now name.now)
            (L.at self.old.link) (L.at self.new.link) result }
        ensures user { (self.new.uid ≡ self.old.uid) × (self.new.gid ≡ self.old.gid) }
        ensures faults { CountsFaultsOver L.relations result (L.at self.old.link) (L.at self.new.link) }
    {
        ask_nfs::<L, CreateOk, WccData>(
            self.alloc,
            &mut self.link,
            mkdir_call(self.alloc, self.uid, self.gid, dir, name),
        )
    }

    /// Makes a symbolic link of this name in a directory, which holds this path (SYMLINK, RFC 1813 section 3.3.10). No attribute is given.
    pub fn link(&mut self, dir: &Handle, name: &Name, path: &Path) -> Result<CreateOk, ClientEnd>
        ensures asks { AsksOver L.relations create_result (symlink_call self.old.uid self.old.gid dir.now name.now path.now)
            (L.at self.old.link) (L.at self.new.link) result }
        ensures user { (self.new.uid ≡ self.old.uid) × (self.new.gid ≡ self.old.gid) }
        ensures faults { CountsFaultsOver L.relations result (L.at self.old.link) (L.at self.new.link) }
    {
        ask_nfs::<L, CreateOk, WccData>(
            self.alloc,
            &mut self.link,
            symlink_call(self.alloc, self.uid, self.gid, dir, name, path),
        )
    }

    /// The file handle of a path from a directory: a LOOKUP for each component, one after another (RFC 1813 section 3.3.3). If the path is
    /// bad (`BadPath`), no call is made.
    pub fn walk(&mut self, root: &Handle, path: &[u8]) -> Result<Handle, ClientEnd>
        ensures follows { FollowsOver L.relations (walk_next self.old.uid self.old.gid root.now path.now) (L.at self.old.link) (L.at self.new.link) result }
        ensures user { (self.new.uid ≡ self.old.uid) × (self.new.gid ≡ self.old.gid) }
        ensures faults { CountsFaultsOver L.relations result (L.at self.old.link) (L.at self.new.link) }
    {
        walk_over(self.alloc, &mut self.link, self.uid, self.gid, root, path)
    }

    /// The file handle of the directory that the last component of a path stands in, and that component: a LOOKUP for each component before
    /// it. If the path is bad or has no component (`BadPath`), no call is made.
    pub fn walk_to_parent(
        &mut self,
        root: &Handle,
        path: &[u8],
    ) -> Result<(Handle, Name), ClientEnd>
        ensures follows { FollowsOver L.relations (parent_next self.old.uid self.old.gid root.now path.now) (L.at self.old.link) (L.at self.new.link) result }
        ensures user { (self.new.uid ≡ self.old.uid) × (self.new.gid ≡ self.old.gid) }
        ensures faults { CountsFaultsOver L.relations result (L.at self.old.link) (L.at self.new.link) }
    {
        walk_to_parent_over(self.alloc, &mut self.link, self.uid, self.gid, root, path)
    }

    /// The names of a directory in the server's order: READDIR up to its end (RFC 1813 section 3.3.16). `Budget` if there are more than
    /// 1048576; `BadReply` with reason 25 if a reply has no entry and isn't the last.
    pub fn list(&mut self, dir: &Handle) -> Result<Names, ClientEnd>
        ensures follows { FollowsOver L.relations (list_next self.old.uid self.old.gid dir.now) (L.at self.old.link) (L.at self.new.link) result }
        ensures user { (self.new.uid ≡ self.old.uid) × (self.new.gid ≡ self.old.gid) }
        ensures faults { CountsFaultsOver L.relations result (L.at self.old.link) (L.at self.new.link) }
    {
        list_over(self.alloc, &mut self.link, self.uid, self.gid, dir)
    }

    /// Writes the bytes of a file to an output: those up to the size that GETATTR reports, in order (GETATTR and READ, RFC 1813 sections 3.3.1
    /// and 3.3.6). Two READs are outstanding, if the grant is 2 or more. `OutputFault` if the output failed, after it took only some of
    /// the bytes that came.
    pub fn read_file<K: Sink>(&mut self, file: &Handle, out: &mut K) -> Result<(), ClientEnd>
        ensures reads { ReadsFileOver L.relations self.old.uid self.old.gid file.now
            (L.at self.old.link) (L.at self.new.link) (K.taken out.old) (K.taken out.new) result }
        ensures out_faults { OutputFaults result (K.faults out.old) (K.faults out.new) }
        ensures user { (self.new.uid ≡ self.old.uid) × (self.new.gid ≡ self.old.gid) }
        ensures faults { CountsFaultsOver L.relations result (L.at self.old.link) (L.at self.new.link) }
    {
        read_file_over(self.alloc, &mut self.link, self.uid, self.gid, file, out)
    }

    /// Makes a file of this name in a directory, or empties the one that exists, and gives it the bytes of an input (CREATE and WRITE, RFC 1813
    /// sections 3.3.8 and 3.3.7). At most 1048576 bytes of the input are kept: it is read as it is written. `InputFault` if the input failed: before
    /// the first of these no call is made, and later the file has what was written. `Budget` if the input has more than 16777216 bytes, of which
    /// the first are written.
    pub fn write_file<N: Source>(
        &mut self,
        dir: &Handle,
        name: &Name,
        input: &mut N,
    ) -> Result<(), ClientEnd>
        ensures writes { WritesFileOver L.relations self.old.uid self.old.gid dir.now name.now
            (L.at self.old.link) (L.at self.new.link) (N.left input.old) (N.given input.old) (N.left input.new) (N.given input.new) result }
        ensures input_faults { InputFaults result (N.faults input.old) (N.faults input.new) }
        // Once a read of the input failed, nothing more is read of it.
        ensures input_stops { StopsAtFault N.faults N.left N.given result input.old input.new }
        ensures user { (self.new.uid ≡ self.old.uid) × (self.new.gid ≡ self.old.gid) }
        ensures faults { CountsFaultsOver L.relations result (L.at self.old.link) (L.at self.new.link) }
    {
        write_file_over(
            self.alloc,
            &mut self.link,
            self.uid,
            self.gid,
            dir,
            name,
            input,
        )
    }
}

impl<I: Source, O: Sink> Session<Link<I, O>> {
    /// As `read_file`, by several jobs, 1 to 16, each in a thread of its own if there is one. The session ends: its source and its sink come back.
    /// At most one piece of each job, of 1048576 bytes, is held ahead of what was written.
    pub fn read_file_by_jobs<R: Threads + Wait + Sync, K: Sink>(
        self,
        rt: &R,
        file: &Handle,
        jobs: usize,
        out: &mut K,
    ) -> (Result<(), ClientEnd>, I, O)
    where
        I: Drop + Send,
        O: Drop + Send,
        requires { (0 < jobs) × (jobs ≤ jobs_max) }
        ensures reads { ReadsFileByJobs self.uid self.gid file.now
            (link_at self.link.requester (source_at (I.left self.link.source) (I.given self.link.source) (I.faults self.link.source)) (sink_at (O.taken self.link.sink) (O.faults self.link.sink)) self.link.read)
            (source_at (I.left result.1) (I.given result.1) (I.faults result.1)) (sink_at (O.taken result.2) (O.faults result.2)) (K.taken out.old) (K.taken out.new) result.0 }
        ensures out_faults { OutputFaults result.0 (K.faults out.old) (K.faults out.new) }
    {
        let Session {
            alloc,
            mut link,
            uid,
            gid,
        } = self;
        let call = getattr_call(alloc, uid, gid, file);
        let size = match ask_nfs::<Link<I, O>, Attributes, ()>(alloc, &mut link, call) {
            Ok(attributes) => attributes.size,
            Err(end) => {
                let (source, sink) = link.into_link();
                return (Err(end), source, sink);
            }
        };
        let link = link.into_ends();
        let file = FileToRead {
            alloc,
            uid,
            gid,
            handle: file,
            size,
            jobs,
        };
        let (result, source, sink) = read_shared::<
            Brand,
            Brand,
            R,
            UnnumberedSource<I>,
            UnnumberedSink<O>,
            K,
        >(rt, link, &file, out);
        let UnnumberedSource { source } = source;
        let UnnumberedSink { sink } = sink;
        (result, source, sink)
    }
}
