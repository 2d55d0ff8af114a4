//! The server.

ghost use Rattle.std.specs.Prelude.{◌≡◌, ◌+◌, ◌<◌, ◌≤◌, ◌^◌, [], ◌∷◌, ◌++◌, List, ℕ, length, None, Some, Ok, Err, IfOk, IfErr, OnOk, OnErr, IsOk, drop, ◌≢◌};
ghost use Rattle.nr_nfs_args.specs.Arguments.{nfs_arguments_codec};
ghost use Rattle.nr_nfs_base.specs.Codec.{read_all};
ghost use Rattle.nr_reduce.specs.declared.mark.Entry.{Entry};
ghost use Rattle.nr_rpc.specs.Reading.{call_of};
ghost use Rattle.nr_tree.specs.Rules.{IsWithinCapacity, entry_cost as cost_of_entry};
ghost use Rattle.nr_tree.specs.Steps.{IsBelow, IsBounded};
ghost use Rattle.nr_plain.specs.Setup.{Setup, caller_of, space_of, time_of};
ghost use Rattle.nr_plain.specs.private.Code.{IsHeadWithin, changes_from, entry_of, reply_from, tree_from, version2_answer};
ghost use Rattle.nr_plain.specs.Journal.{nfs_procedure_of, cost_of};
ghost use Rattle.nr_plain.specs.Replies.{nfs_by_procedure, nfs_call, mount_call, program_call, cred_refusal, answer_to};
ghost use Rattle.nr_plain.specs.Stands.{RepresentsJournal, ExecutesCall, IsCause, cache_kept, state_kept, state_after_answer};
ghost use Rattle.nr_plain.specs.ReplySizes.{any_reply_max, reply_max};
ghost use Rattle.nr_plain.specs.History.{entries_added};
ghost use Rattle.nr_plain.specs.Numbered.{IsSameButRoom, RepresentsTagged};
ghost use Rattle.nr_reduce.specs.declared.mark.TaggedEntry.{TaggedEntry};
ghost use Rattle.nr_plain.specs.private.Executing.{ExecutedNow, IsFound, IsRefusedBy, IsShort};
ghost use Rattle.nr_cache.specs.Caches.{HasClient, RemembersAll, found_by};
ghost use Rattle.nr_cache.specs.Entries.{KeptEntry};
ghost use Rattle.nr_cache.specs.Entries.Finding.{NewCall};
ghost use Rattle.nr_cache.specs.Windows.{finding_of};

use crate::call::{Call, Change, Request};
use crate::caller::{caller, time};
use crate::dispatch::run;
use crate::encoding::{accepted_head, refused};
use crate::fault::Fault;
use crate::mount;
use nr_cache::{Cache, Found};
use nr_nfs_base::{
    MOUNT_PROGRAM, MOUNT_VERSION, MountProcedure, NFS_PROGRAM, NFS_VERSION, NfsProcedure, Numbered,
    Verifier,
};
use nr_outside::Moment;
use nr_rpc::{AUTH_SYS, CallHead, Cred, HeadFault, RPC_VERSION, ReplyHead, read_call};
use nr_tree::{ENTRY_COST, Space, Tree};
use nr_xdr::{Memory, Octets};
use std::alloc::Global;
use std::marker::Model;

/// A serial RPC server of NFS and MOUNT. It stands for its journal and does not keep it: what it keeps is the tree, the
/// length and the cost of the journal, and replies of clients that have a number.
#[derive(Drop)]
pub struct Server {
    tree: Tree,
    count: u64,
    cost: u64,
    capacity: u64,
    verifier: Verifier,
    export: Octets,
    cache: Option<Cache>,
}

impl Model for Server {
    ghost use Rattle.nr_plain.specs.Stands.{PlainServerState, cache_kept, kept_code, IsServing};

    ghost Value = { PlainServerState };

    ghost coded = { kept_code };

    ghost view = { λ s. record { tree = s.tree; count = s.count; cost = s.cost; parameters = record { capacity = s.capacity; verifier = s.verifier; export = s.export }; cache = cache_kept s.cache } };

    ghost invariant = { λ s. IsServing (record { tree = s.tree; count = s.count; cost = s.cost; parameters = record { capacity = s.capacity; verifier = s.verifier; export = s.export }; cache = cache_kept s.cache }) };
}

/// The reply to a call, also to one that is refused or is no NFS procedure.
#[derive(Drop)]
pub struct Reply {
    /// The RPC reply.
    pub payload: Octets,
    /// How many entries the journal had before the call.
    pub place: u64,
}

/// The accept status of a call of another program (RFC 5531 section 9).
const PROG_UNAVAIL: u32 = 1;

/// The accept status of a call of another procedure.
const PROC_UNAVAIL: u32 = 3;

/// The status of AUTH_SYS whose body can't be read (RFC 5531 section 9, `auth_stat`).
const AUTH_BADCRED: u32 = 1;

/// The status of another flavor.
const AUTH_TOOWEAK: u32 = 5;

impl Server {
    /// A server of a tree, with an empty journal. `capacity` is what the journal may cost, `export` the path that may
    /// be mounted. `Tree::root_only` and `Tree::drill` give trees as it asks for.
    pub fn open(tree: Tree, capacity: u64, verifier: Verifier, export: Octets) -> Server
        // The next number and each next cookie: each entry of the journal raises them by one at most, so they stay
        // below 2^63.
        requires below { IsBelow (2 ^ 62) tree }
        requires capacity { capacity < 2 ^ 63 }
        ensures journal { RepresentsJournal (record { tree = tree; parameters = record { capacity = capacity; verifier = verifier; export = export } }) [] result }
        // It remembers no reply.
        ensures numbered { RepresentsTagged (record { tree = tree; parameters = record { capacity = capacity; verifier = verifier; export = export } }) [] result }
    {
        tree.facts();
        Server {
            tree,
            count: 0,
            cost: 0,
            capacity,
            verifier,
            export,
            cache: None,
        }
    }

    /// How many entries the journal has.
    pub fn journal_len(&self) -> u64
        ensures len { (s : Setup) (J : List Entry) → RepresentsJournal s J self.now → result ≡ length J }
        // Each entry costs at least 64, and the capacity is below 2^63.
        ensures below { result < 2 ^ 60 }
    {
        self.count
    }

    /// What the journal costs: 64 for each entry, and the bytes of its arguments.
    pub fn journal_cost(&self) -> u64
        ensures { (s : Setup) (J : List Entry) → RepresentsJournal s J self.now → result ≡ cost_of s J (length J) }
    {
        self.cost
    }

    /// Executes a call. The reply is that of the plain server over the journal; a change that succeeds is then its next
    /// entry. After an `Err` the server is as before.
    pub fn execute(&mut self, alloc: Global, now: Moment, payload: &[u8]) -> Result<Reply, Fault>
        ensures executed { IfOk result (λ r. (s : Setup) (J : List Entry) → RepresentsJournal s J self.old → ExecutesCall s J now payload.now r.payload r.place self.new) }
        // The call is one of a client without a number.
        ensures numbered { IfOk result (λ r. (s : Setup) (T : List TaggedEntry) → RepresentsTagged s T self.old → RepresentsTagged s (T ++ entries_added 0 now payload.now r.payload) self.new) }
        ensures call { IfOk result (λ _. IsOk (call_of payload.now)) }
        ensures limit { IfOk result (λ r. length r.payload ≤ any_reply_max) }
        ensures cause { IfErr result (λ e. IsCause e (call_of payload.now)) }
        ensures err { OnErr result (self.new ≡ self.old) }
    {
        self.execute_now(alloc, now, payload)
    }

    /// Executes a call.
    pub(crate) fn execute_now(
        &mut self,
        alloc: Global,
        now: Moment,
        payload: &[u8],
    ) -> Result<Reply, Fault>
        ensures executed { IfOk result (λ r. ExecutedNow self.old now payload.now r.payload r.place self.new) }
        ensures call { IfOk result (λ _. IsOk (call_of payload.now)) }
        ensures limit { IfOk result (λ r. length r.payload ≤ any_reply_max) }
        ensures cause { IfErr result (λ e. IsCause e (call_of payload.now)) }
        ensures err { OnErr result (self.new ≡ self.old) }
    {
        let place = self.count;
        let head = match read_call(alloc, payload) {
            Ok(head) => head,
            Err(HeadFault::NotCall { at }) => return Err(Fault::NotCall { at }),
            Err(_) => return Err(Fault::Memory),
        };
        let reply = self.answer(alloc, now, payload, &head);
        drop(head);
        Ok(Reply {
            payload: reply?,
            place,
        })
    }

    /// How many entries the journal has.
    pub(crate) fn count(&self) -> u64
        ensures { result ≡ self.now.count }
    {
        self.count
    }

    /// The reply of a call that is kept, with its place; `None` for a new one.
    pub(crate) fn remembered(
        &self,
        alloc: Global,
        client: u64,
        xid: u32,
    ) -> Result<Option<Reply>, Fault>
        requires { client ≢ 0 }
        ensures found { IfOk result (λ r. IsFound r (found_by self.now.cache client xid)) }
        ensures short { IfOk result (λ r. IsShort r) }
        ensures refused { IfErr result (λ e. IsRefusedBy e (found_by self.now.cache client xid)) }
    {
        match &self.cache {
            None => Ok(None),
            Some(cache) => reply_found(alloc, cache.find(client, xid)),
        }
    }

    /// Makes the room for the replies of a client.
    pub(crate) fn make_ready(&mut self, alloc: Global, client: u64) -> Result<(), Memory>
        requires { client ≢ 0 }
        ensures room { OnOk result (HasClient self.new.cache client) }
        ensures same { IsSameButRoom self.old self.new }
        ensures new { (xid : ℕ) → found_by self.old.cache client xid ≡ NewCall → found_by self.new.cache client xid ≡ NewCall }
    {
        make_room(alloc, &mut self.cache, client)
    }

    /// Keeps the reply of a new call of a client.
    pub(crate) fn keep(&mut self, client: u64, xid: u32, place: u64, reply: Octets)
        requires number { client ≢ 0 }
        requires room { HasClient self.old.cache client }
        requires new { found_by self.old.cache client xid ≡ NewCall }
        requires short { length reply ≤ reply_max }
        ensures rest { record self.new { cache = self.old.cache } ≡ self.old }
        ensures kept { (E : List KeptEntry) → RemembersAll E self.old.cache →
            RemembersAll (E ++ record { client = client; xid = xid; place = place; reply = reply } ∷ []) self.new.cache }
    {
        match &mut self.cache {
            Some(cache) => cache.keep(client, xid, place, reply),
            None => unreachable!(),
        }
    }

    /// What a call finds beside the tree.
    fn space(&self, arguments: &[u8]) -> Space
        ensures { result ≡ space_of self.now.parameters (state_kept self.now) arguments.now }
    {
        Space {
            capacity: self.capacity,
            used: self.cost,
            arguments: arguments.len() as u64,
            verifier: self.verifier,
        }
    }

    /// Executes a procedure of NFS.
    fn nfs_procedure(
        &mut self,
        alloc: Global,
        request: &Request,
        p: NfsProcedure,
    ) -> Result<Octets, Memory>
        requires { nfs_procedure_of request.now.proc ≡ Some p }
        ensures reply { IfOk result (λ o. o ≡ (nfs_by_procedure self.old.parameters (state_kept self.old) request.now.xid (entry_of request.now) (Some p)).reply) }
        ensures kept { OnOk result (self.new ≡ state_after_answer self.old (nfs_by_procedure self.old.parameters (state_kept self.old) request.now.xid (entry_of request.now) (Some p)).entries) }
        ensures err { OnErr result (self.new ≡ self.old) }
    {
        let space = self.space(request.arguments);
        let change = executed(alloc, &mut self.tree, space, request, p)?;
        self.tree.facts();
        if change.is_entry {
            self.count += 1;
            self.cost += entry_cost(request.arguments);
        }
        Ok(change.reply)
    }

    /// Answers a call of NFS.
    #[tactic(auto, unfolding(crate::specs::Replies::nfs_call))]
    fn nfs(&mut self, alloc: Global, request: &Request, vers: u32) -> Result<Octets, Memory>
        ensures reply { IfOk result (λ o. o ≡ (nfs_call self.old.parameters (state_kept self.old) request.now.xid vers (entry_of request.now)).reply) }
        ensures kept { OnOk result (self.new ≡ state_after_answer self.old (nfs_call self.old.parameters (state_kept self.old) request.now.xid vers (entry_of request.now)).entries) }
        ensures err { OnErr result (self.new ≡ self.old) }
    {
        let xid = request.xid;
        if vers != NFS_VERSION {
            return refused(
                alloc,
                ReplyHead::ProgMismatch {
                    xid,
                    low: NFS_VERSION,
                    high: NFS_VERSION,
                },
            );
        }
        match NfsProcedure::from_number(request.proc) {
            Some(p) => self.nfs_procedure(alloc, request, p),
            None => refused(alloc, accepted_head(xid, PROC_UNAVAIL)),
        }
    }

    /// Answers a call of MOUNT.
    #[tactic(auto, unfolding(crate::specs::Replies::mount_call))]
    fn mount(&self, alloc: Global, request: &Request, vers: u32) -> Result<Octets, Memory>
        ensures { IfOk result (λ o. o ≡ (mount_call self.now.parameters request.now.xid vers (entry_of request.now)).reply) }
    {
        let xid = request.xid;
        if vers != MOUNT_VERSION {
            return refused(
                alloc,
                ReplyHead::ProgMismatch {
                    xid,
                    low: MOUNT_VERSION,
                    high: MOUNT_VERSION,
                },
            );
        }
        match MountProcedure::from_number(request.proc) {
            Some(p) => mount::reply(alloc, xid, self.export.as_slice(), p, request.arguments),
            None => refused(alloc, accepted_head(xid, PROC_UNAVAIL)),
        }
    }

    /// Answers a call whose credential is accepted.
    fn program(
        &mut self,
        alloc: Global,
        request: &Request,
        prog: u32,
        vers: u32,
    ) -> Result<Octets, Memory>
        ensures reply { IfOk result (λ o. o ≡ (program_call self.old.parameters (state_kept self.old) request.now.xid prog vers (entry_of request.now)).reply) }
        ensures kept { OnOk result (self.new ≡ state_after_answer self.old (program_call self.old.parameters (state_kept self.old) request.now.xid prog vers (entry_of request.now)).entries) }
        ensures err { OnErr result (self.new ≡ self.old) }
    {
        if prog == NFS_PROGRAM {
            self.nfs(alloc, request, vers)
        } else if prog == MOUNT_PROGRAM {
            self.mount(alloc, request, vers)
        } else {
            refused(alloc, accepted_head(request.xid, PROG_UNAVAIL))
        }
    }

    /// Answers a call with this head.
    fn answer(
        &mut self,
        alloc: Global,
        now: Moment,
        payload: &[u8],
        head: &CallHead,
    ) -> Result<Octets, Memory>
        requires { IsHeadWithin payload.now head.now }
        ensures reply { IfOk result (λ o. o ≡ (answer_to self.old.parameters (state_kept self.old) now payload.now head.now).reply) }
        ensures kept { OnOk result (self.new ≡ state_after_answer self.old (answer_to self.old.parameters (state_kept self.old) now payload.now head.now).entries) }
        ensures err { OnErr result (self.new ≡ self.old) }
    {
        match head {
            CallHead::Other { xid, .. } => refused(
                alloc,
                ReplyHead::RpcMismatch {
                    xid: *xid,
                    low: RPC_VERSION,
                    high: RPC_VERSION,
                },
            ),
            CallHead::Version2 {
                xid,
                prog,
                vers,
                proc,
                cred,
                args_at,
            } => {
                let request = Request {
                    xid: *xid,
                    moment: now,
                    cred,
                    proc: *proc,
                    arguments: rest(payload, *args_at),
                };
                self.version2(alloc, &request, *prog, *vers)
            }
        }
    }

    /// Answers a call of RPC version 2.
    fn version2(
        &mut self,
        alloc: Global,
        request: &Request,
        prog: u32,
        vers: u32,
    ) -> Result<Octets, Memory>
        ensures reply { IfOk result (λ o. o ≡ (version2_answer self.old request.now prog vers).reply) }
        ensures kept { OnOk result (self.new ≡ state_after_answer self.old (version2_answer self.old request.now prog vers).entries) }
        ensures err { OnErr result (self.new ≡ self.old) }
    {
        match cred_status(request.cred) {
            None => self.program(alloc, request, prog, vers),
            Some(stat) => refused(
                alloc,
                ReplyHead::AuthError {
                    xid: request.xid,
                    stat,
                },
            ),
        }
    }
}

/// The reply of a call that is found so, if it is kept.
fn reply_found(alloc: Global, found: Found<'_>) -> Result<Option<Reply>, Fault>
    ensures found { IfOk result (λ r. IsFound r (finding_of found.entry)) }
    ensures refused { IfErr result (λ e. IsRefusedBy e (finding_of found.entry)) }
{
    match found {
        Found::Old { top } => Err(Fault::Old { top }),
        Found::New => Ok(None),
        Found::Kept { place, reply } => Ok(Some(Reply {
            payload: Octets::from_slice(alloc, reply)?,
            place,
        })),
    }
}

/// Makes the room for the replies of a client in a cache, which is made for the first one.
fn make_room(alloc: Global, cache: &mut Option<Cache>, client: u64) -> Result<(), Memory>
    requires { client ≢ 0 }
    ensures room { OnOk result (HasClient (cache_kept cache.new) client) }
    ensures same { (E : List KeptEntry) → RemembersAll E (cache_kept cache.old) → RemembersAll E (cache_kept cache.new) }
{
    if let Some(made) = cache {
        return made.ready(client);
    }
    let mut made = Cache::new(alloc);
    made.ready(client)?;
    *cache = Some(made);
    Ok(())
}

/// Executes a procedure of NFS over a tree. After an `Err` the tree is as before.
fn executed(
    alloc: Global,
    tree: &mut Tree,
    space: Space,
    request: &Request,
    p: NfsProcedure,
) -> Result<Change, Memory>
    requires bounded { IsBounded tree.old }
    requires space { IsWithinCapacity space }
    ensures result { IfOk result (λ r. (r.reply ≡ reply_from request.now.xid tree.old (caller_of request.now.cred.now) space (time_of request.now.moment) p (read_all (nfs_arguments_codec p) request.now.arguments.now))
        × (r.is_entry ≡ changes_from tree.old (caller_of request.now.cred.now) space (time_of request.now.moment) p (read_all (nfs_arguments_codec p) request.now.arguments.now))) }
    ensures tree { OnOk result (tree.new ≡ tree_from tree.old (caller_of request.now.cred.now) space (time_of request.now.moment) p (read_all (nfs_arguments_codec p) request.now.arguments.now)) }
    ensures err { OnErr result (tree.new ≡ tree.old) }
{
    let caller = caller(alloc, request.cred)?;
    let call = Call {
        xid: request.xid,
        time: time(request.moment),
        caller: &caller,
        space,
        arguments: request.arguments,
    };
    let change = run(alloc, tree, p, &call);
    drop(caller);
    change
}

/// What the journal's entry of a call with these arguments costs.
fn entry_cost(arguments: &[u8]) -> u64
    requires { length arguments.now < 2 ^ 63 }
    ensures { result ≡ cost_of_entry + length arguments.now }
{
    ENTRY_COST + arguments.len() as u64
}

/// The bytes from an offset on.
pub(crate) fn rest(payload: &[u8], at: usize) -> &[u8]
    requires { at ≤ length payload.now }
    ensures { result.now ≡ drop at payload.now }
{
    let (_, rest) = payload.split_at(at);
    rest
}

/// Why a credential is refused, if it is (RFC 5531 section 9, `auth_stat`).
pub(crate) fn cred_status(cred: &Cred) -> Option<u32>
    ensures { result ≡ cred_refusal cred.now }
{
    match cred {
        Cred::None => None,
        Cred::Sys { .. } => None,
        Cred::Other { flavor } => {
            if *flavor == AUTH_SYS {
                Some(AUTH_BADCRED)
            } else {
                Some(AUTH_TOOWEAK)
            }
        }
    }
}
