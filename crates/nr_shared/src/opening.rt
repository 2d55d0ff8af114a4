//! A requester is shared, and given back.

ghost use Rattle.std.specs.Prelude.{◌≡◌, ◌≢◌, ◌<◌, ◌≤◌, [], ◌∷◌, List, None, Some, IfSome, IfOk, IfErr};
ghost use Rattle.std.specs.String.{string_bytes};
ghost use Rattle.nr_outside.specs.Faults.{last_count};
ghost use Rattle.nr_link.specs.declared.end.End.TheVariants as ends;
ghost use Rattle.nr_links.specs.Limits.{read_max};
ghost use Rattle.nr_requester.specs.Fed.{fed_bytes};
ghost use Rattle.nr_turnstile.specs.Passes.{Rests, home_of, id_of, seen_by, mine_of};
ghost use Rattle.nr_shared.specs.declared.source_reader.InitialSource.{InitialSource};
ghost use Rattle.nr_shared.specs.Callers.{IsCaller};
ghost use Rattle.nr_shared.specs.Feeding.{FeedsFor, address_of};
ghost use Rattle.nr_shared.specs.Opening.{GivesBack, IsInitialHistory};
ghost use Rattle.nr_links.specs.Links.{HasOpenLink};
ghost use Rattle.nr_shared.specs.Numbered.{HangsUpBack, IsBegun, IsNotShared, NumberedOpened, NumberedRefused};
ghost use Rattle.nr_shared.specs.Standing.{Stands, bytes_before};
ghost use Rattle.nr_shared.specs.private.Reading.{both};
ghost use Rattle.nr_shared.specs.declared.no_dialer.NoDialer.{NoDialer};
ghost use Rattle.nr_shared.specs.Sharing.{SharedRests};

use crate::appending::Appended;
use crate::call_rule::CallRule;
use crate::entry::Entry;
use crate::no_dialer::NoDialer;
use crate::requester_with_sink::RequesterWithSink;
use crate::shared::{Pass, SharedRequester};
use crate::source_reader::{InitialSource, SourceReader};
use nr_links::{Dialer, LinkSink, LinkSource, PIECE_MAX};
use nr_requester::Requester;
use nr_turnstile::{OpeningHistory, Turnstile};
use std::alloc::Global;
use std::marker::{Brand, PhantomData};
use std::snapshot::Snapshot;
use std::sync::Wait;

/// The history whose one entry is the initial state of a requester.
pub struct InitialHistory<K> {
    of: PhantomData<K>,
}

impl<K: Appended> OpeningHistory<Entry> for InitialHistory<K> {
    ghost history = { K.entry ∷ [] };
}

/// The history of a source, for the proof.
pub trait SourceHistory<I, O, C, D> {
    ghost use Rattle.nr_shared.specs.declared.source_reader.InitialSource.{InitialSource};

    ghost source_history: { List (InitialSource I O C D) };
}

impl<I, O, C, D> SourceHistory<I, O, C, D> for Brand {
    ghost source_history = { [] };
}

/// Its name.
pub struct SourceHistoryOf<K> {
    of: PhantomData<K>,
}

impl<I: LinkSource, O: LinkSink, C: CallRule, D, K: SourceHistory<I, O, C, D>> OpeningHistory<
    InitialSource<I, O, C, D>,
> for SourceHistoryOf<K> {
    ghost history = { K.source_history };
}

/// A shared requester and a pass, or the requester that can't be shared for want of memory, with its link and its dialer.
type Shared<I, O, C, D> = Result<
    (SharedRequester<I, O, C, D>, Pass<I, O, C, D>),
    (Requester, Option<(I, O)>, D),
>;

/// Puts the source, with the pass that feeds, in a turnstile.
fn share_reader<
    I: LinkSource + Drop,
    O: LinkSink + Drop,
    C: CallRule,
    D: Dialer<Source = I, Sink = O> + Drop,
    K: SourceHistory<I, O, C, D>,
>(
    alloc: Global,
    reader: SourceReader<I, O, C, D>,
    _source: &Snapshot<I>,
    _dialer: &Snapshot<D>,
    _addr: &Snapshot<String>,
    _pass: &Snapshot<nr_turnstile::Pass<RequesterWithSink<O, C>>>,
) -> Result<
    (
        Turnstile<SourceReader<I, O, C, D>>,
        nr_turnstile::Pass<SourceReader<I, O, C, D>>,
    ),
    SourceReader<I, O, C, D>,
>
    requires source_history { record { source = _source.now; dialer = _dialer.now; addr = _addr.now; pass = _pass.now; read = reader.read } ∷ [] ≡ K.source_history }
    requires feeds { FeedsFor I.link I.left I.given I.faults D.asked D.ended D.faults (record { source = _source.now; dialer = _dialer.now; addr = _addr.now; pass = _pass.now; read = reader.read }) reader }
    ensures ok { IfOk result (λ t. Rests t.0 t.1 × (seen_by t.1 ≡ record { source = _source.now; dialer = _dialer.now; addr = _addr.now; pass = _pass.now; read = reader.read } ∷ [])) }
    ensures err { IfErr result (FeedsFor I.link I.left I.given I.faults D.asked D.ended D.faults (record { source = _source.now; dialer = _dialer.now; addr = _addr.now; pass = _pass.now; read = reader.read })) }
{
    match Turnstile::new_or_value::<SourceHistoryOf<K>>(alloc, reader) {
        Ok(pair) => Ok(pair),
        Err(reader) => Err(reader),
    }
}

/// Takes the requester and the sink out of their turnstile, with the pass of a caller and the one that feeds. There is no link if the last dial failed.
fn take_back<
    R: Wait,
    I: LinkSource + Drop,
    O: LinkSink + Drop,
    C: CallRule,
    D: Dialer<Source = I, Sink = O>,
>(
    rt: &R,
    main: Turnstile<RequesterWithSink<O, C>>,
    mut caller: nr_turnstile::Pass<RequesterWithSink<O, C>>,
    reader: SourceReader<I, O, C, D>,
) -> (Requester, Option<(I, O)>, D)
    requires rests { Rests main caller }
    requires caller { IsCaller caller }
    requires feeds { (b : InitialSource I O C D) × (FeedsFor I.link I.left I.given I.faults D.asked D.ended D.faults b reader × (home_of b.pass.value ≡ id_of main)) }
    ensures { (b : InitialSource I O C D) → FeedsFor I.link I.left I.given I.faults D.asked D.ended D.faults b reader → GivesBack I.link I.left I.given I.faults O.link O.taken O.faults D.asked D.ended D.faults C.allows (seen_by caller) (mine_of caller) b.source.value b.dialer.value (address_of b) b.read result.0 result.1 result.2 }
{
    let SourceReader {
        source,
        pass: feeding,
        dialer,
        ..
    } = reader;
    main.join(&mut caller, feeding);
    let RequesterWithSink {
        requester,
        sink,
        ..
    } = main.close(rt, caller);
    (requester, both_halves(source, sink), dialer)
}

/// Both halves of a link, if they are there.
fn both_halves<I: Drop, O: Drop>(source: Option<I>, sink: Option<O>) -> Option<(I, O)>
    ensures { result ≡ both source sink }
{
    match (source, sink) {
        (Some(source), Some(sink)) => Some((source, sink)),
        (None, _) => None,
        (Some(_), None) => None,
    }
}

/// Puts a requester with its sink, and its source with the pass that feeds, in turnstiles.
fn share<
    H: OpeningHistory<Entry>,
    R: Wait,
    I: LinkSource + Drop,
    O: LinkSink + Drop,
    C: CallRule,
    D: Dialer<Source = I, Sink = O> + Drop,
>(
    rt: &R,
    alloc: Global,
    with_sink: RequesterWithSink<O, C>,
    source: I,
    dialer: D,
    addr: String,
    read: u64,
) -> Shared<I, O, C, D>
    requires stands { Stands O.link O.taken O.faults C.allows with_sink H.history }
    requires read { read ≤ read_max }
    requires begun { IsBegun I.link D.ended H.history source dialer }
    ensures rests { IfOk result (λ t. SharedRests t.0 t.1) }
    ensures seen { IfOk result (λ t. (seen_by t.1.main ≡ H.history) × (mine_of t.1.main ≡ [])) }
    ensures source { IfOk result (λ t. (b : InitialSource I O C D) × ((seen_by t.1.source ≡ b ∷ []) × ((b.source.value ≡ source) × ((b.dialer.value ≡ dialer) × ((address_of b ≡ string_bytes addr) × (b.read ≡ read)))))) }
    ensures err { IfErr result (λ back. GivesBack I.link I.left I.given I.faults O.link O.taken O.faults D.asked D.ended D.faults C.allows H.history [] source dialer (string_bytes addr) read back.0 back.1 back.2) }
{
    let Ok(buf) = vec![in alloc; 0u8; PIECE_MAX] else {
        return Err(given_back(with_sink, source, dialer));
    };
    let (main, mut feeding) = match Turnstile::new_or_value::<H>(alloc, with_sink) {
        Ok(opened) => opened,
        Err(with_sink) => {
            drop(buf);
            return Err(given_back(with_sink, source, dialer));
        }
    };
    let caller = main.split(&mut feeding);
    let first_source = Snapshot::of(&source);
    let first_dialer = Snapshot::of(&dialer);
    let first_addr = Snapshot::of(&addr);
    let first = Snapshot::of(&feeding);
    let reader = SourceReader {
        source: Some(source),
        dialer,
        addr,
        pass: feeding,
        read,
        buf,
    };
    match share_reader::<I, O, C, D, Brand>(
        alloc,
        reader,
        &first_source,
        &first_dialer,
        &first_addr,
        &first,
    ) {
        Ok((source, pass)) => Ok((
            SharedRequester { main, source },
            Pass {
                main: caller,
                source: pass,
            },
        )),
        Err(reader) => Err(take_back(rt, main, caller, reader)),
    }
}

/// A requester that can't be shared, with its link and its dialer.
fn given_back<I: Drop, O: LinkSink + Drop, C: CallRule, D>(
    with_sink: RequesterWithSink<O, C>,
    source: I,
    dialer: D,
) -> (Requester, Option<(I, O)>, D)
    ensures requester { result.0 ≡ with_sink.requester }
    ensures link { result.1 ≡ both (Some source) with_sink.sink }
    ensures dialer { result.2 ≡ dialer }
{
    let RequesterWithSink {
        requester,
        sink,
        ..
    } = with_sink;
    (requester, both_halves(Some(source), sink), dialer)
}

/// Why a requester with a number isn't shared.
#[derive(Drop)]
pub enum NotShared<D> {
    /// The first dial failed. The requester and the dialer come back.
    DialFault(Requester, D),
    /// Memory ran out. The requester and the dialer come back; if the link had been dialled, it was hung up.
    Memory(Requester, D),
}

impl<I: LinkSource + Drop, O: LinkSink + Drop, C: CallRule> SharedRequester<
    I,
    O,
    C,
    NoDialer<I, O>,
> {
    /// Lets callers share a requester with its source and its sink. `H` names the history that it begins with, whose
    /// one entry is the initial state. `read` is how many bytes of the source were read before: callers read what is left to the maximum. The pass
    /// has seen this history, and nothing is its own. A lost link isn't dialled again. After out of memory all three come back.
    pub fn new<H: OpeningHistory<Entry>, R: Wait>(
        rt: &R,
        alloc: Global,
        requester: Requester,
        source: I,
        sink: O,
        read: u64,
    ) -> Result<
        (
            SharedRequester<I, O, C, NoDialer<I, O>>,
            Pass<I, O, C, NoDialer<I, O>>,
        ),
        (Requester, I, O),
    >
        requires initial { IsInitialHistory O.link O.taken O.faults requester sink None H.history }
        requires read { read ≤ read_max }
        ensures rests { IfOk result (λ t. SharedRests t.0 t.1) }
        ensures seen { IfOk result (λ t. (seen_by t.1.main ≡ H.history) × (mine_of t.1.main ≡ [])) }
        ensures source { IfOk result (λ t. (b : InitialSource I O C (NoDialer I O)) × ((seen_by t.1.source ≡ b ∷ []) × ((b.source.value ≡ source) × (b.read ≡ read)))) }
        ensures err { IfErr result (λ back. (d : NoDialer I O) × ((e : NoDialer I O) × GivesBack I.link I.left I.given I.faults O.link O.taken O.faults (λ _. None) (λ _. None) (λ _. last_count) C.allows H.history [] source d [] read back.0 (Some (back.1, back.2)) e)) }
    {
        let with_sink = RequesterWithSink::of_parts(requester, sink, None);
        let dialer = NoDialer::new();
        let addr = String::new(alloc);
        match share::<H, R, I, O, C, NoDialer<I, O>>(
            rt, alloc, with_sink, source, dialer, addr, read,
        ) {
            Ok(opened) => Ok(opened),
            Err((requester, link, _)) => match link {
                Some((source, sink)) => Err((requester, source, sink)),
                None => unreachable!(),
            },
        }
    }
}

/// Hangs up a link that came back, if there is one.
fn hang_up_back<I: LinkSource, O: LinkSink, D: Dialer<Source = I, Sink = O>>(
    link: Option<(I, O)>,
    dialer: &mut D,
)
    requires { IfSome link (λ halves. (I.link halves.0 ≡ O.link halves.1) × HasOpenLink (D.ended dialer.old)) }
    ensures { HangsUpBack I.link I.left I.given O.taken D.asked D.ended D.faults link dialer.old dialer.new }
{
    match link {
        Some((source, sink)) => dialer.hang_up(source, sink),
        None => {}
    }
}

/// Shares a requester over a link that was just dialled. If memory runs out, the link is hung up.
fn share_dialled<
    K: Appended,
    R: Wait,
    I: LinkSource + Drop,
    O: LinkSink + Drop,
    C: CallRule,
    D: Dialer<Source = I, Sink = O> + Drop,
>(
    rt: &R,
    alloc: Global,
    requester: Requester,
    source: I,
    sink: O,
    dialer: D,
    addr: String,
    tries: u32,
) -> Result<(SharedRequester<I, O, C, D>, Pass<I, O, C, D>), NotShared<D>>
    requires initial { IsInitialHistory O.link O.taken O.faults requester sink (Some tries) (K.entry ∷ []) × (tries ≤ 16) }
    requires begun { IsBegun I.link D.ended (K.entry ∷ []) source dialer }
    ensures rests { IfOk result (λ t. SharedRests t.0 t.1) }
    ensures seen { IfOk result (λ t. (seen_by t.1.main ≡ K.entry ∷ []) × (mine_of t.1.main ≡ [])) }
    ensures source { IfOk result (λ t. (b : InitialSource I O C D) × ((seen_by t.1.source ≡ b ∷ []) × ((b.source.value ≡ source) × ((b.dialer.value ≡ dialer) × ((address_of b ≡ string_bytes addr) × (b.read ≡ 0)))))) }
    ensures err { IfErr result (NumberedRefused I.link I.left I.given I.faults O.link O.taken O.faults D.asked D.ended D.faults C.allows (K.entry ∷ []) source dialer (string_bytes addr)) }
{
    let with_sink = RequesterWithSink::of_parts(requester, sink, Some(tries));
    match share::<InitialHistory<K>, R, I, O, C, D>(rt, alloc, with_sink, source, dialer, addr, 0) {
        Ok(opened) => Ok(opened),
        Err((requester, link, mut dialer)) => {
            hang_up_back(link, &mut dialer);
            Err(NotShared::Memory(requester, dialer))
        }
    }
}

impl<
    I: LinkSource + Drop,
    O: LinkSink + Drop,
    C: CallRule,
    D: Dialer<Source = I, Sink = O>,
> SharedRequester<I, O, C, D> {
    /// Dials a link to this address, and lets callers share a requester with a number over it. If the link is lost, it is hung up and the next one
    /// is dialled, at most `tries` times in all, and the calls that weren't answered are sent again. The pass has seen the initial state, and
    /// nothing is its own.
    pub fn new_numbered<R: Wait>(
        rt: &R,
        alloc: Global,
        requester: Requester,
        mut dialer: D,
        addr: &str,
        tries: u32,
    ) -> Result<(SharedRequester<I, O, C, D>, Pass<I, O, C, D>), NotShared<D>>
    where
        D: Drop,
        requires number { 0 < requester.state.side.terms.number }
        requires tries { tries ≤ 16 }
        requires memory { requester.state.side.ended ≢ Some ends.Memory }
        requires fed { fed_bytes requester ≤ bytes_before }
        ensures rests { IfOk result (λ t. SharedRests t.0 t.1) }
        ensures opened { IfOk result (λ t. NumberedOpened I.link I.left I.given I.faults D.asked D.ended D.faults requester dialer addr.now tries t.1) }
        ensures err { IfErr result (IsNotShared I.link I.left I.given I.faults O.link O.taken O.faults D.asked D.ended D.faults C.allows requester dialer addr.now tries) }
    {
        let Ok(kept) = String::from_str(alloc, addr) else {
            return Err(NotShared::Memory(requester, dialer));
        };
        match dialer.dial(addr) {
            Ok((source, sink)) => {
                match share_dialled::<Brand, R, I, O, C, D>(
                    rt, alloc, requester, source, sink, dialer, kept, tries,
                ) {
                    Ok(opened) => Ok(opened),
                    Err(refused) => Err(refused),
                }
            }
            Err(_) => Err(NotShared::DialFault(requester, dialer)),
        }
    }

    /// Waits until both turns are free, and gives the requester, the link and the dialer back. There is no link if the last dial failed.
    pub fn close<R: Wait>(self, rt: &R, pass: Pass<I, O, C, D>) -> (Requester, Option<(I, O)>, D)
        requires { SharedRests self pass }
        ensures { (b : InitialSource I O C D) × ((seen_by pass.source ≡ b ∷ []) × GivesBack I.link I.left I.given I.faults O.link O.taken O.faults D.asked D.ended D.faults C.allows (seen_by pass.main) (mine_of pass.main) b.source.value b.dialer.value (address_of b) b.read result.0 result.1 result.2) }
    {
        let SharedRequester { main, source } = self;
        let Pass {
            main: caller,
            source: reading,
        } = pass;
        let reader = source.close(rt, reading);
        take_back(rt, main, caller, reader)
    }
}
