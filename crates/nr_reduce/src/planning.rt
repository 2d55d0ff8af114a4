//! The plan of a call (RFC 8166 section 3.5).

ghost use Rattle.std.specs.Prelude.{◌≡◌, ℕ, List, ◌+◌, ◌*◌, ◌^◌, ◌<◌, ◌≤◌, ◌++◌, [], Ok, None, Some, length, sum, IfOk};
ghost use Rattle.nr_reduce.specs.Plans.{total, given_total, given_region, given_plan, write_size, reply_size, plan_size, within, plan_of};
ghost use Rattle.nr_reduce.specs.Limits.{given_max};
ghost use Rattle.nr_reduce.specs.PlanSizes.{facts_of, ItemFits, KindFits, PlanAnswers, outline_within};
ghost use Rattle.nr_reduce.specs.CallOutlines.{parts_payload, IsCall, lengths_of, chunk_lengths, outline_plan, OutlineAnswers};

use crate::call::{Form, Lengths, Offer};
use crate::fault::{PayloadFault, TooLarge};
use crate::limits::GIVEN_MAX;
use crate::outline::{
    ChunkLengths, Outline, Plan, PlanSizes, ReadOutline, auto_sizes, chunk_sizes, inline_sizes,
    long_sizes, own_outline, region_of, send_size,
};
use crate::parts::{CallParts, PayloadFacts, facts_of, facts_of_call};
use nr_header::{HEADER_LEN_MIN, PAYLOAD_MAX, read_list_len, reply_chunk_len, write_chunk_len};
use nr_xdr::{Memory, Octets};
use std::alloc::Global;

// ---- The outline of an offer that is given

fn sum_of(lengths: &[u32]) -> u128
    ensures is { result ≡ sum lengths.now }
    ensures small { result < 2 ^ 100 }
{
    let mut sum: u128 = 0;
    for length in lengths {
        sum += u128::from(*length);
    }
    sum
}

/// How many bytes a list of an offer has.
fn total(lengths: &Option<Lengths>) -> u128
    ensures is { result ≡ total lengths.now }
    ensures small { result < 2 ^ 100 }
{
    match lengths {
        Some(lengths) => sum_of(lengths.as_slice()),
        None => 0,
    }
}

/// How many bytes an offer has in all.
fn given_total(offer: &Offer) -> u128
    ensures { result ≡ given_total offer.now }
{
    total(&offer.read) + total(&offer.write) + total(&offer.reply)
}

fn write_size(lengths: &Option<Lengths>) -> u128
    ensures is { result ≡ write_size lengths.now }
    ensures small { result < 2 ^ 100 }
{
    match lengths {
        Some(lengths) => write_chunk_len(lengths.len()),
        None => 0,
    }
}

fn reply_size(lengths: &Option<Lengths>) -> u128
    ensures is { result ≡ reply_size lengths.now }
    ensures small { result < 2 ^ 100 }
{
    match lengths {
        Some(lengths) => reply_chunk_len(lengths.len()),
        None => 0,
    }
}

/// The size of the Send of an offer that is given, for a payload of `len` bytes.
#[tactic(auto, unfolding(crate::specs::Plans::plan_size))]
fn given_size(len: usize, offer: &Offer) -> u128
    ensures { (payload : List ℕ) → length payload ≡ len → result ≡ plan_size (given_plan payload offer.now) }
{
    let (entries, inline) = match &offer.read {
        Some(lengths) => (lengths.len(), len.min(offer.read_at as usize)),
        None => (0, len),
    };
    let lists = read_list_len(entries) + write_size(&offer.write) + reply_size(&offer.reply);
    HEADER_LEN_MIN as u128 + lists + inline as u128
}

fn given_chunk<'a>(lengths: &'a Option<Lengths>) -> Option<ChunkLengths<'a>>
    ensures { chunk_lengths result ≡ lengths.now }
{
    match lengths {
        Some(lengths) => Some(ChunkLengths::Given(lengths.as_slice())),
        None => None,
    }
}

fn given_read<'a>(position: u32, lengths: &'a Lengths) -> ReadOutline<'a>
    requires { sum lengths.now ≤ given_max }
    ensures position { result.position ≡ position }
    ensures lengths { lengths_of result.lengths ≡ lengths.now }
    ensures len { result.len ≡ sum lengths.now }
{
    let lengths = lengths.as_slice();
    ReadOutline {
        position,
        lengths: ChunkLengths::Given(lengths),
        len: sum_of(lengths) as u32,
    }
}

fn given_outline<'a>(offer: &'a Offer) -> Outline<'a>
    requires { total offer.now.read ≤ given_max }
    ensures { (payload : List ℕ) → outline_plan payload result ≡ given_plan payload offer.now }
{
    let read = match &offer.read {
        Some(lengths) => Some(given_read(offer.read_at, lengths)),
        None => None,
    };
    Outline {
        read,
        write: given_chunk(&offer.write),
        reply: given_chunk(&offer.reply),
    }
}

/// The outline of an offer, if it is within its limit and its Send has at most `up` bytes.
fn offer_outline<'a>(len: usize, offer: &'a Offer, up: u32) -> Result<Outline<'a>, TooLarge>
    ensures { (payload : List ℕ) → length payload ≡ len →
        OutlineAnswers payload result (within (given_total offer.now) given_max (within (plan_size (given_plan payload offer.now)) up (Ok (given_plan payload offer.now)))) }
{
    let need = given_total(offer);
    if need > u128::from(GIVEN_MAX) {
        return Err(TooLarge {
            need,
            room: GIVEN_MAX,
        });
    }
    let need = given_size(len, offer);
    if need > u128::from(up) {
        return Err(TooLarge { need, room: up });
    }
    Ok(given_outline(offer))
}

// ---- Outlines of any form

/// The outline of these sizes, if its Send has at most `up` bytes.
fn outline_within<'a>(len: usize, sizes: PlanSizes, up: u32) -> Result<Outline<'a>, TooLarge>
    requires fits { KindFits len sizes.kind }
    requires small { len < 2 ^ 32 }
    ensures { result ≡ outline_within len up sizes }
{
    let need = send_size(len, sizes);
    if need > u128::from(up) {
        return Err(TooLarge { need, room: up });
    }
    Ok(own_outline(len, sizes))
}

fn outline_by<'a>(
    facts: PayloadFacts,
    form: &'a Form,
    up: u32,
    down: u32,
) -> Result<Outline<'a>, TooLarge>
    requires { ItemFits facts.len facts.item }
    ensures { (payload : List ℕ) → facts ≡ facts_of payload → OutlineAnswers payload result (plan_of payload form.now up down) }
{
    let len = facts.len;
    if len > PAYLOAD_MAX {
        return Err(TooLarge {
            need: len as u128,
            room: PAYLOAD_MAX as u32,
        });
    }
    match form {
        Form::Auto => outline_within(len, auto_sizes(facts, up, down), up),
        Form::Inline => outline_within(len, inline_sizes(), up),
        Form::Chunk => outline_within(len, chunk_sizes(facts), up),
        Form::Long => outline_within(len, long_sizes(facts), up),
        Form::Given(offer) => offer_outline(len, offer, up),
    }
}

/// How a call is sent in a form, as [`plan`] gives it for the payload, without its bytes: which of them go inline and which
/// into a region, and which lengths are offered. `TooLarge` with the first limit that it exceeds, as there. Takes no memory.
pub fn outline_of<'a>(
    parts: CallParts<'_>,
    form: &'a Form,
    up: u32,
    down: u32,
) -> Result<Outline<'a>, TooLarge>
    requires { IsCall parts }
    ensures { OutlineAnswers (parts_payload parts.entry) result (plan_of (parts_payload parts.entry) form.now up down) }
{
    outline_by(facts_of_call(parts), form, up, down)
}

// ---- Plans

/// The read chunk of a plan, and the bytes of its region.
#[derive(Drop)]
struct ReadChunk {
    read_at: Option<u32>,
    read: Lengths,
    region: Octets,
}

/// The chunks that a plan offers for the reply.
#[derive(Drop)]
struct ReplyChunks {
    write: Option<Lengths>,
    reply: Option<Lengths>,
}

fn push_lengths(list: &mut Vec<u32>, lengths: ChunkLengths<'_>) -> Result<(), Memory>
    ensures { IfOk result (λ _. list.new.items ≡ list.old.items ++ lengths_of lengths.entry) }
{
    for index in 0..lengths.count() {
        list.push(lengths.length(index))?;
    }
    Ok(())
}

fn copied(alloc: Global, lengths: ChunkLengths<'_>) -> Result<Lengths, Memory>
    ensures { IfOk result (λ l. l ≡ lengths_of lengths.entry) }
{
    let mut list = Vec::with_capacity(alloc, lengths.count())?;
    push_lengths(&mut list, lengths)?;
    Ok(Lengths::from_vec(list))
}

fn copied_chunk(alloc: Global, lengths: Option<ChunkLengths<'_>>) -> Result<Option<Lengths>, Memory>
    ensures { IfOk result (λ l. l ≡ chunk_lengths lengths.entry) }
{
    match lengths {
        Some(lengths) => Ok(Some(copied(alloc, lengths)?)),
        None => Ok(None),
    }
}

fn reply_chunks(alloc: Global, outline: Outline<'_>) -> Result<ReplyChunks, Memory>
    ensures { IfOk result (λ c. c ≡ record { write = chunk_lengths outline.entry.write; reply = chunk_lengths outline.entry.reply }) }
{
    let write = copied_chunk(alloc, outline.write)?;
    let reply = copied_chunk(alloc, outline.reply)?;
    Ok(ReplyChunks { write, reply })
}

fn no_read_chunk(alloc: Global) -> ReadChunk
    ensures { result ≡ record { read_at = None; read = []; region = [] } }
{
    ReadChunk {
        read_at: None,
        read: Lengths::from_vec(Vec::new(alloc)),
        region: Octets::new(alloc),
    }
}

fn read_chunk(alloc: Global, payload: &[u8], chunk: ReadOutline<'_>) -> Result<ReadChunk, Memory>
    ensures { IfOk result (λ c. c ≡ record { read_at = Some chunk.entry.position; read = lengths_of chunk.entry.lengths; region = given_region payload.now chunk.entry.position chunk.entry.len }) }
{
    let region = region_of(alloc, payload, &[], chunk)?;
    let read = copied(alloc, chunk.lengths)?;
    Ok(ReadChunk {
        read_at: Some(chunk.position),
        read,
        region,
    })
}

fn assembled(
    alloc: Global,
    inline: &[u8],
    chunk: ReadChunk,
    chunks: ReplyChunks,
) -> Result<Plan, Memory>
    ensures { IfOk result (λ p. p ≡ record { inline = inline.now; read_at = chunk.read_at; read = chunk.read; region = chunk.region; write = chunks.write; reply = chunks.reply }) }
{
    let inline = Octets::from_slice(alloc, inline)?;
    let ReadChunk {
        read_at,
        read,
        region,
    } = chunk;
    let ReplyChunks { write, reply } = chunks;
    Ok(Plan {
        inline,
        read_at,
        read,
        region,
        write,
        reply,
    })
}

/// The plan of an outline. The payload is copied once.
fn filled(alloc: Global, payload: &[u8], outline: Outline<'_>) -> Result<Plan, Memory>
    ensures { IfOk result (λ p. p ≡ outline_plan payload.now outline.entry) }
{
    let chunks = reply_chunks(alloc, outline)?;
    match outline.read {
        Some(chunk) => {
            let (inline, _) = payload.split_at(payload.len().min(chunk.position as usize));
            let chunk = read_chunk(alloc, payload, chunk)?;
            assembled(alloc, inline, chunk, chunks)
        }
        None => assembled(alloc, payload, no_read_chunk(alloc), chunks),
    }
}

/// How a call is sent in a form (RFC 8166 section 3.5), if a Send has at most `up` bytes and one that comes back at most
/// `down`. `TooLarge` with the first limit that it exceeds: that of a payload, that of an offer that is given, `up`. The
/// payload is copied at most once.
pub fn plan(
    alloc: Global,
    payload: &[u8],
    form: &Form,
    up: u32,
    down: u32,
) -> Result<Plan, PayloadFault>
    ensures { PlanAnswers result (plan_of payload.now form.now up down) }
{
    match outline_by(facts_of(payload), form, up, down) {
        Ok(outline) => Ok(filled(alloc, payload, outline)?),
        Err(TooLarge { need, room }) => Err(PayloadFault::TooLarge { need, room }),
    }
}
