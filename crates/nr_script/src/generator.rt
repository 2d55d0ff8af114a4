//! Scripts that are made from a seed.

ghost use Rattle.std.specs.Prelude.{◌≡◌, ◌<◌, ◌≤◌, ◌++◌, IfOk, OnOk};
ghost use Rattle.nr_xdr.specs.Item.Item.{Opaque};
ghost use Rattle.nr_xdr.specs.Item.{encoding, hyper};
ghost use Rattle.nr_texts.specs.Limits.{clients_max};
ghost use Rattle.nr_script.specs.Limits.{calls_max};
ghost use Rattle.nr_script.specs.Generator.{after_args, after_drawn_turn, after_move, after_turn, args_drawn, below, drawn_turn, file_args, drawn_lines, made_script, move_lines, next, proc_drawn, read_args, readdir_args, turn_lines, write_args, write_head, written_bytes};

use crate::script::{Line, Script};
use nr_nfs_base::NFS_PROGRAM;
use nr_reduce::Form;
use nr_texts::{DEFAULT_CAPACITY, DEFAULT_UNITS, Opening};
use nr_xdr::{Memory, Octets, Writer};
use std::alloc::Global;

/// The most calls of a script that is made from a seed.
pub const CALLS_MAX: u64 = 1_000_000;

// What the numbers that are drawn stay below (offsets, counts, the bytes of a move), and the count of a READDIR.

const OFFSETS_END: u32 = 8192;

const READ_COUNTS_END: u32 = 4096;

const WRITE_COUNTS_END: u32 = 2048;

const LISTING_COUNT: u32 = 4096;

const PIECES_END: u32 = 3000;

/// The state of the generator after a draw.
#[tactic(auto, unfolding(crate::specs::Generator::next))]
fn next(state: u64) -> u64
    ensures { result ≡ next state }
{
    state
        .wrapping_mul(6_364_136_223_846_793_005)
        .wrapping_add(1_442_695_040_888_963_407)
}

/// A number below a bound, from the state after its draw.
fn below(bound: u32, state: u64) -> u32
    requires { 0 < bound }
    ensures is { result ≡ below bound state }
    ensures less { result < bound }
{
    let drawn = state / 8_589_934_592;
    (drawn % u64::from(bound)) as u32
}

/// Writes the handle of a file.
#[tactic(auto, unfolding(nr_xdr::specs::Item::hyper))]
fn put_file(writer: &mut Writer, file: u64) -> Result<(), Memory>
    ensures { OnOk result (writer.new ≡ writer.old ++ encoding (Opaque (hyper file))) }
{
    let handle = file.to_be_bytes();
    writer.opaque(&handle)
}

fn file_args(alloc: Global, file: u64) -> Result<Octets, Memory>
    ensures { IfOk result (λ args. args ≡ file_args file) }
{
    let mut writer = Writer::new(alloc);
    put_file(&mut writer, file)?;
    Ok(writer.finish())
}

fn read_args(alloc: Global, offset: u32, count: u32) -> Result<Octets, Memory>
    ensures { IfOk result (λ args. args ≡ read_args offset count) }
{
    let mut writer = Writer::new(alloc);
    put_file(&mut writer, 2)?;
    writer.u64(u64::from(offset))?;
    writer.u32(count)?;
    Ok(writer.finish())
}

fn readdir_args(alloc: Global, count: u32) -> Result<Octets, Memory>
    ensures { IfOk result (λ args. args ≡ readdir_args count) }
{
    let mut writer = Writer::new(alloc);
    put_file(&mut writer, 4)?;
    writer.u64(0)?;
    writer.u64(0)?;
    writer.u32(count)?;
    Ok(writer.finish())
}

/// The bytes of a WRITE.
#[tactic(auto, using(crate::proofs::Draws::written_more))]
fn written_bytes(alloc: Global, offset: u32, count: u32) -> Result<Vec<u8>, Memory>
    ensures { IfOk result (λ bytes. bytes.items ≡ written_bytes offset count) }
{
    let mut bytes = Vec::new(alloc);
    for place in 0..count {
        bytes.push(((u64::from(offset) + u64::from(place)) % 256) as u8)?;
    }
    Ok(bytes)
}

/// Writes what precedes the bytes of a WRITE.
fn put_write(writer: &mut Writer, offset: u32, count: u32) -> Result<(), Memory>
    ensures { OnOk result (writer.new ≡ writer.old ++ write_head offset count) }
{
    put_file(writer, 2)?;
    writer.u64(u64::from(offset))?;
    writer.u32(count)?;
    writer.u32(2)
}

#[tactic(auto, using(crate::proofs::Draws::written_len))]
fn write_args(alloc: Global, offset: u32, count: u32) -> Result<Octets, Memory>
    ensures { IfOk result (λ args. args ≡ write_args offset count) }
{
    let bytes = written_bytes(alloc, offset, count)?;
    let mut writer = Writer::new(alloc);
    put_write(&mut writer, offset, count)?;
    writer.opaque(bytes.as_slice())?;
    Ok(writer.finish())
}

#[tactic(auto, unfolding(crate::specs::Generator::proc_drawn))]
fn proc_drawn(kind: u32) -> u32
    ensures { result ≡ proc_drawn kind }
{
    match kind {
        0 => 0,
        1 => 1,
        2 => 6,
        3 => 7,
        4 => 16,
        _ => 5,
    }
}

/// The arguments of a call of this kind, with what is drawn for them.
#[tactic(auto, unfolding(crate::specs::Generator::args_drawn))]
fn args_drawn(alloc: Global, kind: u32, state: u64) -> Result<Octets, Memory>
    ensures { IfOk result (λ args. args ≡ args_drawn kind state) }
{
    let first = next(state);
    let second = next(first);
    let offset = below(OFFSETS_END, first);
    match kind {
        0 => Ok(Octets::new(alloc)),
        1 => file_args(alloc, 2),
        2 => read_args(alloc, offset, below(READ_COUNTS_END, second)),
        3 => write_args(alloc, offset, below(WRITE_COUNTS_END, second)),
        4 => readdir_args(alloc, LISTING_COUNT),
        _ => file_args(alloc, 3),
    }
}

fn after_args(kind: u32, state: u64) -> u64
    ensures { result ≡ after_args kind state }
{
    if kind == 2 || kind == 3 {
        next(next(state))
    } else {
        state
    }
}

fn after_move(kind: u32, state: u64) -> u64
    ensures { result ≡ after_move kind state }
{
    if kind == 1 || kind == 3 {
        next(state)
    } else {
        state
    }
}

/// Adds the line of a move, if it has one.
#[tactic(auto, unfolding(crate::specs::Generator::move_lines))]
fn push_move(lines: &mut Vec<Line>, client: u32, kind: u32, state: u64) -> Result<(), Memory>
    ensures { OnOk result (lines.new.items ≡ lines.old.items ++ move_lines client kind state) }
{
    let most = below(PIECES_END, next(state));
    let line = match kind {
        0 => return Ok(()),
        1 => Line::Up { client, most },
        2 => Line::Work { client },
        3 => Line::Down { client, most },
        _ => Line::Drain,
    };
    lines.push(line)?;
    Ok(())
}

/// Adds a call of this kind and a move, and gives the state after their draws.
fn push_turn(
    alloc: Global,
    lines: &mut Vec<Line>,
    client: u32,
    kind: u32,
    state: u64,
) -> Result<u64, Memory>
    ensures state { IfOk result (λ after. after ≡ after_turn kind state) }
    ensures lines { OnOk result (lines.new.items ≡ lines.old.items ++ turn_lines client kind state) }
{
    let args = args_drawn(alloc, kind, state)?;
    lines.push(Line::Call {
        client,
        form: Form::Auto,
        prog: NFS_PROGRAM,
        vers: 3,
        proc: proc_drawn(kind),
        args,
    })?;
    let state = next(after_args(kind, state));
    let kind = below(5, state);
    push_move(lines, client, kind, state)?;
    Ok(after_move(kind, state))
}

/// Adds a drawn turn, and gives the state after its draws.
fn push_drawn(alloc: Global, lines: &mut Vec<Line>, clients: u32, state: u64) -> Result<u64, Memory>
    requires { (0 < clients) × (clients ≤ clients_max) }
    ensures state { IfOk result (λ after. after ≡ after_drawn_turn state) }
    ensures lines { OnOk result (lines.new.items ≡ lines.old.items ++ drawn_turn clients state) }
{
    let first = next(state);
    let client = below(clients, first) + 1;
    let state = next(first);
    push_turn(alloc, lines, client, below(6, state), state)
}

/// Adds the drawn turns of this many calls, and a drain.
#[tactic(auto, using(crate::proofs::Draws::turn_more, crate::proofs::Draws::turns_end))]
fn push_all(
    alloc: Global,
    lines: &mut Vec<Line>,
    seed: u64,
    clients: u32,
    calls: u64,
) -> Result<(), Memory>
    requires { (0 < clients) × (clients ≤ clients_max) }
    ensures { OnOk result (lines.new.items ≡ lines.old.items ++ drawn_lines clients calls seed) }
{
    let mut state = seed;
    for turn in 0..calls {
        state = push_drawn(alloc, lines, clients, state)?;
    }
    lines.push(Line::Drain)?;
    Ok(())
}

/// The script of a seed: `calls` calls of up to `clients` clients, each call followed by a move that is drawn too, and a drain
/// in the end. The same numbers always give the same script. `clients` is from 1 to
/// [`CLIENTS_MAX`](nr_texts::CLIENTS_MAX), and `calls` is at most [`CALLS_MAX`](crate::CALLS_MAX).
///
/// # Errors
///
/// [`Memory`] if memory ran out.
#[tactic(auto, unfolding(crate::specs::Generator::made_script))]
pub fn make_script(alloc: Global, seed: u64, clients: u32, calls: u64) -> Result<Script, Memory>
    requires { (0 < clients) × (clients ≤ clients_max) × (calls ≤ calls_max) }
    ensures { IfOk result (λ script. script ≡ made_script seed clients calls) }
{
    let mut lines = Vec::new(alloc);
    push_all(alloc, &mut lines, seed, clients, calls)?;
    let opening = Opening {
        clients,
        credits: 8,
        capacity: DEFAULT_CAPACITY,
        client_units: DEFAULT_UNITS,
        server_units: DEFAULT_UNITS,
        numbered: false,
        invalidates: false,
    };
    Ok(Script::new(opening, lines))
}
