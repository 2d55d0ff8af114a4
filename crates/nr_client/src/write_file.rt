//! A file is written from an input.

ghost use Rattle.std.specs.Prelude.{◌≡◌, ◌+◌, ◌<◌, ◌≤◌, List, ℕ, Option, length, IfOk, OnOk, IfErr, OnErr};
ghost use Rattle.nr_nfs_base.specs.Limits.{transfer_max};
ghost use Rattle.nr_outside.specs.Content.{HandsOut};
ghost use Rattle.nr_outside.specs.Whole.{input_max};
ghost use Rattle.nr_client.specs.Reading.{InputFaults};
ghost use Rattle.nr_client.specs.Requests.{CountsFaultsOver, AsksOver};
ghost use Rattle.nr_client.specs.Results.{IsOfCall};
ghost use Rattle.nr_client.specs.Writing.{StopsAtFault, WritesFileOver, create_call, created_file};
ghost use Rattle.nr_client.specs.private.FileSteps.{FailsToWrite, StreamsOn, StreamsTo, WritesOn};
ghost use Rattle.nr_client.specs.private.InputWindows.{IsReadyAt, wanted_at};

use crate::answer::outcome_of;
use crate::client_end::ClientEnd;
use crate::file_calls::{create_call, write_call};
use crate::file_results::{created_in, written_in};
use crate::input_window::InputWindow;
use crate::link_calls::Calls;
use nr_nfs_base::{Handle, Name, TRANSFER_MAX};
use nr_outside::{INPUT_MAX, Source};
use std::alloc::Global;

/// How many bytes of the input are wanted at this offset: what the next WRITE sends; at the maximum, one that tells that more came.
fn wanted_at(at: usize) -> usize
    ensures is { result ≡ wanted_at at }
    ensures within { result ≤ transfer_max }
{
    if at < INPUT_MAX {
        (INPUT_MAX - at).min(TRANSFER_MAX as usize)
    } else {
        1
    }
}

/// One WRITE. Gives how many bytes it wrote.
fn write_piece<L: Calls>(
    alloc: Global,
    link: &mut L,
    uid: u32,
    gid: u32,
    file: &Handle,
    piece: &[u8],
    at: usize,
) -> Result<usize, ClientEnd>
    requires { length piece.now ≤ transfer_max }
    ensures ok { IfOk result (λ count. WritesOn L.relations uid gid file.now piece.now at (at + count) (L.at link.old) (L.at link.new)) }
    ensures more { IfOk result (λ count. 0 < count) }
    ensures within { IfOk result (λ count. count ≤ length piece.now) }
    ensures err { IfErr result (λ end. FailsToWrite L.relations uid gid file.now piece.now at (L.at link.old) (L.at link.new) end) }
    ensures of_call { IfErr result IsOfCall }
    ensures faults { CountsFaultsOver L.relations result (L.at link.old) (L.at link.new) }
{
    let outcome = match outcome_of(link, write_call(alloc, uid, gid, file, at as u64, piece)) {
        Ok(outcome) => outcome,
        Err(end) => return Err(end),
    };
    let written = match written_in(alloc, &outcome, piece.len() as u32) {
        Ok(written) => written,
        Err(end) => {
            drop(outcome);
            return Err(end);
        }
    };
    drop(outcome);
    Ok(written as usize)
}

/// One WRITE, of the bytes in the window. Those that it wrote leave the window, and the input is read until it is full again.
fn write_next<L: Calls, N: Source>(
    alloc: Global,
    link: &mut L,
    uid: u32,
    gid: u32,
    file: &Handle,
    window: &mut InputWindow,
    input: &mut N,
    at: &mut usize,
) -> Result<(), ClientEnd>
    requires below { at.old < input_max }
    requires some { 0 < length window.old.kept }
    requires ready { IsReadyAt at.old (N.left input.old) window.old }
    ensures ready { OnOk result (IsReadyAt at.new (N.left input.new) window.new) }
    ensures more { OnOk result (at.old < at.new) }
    ensures ok { OnOk result (StreamsOn L.relations uid gid file.now at.old at.new window.old window.new
        (L.at link.old) (L.at link.new) (N.left input.old) (N.given input.old) (N.left input.new) (N.given input.new)) }
    ensures err { OnErr result (StreamsTo L.relations uid gid file.now at.old window.old
        (L.at link.old) (L.at link.new) (N.left input.old) (N.given input.old) (N.left input.new) (N.given input.new) result) }
    ensures input_faults { InputFaults result (N.faults input.old) (N.faults input.new) }
    ensures input_stops { StopsAtFault N.faults N.left N.given result input.old input.new }
    ensures faults { CountsFaultsOver L.relations result (L.at link.old) (L.at link.new) }
{
    let count = match write_piece(alloc, link, uid, gid, file, window.kept(), *at) {
        Ok(count) => count,
        Err(end) => return Err(end),
    };
    window.discard(count);
    *at += count;
    match window.fill(input, wanted_at(*at)) {
        Ok(()) => Ok(()),
        Err(end) => Err(end),
    }
}

/// Writes a file that is empty from an input, of which the first bytes are in the window.
fn write_pieces<L: Calls, N: Source>(
    alloc: Global,
    link: &mut L,
    uid: u32,
    gid: u32,
    file: &Handle,
    window: &mut InputWindow,
    input: &mut N,
) -> Result<(), ClientEnd>
    requires { IsReadyAt 0 (N.left input.old) window.old }
    ensures writes { StreamsTo L.relations uid gid file.now 0 window.old
        (L.at link.old) (L.at link.new) (N.left input.old) (N.given input.old) (N.left input.new) (N.given input.new) result }
    ensures input_faults { InputFaults result (N.faults input.old) (N.faults input.new) }
    ensures input_stops { StopsAtFault N.faults N.left N.given result input.old input.new }
    ensures faults { CountsFaultsOver L.relations result (L.at link.old) (L.at link.new) }
{
    let mut at = 0;
    'pieces: while at < INPUT_MAX && window.len() > 0 {
        match write_next(alloc, link, uid, gid, file, window, input, &mut at) {
            Ok(()) => {}
            Err(end) => return Err(end),
        }
    }
    if window.len() > 0 {
        return Err(ClientEnd::Budget {
            count: INPUT_MAX as u64,
        });
    }
    Ok(())
}

/// CREATE of a name: the handle of the file.
fn create_over<L: Calls>(
    alloc: Global,
    link: &mut L,
    uid: u32,
    gid: u32,
    dir: &Handle,
    name: &Name,
) -> Result<Handle, ClientEnd>
    ensures asks { AsksOver L.relations created_file (create_call uid gid dir.now name.now) (L.at link.old) (L.at link.new) result }
    ensures of_call { IfErr result IsOfCall }
    ensures faults { CountsFaultsOver L.relations result (L.at link.old) (L.at link.new) }
{
    let outcome = match outcome_of(link, create_call(alloc, uid, gid, dir, name)) {
        Ok(outcome) => outcome,
        Err(end) => return Err(end),
    };
    created_in(alloc, &outcome)
}

/// Makes a file, and writes it from an input, of which the first bytes are in the window.
fn write_window<L: Calls, N: Source>(
    alloc: Global,
    link: &mut L,
    uid: u32,
    gid: u32,
    dir: &Handle,
    name: &Name,
    window: &mut InputWindow,
    input: &mut N,
) -> Result<(), ClientEnd>
    requires { IsReadyAt 0 (N.left input.old) window.old }
    ensures writes { (left given : Option (List ℕ)) → HandsOut left given (N.left input.old) (N.given input.old) window.old.kept
        → WritesFileOver L.relations uid gid dir.now name.now
        (L.at link.old) (L.at link.new) left given (N.left input.new) (N.given input.new) result }
    ensures input_faults { InputFaults result (N.faults input.old) (N.faults input.new) }
    ensures input_stops { StopsAtFault N.faults N.left N.given result input.old input.new }
    ensures faults { CountsFaultsOver L.relations result (L.at link.old) (L.at link.new) }
{
    let file = match create_over(alloc, link, uid, gid, dir, name) {
        Ok(file) => file,
        Err(end) => return Err(end),
    };
    let result = write_pieces(alloc, link, uid, gid, &file, window, input);
    drop(file);
    result
}

/// Writes a file from an input.
pub(crate) fn write_file_over<L: Calls, N: Source>(
    alloc: Global,
    link: &mut L,
    uid: u32,
    gid: u32,
    dir: &Handle,
    name: &Name,
    input: &mut N,
) -> Result<(), ClientEnd>
    ensures writes { WritesFileOver L.relations uid gid dir.now name.now
        (L.at link.old) (L.at link.new) (N.left input.old) (N.given input.old) (N.left input.new) (N.given input.new) result }
    ensures input_faults { InputFaults result (N.faults input.old) (N.faults input.new) }
    ensures input_stops { StopsAtFault N.faults N.left N.given result input.old input.new }
    ensures faults { CountsFaultsOver L.relations result (L.at link.old) (L.at link.new) }
{
    let mut window = InputWindow::new(alloc);
    match window.fill(input, wanted_at(0)) {
        Ok(()) => {}
        Err(end) => {
            drop(window);
            return Err(end);
        }
    }
    let result = write_window(alloc, link, uid, gid, dir, name, &mut window, input);
    drop(window);
    result
}
