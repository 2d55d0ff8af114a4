//! A script that is being read.

ghost use Rattle.std.specs.Prelude.{ℕ, ◌≡◌, ◌≤◌, ◌<◌, ◌+◌, ◌^◌, ◌&&◌, ◌∷◌, ◌++◌, [], nat_le, true, length, slice_index, OnOk};
ghost use Rattle.nr_texts.specs.Limits.{clients_max, number_max};
ghost use Rattle.nr_script.specs.private.Counts.{caller, CountsAre, counted};
ghost use Rattle.nr_script.specs.Script.{IsScript, is_call_line, is_client, credits_in_range, may_follow, seconds_after, seconds_in};

use crate::script::{Line, Script};
use nr_texts::{CLIENTS_MAX, NUMBER_MAX, Opening};
use nr_xdr::Memory;
use std::alloc::Global;
use std::marker::Model;

/// The first line, the lines so far, how many of them are calls of each client, and what the clock shows after them.
#[derive(Drop)]
pub(crate) struct Draft {
    opening: Opening,
    lines: Vec<Line>,
    calls: [u64; 16],
    seconds: u32,
}

impl Model for Draft {
    ghost use Rattle.std.specs.Prelude.{◌≡◌, ◌≤◌};
    ghost use Rattle.nr_texts.specs.Limits.{clients_max};
    ghost use Rattle.nr_script.specs.private.Counts.{CountsAre};
    ghost use Rattle.nr_script.specs.Script.{ScriptLines, seconds_after};

    ghost Value = { ScriptLines };

    ghost view = { λ s. record { opening = s.opening; lines = s.lines.items } };

    ghost invariant = { λ s. (s.opening.clients ≤ clients_max) × CountsAre s.calls s.lines.items × (s.seconds ≡ seconds_after s.lines.items) };
}

/// The client of a call line, and 0 of any other line.
fn caller(line: &Line) -> u32
    ensures { result ≡ caller line.now }
{
    match line {
        Line::Call { client, .. } => *client,
        _ => 0,
    }
}

/// By how many seconds the clock goes on.
fn seconds_in(line: &Line) -> u32
    ensures { result ≡ seconds_in line.now }
{
    match line {
        Line::Tick { seconds } => *seconds,
        _ => 0,
    }
}

fn count_call(calls: &mut [u64], client: u32)
    requires all { length calls.old ≡ clients_max }
    requires room { (i : ℕ) → slice_index calls.old i < 2 ^ 63 }
    ensures { calls.new ≡ counted calls.old client }
{
    if client >= 1 && client <= CLIENTS_MAX {
        let at = client as usize - 1;
        calls[at] += 1;
    }
}

impl Draft {
    /// After the first line.
    pub(crate) fn new(alloc: Global, opening: Opening) -> Draft
        requires { opening.clients ≤ clients_max }
        ensures { result ≡ record { opening = opening; lines = [] } }
    {
        Draft {
            opening,
            lines: Vec::new(alloc),
            calls: [0; 16],
            seconds: 0,
        }
    }

    fn is_client(&self, client: u32) -> bool
        ensures { result ≡ (nat_le 1 client && nat_le client self.now.opening.clients) }
    {
        1 <= client && client <= self.opening.clients
    }

    fn is_call_line(&self, client: u32, number: u32) -> bool
        ensures { result ≡ (is_client self.now.opening client && is_call_line client number self.now.lines) }
    {
        if self.is_client(client) {
            1 <= number && u64::from(number) <= self.calls[client as usize - 1]
        } else {
            false
        }
    }

    fn may_grant(&self, client: u32, credits: u32) -> bool
        ensures { result ≡ (is_client self.now.opening client && credits_in_range self.now.opening credits) }
    {
        self.is_client(client) && 1 <= credits && credits <= self.opening.credits
    }

    fn may_rejoin(&self, client: u32) -> bool
        ensures { result ≡ (is_client self.now.opening client && self.now.opening.numbered) }
    {
        self.is_client(client) && self.opening.numbered
    }

    fn may_tick(&self, seconds: u32) -> bool
        ensures { result ≡ nat_le (seconds_after self.now.lines + seconds) number_max }
    {
        u64::from(self.seconds) + u64::from(seconds) <= u64::from(NUMBER_MAX)
    }

    /// Whether a line may follow those so far.
    pub(crate) fn may_follow(&self, line: &Line) -> bool
        ensures { result ≡ may_follow self.now.opening self.now.lines line.now }
    {
        match line {
            Line::Cred { client, .. }
            | Line::Call { client, .. }
            | Line::Up { client, .. }
            | Line::Down { client, .. }
            | Line::Work { client }
            | Line::Drop { client }
            | Line::Raw { client, .. } => self.is_client(*client),
            Line::Tick { seconds } => self.may_tick(*seconds),
            Line::Forget { client, number } | Line::Revoke { client, number } => {
                self.is_call_line(*client, *number)
            }
            Line::Rejoin { client } => self.may_rejoin(*client),
            Line::Grant { client, credits } => self.may_grant(*client, *credits),
            Line::Drain => true,
        }
    }

    /// Adds a line. After an `Err` the draft is as before.
    pub(crate) fn push(&mut self, line: Line) -> Result<(), Memory>
        requires { may_follow self.old.opening self.old.lines line ≡ true }
        ensures { OnOk result (self.new ≡ record { opening = self.old.opening; lines = self.old.lines ++ line ∷ [] }) }
    {
        let client = caller(&line);
        let seconds = seconds_in(&line);
        self.lines.push(line)?;
        count_call(&mut self.calls, client);
        self.seconds += seconds;
        Ok(())
    }

    /// The script.
    pub(crate) fn into_script(self) -> Script
        requires { IsScript self }
        ensures { result ≡ self }
    {
        let Draft { opening, lines, .. } = self;
        Script::new(opening, lines)
    }
}
