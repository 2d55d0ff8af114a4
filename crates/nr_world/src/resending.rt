//! Calls that are sent again on the next link of their client.

ghost use Rattle.std.specs.Prelude.{◌≡◌, [], ◌∷◌, ◌++◌, map, IfOk, OnOk};
ghost use Rattle.nr_world.specs.Views.{call_view, held_view};
ghost use Rattle.nr_world.specs.private.Working.{NotesFirst, NotesResends};

use crate::awaited::{AwaitedCall, HeldCall};
use crate::copying::{copy_call, copy_form};
use crate::draining::add_submit;
use crate::link::DrillLink;
use nr_marks::MarkLog;
use nr_reduce::Submission;
use nr_xdr::Memory;
use std::alloc::Global;

/// Adds a copy of a call that is awaited to those that wait to be sent again.
fn push_held(alloc: Global, held: &mut Vec<HeldCall>, awaited: &AwaitedCall) -> Result<(), Memory>
    ensures { OnOk result (map held_view held.new.items ≡ map held_view held.old.items ++ call_view awaited.now ∷ []) }
{
    let xid = awaited.ticket.xid();
    let Ok(form) = copy_form(alloc, &awaited.form) else {
        return Err(Memory);
    };
    let Ok(call) = copy_call(alloc, &awaited.call) else {
        drop(form);
        return Err(Memory);
    };
    match held.push(HeldCall { xid, call, form }) {
        Ok(()) => Ok(()),
        Err(failed) => {
            drop(failed);
            Err(Memory)
        }
    }
}

/// Copies of the calls that are awaited, which the next link sends again.
pub(crate) fn held_calls(alloc: Global, awaited: &[AwaitedCall]) -> Result<Vec<HeldCall>, Memory>
    ensures { IfOk result (λ held. map held_view held.items ≡ map call_view awaited.now) }
{
    let mut held = Vec::new(alloc);
    'calls: for call in awaited {
        push_held(alloc, &mut held, call)?;
    }
    Ok(held)
}

/// Adds a mark for each of the first calls, until this many wait, and lets the calls go.
fn add_resends(
    alloc: Global,
    marks: &mut MarkLog,
    link: u32,
    held: &mut Vec<HeldCall>,
    waiting: usize,
) -> Result<(), Memory>
    ensures { OnOk result (NotesFirst link waiting (map held_view held.old.items) (map held_view held.new.items) marks.old marks.new) }
{
    'calls: while held.len() > waiting {
        let HeldCall { xid, call, form } = held.remove(0);
        let answer = Submission::Accepted { xid };
        add_submit(alloc, marks, link, call, form, answer)?;
    }
    Ok(())
}

impl DrillLink {
    /// Adds the marks of the calls that the client sent again: the first ones, up to those that wait still.
    #[tactic(none)]
    pub(crate) fn note_resends(&mut self, marks: &mut MarkLog) -> Result<(), Memory>
        ensures { OnOk result (NotesResends self.old self.new marks.old marks.new) }
    {
        if self.client.end().is_some() {
            return Ok(());
        }
        let waiting = self.client.waiting();
        add_resends(self.alloc, marks, self.number, &mut self.held, waiting)
    }
}
