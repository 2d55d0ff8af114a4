//! A command, from its words to its end.

ghost use Rattle.std.specs.Prelude.{◌≡◌};
ghost use Rattle.nr_outside.specs.Streams.{sink_at, source_at};
ghost use Rattle.nr_words.specs.Lines.{plain_action, plain_client};
ghost use Rattle.nr_client.specs.Dialing.{dialer_at};
ghost use Rattle.nr_commands.specs.Running.{IsPrinted, Runs, text_of_over};

use crate::files::{get, put};
use crate::texts::{
    list_text, make_directory, make_link, mount_text, read_link_text, remove, stat_text,
};
use nr_client::{Calls, ClientEnd, Link, Session};
use nr_links::{Dialer, LinkNumber, LinkSink, LinkSource, NumberedSink, NumberedSource};
use nr_outside::{Sink, Source, write_whole};
use nr_words::{Action, Client};
use nr_xdr::Octets;
use std::alloc::Global;
use std::marker::Brand;

/// Makes the requests of a command, and gives the text that it prints.
pub(crate) fn text_of<L: Calls, N: Source, K: Sink>(
    alloc: Global,
    session: &mut Session<L>,
    export: &str,
    action: &Action<&str>,
    input: &mut N,
    out: &mut K,
) -> Result<Octets, ClientEnd>
    ensures { text_of_over L.relations session.old.uid session.old.gid export.now (plain_action action.now)
        (source_at (N.left input.old) (N.given input.old) (N.faults input.old)) (source_at (N.left input.new) (N.given input.new) (N.faults input.new))
        (sink_at (K.taken out.old) (K.faults out.old)) (sink_at (K.taken out.new) (K.faults out.new))
        (L.at session.old.link) (L.at session.new.link) result }
{
    match action {
        Action::Mount => mount_text(alloc, session, export),
        Action::List { path } => list_text(alloc, session, export, path),
        Action::Stat { path } => stat_text(alloc, session, export, path),
        Action::ReadLink { path } => read_link_text(alloc, session, export, path),
        Action::MakeDirectory { path } => make_directory(alloc, session, export, path),
        Action::Remove { path } => remove(alloc, session, export, path),
        Action::Link { path, target } => make_link(alloc, session, export, path, target),
        Action::Put { path } => put(alloc, session, export, path, input),
        Action::Get { path } => get(alloc, session, export, path, out),
    }
}

/// Prints a text, if there is one.
pub(crate) fn print<O: Sink>(out: &mut O, text: Result<Octets, ClientEnd>) -> Result<(), ClientEnd>
    ensures { IsPrinted text result (sink_at (O.taken out.old) (O.faults out.old)) (sink_at (O.taken out.new) (O.faults out.new)) }
{
    let text = match text {
        Ok(text) => text,
        Err(end) => return Err(end),
    };
    match write_whole(out, text.as_slice()) {
        Ok(()) => Ok(()),
        Err(_) => Err(ClientEnd::OutputFault),
    }
}

/// Runs a command of a client over the next link of a dialer, whose number this is.
fn run_at<
    N: LinkNumber,
    P: LinkSource,
    Q: LinkSink,
    D: Dialer<Source = P, Sink = Q>,
    I: Source,
    K: Sink,
>(
    alloc: Global,
    client: &Client<&str>,
    dial: &mut D,
    input: &mut I,
    out: &mut K,
) -> Result<(), ClientEnd>
    requires { D.next dial.old ≡ N.number }
    ensures { Runs (plain_client client.now)
        (dialer_at (D.asked dial.old) (D.ended dial.old) (D.lost dial.old) (D.faults dial.old))
        (dialer_at (D.asked dial.new) (D.ended dial.new) (D.lost dial.new) (D.faults dial.new))
        (source_at (I.left input.old) (I.given input.old) (I.faults input.old)) (source_at (I.left input.new) (I.given input.new) (I.faults input.new))
        (sink_at (K.taken out.old) (K.faults out.old)) (sink_at (K.taken out.new) (K.faults out.new)) result }
{
    let opened = Session::<Link<NumberedSource<P, N>, NumberedSink<Q, N>>>::open(
        alloc,
        dial,
        client.addr,
        client.uid,
        client.gid,
        client.units,
        client.invalidates,
    );
    let mut session = match opened {
        Ok(session) => session,
        Err(end) => return Err(end),
    };
    let text = text_of(
        alloc,
        &mut session,
        client.export,
        &client.action,
        input,
        out,
    );
    session.close(dial);
    print(out, text)
}

/// Runs a command of a client: opens a session, makes the requests of the command, closes the session, and prints its text. Without a result
/// no text is printed. `put` takes the bytes of the file from `input`; `get` writes those that came to `out` as they come.
///
/// # Errors
///
/// [`ClientEnd`] says why the command was not done; `InputFault` if a read of `input` failed, `OutputFault` if a write to `out` did.
pub fn run_command<P: LinkSource, Q: LinkSink, D: Dialer<Source = P, Sink = Q>, N: Source, K: Sink>(
    alloc: Global,
    client: &Client<&str>,
    dial: &mut D,
    input: &mut N,
    out: &mut K,
) -> Result<(), ClientEnd>
    ensures { Runs (plain_client client.now)
        (dialer_at (D.asked dial.old) (D.ended dial.old) (D.lost dial.old) (D.faults dial.old))
        (dialer_at (D.asked dial.new) (D.ended dial.new) (D.lost dial.new) (D.faults dial.new))
        (source_at (N.left input.old) (N.given input.old) (N.faults input.old)) (source_at (N.left input.new) (N.given input.new) (N.faults input.new))
        (sink_at (K.taken out.old) (K.faults out.old)) (sink_at (K.taken out.new) (K.faults out.new)) result }
{
    run_at::<Brand, P, Q, D, N, K>(alloc, client, dial, input, out)
}
