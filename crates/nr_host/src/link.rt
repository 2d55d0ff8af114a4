//! A link, which may carry RPC over RDMA or RPC over TCP with record marks.

ghost use Rattle.std.specs.Prelude.{◌≡◌, ℕ, Option, Some, false};
ghost use Rattle.std.specs.Option.{ForSome};
ghost use Rattle.nr_links.specs.Peeked.{given_without, left_with};
ghost use Rattle.nr_turnstile.specs.Passes.{Rests};
ghost use Rattle.nr_plain.specs.History.{pass_view};
ghost use Rattle.nr_host.specs.Steps.{outside, sink_state};
ghost use Rattle.nr_host.specs.LinkServing.{IsLinkServed, LinkSinkCount, LinkSourceCount, LooksAndServes, ServesByByte};

use crate::conn_end::ConnEnd;
use crate::connection::serve_connection;
use crate::connection_limits::ConnectionLimits;
use crate::link_end::LinkEnd;
use crate::looked::{Look, Looked};
use nr_links::{Clock, Peeked};
use nr_outside::{Sink, Source};
use nr_plain::Server;
use nr_record_host::serve_records;
use nr_turnstile::{Machine, Pass, Turnstile};
use std::alloc::Global;
use std::marker::Brand;
use std::sync::Wait;

/// The first byte of the hello of an initiator (RFC 5044 section 7.1). A record mark that begins with it announces more
/// bytes than a record may have.
const HELLO_BYTE: u8 = 0x4d;

/// Serves a link whose first byte was looked at.
fn serve_by_byte<I: Source, L: Look, O: Sink, C: Clock, R: Wait>(
    rt: &R,
    alloc: Global,
    source: &mut Looked<I, L>,
    sink: &mut O,
    shared: &Turnstile<Server>,
    pass: &mut Pass<Server>,
    clock: &mut C,
    limits: ConnectionLimits,
    byte: u8,
) -> LinkEnd
    requires { Rests shared.now pass.old }
    ensures rests { Rests shared.now pass.new }
    ensures served { ServesByByte limits byte
        (outside (left_with source.old.held (I.left source.old.inner)) (given_without source.old.held (I.given source.old.inner)) (sink_state (O.taken sink.old) (O.faults sink.old) false) (C.gave clock.old) (pass_view pass.old))
        (outside (left_with source.new.held (I.left source.new.inner)) (given_without source.new.held (I.given source.new.inner)) (sink_state (O.taken sink.new) (O.faults sink.new) false) (C.gave clock.new) (pass_view pass.new)) result }
    ensures source_count { LinkSourceCount result (I.faults source.old.inner) (I.faults source.new.inner) }
    ensures sink_count { LinkSinkCount result (O.faults sink.old) (O.faults sink.new) }
{
    if byte == HELLO_BYTE {
        let end = serve_connection(rt, alloc, source, sink, shared, pass, clock, limits);
        return LinkEnd::Rdma(end);
    }
    let end = serve_records(rt, alloc, source, sink, shared, pass, clock);
    LinkEnd::Record(end)
}

/// Serves a link whose source handed out this byte at the look. Gives the source back.
fn serve_looked<L: Look, I: Source, O: Sink, C: Clock, R: Wait>(
    rt: &R,
    alloc: Global,
    source: I,
    sink: &mut O,
    shared: &Turnstile<Server>,
    pass: &mut Pass<Server>,
    clock: &mut C,
    limits: ConnectionLimits,
    byte: u8,
) -> (I, LinkEnd)
    requires rests { Rests shared.now pass.old }
    requires byte { byte ≡ L.byte }
    requires left { I.left source ≡ L.left }
    requires given { I.given source ≡ L.given }
    ensures rests { Rests shared.now pass.new }
    ensures served { (held : Option ℕ) × (ForSome held (λ b. (b ≡ byte) × ((I.left result.0 ≡ I.left source) × (I.given result.0 ≡ I.given source))) × ServesByByte limits byte
        (outside (left_with (Some byte) (I.left source)) (given_without (Some byte) (I.given source)) (sink_state (O.taken sink.old) (O.faults sink.old) false) (C.gave clock.old) (pass_view pass.old))
        (outside (left_with held (I.left result.0)) (given_without held (I.given result.0)) (sink_state (O.taken sink.new) (O.faults sink.new) false) (C.gave clock.new) (pass_view pass.new)) result.1) }
    ensures source_count { LinkSourceCount result.1 (I.faults source) (I.faults result.0) }
    ensures sink_count { LinkSinkCount result.1 (O.faults sink.old) (O.faults sink.new) }
{
    let mut source: Looked<I, L> = Looked::new(source, byte);
    let end = serve_by_byte(
        rt,
        alloc,
        &mut source,
        sink,
        shared,
        pass,
        clock,
        limits,
        byte,
    );
    (source.into_inner(), end)
}

/// Looks at the first byte of a link, and serves it. Gives the source back.
fn look_and_serve<I: Source, O: Sink, C: Clock, R: Wait>(
    rt: &R,
    alloc: Global,
    source: I,
    sink: &mut O,
    shared: &Turnstile<Server>,
    pass: &mut Pass<Server>,
    clock: &mut C,
    limits: ConnectionLimits,
) -> (I, LinkEnd)
    requires { Rests shared.now pass.old }
    ensures rests { Rests shared.now pass.new }
    ensures served { LooksAndServes limits
        (outside (I.left source) (I.given source) (sink_state (O.taken sink.old) (O.faults sink.old) false) (C.gave clock.old) (pass_view pass.old))
        (outside (I.left result.0) (I.given result.0) (sink_state (O.taken sink.new) (O.faults sink.new) false) (C.gave clock.new) (pass_view pass.new)) result.1 }
    ensures source_count { LinkSourceCount result.1 (I.faults source) (I.faults result.0) }
    ensures sink_count { LinkSinkCount result.1 (O.faults sink.old) (O.faults sink.new) }
{
    let mut peeked = Peeked::new(source);
    let byte = match peeked.look() {
        Ok(Some(byte)) => byte,
        Ok(None) => return (peeked.into_inner(), LinkEnd::Rdma(ConnEnd::Closed)),
        Err(_) => return (peeked.into_inner(), LinkEnd::Rdma(ConnEnd::LinkRead)),
    };
    let source = peeked.into_inner();
    serve_looked::<Brand, I, O, C, R>(rt, alloc, source, sink, shared, pass, clock, limits, byte)
}

/// Serves one link to its end. With `records` it may carry RPC over RDMA or RPC over TCP with record marks, as its
/// first byte says; without, it carries RPC over RDMA, within these limits (see [`serve_connection`]). Gives the source
/// back.
pub fn serve_link<I: Source, O: Sink, C: Clock, R: Wait>(
    rt: &R,
    alloc: Global,
    source: I,
    sink: &mut O,
    shared: &Turnstile<Server>,
    pass: &mut Pass<Server>,
    clock: &mut C,
    limits: ConnectionLimits,
    records: bool,
) -> (I, LinkEnd)
    requires { Rests shared.now pass.old }
    ensures rests { Rests shared.now pass.new }
    ensures served { IsLinkServed limits records
        (outside (I.left source) (I.given source) (sink_state (O.taken sink.old) (O.faults sink.old) false) (C.gave clock.old) (pass_view pass.old))
        (outside (I.left result.0) (I.given result.0) (sink_state (O.taken sink.new) (O.faults sink.new) false) (C.gave clock.new) (pass_view pass.new)) result.1 }
    ensures source_count { LinkSourceCount result.1 (I.faults source) (I.faults result.0) }
    ensures sink_count { LinkSinkCount result.1 (O.faults sink.old) (O.faults sink.new) }
{
    if records {
        return look_and_serve(rt, alloc, source, sink, shared, pass, clock, limits);
    }
    let mut source = source;
    let end = serve_connection(rt, alloc, &mut source, sink, shared, pass, clock, limits);
    (source, LinkEnd::Rdma(end))
}
