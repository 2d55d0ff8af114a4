//! The remote link of a gateway, and the requester over it that its connections share.

ghost use Rattle.std.specs.Prelude.{◌≡◌, ◌≢◌, ◌≤◌, [], ◌∷◌, None, Some, IfOk, MatchResult};
ghost use Rattle.std.specs.Arc.{arc_value};
ghost use Rattle.nr_link.specs.declared.end.End.TheVariants as ends;
ghost use Rattle.nr_links.specs.Links.{IsNewLink};
ghost use Rattle.nr_requester.specs.Fed.{fed_bytes};
ghost use Rattle.nr_turnstile.specs.Passes.{mine_of, seen_by};
ghost use Rattle.nr_shared.specs.declared.entry.Entry.TheVariants as entries;
ghost use Rattle.nr_shared.specs.Sharing.{SharedRests};
ghost use Rattle.nr_shared.specs.Standing.{bytes_before};
ghost use Rattle.nr_client.specs.Dialing.{dialer_at};
ghost use Rattle.nr_gateway.specs.Gateways.{Dials, OpensRemote};
ghost use Rattle.nr_gateway.specs.Stops.{NotOpened};

use nr_links::{Dialer, LinkSink, LinkSource};
use nr_outside::{Sink, Source};
use nr_requester::Requester;
use nr_serve::ServeStop;
use nr_shared::{AnyCall, Appended, InitialHistory, Pass, SharedRequester};
use nr_xdr::Memory;
use std::alloc::Global;
use std::marker::Brand;
use std::sync::{Arc, Wait};

/// The requester that the connections of a gateway share.
pub(crate) type Remote<J, K> = Arc<SharedRequester<J, K, AnyCall>, Global>;

/// How many credits the requester of a gateway wishes for.
const GATE_CREDITS: u32 = 16;

/// The units of 1,024 bytes that it has for its Sends in each direction.
const GATE_UNITS: u8 = 1;

/// Hands a requester in, to be shared by owners, with its source and its sink. If memory runs out, all three are dropped.
fn share_remote<N: Appended, R: Wait, J: LinkSource + Drop, K: LinkSink + Drop>(
    rt: &R,
    alloc: Global,
    requester: Requester,
    source: J,
    sink: K,
) -> Result<(Remote<J, K>, Pass<J, K, AnyCall>), Memory>
    requires entry { entries.Initial (record { requester = requester; sink = record { link = K.link sink; faults = K.faults sink; taken = K.taken sink }; tries = None }) ≡ N.entry }
    requires has_memory { requester.state.side.ended ≢ Some ends.Memory }
    requires fed { fed_bytes requester ≤ bytes_before }
    ensures rests { IfOk result (λ t. SharedRests (arc_value t.0) t.1) }
    ensures seen { IfOk result (λ t. (seen_by t.1.main ≡ N.entry ∷ []) × (mine_of t.1.main ≡ [])) }
{
    let Ok((shared, pass)) = SharedRequester::new::<InitialHistory<N>, R>(
        rt, alloc, requester, source, sink, 0,
    ) else {
        return Err(Memory);
    };
    let Ok(shared) = Arc::new(alloc, shared) else {
        return Err(Memory);
    };
    Ok((shared, pass))
}

/// Opens a requester over a new link, and shares it.
fn share_opened<R: Wait, J: LinkSource + Drop, K: LinkSink + Drop>(
    rt: &R,
    alloc: Global,
    source: J,
    sink: K,
) -> Result<(Remote<J, K>, Pass<J, K, AnyCall>), Memory>
    requires { IsNewLink (J.given source) (K.taken sink) (J.faults source) (K.faults sink) }
    ensures rests { IfOk result (λ t. SharedRests (arc_value t.0) t.1) }
    ensures opens { IfOk result (λ t. OpensRemote (seen_by t.1.main) (mine_of t.1.main)) }
{
    let requester = match Requester::open_sized(alloc, GATE_CREDITS, GATE_UNITS, false) {
        Ok(requester) => requester,
        Err(_) => {
            drop(source);
            drop(sink);
            return Err(Memory);
        }
    };
    share_remote::<Brand, R, J, K>(rt, alloc, requester, source, sink)
}

/// Dials the remote server, and shares a requester over that link. The link is not hung up.
pub(crate) fn open_remote<
    R: Wait,
    J: LinkSource + Drop,
    K: LinkSink + Drop,
    D: Dialer<Source = J, Sink = K>,
>(
    rt: &R,
    alloc: Global,
    dial: &mut D,
    addr: &str,
) -> Result<(Remote<J, K>, Pass<J, K, AnyCall>), ServeStop>
    ensures rests { IfOk result (λ t. SharedRests (arc_value t.0) t.1) }
    ensures opens { IfOk result (λ t. OpensRemote (seen_by t.1.main) (mine_of t.1.main)) }
    ensures dials { MatchResult result
        (λ _. Dials addr.now (dialer_at (D.asked dial.old) (D.ended dial.old) (D.lost dial.old) (D.faults dial.old)) (dialer_at (D.asked dial.new) (D.ended dial.new) (D.lost dial.new) (D.faults dial.new)))
        (λ stop. NotOpened stop addr.now (dialer_at (D.asked dial.old) (D.ended dial.old) (D.lost dial.old) (D.faults dial.old)) (dialer_at (D.asked dial.new) (D.ended dial.new) (D.lost dial.new) (D.faults dial.new))) }
{
    let (source, sink) = match dial.dial(addr) {
        Ok(link) => link,
        Err(_) => return Err(ServeStop::Link),
    };
    match share_opened::<R, J, K>(rt, alloc, source, sink) {
        Ok(opened) => Ok(opened),
        Err(_) => Err(ServeStop::Memory),
    }
}
