//! A caller of a shared requester that several owners hold.

ghost use Rattle.std.specs.Prelude.{◌≡◌};
ghost use Rattle.std.specs.Arc.{arc_value};
ghost use Rattle.nr_shared.specs.Sharing.{SharedRests};

use nr_links::{LinkSink, LinkSource};
use nr_shared::{AnyCall, Pass, SharedRequester};
use std::alloc::Global;
use std::marker::Model;
use std::sync::Arc;

/// A share of a shared requester, with a pass of it. The pass is a caller's, and is outside of its turns. Contracts see the requester
/// and the pass.
#[derive(Drop)]
pub struct RemoteCaller<J: LinkSource + Drop, K: LinkSink + Drop> {
    remote: Arc<SharedRequester<J, K, AnyCall>, Global>,
    pass: Pass<J, K, AnyCall>,
}

impl<J: LinkSource + Drop, K: LinkSink + Drop> Model for RemoteCaller<J, K> {
    ghost use Rattle.std.specs.Arc.{arc_value};
    ghost use Rattle.std.specs.Coded.{codes};
    ghost use Rattle.nr_endpoint.specs.Codes.{state_code};
    ghost use Rattle.nr_shared.specs.Sharing.{SharedRests};
    ghost use Rattle.nr_gate.specs.CallerParts.{CallerParts};

    ghost Value = { CallerParts J K };

    ghost coded = { Prim.hlevel (codes, state_code) };

    ghost view = { λ c. record { remote = arc_value c.remote; pass = c.pass } };

    ghost invariant = { λ c. SharedRests (arc_value c.remote) c.pass };
}

impl<J: LinkSource + Drop, K: LinkSink + Drop> RemoteCaller<J, K> {
    /// A caller of this requester, with this pass.
    pub(crate) fn new(
        remote: Arc<SharedRequester<J, K, AnyCall>, Global>,
        pass: Pass<J, K, AnyCall>,
    ) -> RemoteCaller<J, K>
        requires { SharedRests (arc_value remote) pass }
        ensures remote { result.remote ≡ arc_value remote }
        ensures pass { result.pass ≡ pass }
    {
        RemoteCaller { remote, pass }
    }

    /// Its share, and its pass.
    pub(crate) fn into_parts(
        self,
    ) -> (
        Arc<SharedRequester<J, K, AnyCall>, Global>,
        Pass<J, K, AnyCall>,
    )
        ensures rests { SharedRests (arc_value result.0) result.1 }
        ensures remote { arc_value result.0 ≡ self.remote }
        ensures pass { result.1 ≡ self.pass }
    {
        let RemoteCaller { remote, pass } = self;
        (remote, pass)
    }
}
