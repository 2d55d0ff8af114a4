//! Laws of a link.

ghost use Rattle.std.specs.Prelude.{◌≡◌};
ghost use Rattle.nr_link.specs.Agreement.{AgreementsAreBounded, DefaultsWithoutTerms};
ghost use Rattle.nr_link.specs.KeptSends.{JudgedAlike, KeptAlike, MessagesAlike};
ghost use Rattle.nr_link.specs.Reasons as reasons;

use crate::constants::{
    REASON_CALL, REASON_CHUNKS, REASON_HEAD, REASON_INVALIDATED, REASON_KIND, REASON_OLD,
    REASON_SIZES, REASON_STAGS, REASON_VERSION, REASON_XID,
};

/// A side may keep of a begun Send only the bytes that its receive has room for, if it counts those beyond: each segment ends the link
/// for the same reason as if all bytes were kept, what is kept after it is the same, and a message that fits its receive is the same.
pub fn begun_sends_judged_alike()
    ensures judged { JudgedAlike }
    ensures kept { KeptAlike }
    ensures messages { MessagesAlike }
{}

/// The numbers for which the layer above stops a link are those of the definitions.
pub fn stop_reasons_numbered()
    ensures kind { REASON_KIND ≡ reasons.REASON_KIND }
    ensures head { REASON_HEAD ≡ reasons.REASON_HEAD }
    ensures xid { REASON_XID ≡ reasons.REASON_XID }
    ensures call { REASON_CALL ≡ reasons.REASON_CALL }
    ensures chunks { REASON_CHUNKS ≡ reasons.REASON_CHUNKS }
    ensures version { REASON_VERSION ≡ reasons.REASON_VERSION }
    ensures old { REASON_OLD ≡ reasons.REASON_OLD }
    ensures invalidated { REASON_INVALIDATED ≡ reasons.REASON_INVALIDATED }
    ensures stags { REASON_STAGS ≡ reasons.REASON_STAGS }
    ensures sizes { REASON_SIZES ≡ reasons.REASON_SIZES }
{}

/// Whatever the hellos of both sides say, a Send in each direction may have from 1,024 to 16,384 bytes; 1,024 if one of the hellos has no private data.
pub fn agreements_bounded()
    ensures bounded { AgreementsAreBounded }
    ensures defaults { DefaultsWithoutTerms }
{}
