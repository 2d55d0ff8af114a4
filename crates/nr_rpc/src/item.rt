//! The items of heads: each is read, or refused with its offset.

ghost use Rattle.std.specs.Prelude.{◌<◌};
ghost use Rattle.nr_xdr.specs.Matching.{MatchesRead, MatchesStep};
ghost use Rattle.nr_rpc.specs.Reading.{expect_at, pair_at, auth_at, auth_of_raw};

use crate::constants::AUTH_BODY_MAX;
use nr_xdr::{DecodeError, Reader, number};

/// A credential or a verifier, its body a part of the input.
#[derive(Clone, Copy)]
pub(crate) struct RawAuth<'a> {
    pub(crate) flavor: u32,
    pub(crate) body: &'a [u8],
}

/// Reads this number; another one fails at its own offset.
#[tactic(auto, unfolding(crate::specs::Reading::expect_at))]
pub(crate) fn expect(reader: &mut Reader<'_>, wanted: u32) -> Result<(), DecodeError>
    ensures { MatchesStep result reader.new (expect_at wanted reader.old) }
{
    let at = reader.at();
    if number(reader)? != wanted {
        return Err(DecodeError { at });
    }
    Ok(())
}

/// Reads two numbers.
#[tactic(auto, unfolding(crate::specs::Reading::pair_at))]
pub(crate) fn pair(reader: &mut Reader<'_>) -> Result<(u32, u32), DecodeError>
    ensures { MatchesRead (λ p. p) result reader.new (pair_at reader.old) }
{
    let first = number(reader)?;
    let second = number(reader)?;
    Ok((first, second))
}

/// Reads a credential or a verifier (RFC 5531 section 8.2).
#[tactic(auto, unfolding(crate::specs::Reading::auth_at))]
pub(crate) fn auth<'a>(reader: &mut Reader<'a>) -> Result<RawAuth<'a>, DecodeError>
    ensures { MatchesRead auth_of_raw result reader.new (auth_at reader.old) }
{
    let flavor = number(reader)?;
    let body = reader.opaque(AUTH_BODY_MAX)?;
    Ok(RawAuth { flavor, body })
}
