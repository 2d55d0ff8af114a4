//! Credentials from their flavor and body.

ghost use Rattle.std.specs.Prelude.{◌≡◌, ◌≤◌, ◌<◌, IfOk};
ghost use Rattle.std.specs.Option.{option_map};
ghost use Rattle.nr_xdr.specs.Matching.{MatchesRead};
ghost use Rattle.nr_rpc.specs.Reading.{sys_at, user_at, gids_at, numbers_at, whole_value, cred_of_body, cred_of, auth_of_raw};

use crate::constants::{AUTH_NONE, AUTH_SYS, GIDS_MAX, MACHINE_MAX};
use crate::cred::{Cred, Gids};
use crate::item::{RawAuth, pair};
use nr_xdr::{DecodeError, Memory, Octets, Reader, number};
use std::alloc::Global;

/// The body of AUTH_SYS (RFC 5531 appendix A).
#[derive(Drop)]
pub(crate) struct SysBody<'a> {
    pub(crate) stamp: u32,
    pub(crate) machine: &'a [u8],
    pub(crate) uid: u32,
    pub(crate) gid: u32,
    pub(crate) gids: Gids,
}

fn numbers(reader: &mut Reader<'_>, count: u32) -> Result<Gids, DecodeError>
    requires { count ≤ GIDS_MAX }
    ensures { MatchesRead (λ g. g) result reader.new (numbers_at count reader.old) }
{
    let mut gids = Gids::new();
    for _ in 0..count {
        gids.push(number(reader)?);
    }
    Ok(gids)
}

/// Reads the further groups, after their count.
#[tactic(auto, unfolding(crate::specs::Reading::gids_at))]
fn gids(reader: &mut Reader<'_>) -> Result<Gids, DecodeError>
    ensures { MatchesRead (λ g. g) result reader.new (gids_at reader.old) }
{
    let at = reader.at();
    let count = number(reader)?;
    if count as usize > GIDS_MAX {
        return Err(DecodeError { at });
    }
    numbers(reader, count)
}

/// Reads a user, its group and the further groups.
#[tactic(auto, unfolding(crate::specs::Reading::user_at))]
fn user(reader: &mut Reader<'_>) -> Result<((u32, u32), Gids), DecodeError>
    ensures { MatchesRead (λ u. u) result reader.new (user_at reader.old) }
{
    let ids = pair(reader)?;
    let gids = gids(reader)?;
    Ok((ids, gids))
}

/// Reads the body of AUTH_SYS.
#[tactic(auto, unfolding(crate::specs::Reading::sys_at))]
fn sys_body<'a>(reader: &mut Reader<'a>) -> Result<SysBody<'a>, DecodeError>
    ensures { MatchesRead cred_of_body result reader.new (sys_at reader.old) }
{
    let stamp = number(reader)?;
    let machine = reader.opaque(MACHINE_MAX)?;
    let ((uid, gid), gids) = user(reader)?;
    Ok(SysBody {
        stamp,
        machine,
        uid,
        gid,
        gids,
    })
}

/// The body of AUTH_SYS that the bytes are, if they are one with nothing after it.
fn sys_of(body: &[u8]) -> Option<SysBody<'_>>
    ensures { option_map cred_of_body result ≡ whole_value (sys_at (record { place = 0; rest = body.now })) }
{
    let mut reader = Reader::new(body);
    match sys_body(&mut reader) {
        Ok(sys) => {
            if reader.rest().is_empty() {
                Some(sys)
            } else {
                None
            }
        }
        Err(_error) => None,
    }
}

/// The credential that a flavor and a body are.
#[tactic(auto, unfolding(crate::specs::Reading::cred_of))]
pub(crate) fn cred_from(alloc: Global, auth: RawAuth<'_>) -> Result<Cred, Memory>
    ensures { IfOk result (λ cred. cred ≡ cred_of (auth_of_raw auth.entry)) }
{
    if auth.flavor == AUTH_NONE {
        return Ok(Cred::None);
    }
    if auth.flavor != AUTH_SYS {
        return Ok(Cred::Other {
            flavor: auth.flavor,
        });
    }
    match sys_of(auth.body) {
        Some(sys) => owned_cred(alloc, sys),
        None => Ok(Cred::Other {
            flavor: auth.flavor,
        }),
    }
}

/// The credential of AUTH_SYS with this body, which owns its machine's name.
fn owned_cred(alloc: Global, sys: SysBody<'_>) -> Result<Cred, Memory>
    ensures { IfOk result (λ cred. cred ≡ cred_of_body sys.entry) }
{
    let SysBody {
        stamp,
        machine,
        uid,
        gid,
        gids,
    } = sys;
    Ok(Cred::Sys {
        stamp,
        machine: Octets::from_slice(alloc, machine)?,
        uid,
        gid,
        gids,
    })
}
