//! The items of heads: each is put at the end of a writer.

ghost use Rattle.std.specs.Prelude.{◌≡◌, ◌<◌, ◌≤◌, [], ◌++◌, length, map, OnOk, OnErr, IfOk};
ghost use Rattle.nr_xdr.specs.Item.Item.{Unsigned};
ghost use Rattle.nr_xdr.specs.Items.{encodings};
ghost use Rattle.nr_xdr.specs.Room.{Appended};
ghost use Rattle.nr_rpc.specs.Credential.{auth_items, auth_of, no_verifier, sys_items, CanWriteCred};

use crate::constants::{AUTH_BODY_MAX, AUTH_NONE, AUTH_SYS, MACHINE_MAX};
use crate::cred::{Cred, Gids};
use nr_xdr::{Memory, Octets, RoomWriter, Writer};
use std::alloc::Global;

pub(crate) fn put_numbers(writer: &mut Writer, numbers: &[u32]) -> Result<(), Memory>
    ensures { OnOk result (writer.new ≡ writer.old ++ encodings (map Unsigned numbers.now)) }
{
    for number in numbers {
        writer.u32(*number)?;
    }
    Ok(())
}

/// Puts numbers at the end of a writer with room. After an `Err` some of them may stand there.
pub(crate) fn put_words(writer: &mut RoomWriter, numbers: &[u32]) -> Result<(), Memory>
    ensures ok { OnOk result (Appended writer.old writer.new (encodings (map Unsigned numbers.now))) }
    ensures room { OnErr result (writer.old.left < length (encodings (map Unsigned numbers.now))) }
{
    for number in numbers {
        writer.u32(*number)?;
    }
    Ok(())
}

fn put_auth(writer: &mut Writer, flavor: u32, body: &[u8]) -> Result<(), Memory>
    requires { length body.now ≤ AUTH_BODY_MAX }
    ensures { OnOk result (writer.new ≡ writer.old ++ encodings (auth_items (record { flavor = flavor; body = body.now }) [])) }
{
    writer.u32(flavor)?;
    writer.opaque(body)?;
    Ok(())
}

/// Puts the verifier of every head that is written, AUTH_NONE, at the end (RFC 5531 section 8.2).
pub(crate) fn put_no_verifier(writer: &mut Writer) -> Result<(), Memory>
    ensures { OnOk result (writer.new ≡ writer.old ++ encodings (auth_items no_verifier [])) }
{
    put_auth(writer, AUTH_NONE, &[])
}

/// Puts the body of AUTH_SYS at the end (RFC 5531 appendix A).
fn put_sys(
    writer: &mut Writer,
    stamp: u32,
    machine: &Octets,
    uid: u32,
    gid: u32,
    gids: &Gids,
) -> Result<(), Memory>
    requires { length machine.now ≤ MACHINE_MAX }
    ensures { OnOk result (writer.new ≡ writer.old ++ encodings (sys_items stamp machine.now uid gid gids.now)) }
{
    writer.u32(stamp)?;
    writer.opaque(machine.as_slice())?;
    put_numbers(writer, &[uid, gid, gids.len() as u32])?;
    put_numbers(writer, gids.as_slice())
}

/// The room that is taken at first for the body of AUTH_SYS: that of one without groups and with a short name of the machine.
const BODY_ROOM: usize = 40;

/// The body of AUTH_SYS.
fn sys_octets(
    alloc: Global,
    stamp: u32,
    machine: &Octets,
    uid: u32,
    gid: u32,
    gids: &Gids,
) -> Result<Octets, Memory>
    requires { length machine.now ≤ MACHINE_MAX }
    ensures { IfOk result (λ o. o ≡ encodings (sys_items stamp machine.now uid gid gids.now)) }
{
    let mut writer = Writer::with_capacity(alloc, BODY_ROOM)?;
    put_sys(&mut writer, stamp, machine, uid, gid, gids)?;
    Ok(writer.finish())
}

/// Puts a credential at the end.
pub(crate) fn put_cred(alloc: Global, writer: &mut Writer, cred: &Cred) -> Result<(), Memory>
    requires { CanWriteCred cred.now }
    ensures { OnOk result (writer.new ≡ writer.old ++ encodings (auth_items (auth_of cred.now) [])) }
{
    match cred {
        Cred::None => put_auth(writer, AUTH_NONE, &[]),
        Cred::Sys {
            stamp,
            machine,
            uid,
            gid,
            gids,
        } => {
            let body = sys_octets(alloc, *stamp, machine, *uid, *gid, gids)?;
            put_auth(writer, AUTH_SYS, body.as_slice())
        }
        Cred::Other { flavor } => put_auth(writer, *flavor, &[]),
    }
}
