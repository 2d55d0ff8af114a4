//! Copies of calls, forms and credentials.

ghost use Rattle.std.specs.Prelude.{◌≡◌, IfOk};

use nr_reduce::{Call, Form, Lengths, Offer};
use nr_rpc::{Cred, Gids};
use nr_xdr::{Memory, Octets};
use std::alloc::Global;

#[tactic(auto, using(std::proofs::lemmas::List::take_more))]
fn copy_gids(gids: &Gids) -> Gids
    ensures { result ≡ gids.now }
{
    let mut copy = Gids::new();
    let of = gids.as_slice();
    'gids: for gid in of {
        copy.push(*gid);
    }
    copy
}

/// A copy of a credential.
pub fn copy_cred(alloc: Global, cred: &Cred) -> Result<Cred, Memory>
    ensures { IfOk result (λ copy. copy ≡ cred.now) }
{
    match cred {
        Cred::None => Ok(Cred::None),
        Cred::Sys {
            stamp,
            machine,
            uid,
            gid,
            gids,
        } => Ok(Cred::Sys {
            stamp: *stamp,
            machine: Octets::from_slice(alloc, machine.as_slice())?,
            uid: *uid,
            gid: *gid,
            gids: copy_gids(gids),
        }),
        Cred::Other { flavor } => Ok(Cred::Other { flavor: *flavor }),
    }
}

/// A copy of a call.
pub fn copy_call(alloc: Global, call: &Call) -> Result<Call, Memory>
    ensures { IfOk result (λ copy. copy ≡ call.now) }
{
    let cred = copy_cred(alloc, &call.cred)?;
    let Ok(args) = Octets::from_slice(alloc, call.args.as_slice()) else {
        drop(cred);
        return Err(Memory);
    };
    Ok(Call {
        prog: call.prog,
        vers: call.vers,
        proc: call.proc,
        cred,
        args,
    })
}

fn copy_lengths(alloc: Global, lengths: &Option<Lengths>) -> Result<Option<Lengths>, Memory>
    ensures { IfOk result (λ copy. copy ≡ lengths.now) }
{
    match lengths {
        None => Ok(None),
        Some(lengths) => Ok(Some(Lengths::from_vec(Vec::from_slice(alloc, lengths.as_slice())?))),
    }
}

fn copy_offer(alloc: Global, offer: &Offer) -> Result<Offer, Memory>
    ensures { IfOk result (λ copy. copy ≡ offer.now) }
{
    let read = copy_lengths(alloc, &offer.read)?;
    let write = copy_lengths(alloc, &offer.write)?;
    let reply = copy_lengths(alloc, &offer.reply)?;
    Ok(Offer {
        read_at: offer.read_at,
        read,
        write,
        reply,
    })
}

/// A copy of a form.
pub fn copy_form(alloc: Global, form: &Form) -> Result<Form, Memory>
    ensures { IfOk result (λ copy. copy ≡ form.now) }
{
    match form {
        Form::Auto => Ok(Form::Auto),
        Form::Inline => Ok(Form::Inline),
        Form::Chunk => Ok(Form::Chunk),
        Form::Long => Ok(Form::Long),
        Form::Given(offer) => Ok(Form::Given(copy_offer(alloc, offer)?)),
    }
}
