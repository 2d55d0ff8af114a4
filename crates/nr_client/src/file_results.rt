//! The results of the calls that read and write a file.

ghost use Rattle.std.specs.Prelude.{◌≡◌, ◌<◌, ◌≤◌, ◌^◌, false, length, IfErr, IfOk};
ghost use Rattle.nr_client.specs.Reading.{post_op_attr_len, read_result, results_offset};
ghost use Rattle.nr_client.specs.Results.{Gives, IsOfReply};
ghost use Rattle.nr_client.specs.Writing.{created_file, wcc_data_len, write_result};

use crate::client_end::ClientEnd;
use crate::reasons::NO_PROGRESS;
use crate::results::{nfs_data_results, nfs_results};
use nr_nfs_base::{Attributes, Handle, WccData};
use nr_nfs_res::{CreateOk, ReadOkRef, WriteOk};
use nr_reduce::Outcome;
use nr_rpc::{ReplyHead, read_reply};
use std::alloc::Global;

/// The offset of the results in a reply, after its head; 0 if it has none.
fn results_offset(outcome: &Outcome) -> usize
    ensures is { result ≡ results_offset outcome.now }
    ensures within { result < 2 ^ 63 }
{
    match outcome {
        Outcome::Reply(payload) => {
            let payload = payload.as_slice();
            let _len = payload.len();
            match read_reply(payload) {
                Ok(ReplyHead::Accepted { results_at, .. }) => results_at,
                _ => 0,
            }
        }
        _ => 0,
    }
}

/// The length of the attributes of a file that a result has, in bytes.
fn post_op_attr_len(attributes: &Option<Attributes>) -> usize
    ensures { result ≡ post_op_attr_len attributes.now }
{
    match attributes {
        None => 4,
        Some(_) => 88,
    }
}

/// The length of the attributes of a file before and after a call, in bytes.
fn wcc_data_len(wcc: &WccData) -> usize
    ensures { result ≡ wcc_data_len wcc.now }
{
    let before = match wcc.before {
        None => 4,
        Some(_) => 28,
    };
    before + post_op_attr_len(&wcc.after)
}

/// The results of a READ of `count` bytes. The data are not copied.
pub(crate) fn read_in<'a>(
    alloc: Global,
    outcome: &'a Outcome,
    count: u32,
) -> Result<ReadOkRef<'a>, ClientEnd>
    ensures gives { Gives result (read_result count outcome.now) }
    ensures of_reply { IfErr result IsOfReply }
    ensures within { IfOk result (λ r. length r.bytes ≤ count) }
    ensures sense { IfOk result (λ r. r.eof ≡ false → 0 < length r.bytes) }
{
    let results = match nfs_data_results(alloc, outcome) {
        Ok(results) => results,
        Err(end) => return Err(end),
    };
    let len = results.bytes().len();
    if len > count as usize || (len == 0 && !results.eof()) {
        let attributes = results.attributes();
        let at = results_offset(outcome) + (12 + post_op_attr_len(&attributes));
        drop(results);
        return Err(ClientEnd::BadReply {
            at,
            reason: NO_PROGRESS,
        });
    }
    Ok(results)
}

/// The handle of the file, in the outcome of CREATE.
pub(crate) fn created_in(alloc: Global, outcome: &Outcome) -> Result<Handle, ClientEnd>
    ensures gives { Gives result (created_file outcome.now) }
    ensures of_reply { IfErr result IsOfReply }
{
    match nfs_results::<CreateOk, WccData>(alloc, outcome) {
        Ok(
            CreateOk {
                object: Some(handle),
                ..
            },
        ) => Ok(handle),
        Ok(CreateOk { object: None, .. }) => Err(ClientEnd::BadReply {
            at: results_offset(outcome) + 4,
            reason: NO_PROGRESS,
        }),
        Err(end) => Err(end),
    }
}

/// How many bytes were written by a WRITE of `sent` bytes.
pub(crate) fn written_in(alloc: Global, outcome: &Outcome, sent: u32) -> Result<u32, ClientEnd>
    ensures gives { Gives result (write_result sent outcome.now) }
    ensures of_reply { IfErr result IsOfReply }
    ensures some { IfOk result (λ n. 0 < n) }
    ensures within { IfOk result (λ n. n ≤ sent) }
{
    let results = match nfs_results::<WriteOk, WccData>(alloc, outcome) {
        Ok(results) => results,
        Err(end) => return Err(end),
    };
    if results.count == 0 || results.count > sent {
        return Err(ClientEnd::BadReply {
            at: results_offset(outcome) + (4 + wcc_data_len(&results.wcc)),
            reason: NO_PROGRESS,
        });
    }
    Ok(results.count)
}
