//! Plans of calls.

use crate::answers::shown;
use crate::calling::form;
use crate::compare::same;
use crate::given::payload_named;
use crate::line::piece;
use crate::plan_rows::{PLANS, SEGMENTS};
use nr_reduce::{
    Form, Item, Lengths, PayloadFault, Plan, call_item_of, call_parts, largest_reply_of,
    outline_of, plan, plans_convey_payloads, written_parts,
};
use nr_rpc::{CallTarget, Cred, write_call_head};
use std::alloc::Global;
use std::process::Abort;

/// What a plan has: the length of its inline stream, the position and the segments of its read chunk and the length of
/// its region, the segments of a write chunk and of a reply chunk.
#[derive(Clone, Copy, Debug)]
struct Shape<'a>(
    usize,
    Option<u32>,
    &'a [u32],
    usize,
    Option<&'a [u32]>,
    Option<&'a [u32]>,
);

fn list_of(lengths: &Option<Lengths>) -> Option<&[u32]> {
    match lengths {
        Some(lengths) => Some(lengths.as_slice()),
        None => None,
    }
}

fn shape_of(plan: &Plan) -> Shape<'_> {
    Shape(
        plan.inline.len(),
        plan.read_at,
        plan.read.as_slice(),
        plan.region.len(),
        list_of(&plan.write),
        list_of(&plan.reply),
    )
}

/// The plan of a payload in a form, for Sends of these sizes up and down.
fn planned(
    rt: &impl Abort,
    alloc: Global,
    payload: &str,
    way: &str,
    sizes: [u32; 2],
) -> Result<Plan, PayloadFault> {
    let [up, down] = sizes;
    let bytes = payload_named(rt, alloc, payload);
    let form = form(rt, alloc, way);
    let got = plan(alloc, bytes.as_slice(), &form, up, down);
    drop(form);
    got
}

/// What is planned, or the bytes that are needed and the room that they pass, as it is printed.
fn seen(rt: &impl Abort, alloc: Global, plan: &Result<Plan, PayloadFault>) -> String {
    match plan {
        Ok(plan) => shown(rt, alloc, &shape_of(plan)),
        Err(PayloadFault::TooLarge { need, room }) => shown(rt, alloc, &(*need, *room)),
        Err(_) => String::new(alloc),
    }
}

/// The number at a place of a row.
fn number(rt: &impl Abort, row: &str, place: usize) -> u32 {
    piece(rt, row, '|', place)
        .parse::<u32>()
        .expect(rt, "a size")
}

/// Ends the test if what is planned is not what the row says.
fn row_plans(rt: &impl Abort, alloc: Global, at: usize, row: &str) {
    let sizes = [number(rt, row, 2), number(rt, row, 3)];
    let (payload, way) = (piece(rt, row, '|', 0), piece(rt, row, '|', 1));
    let got = planned(rt, alloc, payload, way, sizes);
    let text = seen(rt, alloc, &got);
    same(rt, at, text.as_str(), piece(rt, row, '|', 4));
    drop(got);
}

/// Ends the test if what is planned is not what one of the rows says.
fn rows_plan(rt: &impl Abort, alloc: Global, rows: &str) {
    for (at, row) in rows.lines().enumerate() {
        if !row.starts_with('#') {
            row_plans(rt, alloc, at, row);
        }
    }
}

#[test]
fn each_row_is_planned(rt: HostRuntime) {
    plans_convey_payloads();
    rows_plan(&rt, rt.alloc(), PLANS);
    rows_plan(&rt, rt.alloc(), SEGMENTS);
}

/// The bytes of a read chunk's region: those of a WRITE's payload from its position on, and zeros after them.
static REGIONS: [(&str, &[u8]); 4] = [
    ("chunk", b"aaaaa"),
    ("72/2,4/-/-", b"aaaaa\0"),
    ("76/6/-/-", b"a\0\0\0\0\0"),
    ("90/2/-/-", b"\0\0"),
];

/// The bytes of the region of a plan.
fn region_of(got: &Result<Plan, PayloadFault>) -> Option<&[u8]> {
    match got {
        Ok(plan) => Some(plan.region.as_slice()),
        Err(_) => None,
    }
}

/// Ends the test if the region of a WRITE of five bytes doesn't have these bytes.
fn region_is(rt: &impl Abort, alloc: Global, row: usize, way: &str, want: &[u8]) {
    let got = planned(rt, alloc, "write 5", way, [1024, 1024]);
    same(rt, row, region_of(&got), Some(want));
    drop(got);
}

#[test]
fn regions_hold_the_payload(rt: HostRuntime) {
    for (row, (way, want)) in REGIONS.iter().enumerate() {
        region_is(&rt, rt.alloc(), row, way, want);
    }
}

/// A WRITE of 925 bytes in form Auto: its head has 40 bytes, and its data begins at 72.
#[test]
fn outlines_own_no_bytes(rt: HostRuntime) {
    let payload = payload_named(&rt, rt.alloc(), "write 925");
    let parts = call_parts(&payload).expect(&rt, "a call");
    same(&rt, 0, (parts.head.len(), parts.args.len()), (40, 960));
    same(&rt, 1, largest_reply_of(parts), 160);
    same(
        &rt,
        2,
        call_item_of(parts),
        Some(Item { pos: 72, len: 925 }),
    );
    let outline = outline_of(parts, &Form::Auto, 1024, 1024).ok();
    let outline = outline.expect(&rt, "an outline");
    let (head, args) = outline.inline(parts.head, parts.args);
    same(&rt, 3, (head.len(), args.len()), (40, 32));
    let region = outline.region(rt.alloc(), parts.head, parts.args);
    let region = region.expect(&rt, "memory");
    same(&rt, 4, region.len(), 925);
}

/// A call of NULL whose head was written: none of its 40 bytes is read.
#[test]
fn written_heads_are_not_read(rt: HostRuntime) {
    let cred = Cred::None;
    let target = CallTarget {
        xid: 9,
        prog: 100_003,
        vers: 3,
        proc: 0,
        args_at: 0,
    };
    let head = write_call_head(rt.alloc(), target, &cred).expect(&rt, "memory");
    let parts = written_parts(target, &cred, head.as_slice(), &[]);
    same(&rt, 0, parts.target.args_at, 40);
    same(&rt, 1, largest_reply_of(parts), 32);
}
