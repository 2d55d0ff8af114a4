//! What calls give, as scripts write it.

use std::alloc::Global;
use std::fmt::Debug;
use std::process::Abort;

/// A value as it is printed.
pub fn shown<T: Debug>(rt: &impl Abort, alloc: Global, value: &T) -> String {
    format!(in alloc; "{value:?}").expect(rt, "memory")
}

/// Puts a value at the end, as it is printed.
pub fn show<T: Debug>(rt: &impl Abort, alloc: Global, out: &mut String, value: &T) {
    let text = shown(rt, alloc, value);
    out.push_str(text.as_str()).expect(rt, "memory");
}

/// Puts nothing of a call that is done, or its error as it is printed.
pub fn done<E: Debug>(rt: &impl Abort, alloc: Global, out: &mut String, outcome: &Result<(), E>) {
    if let Err(fault) = outcome {
        show(rt, alloc, out, fault);
    }
}
