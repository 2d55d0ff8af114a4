//! What calls give, as scripts write it.

use std::alloc::Global;
use std::fmt::Debug;
use std::process::Abort;

/// A value as it is printed.
pub fn shown<T: Debug>(rt: &impl Abort, alloc: Global, value: &T) -> String {
    format!(in alloc; "{value:?}").expect(rt, "memory")
}

/// Nothing of a call that is done, or its error as it is printed.
pub fn done<E: Debug>(rt: &impl Abort, alloc: Global, outcome: &Result<(), E>) -> String {
    match outcome {
        Ok(()) => String::new(alloc),
        Err(fault) => shown(rt, alloc, fault),
    }
}
