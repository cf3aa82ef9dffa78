//! The marks around a call: allocations of sizes that nothing else uses. `tools/refuse` recognizes
//! them.

use std::alloc::Global;

/// The size of the allocation before a call.
const BEGIN: usize = 1_000_003;

/// The size of the allocation after a call.
const END: usize = 1_000_033;

/// Marks the start of a call: allocations from here on are the call's.
pub fn begin(alloc: Global) {
    let _mark: Option<Vec<u8>> = Vec::with_capacity(alloc, BEGIN).ok();
}

/// Marks the end of a call: allocations from here on are the program's again.
pub fn end(alloc: Global) {
    let _mark: Option<Vec<u8>> = Vec::with_capacity(alloc, END).ok();
}
