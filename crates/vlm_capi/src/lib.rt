//! The lock manager and its hub as one static library for C. The C program holds the handle of a core, of a hub or of a
//! port.
//!
//! | Module | Role |
//! |---|---|
//! | `core_exports`, `lock_exports` | the calls of include/vlm.h: of a core, and of single locks |
//! | `hub_exports`, `port_exports` | the calls of include/vlm_hub.h |
//! | `core_readers`, `lock_readers` | what a handle reads of its core, and of single locks |
//! | `owned_hubs`, `posts` | what a call does with the hub, and with the port, of a handle |
//! | `handle` | the handle, which lends what it holds to a call |
//! | `held` | what a handle holds: a core, a hub or a port |
//! | `slot` | the pointer to what is held, in memory that C holds |
//! | `loose` | a box taken apart into its pointer |
//! | `arguments`, `step_structs` | reads the structs that C passes as steps; turns steps into these structs |
//! | `resource_keys` | reads how C names a resource and a queue |
//! | `numbers` | the numbers that C has for modes and nodes |
//! | `replies` | turns answers into the values that C gets |
//! | `shown` | the structs that readers copy out |
//! | `items`, `entries` | the structs that C gets of an item and of an entry of the journal |
//! | `replay` | makes the step of an entry of the journal again |
//! | `copies` | values that a call copies out to C |
//! | `text_exports` | the calls of include/vlm.h that read and print the lines of a script |
//! | `script_lines`, `printed` | the structs of a line that was read, and of one that was printed |
//! | `padding` | names and printed lines in arrays of a fixed length |
//!
//! No export has a `requires`. The caller in C answers for pointers and handles; the exports check all else. A call of
//! a core, a hub or a port on a handle that holds another of them answers as on a closed handle, except a close, which
//! frees what the handle holds. No export waits: nobody watches a hub of this library.
//!
//! `#[inline(always)]` marks what each exported call runs through: so its fields are read where C put them, and are not
//! copied from call to call.
#![tactic(auto)]

mod arguments;
mod copies;
mod core_exports;
mod core_readers;
mod entries;
mod handle;
mod held;
mod hub_exports;
mod items;
mod lock_exports;
mod lock_readers;
mod loose;
mod numbers;
mod owned_hubs;
mod padding;
mod port_exports;
mod posts;
mod printed;
mod replay;
mod replies;
mod resource_keys;
mod script_lines;
mod shown;
mod slot;
mod step_structs;
mod text_exports;
