//! The machine of records, which makes the steps of the lock machine.
//!
//! Each step has four stages. The checks only read: they look up the records that the step needs, and answer the first
//! refusal in the stated order. The growth makes all room that the change may need, so that a refused allocation leaves
//! the state as it was. The change refuses nothing. The sweep serves the resources that the change touched.
//!
//! | Step | File | Checks | Growth | Change | Sweep |
//! |---|---|---|---|---|---|
//! | Declare | `declarations` | `check_declaration` | with the change | `declare_change` | none |
//! | SetValue | `value_settings` | `checked_setting` | none | `set_change` | none |
//! | Take | `ast_takes` | `checked_caller` | none | `take_change` | none |
//! | Enq | `new_requests` | `checked_request` | `make_room_beyond`, then in `enter` | `enq_change` | its resource |
//! | Convert | `conversions` | `checked_names`, `checked_admission` | in `convert` | `convert_change` | its resource |
//! | Deq | `dequeues` | `checked_dequeue`, `check_alone` | none | `deq_change` | its resource |
//! | Deq with DEQALL | `dequeues` | `checked_dequeue`, `checked_scope` | none | `deq_all_change` | all touched |
//! | Rundown, Leave | `rundowns` | `checked_caller`, `check_node` | none | `rundown_change`, `leave_change` | all touched |
//! | Search | `searches` | `check_node` | none | `end_victim` | the victim's resource |
//!
//! A [`Machine`] has the records, the nodes and the next numbers. `checks` and `parents` have the checks that several
//! steps share. A step needs some facts of the state in which it begins (`IsBetweenSteps`). The laws say that they hold
//! after every run: `vlm_core` takes them from the laws, and makes whole steps.
#![tactic(auto)]

mod ast_takes;
mod checks;
mod conversions;
mod declarations;
mod dequeues;
mod flags;
mod new_requests;
mod nodes;
mod parents;
mod processes;
mod records;
mod rundowns;
mod searches;
mod value_settings;

pub use processes::{Caller, living};
pub use records::Machine;
pub use vlm_cycle::Scratch;
