//! Reads and writes of status blocks. They are numbered from 1, and a write to a missing block does nothing.

ghost use Rattle.std.specs.Prelude.{◌≡◌, ◌&&◌, ℕ, length, nat_le, nat_lt};
ghost use Rattle.vlm_words.specs.declared.conditions.Cond.{Cond};
ghost use Rattle.vlm_model.specs.StatusBlocks.{processes_after_acceptance, processes_after_write, status_block_at, status_block_of, status_blocks_of, processes_after_status, processes_after_return, processes_after_setting};
ghost use Rattle.vlm_store.specs.Plain.{plain_processes};
ghost use Rattle.vlm_store.specs.Records.{DuesStay, HasProcess, IsProcess, SameButNotices};

use vlm_store::{ProcAt, Store};
use vlm_words::blocks::Block;
use vlm_words::conditions::Cond;
use vlm_words::resources::ValueBlock;

// The status blocks of a process. Block n is at index n - 1.
fn status_blocks(store: &Store, at: ProcAt) -> &[Block]
    requires { HasProcess at store.now }
    ensures { (pid : ℕ) → IsProcess at pid store.now → result.now
        ≡ status_blocks_of (plain_processes store.now) pid }
{
    &store.process_record(at).blocks
}

fn write(store: &mut Store, at: ProcAt, number: u8, block: Block)
    requires { HasProcess at store.old }
    ensures written { (pid : ℕ) → IsProcess at pid store.old → plain_processes store.new
        ≡ processes_after_write pid number block (plain_processes store.old) }
    ensures dues { DuesStay store.old store.new }
    ensures only_notices { SameButNotices store.old store.new }
{
    store.set_status_block(at, number, block);
}

/// Whether the process has a status block with this number.
pub fn has_status_block(store: &Store, at: ProcAt, number: u8) -> bool
    requires { HasProcess at store.now }
    ensures { (pid : ℕ) → IsProcess at pid store.now
        → result ≡ (nat_lt 0 number
        && nat_le number (length (status_blocks_of (plain_processes store.now) pid))) }
{
    0 < number && usize::from(number) <= status_blocks(store, at).len()
}

/// The status block with this number, if the process has it.
#[tactic(auto, unfolding(vlm_model::specs::StatusBlocks::status_block_at))]
pub fn status_block(store: &Store, at: ProcAt, number: u8) -> Option<Block>
    requires { HasProcess at store.now }
    ensures { (pid : ℕ) → IsProcess at pid store.now → result
        ≡ status_block_at (plain_processes store.now) pid number }
{
    if number == 0 {
        return None;
    }
    status_blocks(store, at)
        .get(usize::from(number) - 1)
        .copied()
}

/// The status block with this number. If the process does not have it, a new one.
pub fn status_block_or_new(store: &Store, at: ProcAt, number: u8) -> Block
    requires { HasProcess at store.now }
    ensures { (pid : ℕ) → IsProcess at pid store.now → result
        ≡ status_block_of (plain_processes store.now) pid number }
{
    status_block(store, at, number).unwrap_or(Block::new())
}

/// Writes that an accepted request is pending, with its lock. Value part and tail stay.
#[tactic(auto, unfolding(vlm_model::specs::StatusBlocks::processes_after_acceptance))]
pub fn accept(store: &mut Store, at: ProcAt, number: u8, lkid: u32)
    requires { HasProcess at store.old }
    ensures written { (pid : ℕ) → IsProcess at pid store.old → plain_processes store.new
        ≡ processes_after_acceptance pid number lkid (plain_processes store.old) }
    ensures dues { DuesStay store.old store.new }
    ensures only_notices { SameButNotices store.old store.new }
{
    store.set_request(at, number, 0, lkid);
}

/// Writes NORMAL and the lock of a request that is granted at once: `accept` and `end` in one write.
#[tactic(auto, unfolding(vlm_model::specs::StatusBlocks::processes_after_acceptance))]
pub fn accept_granted(store: &mut Store, at: ProcAt, number: u8, lkid: u32)
    requires { HasProcess at store.old }
    ensures written { (pid : ℕ) → IsProcess at pid store.old → plain_processes store.new
        ≡ processes_after_status pid number Cond.Normal
        (processes_after_acceptance pid number lkid (plain_processes store.old)) }
    ensures dues { DuesStay store.old store.new }
    ensures only_notices { SameButNotices store.old store.new }
{
    store.set_request(at, number, Cond::Normal.number(), lkid);
}

/// Writes the value part of a status block, and its tail if one is given.
#[tactic(auto, unfolding(vlm_model::specs::StatusBlocks::processes_after_setting))]
pub fn set_value(store: &mut Store, at: ProcAt, number: u8, value: [u8; 16], tail: Option<[u8; 48]>)
    requires { HasProcess at store.old }
    ensures written { (pid : ℕ) → IsProcess at pid store.old → plain_processes store.new
        ≡ processes_after_setting pid number value tail (plain_processes store.old) }
    ensures dues { DuesStay store.old store.new }
    ensures only_notices { SameButNotices store.old store.new }
{
    let old = status_block_or_new(store, at, number);
    let set = Block {
        value,
        tail: tail.unwrap_or(old.tail),
        ..old
    };
    write(store, at, number, set);
}

/// Ends a request: writes the condition to its status block. Lock, value part and tail stay.
#[tactic(auto, unfolding(vlm_model::specs::StatusBlocks::processes_after_status))]
pub fn end(store: &mut Store, at: ProcAt, number: u8, cond: Cond)
    requires { HasProcess at store.old }
    ensures written { (pid : ℕ) → IsProcess at pid store.old → plain_processes store.new
        ≡ processes_after_status pid number cond (plain_processes store.old) }
    ensures dues { DuesStay store.old store.new }
    ensures only_notices { SameButNotices store.old store.new }
{
    store.set_status(at, number, cond.number());
}

/// Ends a request whose grant returns the value block: its status block gets the value, if wide the tail too, and
/// the status NORMAL, VALNOTVALID or WIDENOTVALID by the parts that are valid. The lock stays.
#[tactic(auto, unfolding(vlm_model::specs::StatusBlocks::processes_after_return))]
pub fn end_with_return(store: &mut Store, at: ProcAt, number: u8, wide: bool, returned: &ValueBlock)
    requires { HasProcess at store.old }
    ensures written { (pid : ℕ) → IsProcess at pid store.old → plain_processes store.new
        ≡ processes_after_return pid number wide returned.now (plain_processes store.old) }
    ensures dues { DuesStay store.old store.new }
    ensures only_notices { SameButNotices store.old store.new }
{
    let old = status_block_or_new(store, at, number);
    let ended = Block {
        status: returned.return_status(wide).number(),
        value: returned.value,
        tail: if wide { returned.tail } else { old.tail },
        ..old
    };
    write(store, at, number, ended);
}
