//! The end of a request: its status, its completion AST, and with VALBLK what a grant does to the value block.

ghost use Rattle.std.specs.Prelude.{◌≡◌, ◌≤◌, ◌-◌, Some, true, false, is_some};
ghost use Rattle.vlm_words.specs.declared.resources.ValueBlock.{ValueBlock};
ghost use Rattle.vlm_words.specs.Flags.{flag_bits, has_flag, valblk};
ghost use Rattle.vlm_model.specs.Effects.{blocks_after, blocks_with};
ghost use Rattle.vlm_model.specs.Asts.{completion_asts, processes_after_asts};
ghost use Rattle.vlm_words.specs.Dues.{one_where, row_due};
ghost use Rattle.vlm_model.specs.Grants.{grant_act, grant_endings};
ghost use Rattle.vlm_words.specs.Rows.{granted_row};
ghost use Rattle.vlm_model.specs.StatusBlocks.{processes_after_acceptance};
ghost use Rattle.vlm_words.specs.ValueBlocks.{value_block_written_from};
ghost use Rattle.vlm_store.specs.Plain.{plain_processes};
ghost use Rattle.vlm_store.specs.Records.{DueChanges, DuesStay, IsProcess, SameButNotices, due_of};
ghost use Rattle.vlm_locks.specs.Owing.{OwedMoves, blocks_written, completions_queued, suppressed_completions};

use vlm_procs::{accept_granted, end, end_with_return, forgive, queue_ast, status_block_or_new};
use vlm_store::{ProcAt, Store, StoredState};
use vlm_words::asts::{Ast, AstKind};
use vlm_words::blocks::Block;
use vlm_words::conditions::Cond;
use vlm_words::flags::EnqFlags;
use vlm_words::locks::Request;
use vlm_words::modes::{Act, value_action};
use vlm_words::resources::ValueBlock;

#[tactic(auto, unfolding(vlm_model::specs::Grants::grant_act))]
fn grant_act(held: Option<Request>, want: &Request) -> Act
    ensures { result ≡ grant_act held (Some want.now) }
{
    if !want.flags.has(EnqFlags::VALBLK) {
        return Act::Nothing;
    }
    match held {
        Some(held) => value_action(held.mode, want.mode),
        None => Act::Return,
    }
}

fn write_from(value_block: &mut ValueBlock, from: &Block, wide: bool)
    ensures { value_block.new ≡ value_block_written_from wide from.now value_block.old }
{
    let tail = if wide { Some(from.tail) } else { None };
    value_block.write(from.value, tail);
}

#[tactic(auto, unfolding(vlm_model::specs::Effects::blocks_after_return, vlm_model::specs::Effects::blocks_after_writing))]
fn write_grant(
    value_block: &mut ValueBlock,
    store: &mut Store,
    at: ProcAt,
    row: &StoredState,
    request: &Request,
)
    requires { IsProcess at row.now.pid store.old }
    ensures value_block { let old = blocks_with value_block.old (plain_processes store.old)
        in value_block.new ≡ (blocks_written row.now request.now old).value_block }
    ensures statuses { let old = blocks_with value_block.old (plain_processes store.old)
        in plain_processes store.new ≡ (blocks_written row.now request.now old).processes }
    ensures dues { DuesStay store.old store.new }
    ensures only_notices { SameButNotices store.old store.new }
{
    let wide = request.flags.has(EnqFlags::WIDE);
    match grant_act(row.held(), request) {
        Act::Nothing => end(store, at, request.block, Cond::Normal),
        Act::Return => end_with_return(store, at, request.block, wide, value_block),
        Act::Write => {
            let from = status_block_or_new(store, at, request.block);
            write_from(value_block, &from, wide);
            end(store, at, request.block, Cond::Normal);
        }
    }
}

/// Queues the completion AST of a request that has ended, if it names a completion routine. A grant at once with
/// SYNCSTS queues none, since the answer reports it.
#[tactic(auto, unfolding(vlm_model::specs::Asts::completion_asts))]
pub(crate) fn complete(
    store: &mut Store,
    at: ProcAt,
    row: &StoredState,
    request: &Request,
    at_once: bool,
)
    requires process { IsProcess at row.now.pid store.old }
    requires owed { one_where (is_some request.now.completion) ≤ due_of row.now.pid store.old }
    ensures queued { plain_processes store.new ≡ processes_after_asts
        (completion_asts at_once request.now row.now.lkid row.now.pid)
        (plain_processes store.old) }
    ensures owed { DueChanges row.now.pid
        (λ due. due - completions_queued at_once request.now) store.old store.new }
    ensures only_notices { SameButNotices store.old store.new }
{
    if at_once && request.flags.has(EnqFlags::SYNCSTS) {
        return;
    }
    if let Some(routine) = request.completion {
        let ast = Ast {
            kind: AstKind::Completion,
            routine,
            param: request.param,
            lkid: row.lkid(),
        };
        queue_ast(store, at, ast);
    }
}

fn suppressed_completions(request: &Request, at_once: bool) -> usize
    ensures { result ≡ suppressed_completions at_once request.now }
{
    if at_once && request.flags.has(EnqFlags::SYNCSTS) {
        usize::from(request.completion.is_some())
    } else {
        0
    }
}

// Queues the completion AST of a granted request, and frees the room of the ASTs that will not come.
fn tell_grant(store: &mut Store, at: ProcAt, row: &StoredState, request: &Request, at_once: bool)
    requires process { IsProcess at row.now.pid store.old }
    requires wanted { row.now.want ≡ Some request.now }
    requires owed { row_due row.now ≤ due_of row.now.pid store.old }
    ensures queued { plain_processes store.new ≡ processes_after_asts
        (completion_asts at_once request.now row.now.lkid row.now.pid)
        (plain_processes store.old) }
    ensures owed { OwedMoves row.now (granted_row row.now) store.old store.new }
    ensures only_notices { SameButNotices store.old store.new }
{
    complete(store, at, row, request, at_once);
    let spared = usize::from(row.is_armed()) + suppressed_completions(request, at_once);
    if spared > 0 {
        forgive(store, at, spared);
    }
}

/// Accepts a request without VALBLK and grants it at once, with one write of the status block.
#[tactic(auto, unfolding(vlm_model::specs::Grants::grant_act))]
pub(crate) fn grant_without_value_block(
    store: &mut Store,
    at: ProcAt,
    row: &StoredState,
    request: &Request,
)
    requires process { IsProcess at row.now.pid store.old }
    requires wanted { row.now.want ≡ Some request.now }
    requires plain { has_flag (flag_bits request.now.flags) valblk ≡ false }
    requires owed { row_due row.now ≤ due_of row.now.pid store.old }
    ensures statuses { let accepted = processes_after_acceptance row.now.pid request.now.block
        row.now.lkid (plain_processes store.old) in (block : ValueBlock)
        → blocks_with block (plain_processes store.new)
        ≡ blocks_after (grant_endings true row.now) (blocks_with block accepted) }
    ensures owed { OwedMoves row.now (granted_row row.now) store.old store.new }
    ensures only_notices { SameButNotices store.old store.new }
{
    accept_granted(store, at, request.block, row.lkid());
    tell_grant(store, at, row, request, true);
}

/// Ends a request by its grant, at once or from a queue, and writes its status block. With VALBLK the status block also
/// gets the value block, or the value block is written from it: with WIDE all 64 bytes.
pub(crate) fn end_by_grant(
    value_block: &mut ValueBlock,
    store: &mut Store,
    at: ProcAt,
    row: &StoredState,
    at_once: bool,
)
    requires process { IsProcess at row.now.pid store.old }
    requires owed { row_due row.now ≤ due_of row.now.pid store.old }
    ensures value_block { let old = blocks_with value_block.old (plain_processes store.old)
        in value_block.new ≡ (blocks_after (grant_endings at_once row.now) old).value_block }
    ensures statuses { let old = blocks_with value_block.old (plain_processes store.old)
        in plain_processes store.new
        ≡ (blocks_after (grant_endings at_once row.now) old).processes }
    ensures owed { OwedMoves row.now (granted_row row.now) store.old store.new }
    ensures only_notices { SameButNotices store.old store.new }
{
    let Some(request) = row.want() else {
        forgive(store, at, usize::from(row.is_armed()));
        return;
    };
    write_grant(value_block, store, at, row, &request);
    tell_grant(store, at, row, &request, at_once);
}
