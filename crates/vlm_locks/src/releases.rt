//! Withdraws a lock, or only its request.

ghost use Rattle.std.specs.Prelude.{◌≡◌, ◌≤◌, None, Some, true, false, flat_map};
ghost use Rattle.vlm_model.specs.Withdrawals.{is_writer, processes_after, resource_after_cancel, resource_after_writer, resource_without, value_block_after_writer, withdrawal_endings};
ghost use Rattle.vlm_model.specs.Asts.{completion_asts, processes_after_asts};
ghost use Rattle.vlm_model.specs.StatusBlocks.{processes_after_status};
ghost use Rattle.vlm_words.specs.Dues.{one_where, row_due};
ghost use Rattle.vlm_model.specs.Endings.{row_endings};
ghost use Rattle.vlm_words.specs.declared.resources.Queue.{Queue};
ghost use Rattle.vlm_store.specs.Plain.{plain_processes, plain_resources};
ghost use Rattle.vlm_store.specs.Records.{HasNoSublocks, SameButNotices, due_of};
ghost use Rattle.vlm_locks.specs.Owing.{DueMoves, IsPaid, LosesOne, OwedMoves, WeighsTheSame, left_row, row_after_end};
ghost use Rattle.vlm_locks.specs.Rest.{IsAtRest};
ghost use Rattle.vlm_locks.specs.Standing.{IsLocated};
ghost use Rattle.vlm_locks.specs.Withdrawals.{how_ended, plain_withdrawal};
ghost use Rattle.vlm_locks.specs.Withdrawing.{IsPartDone, goes, may_write, HasGivenUp, HasWithdrawn};

use crate::endings::complete;
use crate::located_locks::LocatedLock;
use crate::withdrawals::{EndReason, Withdrawal};
use vlm_procs::{end, forgive};
use vlm_store::{Place, Store};
use vlm_words::conditions::Cond;
use vlm_words::locks::Request;
use vlm_words::modes::Mode;
use vlm_words::resources::{Queue, ValueBlock};

// The completion AST of the request is queued. Its blocking AST never comes.
fn end_with_status(store: &mut Store, located: &LocatedLock, request: &Request, status: Cond)
    requires located { IsLocated located.now store.old }
    requires wants { located.now.row.want ≡ Some request.now }
    requires owed { row_due located.now.row ≤ due_of located.now.row.pid store.old }
    ensures statuses { let row = located.now.row in plain_processes store.new
        ≡ processes_after_asts (completion_asts false request.now row.lkid row.pid)
        (processes_after_status row.pid request.now.block status (plain_processes store.old)) }
    ensures owed { OwedMoves located.now.row (row_after_end located.now.row)
        store.old store.new }
    ensures only_notices { SameButNotices store.old store.new }
{
    end(store, located.owner, request.block, status);
    complete(store, located.owner, &located.row, request, false);
    forgive(
        store,
        located.owner,
        usize::from(request.blocking.is_some()),
    );
}

// The process ends, so none of the request's ASTs come.
fn end_silently(store: &mut Store, located: &LocatedLock)
    requires located { IsLocated located.now store.old }
    requires owed { row_due located.now.row ≤ due_of located.now.row.pid store.old }
    ensures statuses { plain_processes store.new ≡ plain_processes store.old }
    ensures owed { OwedMoves located.now.row (row_after_end located.now.row)
        store.old store.new }
    ensures only_notices { SameButNotices store.old store.new }
{
    forgive(store, located.owner, located.row.wanted_routines());
}

fn end_request(store: &mut Store, located: &LocatedLock, ended: EndReason)
    requires located { IsLocated located.now store.old }
    requires owed { row_due located.now.row ≤ due_of located.now.row.pid store.old }
    ensures statuses { plain_processes store.new ≡ processes_after
        (row_endings (how_ended ended) false located.now.row) (plain_processes store.old) }
    ensures owed { OwedMoves located.now.row (row_after_end located.now.row)
        store.old store.new }
    ensures only_notices { SameButNotices store.old store.new }
{
    let Some(request) = located.row.want() else {
        return;
    };
    match ended.status() {
        Some(status) => end_with_status(store, located, &request, status),
        None => end_silently(store, located),
    }
}

fn end_withdrawn(store: &mut Store, located: &LocatedLock, withdrawal: &Withdrawal)
    requires located { IsLocated located.now store.old }
    requires named { withdrawal.now.lkid ≡ located.now.row.lkid }
    requires owed { row_due located.now.row ≤ due_of located.now.row.pid store.old }
    requires granted { located.now.queue ≡ Queue.Granted → located.now.row.want ≡ None }
    ensures statuses { plain_processes store.new ≡ processes_after
        (flat_map (withdrawal_endings (plain_withdrawal withdrawal.now))
        (plain_resources store.old))
        (plain_processes store.old) }
    ensures owed { OwedMoves located.now.row (row_after_end located.now.row)
        store.old store.new }
    ensures only_notices { SameButNotices store.old store.new }
{
    match located.queue {
        Queue::Granted => {}
        Queue::Conversion => end_request(store, located, withdrawal.converting),
        Queue::Waiting => end_request(store, located, withdrawal.waiting),
    }
}

// A lock that goes is never warned, so the AST owed for the warning is forgiven.
fn release_blocking_ast(store: &mut Store, located: &LocatedLock, gone: bool)
    requires located { IsLocated located.now store.old }
    requires owed { one_where located.now.row.armed ≤ due_of located.now.row.pid store.old }
    ensures statuses { plain_processes store.new ≡ plain_processes store.old }
    ensures owed { OwedMoves (row_after_end located.now.row) (left_row gone located.now.row)
        store.old store.new }
    ensures only_notices { SameButNotices store.old store.new }
{
    if gone && located.row.is_armed() {
        forgive(store, located.owner, 1);
    }
}

fn goes(stays: bool, queue: Queue) -> bool
    ensures { result ≡ goes stays queue }
{
    !stays || matches!(queue, Queue::Waiting)
}

// Ends the request of a lock, and forgives the ASTs owed for the lock that will not come.
pub(crate) fn end_notices(store: &mut Store, located: &LocatedLock, withdrawal: &Withdrawal)
    requires located { IsLocated located.now store.old }
    requires named { withdrawal.now.lkid ≡ located.now.row.lkid }
    requires owed { row_due located.now.row ≤ due_of located.now.row.pid store.old }
    requires granted { located.now.queue ≡ Queue.Granted → located.now.row.want ≡ None }
    ensures statuses { plain_processes store.new ≡ processes_after
        (flat_map (withdrawal_endings (plain_withdrawal withdrawal.now))
        (plain_resources store.old))
        (plain_processes store.old) }
    ensures owed { OwedMoves located.now.row
        (left_row (goes withdrawal.now.stays located.now.queue) located.now.row)
        store.old store.new }
    ensures only_notices { SameButNotices store.old store.new }
{
    end_withdrawn(store, located, withdrawal);
    let gone = goes(withdrawal.stays, located.queue);
    release_blocking_ast(store, located, gone);
}

fn is_writer(held: Option<Request>) -> bool
    ensures { result ≡ is_writer held }
{
    match held {
        Some(held) => matches!(held.mode, Mode::Pw | Mode::Ex),
        None => false,
    }
}

// Whether a lock may write the value block when it goes: it holds PW or EX, granted or converting.
fn may_write(located: &LocatedLock) -> bool
    ensures { result ≡ may_write located.now.queue located.now.row }
{
    match located.queue {
        Queue::Granted | Queue::Conversion => is_writer(located.row.held()),
        Queue::Waiting => false,
    }
}

fn block_after_writer(block: ValueBlock, withdrawal: &Withdrawal) -> ValueBlock
    ensures { result ≡ value_block_after_writer (plain_withdrawal withdrawal.now) block }
{
    let mut left = block;
    if let Some(value) = withdrawal.value {
        left.write(value, withdrawal.tail);
    }
    if withdrawal.invalidates {
        left.invalidate();
    }
    left
}

fn write_released_value(store: &mut Store, located: &LocatedLock, withdrawal: &Withdrawal)
    requires rest { IsAtRest store.old }
    requires located { IsLocated located.now store.old }
    requires named { withdrawal.now.lkid ≡ located.now.row.lkid }
    ensures left { IsPartDone located.now (resource_after_writer (plain_withdrawal withdrawal.now))
        false store.old store.new }
    ensures located { IsLocated located.now store.new }
    ensures weighs { WeighsTheSame store.old store.new }
{
    if !withdrawal.writes() {
        return;
    }
    if may_write(located) {
        let block = store.resource_record(located.res).value_block;
        store.set_value_block(located.res, block_after_writer(block, withdrawal));
    }
}

#[inline(always)]
fn remove(store: &mut Store, located: &LocatedLock)
    requires rest { IsAtRest store.old }
    requires located { IsLocated located.now store.old }
    requires childless { HasNoSublocks located.now.lock store.old }
    ensures done { IsPartDone located.now (resource_without located.now.row.lkid) true
        store.old store.new }
    ensures loses { LosesOne (record { at = located.now.lock; row = located.now.row })
        store.old store.new }
{
    store.remove_lock(located.lock);
}

// Kept out of line: few dequeues cancel a conversion.
#[inline(never)]
fn restore_granted(store: &mut Store, located: &LocatedLock)
    requires rest { IsAtRest store.old }
    requires located { IsLocated located.now store.old }
    requires converting { located.now.queue ≡ Queue.Conversion }
    ensures done { IsPartDone located.now (resource_after_cancel located.now.row.lkid) false
        store.old store.new }
    ensures due { DueMoves located.now.row (row_after_end located.now.row) store.old store.new }
{
    let granted = Place::Queued(located.res, Queue::Granted);
    store.move_lock(located.lock, &located.row.without_want(), granted);
}

fn cancel(store: &mut Store, located: &LocatedLock)
    requires rest { IsAtRest store.old }
    requires located { IsLocated located.now store.old }
    requires childless { located.now.queue ≡ Queue.Waiting
        → HasNoSublocks located.now.lock store.old }
    requires granted { located.now.queue ≡ Queue.Granted → located.now.row.want ≡ None }
    ensures done { IsPartDone located.now (resource_after_cancel located.now.row.lkid)
        (goes true located.now.queue) store.old store.new }
    ensures due { DueMoves located.now.row
        (left_row (goes true located.now.queue) located.now.row) store.old store.new }
{
    match located.queue {
        Queue::Granted => {}
        Queue::Conversion => restore_granted(store, located),
        Queue::Waiting => remove(store, located),
    }
}

pub(crate) fn give_up(store: &mut Store, located: &LocatedLock, withdrawal: &Withdrawal)
    requires rest { IsAtRest store.old }
    requires located { IsLocated located.now store.old }
    requires named { withdrawal.now.lkid ≡ located.now.row.lkid }
    requires goes { withdrawal.now.stays ≡ false }
    requires childless { HasNoSublocks located.now.lock store.old }
    ensures { HasGivenUp located.now withdrawal.now store.old store.new }
{
    write_released_value(store, located, withdrawal);
    remove(store, located);
}

/// Withdraws a lock. Its request ends and queues its completion AST. A lock that holds PW or EX, granted or converting,
/// writes a given value to the value block, with or without a tail, and may then mark the whole block invalid. Then the
/// lock goes. If the withdrawal lets it stay, only a waiting lock goes: a converting one goes to the end of the granted
/// queue and keeps its mode, and a granted one stays as it is. A lock that goes has no sublocks.
// Inlined, as `remove` is: a dequeue has just read the lock.
#[inline(always)]
pub fn withdraw(store: &mut Store, located: &LocatedLock, withdrawal: &Withdrawal)
    requires rest { IsAtRest store.old }
    requires located { IsLocated located.now store.old }
    requires named { withdrawal.now.lkid ≡ located.now.row.lkid }
    requires childless { goes withdrawal.now.stays located.now.queue ≡ true
        → HasNoSublocks located.now.lock store.old }
    requires granted { located.now.queue ≡ Queue.Granted → located.now.row.want ≡ None }
    requires paid { IsPaid store.old }
    ensures { HasWithdrawn located.now withdrawal.now store.old store.new }
{
    end_notices(store, located, withdrawal);
    if withdrawal.stays {
        write_released_value(store, located, withdrawal);
        cancel(store, located);
    } else {
        give_up(store, located, withdrawal);
    }
}
