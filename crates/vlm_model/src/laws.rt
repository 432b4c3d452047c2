//! The laws: what holds after every run of the plain machine, and of every step after a run. Each law is a function
//! with an empty body: its contract is the law.

ghost use Rattle.std.specs.Prelude.{◌≡◌, ℕ, List, None, Option};
ghost use Rattle.std.specs.List.{AllByRecursion};
ghost use Rattle.vlm_words.specs.declared.locks.LockState.{LockState};
ghost use Rattle.vlm_words.specs.declared.steps.Answer.TheVariants.{Victim};
ghost use Rattle.vlm_words.specs.declared.steps.Step.TheVariants.{Search};
ghost use Rattle.vlm_words.specs.declared.steps.Step.{Step};
ghost use Rattle.vlm_words.specs.State.{Process, Resource, State};
ghost use Rattle.vlm_model.specs.Stable.{IsStable, IsSweptNext, IsUnswept};
ghost use Rattle.vlm_model.specs.Runs.{History, Run};
ghost use Rattle.vlm_model.specs.Stepped.{IsChoice, step_refusal, stepped};
ghost use Rattle.vlm_model.specs.Granted.{NoGrantIsHidden};
ghost use Rattle.vlm_model.specs.Joining.{ChangesKeepOrder};
ghost use Rattle.vlm_model.specs.Cycles.{FindsWhoIsCaught};
ghost use Rattle.vlm_model.specs.Numbers.{NumbersAreGivenOnce};
ghost use Rattle.vlm_model.specs.Pending.{ProcessesRise};
ghost use Rattle.vlm_model.specs.Queued.{NoqueueIsKept};
ghost use Rattle.vlm_model.specs.QueueOrder.{QueuesAreInOrderOfRequests};
ghost use Rattle.vlm_model.specs.Writers.{OnlyWritersChangeValues};
ghost use Rattle.vlm_model.specs.Returned.{GrantsReturnValues};
ghost use Rattle.vlm_model.specs.Written.{WritesNamedBlocks};
ghost use Rattle.vlm_model.specs.Taking.{AstsAreTakenInOrder};
ghost use Rattle.vlm_model.specs.Standing.{ConvertedLocksStandAsAskedFor, NewLocksStandAsAskedFor};
ghost use Rattle.vlm_model.specs.Reasons.{RefusalHasItsReason};
ghost use Rattle.vlm_model.specs.Laws.{ChainsAreBounded, DeclarationsGiveNewIds, EachRequestEndsOnce, GrantsFollowQueueOrder, HeldModesAreCompatible, IdsAreApart, KeysAreApart, NoResourceIsVacant, NothingIsLeftToGrant, NothingIsLeftToWarn, ParentsOutliveTheirSublocks, QuotasAreKept, RowsFitTheirQueues, SerialsRise, TreesAreBounded, WritesAreGrantedAtOnce};

/// In each resource the held modes of any two locks are compatible.
pub fn law_held_modes_are_compatible()
    ensures { (history : History) (last : State) → Run history last → HeldModesAreCompatible last }
{}

/// Nothing is left to grant: in each resource the first conversion does not fit, and without conversions the first
/// waiting request does not.
pub fn law_nothing_is_left_to_grant()
    ensures { (history : History) (last : State) → Run history last → NothingIsLeftToGrant last }
{}

/// Nothing is left to warn: no armed granted lock holds a mode that is incompatible with a queued request of its
/// resource.
pub fn law_nothing_is_left_to_warn()
    ensures { (history : History) (last : State) → Run history last → NothingIsLeftToWarn last }
{}

/// Each accepted request is wanted by exactly one lock and has not ended, or is wanted by no lock and has ended once.
pub fn law_each_request_ends_once()
    ensures { (history : History) (last : State) → Run history last
        → EachRequestEndsOnce history.endings last }
{}

/// A lock that holds a request was granted it: some ending is the grant of this whole request to this lock of this
/// process.
pub fn law_no_grant_is_hidden()
    ensures { (history : History) (last : State) → Run history last
        → NoGrantIsHidden history.endings last }
{}

/// A granted lock holds a mode and wants nothing, a converting lock holds a mode and wants a mode, and a waiting lock
/// holds nothing and wants a mode.
pub fn law_rows_fit_their_queues()
    ensures { (history : History) (last : State) → Run history last → RowsFitTheirQueues last }
{}

/// No two locks have one ID. No lock has 0 or an ID that is still to be given.
pub fn law_ids_are_apart()
    ensures { (history : History) (last : State) → Run history last → IdsAreApart last }
{}

/// Serials rise from 1 in the order of making, and each is below the next serial. At most as many serials as lock
/// IDs were given, since each new resource is made for a new lock.
pub fn law_serials_rise()
    ensures { (history : History) (last : State) → Run history last → SerialsRise last }
{}

/// A declaration gives an ID that no living process has.
pub fn law_a_declaration_gives_a_new_id()
    ensures { (history : History) (last : State) → Run history last
        → DeclarationsGiveNewIds last }
{}

/// A living process is of a node from 1 to 8. The IDs of a node's processes rise in the order of making.
pub fn law_process_ids_rise()
    ensures { (history : History) (last : State) → Run history last → ProcessesRise last }
{}

/// No two resources have one key.
pub fn law_keys_are_apart()
    ensures { (history : History) (last : State) → Run history last → KeysAreApart last }
{}

/// A lock on a sub-resource has a parent lock of the same process, which holds a mode on the parent resource. A lock
/// on a root has no parent lock.
pub fn law_a_parent_outlives_its_sublocks()
    ensures { (history : History) (last : State) → Run history last
        → ParentsOutliveTheirSublocks last }
{}

/// A root is at level 0. A sub-resource is one level below its parent resource, which exists and is in the same
/// domain. Level 15 is the lowest.
pub fn law_trees_are_bounded()
    ensures { (history : History) (last : State) → Run history last → TreesAreBounded last }
{}

/// No lock is more than 15 levels below another: if any chain of parent locks leads from a lock to another, then at
/// most 15 parent locks lead there.
pub fn law_no_lock_is_more_than_15_levels_below()
    ensures { (history : History) (last : State) → Run history last → ChainsAreBounded last }
{}

/// A living process has at most as many locks as its quota, waiting ones included. No other process has any.
pub fn law_quotas_are_kept()
    ensures { (history : History) (last : State) → Run history last → QuotasAreKept last }
{}

/// Grants follow the order of the queues. At once, a step grants only its own request: a new request that fits while
/// nobody is queued, or one that is expedited at NL; a conversion that fits beside all other locks, with QUECVT only
/// if no conversion is queued. Its sweep then grants the first requests of each queue in order, waiting ones only if
/// no conversion is left.
pub fn law_grants_follow_queue_order()
    ensures { (history : History) (old : State) → Run history old
        → (step : Step) (choice : Option LockState)
        → IsChoice old step choice → step_refusal old step ≡ None
        → GrantsFollowQueueOrder old step choice }
{}

/// A step's own change keeps each queue in order: only its own locks leave, and at most one joins, at the end.
pub fn law_changes_keep_the_order_of_queues()
    ensures { (history : History) (old : State) → Run history old
        → (step : Step) (choice : Option LockState) → IsChoice old step choice
        → step_refusal old step ≡ None → ChangesKeepOrder old step choice }
{}

/// An accepted conversion between modes that let it write the value block is granted at once, with VALBLK or without.
/// So no queued conversion ever writes.
pub fn law_writes_are_granted_at_once()
    ensures { (history : History) (old : State) → Run history old → WritesAreGrantedAtOnce old }
{}

/// On each resource some lock is left.
pub fn law_no_resource_is_vacant()
    ensures { (history : History) (last : State) → Run history last → NoResourceIsVacant last }
{}

/// Between two steps each resource is stable: nothing to grant, nobody to warn, some lock left.
pub fn law_each_resource_is_stable()
    ensures { (history : History) (last : State) → Run history last
        → AllByRecursion IsStable last.resources }
{}

/// A sweep changes only resources that are not stable. It serves the first of them, drops it if no lock is left on
/// it, and goes on with the resources after it. If all are stable, it does nothing.
pub fn law_a_sweep_touches_only_what_is_not_stable()
    ensures next { (processes : List Process) (before : List Resource) (r : Resource)
        (after : List Resource) → AllByRecursion IsStable before
        → IsSweptNext processes before r after }
    ensures done { (processes : List Process) (resources : List Resource)
        → AllByRecursion IsStable resources → IsUnswept processes resources }
{}

/// A step takes a number only for what it makes: a request number for each accepted request, a lock ID
/// for each new lock, a serial for each new resource. No step lowers a number, so each is given once.
pub fn law_numbers_are_given_once()
    ensures { (history : History) (old : State) → Run history old
        → (step : Step) (choice : Option LockState)
        → IsChoice old step choice → NumbersAreGivenOnce old step choice }
{}

/// A step breaks no rule and is accepted, or is refused with the condition of a rule that it breaks and changes
/// nothing.
pub fn law_a_refusal_has_its_reason()
    ensures { (history : History) (old : State) → Run history old
        → (step : Step) (choice : Option LockState)
        → IsChoice old step choice → RefusalHasItsReason old step choice }
{}

/// No request with NOQUEUE is queued.
pub fn law_noqueue_is_kept()
    ensures { (history : History) (last : State) → Run history last → NoqueueIsKept last }
{}

/// Each queue is in the order of its requests: in the conversion queue and in the waiting queue of each resource the
/// numbers of the requests rise. Each of them is below the next request number.
pub fn law_queues_are_in_the_order_of_requests()
    ensures { (history : History) (last : State) → Run history last
        → QueuesAreInOrderOfRequests last }
{}

/// A step writes the status blocks that it names and the blocks of the requests that end in it, and no other. An
/// accepted request marks its block as pending, with its lock. If several requests of one block end, the last end
/// gives the status. Declarations add processes, rundowns and departures remove them, and no other step does either.
pub fn law_a_step_writes_the_status_blocks_that_are_named()
    ensures { (history : History) (old : State) → Run history old
        → (step : Step) (choice : Option LockState)
        → IsChoice old step choice → WritesNamedBlocks old step choice }
{}

/// A Take answers and removes the oldest pending AST of its process, if there is one. No other step takes an AST, and
/// a Take leaves the ASTs of other processes alone. New ASTs join at the end.
pub fn law_asts_are_taken_in_order()
    ensures { (history : History) (old : State) → Run history old
        → (step : Step) (choice : Option LockState)
        → IsChoice old step choice → AstsAreTakenInOrder old step choice }
{}

/// The lock of an accepted request is as the request says. A new lock is on the resource asked for, is the caller's,
/// and is under the named parent lock; it holds the whole request or waits for it. A converting lock stays on its
/// resource; it holds the whole request, or holds what it held and wants the request.
pub fn law_a_lock_stands_as_asked_for()
    ensures new { (history : History) (old : State) → Run history old
        → NewLocksStandAsAskedFor old }
    ensures converted { (history : History) (old : State) → Run history old
        → ConvertedLocksStandAsAskedFor old }
{}

/// Only a lock that holds PW or EX before the step changes a value block: by a conversion with VALBLK that writes, as
/// it is given up, or as its process ends. A write of 64 bytes makes all of them valid; a write of 16 bytes keeps the
/// tail's bytes and makes the tail invalid. A new resource's value block is zeros, all valid. So no sweep changes a
/// value block.
pub fn law_only_writers_change_value_blocks()
    ensures { (history : History) (old : State) → Run history old
        → (step : Step) (choice : Option LockState)
        → IsChoice old step choice → step_refusal old step ≡ None
        → OnlyWritersChangeValues old step choice }
{}

/// A grant does with the value block what its request and the mode held before ask for: nothing without VALBLK; a new
/// request returns it; a conversion returns it, writes it or does neither. A return gives the value block of the
/// lock's resource after the step, with WIDE its tail too. Its status is VALNOTVALID if the value is invalid,
/// WIDENOTVALID if a wide return meets only an invalid tail, else NORMAL.
pub fn law_a_grant_returns_the_value_block()
    ensures { (history : History) (old : State) → Run history old
        → (step : Step) (choice : Option LockState)
        → IsChoice old step choice → GrantsReturnValues old step choice }
{}

/// A search that answers no lock changes nothing, and then no processes wait in a cycle. A search that answers a
/// lock ends its request by deadlock. That request waited for a lock whose owner waited, directly or through others,
/// for the request's own process, or was that process. No request in such a cycle was accepted later.
pub fn law_a_search_finds_who_is_caught()
    ensures { (history : History) (old : State) → Run history old
        → (node : ℕ) (choice : Option LockState) → IsChoice old (Search node) choice
        → (lkid : Option ℕ) → (stepped old (Search node) choice).answer ≡ Victim lkid
        → FindsWhoIsCaught old (stepped old (Search node) choice) lkid }
{}
