//! Laws of whole runs of the plain machine. Each law is a function that does nothing but call a law that it rests on,
//! if there is one: its contract is the law.

ghost use Rattle.std.specs.Prelude.{◌≡◌, ℕ, true, false, Option, Some};
ghost use Rattle.vlm_words.specs.declared.locks.LockState.{LockState};
ghost use Rattle.vlm_words.specs.declared.conditions.Cond.TheVariants.{Normal};
ghost use Rattle.vlm_words.specs.declared.steps.Answer.TheVariants.{Plain};
ghost use Rattle.vlm_words.specs.declared.steps.Dequeue.{Dequeue};
ghost use Rattle.vlm_words.specs.declared.steps.Step.TheVariants.{Deq, Search};
ghost use Rattle.vlm_words.specs.declared.steps.Step.{Step};
ghost use Rattle.vlm_words.specs.Flags.{cancel, deqall, has_flag};
ghost use Rattle.vlm_words.specs.State.{State};
ghost use Rattle.vlm_model.specs.Runs.{History, Run};
ghost use Rattle.vlm_model.specs.Stepped.{IsChoice, stepped};
ghost use Rattle.vlm_model.specs.Owners.{OthersAreLeftAlone};
ghost use Rattle.vlm_model.specs.Privileges.{SystemRootsArePrivileged};
ghost use Rattle.vlm_model.specs.Accounting.{WhatIsQueuedIsTakenOrPending};
ghost use Rattle.vlm_model.specs.Anew.{GivesNoneTwice};
ghost use Rattle.vlm_model.specs.AtOnce.{WhatFitsIsGrantedAtOnce};
ghost use Rattle.vlm_model.specs.Completing.{EachRequestCompletesOnce};
ghost use Rattle.vlm_model.specs.Departing.{DepartedNodesAreToldSo, NoneLivesOnDepartedNodes};
ghost use Rattle.vlm_model.specs.EndedProcesses.{EndedProcessesAreToldNoMore};
ghost use Rattle.vlm_model.specs.Raising.{NoMoreIsQueuedThanNamed, OnlyOwnRequestsRaiseDues};
ghost use Rattle.vlm_model.specs.Warning.{WarningsAreOfGrants};
ghost use Rattle.vlm_model.specs.WarnedOnce.{EachGrantIsWarnedAtMostOnce};
ghost use Rattle.vlm_model.specs.WarnedSince.{EachGrantIsArmedOrWarned};
ghost use Rattle.vlm_model.specs.BlocksRequests.{WarnedLocksAreInTheWay};
ghost use Rattle.vlm_model.specs.NoNewCycles.{NoneIsCaughtAnew};
ghost use Rattle.vlm_model.specs.TailMarks.{TailsAreValidWithTheirValues};
ghost use Rattle.vlm_model.specs.TakenBelow.{AbortsByRisingId, TakesThoseBelowAlone};
ghost use Rattle.vlm_model.specs.TakenAlone.{CancelsItsRequest, EndsItsVictim, TakesItsLock};

use crate::laws::law_asts_are_taken_in_order;

/// The ASTs that were queued to a living process are those that its Takes answered, followed by those that are
/// pending, in the order of queueing. An ended process took the first of what was queued to it, and gets no more.
/// Nothing was queued to a process that was never declared.
pub fn law_what_is_queued_is_taken_or_pending()
    ensures { (history : History) (last : State) → Run history last
        → WhatIsQueuedIsTakenOrPending history last }
{
    law_asts_are_taken_in_order();
}

/// A declaration gives an ID that no earlier declaration of the run gave.
pub fn law_no_id_is_given_twice()
    ensures { (history : History) (last : State) → Run history last
        → GivesNoneTwice history last }
{}

/// An ending whose request names a completion routine queues exactly one completion, in the order of the endings.
/// Exceptions are an immediate grant with SYNCSTS and an end by rundown.
pub fn law_a_request_completes_once()
    ensures { (history : History) (last : State) → Run history last
        → EachRequestCompletesOnce history.endings history.queued }
{}

/// The ASTs of a process, pending and due together, grow only by the routines that its own accepted request names. So
/// every AST that is queued was due.
pub fn law_only_own_requests_raise_what_is_due()
    ensures { (history : History) (old : State) → Run history old
        → (step : Step) (choice : Option LockState)
        → IsChoice old step choice → OnlyOwnRequestsRaiseDues old step choice }
{
    law_asts_are_taken_in_order();
}

/// A blocking AST calls the blocking routine of a request that was granted to its lock, with that request's
/// parameter, and goes to the lock's process.
pub fn law_a_warning_calls_what_a_granted_request_named()
    ensures { (history : History) (last : State) → Run history last
        → WarningsAreOfGrants history.endings history.queued }
{}

/// No process is queued more ASTs than its accepted requests named routines.
pub fn law_no_more_is_queued_than_was_named()
    ensures { (history : History) (last : State) → Run history last
        → NoMoreIsQueuedThanNamed history }
{}

/// Each grant is warned at most once, and only if its request named a blocking routine. The law counts: the warnings
/// of a lock so far, and one more while it is armed, are at most its grants with a blocking routine.
pub fn law_a_grant_is_warned_at_most_once()
    ensures { (history : History) (last : State) → Run history last
        → EachGrantIsWarnedAtMostOnce history last }
{}

/// A lock that is held under a request that names a blocking routine is armed, or was warned since that grant, by
/// that routine with the request's parameter.
pub fn law_a_grant_is_armed_or_was_warned()
    ensures { (history : History) (last : State) → (run : Run history last)
        → EachGrantIsArmedOrWarned run }
{}

/// In any state: a lock that a step warns is granted, after the step, in a mode that is incompatible with some queued
/// request of its resource. The AST goes to the lock's process.
pub fn law_a_warned_lock_blocks_a_request()
    ensures { (s : State) (step : Step) (choice : Option LockState)
        → WarnedLocksAreInTheWay (stepped s step choice) }
{}

/// A departed node does not come back. After its accepted departure each step of the node, a second departure
/// included, is answered DEPARTED, and changes, ends and queues nothing. No other step is answered DEPARTED. A node
/// has departed exactly if its departure was accepted in the run.
pub fn law_a_departed_node_is_answered_departed()
    ensures { (history : History) (last : State) → Run history last
        → DepartedNodesAreToldSo history last }
{}

/// No living process is of a departed node.
pub fn law_no_process_of_a_departed_node_lives()
    ensures { (history : History) (last : State) → Run history last
        → NoneLivesOnDepartedNodes history last }
{}

/// After its accepted rundown, or the accepted departure of its node, no living process has the ID. Each
/// step of the process is answered NONEXPR or DEPARTED and changes nothing, and nothing is queued to it.
pub fn law_an_ended_process_is_told_no_more()
    ensures { (history : History) (last : State) → Run history last
        → EndedProcessesAreToldNoMore history last }
{
    law_what_is_queued_is_taken_or_pending();
}

/// A Deq with DEQALL takes all locks of its caller, or those below the lock it names, sublocks of sublocks too, and
/// no other. All locks that it takes are the caller's. Before the sweep the other locks are as they were, in their
/// order.
pub fn law_a_dequeue_of_all_takes_those_below_alone()
    ensures { (history : History) (old : State) → Run history old
        → (d : Dequeue) (choice : Option LockState) → has_flag d.flags deqall ≡ true
        → (stepped old (Deq d) choice).answer ≡ Plain Normal
        → TakesThoseBelowAlone old d choice }
{}

/// A Deq with DEQALL aborts the requests of the locks that it takes, conversions included, by rising ID
/// of the locks, and all before the grants of its sweep.
pub fn law_a_dequeue_of_all_aborts_by_rising_id()
    ensures { (history : History) (old : State) → Run history old
        → (d : Dequeue) (choice : Option LockState) → has_flag d.flags deqall ≡ true
        → (stepped old (Deq d) choice).answer ≡ Plain Normal
        → AbortsByRisingId old d choice }
{}

/// In any state: a Deq without DEQALL and CANCEL takes the lock that it names, and no other; before its sweep the other
/// locks are as they were, in their order. The lock's request, if it has one, ends by ABORT.
pub fn law_a_dequeue_takes_its_lock()
    ensures { (s : State) (d : Dequeue) (choice : Option LockState)
        → has_flag d.flags deqall ≡ false → has_flag d.flags cancel ≡ false
        → TakesItsLock s d choice }
{}

/// In any state: a CANCEL ends the request of the lock that it names and no other, and a search ends its victim's
/// request and no other. A conversion ends by CANCEL or DEADLOCK, and its lock joins the granted queue: it holds what
/// it held, and is armed as before. A waiting request ends by ABORT or DEADLOCK, and its lock goes.
pub fn law_a_cancelled_conversion_leaves_its_lock()
    ensures cancel { (s : State) (d : Dequeue) (choice : Option LockState)
        → has_flag d.flags deqall ≡ false → has_flag d.flags cancel ≡ true
        → CancelsItsRequest s d choice }
    ensures search { (s : State) (node : ℕ) (victim : LockState)
        → EndsItsVictim s node victim.lkid (Some victim) }
{}

/// A root in the system's domain is made only by a request with SYSTEM whose caller has the privilege SYSLCK.
pub fn law_system_roots_are_privileged()
    ensures { (history : History) (old : State) → Run history old
        → (step : Step) (choice : Option LockState)
        → IsChoice old step choice → SystemRootsArePrivileged old step choice }
{}

/// A step ends no request of another process except by a grant, and takes no lock of another process. Exceptions are
/// the processes of a departing node and the victim of a search.
pub fn law_others_are_left_alone()
    ensures { (history : History) (old : State) → Run history old
        → (step : Step) (choice : Option LockState) → IsChoice old step choice
        → OthersAreLeftAlone old step choice }
{}

/// In any state: a search makes no request deadlocked. Each request that waits in a cycle after the search waited in
/// one before it, so the grants after the victim's end close no new cycle.
pub fn law_a_search_catches_nobody_anew()
    ensures { (s : State) (node : ℕ) (choice : Option LockState)
        → NoneIsCaughtAnew s (stepped s (Search node) choice).state }
{}

/// The tail of a value block is valid only if its value is.
pub fn law_a_tail_is_valid_with_its_value()
    ensures { (history : History) (last : State) → Run history last
        → TailsAreValidWithTheirValues last }
{}

/// What fits does not wait. An accepted new request is granted at once if it is expedited at NL, or if it fits and
/// nobody is queued. An accepted conversion is granted at once if it fits beside all other locks, with QUECVT only if
/// no conversion is queued.
pub fn law_what_fits_is_granted_at_once()
    ensures { (history : History) (old : State) → Run history old
        → WhatFitsIsGrantedAtOnce old }
{}
