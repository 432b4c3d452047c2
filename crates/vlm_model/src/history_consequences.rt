//! What each law of `histories` excludes, in the same form as [`law_consequences`](crate::law_consequences).

ghost use Rattle.std.specs.Prelude.{All, Contains, List, None, Option, Some, [], false, length, slice_index_or, true, ℕ, ◌++◌, ◌+◌, ◌/◌, ◌<◌, ◌∷◌, ◌≡◌, ◌≢◌, ◌≤◌, ◌⊎◌};
ghost use Rattle.vlm_words.specs.Flags.{expedite, flag_bits, has_flag, quecvt, syncsts, system};
ghost use Rattle.vlm_words.specs.Modes.{is_compatible};
ghost use Rattle.vlm_words.specs.State.{Process, Resource, State, process_of};
ghost use Rattle.vlm_words.specs.declared.asts.Ast.{Ast};
ghost use Rattle.vlm_words.specs.declared.asts.AstKind.TheVariants.{Blocking, Completion};
ghost use Rattle.vlm_words.specs.declared.conditions.Cond.{Cond};
ghost use Rattle.vlm_words.specs.declared.conditions.Cond.TheVariants.{Normal};
ghost use Rattle.vlm_words.specs.declared.locks.LockState.{LockState};
ghost use Rattle.vlm_words.specs.declared.locks.Request.{Request};
ghost use Rattle.vlm_words.specs.declared.modes.Act.{Act};
ghost use Rattle.vlm_words.specs.declared.modes.Mode.TheVariants.{Nl};
ghost use Rattle.vlm_words.specs.declared.resources.Domain.TheVariants.{System};
ghost use Rattle.vlm_words.specs.declared.steps.Answer.{Answer};
ghost use Rattle.vlm_words.specs.declared.steps.Answer.TheVariants.{Lock, Plain, Process as process_answer, Taken};
ghost use Rattle.vlm_words.specs.declared.steps.Conversion.{Conversion};
ghost use Rattle.vlm_words.specs.declared.steps.Declaration.{Declaration};
ghost use Rattle.vlm_words.specs.declared.steps.Dequeue.{Dequeue};
ghost use Rattle.vlm_words.specs.declared.steps.NewRequest.{NewRequest};
ghost use Rattle.vlm_words.specs.declared.steps.Step.{Step};
ghost use Rattle.vlm_words.specs.declared.steps.Step.TheVariants.{Convert, Declare, Deq, Enq, Leave, Rundown, Search, Take};
ghost use Rattle.vlm_words.specs.declared.steps.Which.TheVariants.{Id};
ghost use Rattle.vlm_model.specs.Accounting.{WhatIsQueuedIsTakenOrPending};
ghost use Rattle.vlm_model.specs.Anew.{GivesNoneTwice};
ghost use Rattle.vlm_model.specs.Asts.{Queued};
ghost use Rattle.vlm_model.specs.AtOnce.{WhatFitsIsGrantedAtOnce};
ghost use Rattle.vlm_model.specs.BlocksRequests.{WarnedLocksAreInTheWay};
ghost use Rattle.vlm_model.specs.Completing.{EachRequestCompletesOnce};
ghost use Rattle.vlm_model.specs.Consequences.{AreDeadlocked, ConvertsAlone, IsHeldAlone, WaitsAlone, changed, due_or_pending, history_of, rows_of_lock};
ghost use Rattle.vlm_model.specs.EndedProcesses.{EndedProcessesAreToldNoMore, IsStepOfProcess};
ghost use Rattle.vlm_model.specs.Endings.{Ending};
ghost use Rattle.vlm_model.specs.Endings.How.{by_abort, by_cancel, by_deadlock, by_grant, by_rundown};
ghost use Rattle.vlm_model.specs.Laws.{IsVacant};
ghost use Rattle.vlm_model.specs.NoNewCycles.{NoneIsCaughtAnew};
ghost use Rattle.vlm_model.specs.Owners.{OthersAreLeftAlone};
ghost use Rattle.vlm_model.specs.Privileges.{SystemRootsArePrivileged};
ghost use Rattle.vlm_model.specs.Raising.{NoMoreIsQueuedThanNamed, OnlyOwnRequestsRaiseDues};
ghost use Rattle.vlm_model.specs.Runs.{History, Run, next};
ghost use Rattle.vlm_model.specs.Stepped.{IsChoice, Outcome, Stepped, outcome_queued, step_change, stepped};
ghost use Rattle.vlm_model.specs.TailMarks.{TailsAreValidWithTheirValues};
ghost use Rattle.vlm_model.specs.TakenAlone.{CancelsItsRequest, EndsItsVictim, TakesItsLock};
ghost use Rattle.vlm_model.specs.TakenBelow.{AbortsByRisingId, TakesThoseBelowAlone};
ghost use Rattle.vlm_model.specs.WarnedOnce.{EachGrantIsWarnedAtMostOnce};
ghost use Rattle.vlm_model.specs.WarnedSince.{EachGrantIsArmedOrWarned};
ghost use Rattle.vlm_model.specs.Warning.{WarningsAreOfGrants};

/// No resource has a valid tail and an invalid value.
pub fn an_invalid_value_has_no_valid_tail()
    ensures { (s : State) (r : Resource) → TailsAreValidWithTheirValues s
        → Contains s.resources r → r.value_block.valid ≡ false
        → r.value_block.tail_valid ≡ true → ⊥ }
{}

/// No request without SYSTEM, no caller without SYSLCK and no conversion makes a root in the system's domain.
pub fn nobody_else_makes_a_root_of_the_system()
    ensures caller { (old : State) (e : NewRequest) (choice : Option LockState) (caller : Process)
        (r : Resource) → SystemRootsArePrivileged old (Enq e) choice
        → Contains (stepped old (Enq e) choice).state.resources r → r.parent ≡ 0
        → r.domain ≡ System → All (λ before. before.serial ≡ r.serial → before.parent ≡ 0
        → before.domain ≢ System) old.resources
        → process_of old.processes e.pid ≡ Some caller → caller.syslck ≡ false → ⊥ }
    ensures request { (old : State) (e : NewRequest) (choice : Option LockState) (r : Resource)
        → SystemRootsArePrivileged old (Enq e) choice
        → Contains (stepped old (Enq e) choice).state.resources r → r.parent ≡ 0
        → r.domain ≡ System → All (λ before. before.serial ≡ r.serial → before.parent ≡ 0
        → before.domain ≢ System) old.resources → has_flag e.flags system ≡ false → ⊥ }
    ensures conversion { (old : State) (c : Conversion) (choice : Option LockState) (r : Resource)
        → SystemRootsArePrivileged old (Convert c) choice
        → Contains (stepped old (Convert c) choice).state.resources r → r.parent ≡ 0
        → r.domain ≡ System → All (λ before. before.serial ≡ r.serial → before.parent ≡ 0
        → before.domain ≢ System) old.resources → ⊥ }
{}

/// A step of one process ends no request of another, except by a grant, and takes no lock of it. A departure ends only
/// requests of its node, and a search only those of its victim's process.
pub fn a_step_of_one_process_ends_nothing_of_another()
    ensures requests { (old : State) (step : Step) (choice : Option LockState) (pid : ℕ)
        (ending : Ending) → OthersAreLeftAlone old step choice → IsStepOfProcess pid step
        → Contains (stepped old step choice).endings ending → ending.pid ≢ pid
        → ((act : Act) → ending.how ≢ by_grant act) → ⊥ }
    ensures locks { (old : State) (step : Step) (choice : Option LockState) (pid other lkid : ℕ)
        → OthersAreLeftAlone old step choice → IsStepOfProcess pid step → other ≢ pid
        → rows_of_lock other lkid (stepped old step choice).state
        < rows_of_lock other lkid old → ⊥ }
    ensures departures { (old : State) (node : ℕ) (choice : Option LockState) (ending : Ending)
        → OthersAreLeftAlone old (Leave node) choice
        → Contains (stepped old (Leave node) choice).endings ending → ending.pid / 65536 ≢ node
        → ending.how ≡ by_rundown → ⊥ }
    ensures searches { (old : State) (node : ℕ) (victim : LockState) (ending : Ending)
        → OthersAreLeftAlone old (Search node) (Some victim)
        → Contains (stepped old (Search node) (Some victim)).endings ending
        → ending.pid ≢ victim.pid → ending.how ≡ by_deadlock → ⊥ }
{}

/// A declaration does not answer an ID that an earlier declaration of the run answered.
pub fn a_process_is_not_declared_again()
    ensures { (history : History) (last : State) (d : Declaration) (pid : ℕ)
        → GivesNoneTwice history last → Contains history.answers (process_answer pid)
        → (stepped last (Declare d) None).answer ≡ process_answer pid → ⊥ }
{}

/// A request that names a completion routine queues one completion, with its own routine and parameter. A request that
/// is run down, or granted at once with SYNCSTS, queues none.
pub fn a_request_completes_neither_twice_nor_not_at_all()
    ensures forgotten { (ending : Ending) (act : Act) (routine : ℕ)
        → EachRequestCompletesOnce (ending ∷ []) [] → ending.how ≡ by_grant act
        → has_flag (flag_bits ending.request.flags) syncsts ≡ false
        → ending.request.completion ≡ Some routine → ⊥ }
    ensures forgotten_abort { (ending : Ending) (routine : ℕ)
        → EachRequestCompletesOnce (ending ∷ []) [] → ending.how ≡ by_abort
        → ending.at_once ≡ false → ending.request.completion ≡ Some routine → ⊥ }
    ensures called { (ending : Ending) (act : Act) (routine : ℕ) (q : Queued)
        → EachRequestCompletesOnce (ending ∷ []) (q ∷ []) → ending.how ≡ by_grant act
        → ending.at_once ≡ false → ending.request.completion ≡ Some routine
        → q.ast.kind ≡ Completion → (q.pid ≡ ending.pid) × (q.ast.routine ≡ routine)
        × (q.ast.param ≡ ending.request.param) × (q.ast.lkid ≡ ending.lkid) }
    ensures twice { (ending : Ending) (q again : Queued)
        → EachRequestCompletesOnce (ending ∷ []) (q ∷ again ∷ [])
        → q.ast.kind ≡ Completion → again.ast.kind ≡ Completion → ⊥ }
    ensures rundown { (ending : Ending) (q : Queued)
        → EachRequestCompletesOnce (ending ∷ []) (q ∷ []) → q.ast.kind ≡ Completion
        → ending.how ≡ by_rundown → ⊥ }
    ensures synchronous { (ending : Ending) (q : Queued)
        → EachRequestCompletesOnce (ending ∷ []) (q ∷ []) → q.ast.kind ≡ Completion
        → ending.at_once ≡ true → has_flag (flag_bits ending.request.flags) syncsts ≡ true → ⊥ }
{}

/// A living process loses no AST, and no process takes one that was not queued to it. A process that has ended, or was
/// never declared, is queued none.
pub fn no_ast_is_lost_or_made_up()
    ensures living { (q : Queued) (last : State) (p : Process)
        → WhatIsQueuedIsTakenOrPending (history_of [] [] [] (q ∷ [])) last
        → process_of last.processes q.pid ≡ Some p → p.asts ≡ [] → ⊥ }
    ensures taken { (pid : ℕ) (ast : Ast) (last : State) (p : Process)
        → WhatIsQueuedIsTakenOrPending
        (history_of (Take pid ∷ []) (Taken (Some ast) ∷ []) [] []) last
        → process_of last.processes pid ≡ Some p → ⊥ }
    ensures ended { (pid : ℕ) (ast : Ast) (last : State)
        → WhatIsQueuedIsTakenOrPending
        (history_of (Take pid ∷ []) (Taken (Some ast) ∷ []) [] []) last
        → process_of last.processes pid ≡ None → ⊥ }
    ensures no_more { (history : History) (q : Queued) (last : State) (step : Step)
        (choice : Option LockState) → WhatIsQueuedIsTakenOrPending history last
        → process_of last.processes q.pid ≡ None → IsChoice last step choice
        → (stepped last step choice).queued ≡ q ∷ [] → ⊥ }
    ensures undeclared { (q : Queued) (last : State)
        → WhatIsQueuedIsTakenOrPending (history_of [] [] [] (q ∷ [])) last → ⊥ }
{}

/// The ASTs of a process do not grow by a request of another process, by a refused request, by one that names no
/// routine, or by a dequeue.
pub fn nothing_else_raises_what_is_due()
    ensures anothers { (old : State) (c : Conversion) (choice : Option LockState) (pid : ℕ)
        (before after : Process) → OnlyOwnRequestsRaiseDues old (Convert c) choice
        → c.pid ≢ pid → process_of old.processes pid ≡ Some before
        → process_of (stepped old (Convert c) choice).state.processes pid ≡ Some after
        → due_or_pending pid before old
        < due_or_pending pid after (stepped old (Convert c) choice).state → ⊥ }
    ensures refused { (old : State) (e : NewRequest) (choice : Option LockState) (pid : ℕ)
        (cond : Cond) (before after : Process) → OnlyOwnRequestsRaiseDues old (Enq e) choice
        → (stepped old (Enq e) choice).answer ≡ Plain cond
        → process_of old.processes pid ≡ Some before
        → process_of (stepped old (Enq e) choice).state.processes pid ≡ Some after
        → due_or_pending pid before old
        < due_or_pending pid after (stepped old (Enq e) choice).state → ⊥ }
    ensures unnamed { (old : State) (e : NewRequest) (choice : Option LockState) (pid lkid : ℕ)
        (cond : Cond) (before after : Process) → OnlyOwnRequestsRaiseDues old (Enq e) choice
        → (stepped old (Enq e) choice).answer ≡ Lock cond lkid → e.ast ≡ None → e.bast ≡ None
        → process_of old.processes pid ≡ Some before
        → process_of (stepped old (Enq e) choice).state.processes pid ≡ Some after
        → due_or_pending pid before old
        < due_or_pending pid after (stepped old (Enq e) choice).state → ⊥ }
    ensures dequeue { (old : State) (d : Dequeue) (choice : Option LockState) (pid : ℕ)
        (before after : Process) → OnlyOwnRequestsRaiseDues old (Deq d) choice
        → process_of old.processes pid ≡ Some before
        → process_of (stepped old (Deq d) choice).state.processes pid ≡ Some after
        → due_or_pending pid before old
        < due_or_pending pid after (stepped old (Deq d) choice).state → ⊥ }
{}

/// No blocking AST is queued whose routine and parameter no grant to its lock named.
pub fn no_warning_is_made_up()
    ensures { (endings : List Ending) (queued : List Queued) (q : Queued)
        → WarningsAreOfGrants endings queued → Contains queued q → q.ast.kind ≡ Blocking
        → All (λ ending. ending.pid ≡ q.pid → ending.lkid ≡ q.ast.lkid
        → ending.request.blocking ≡ Some q.ast.routine → ending.request.param ≡ q.ast.param
        → (act : Act) → ending.how ≢ by_grant act) endings → ⊥ }
{}

/// No AST is queued for a refused request, for one that names no routine, or to another process than the caller. One
/// routine is not called twice.
pub fn no_more_is_queued_than_the_caller_named()
    ensures refused { (e : NewRequest) (cond : Cond) (endings : List Ending) (q : Queued)
        → NoMoreIsQueuedThanNamed
        (history_of (Enq e ∷ []) (Plain cond ∷ []) endings (q ∷ [])) → ⊥ }
    ensures unnamed { (e : NewRequest) (cond : Cond) (lkid : ℕ) (endings : List Ending)
        (q : Queued) → NoMoreIsQueuedThanNamed
        (history_of (Enq e ∷ []) (Lock cond lkid ∷ []) endings (q ∷ []))
        → e.ast ≡ None → e.bast ≡ None → ⊥ }
    ensures anothers { (e : NewRequest) (cond : Cond) (lkid : ℕ) (endings : List Ending)
        (q : Queued) → NoMoreIsQueuedThanNamed
        (history_of (Enq e ∷ []) (Lock cond lkid ∷ []) endings (q ∷ []))
        → q.pid ≢ e.pid → ⊥ }
    ensures twice { (c : Conversion) (cond : Cond) (lkid : ℕ) (endings : List Ending)
        (q again : Queued) → NoMoreIsQueuedThanNamed
        (history_of (Convert c ∷ []) (Lock cond lkid ∷ []) endings (q ∷ again ∷ []))
        → c.bast ≡ None → q.pid ≡ again.pid → ⊥ }
{}

/// No lock is warned twice of one grant, while it is still armed, or without a grant that names a blocking routine.
pub fn no_grant_is_warned_again()
    ensures twice { (ending : Ending) (q again : Queued) (last : State)
        → EachGrantIsWarnedAtMostOnce (history_of [] [] (ending ∷ []) (q ∷ again ∷ [])) last
        → q.ast.kind ≡ Blocking → again.ast.kind ≡ Blocking → q.ast.lkid ≡ again.ast.lkid → ⊥ }
    ensures unnamed { (ending : Ending) (q : Queued) (last : State)
        → EachGrantIsWarnedAtMostOnce (history_of [] [] (ending ∷ []) (q ∷ [])) last
        → q.ast.kind ≡ Blocking → ending.request.blocking ≡ None → ⊥ }
    ensures ungranted { (ending : Ending) (q : Queued) (last : State)
        → EachGrantIsWarnedAtMostOnce (history_of [] [] (ending ∷ []) (q ∷ [])) last
        → q.ast.kind ≡ Blocking → ending.how ≡ by_abort → ⊥ }
    ensures anothers { (ending : Ending) (q : Queued) (last : State)
        → EachGrantIsWarnedAtMostOnce (history_of [] [] (ending ∷ []) (q ∷ [])) last
        → q.ast.kind ≡ Blocking → ending.lkid ≢ q.ast.lkid → ⊥ }
    ensures armed { (ending : Ending) (q : Queued) (last : State) (r : Resource) (row : LockState)
        → EachGrantIsWarnedAtMostOnce (history_of [] [] (ending ∷ []) (q ∷ [])) last
        → q.ast.kind ≡ Blocking → Contains last.resources r → Contains r.granted row
        → row.lkid ≡ q.ast.lkid → row.armed ≡ true → ⊥ }
{}

/// A step warns no lock that fits beside everybody who is queued on its resource, and no other lock or process.
pub fn no_lock_is_warned_in_nobodys_way()
    ensures { (made : Stepped) (q : Queued) → WarnedLocksAreInTheWay made
        → Contains made.queued q → q.ast.kind ≡ Blocking
        → All (λ r. All (λ row. row.lkid ≡ q.ast.lkid → row.pid ≡ q.pid
        → All (λ other. (held want : Request) → row.held ≡ Some held → other.want ≡ Some want
        → is_compatible want.mode held.mode ≡ true) (r.converting ++ r.waiting)) r.granted)
        made.state.resources → ⊥ }
{}

/// After its rundown, or the departure of its node, a process does not live. Each of its steps is refused and changes
/// nothing, and nothing is queued to it.
pub fn an_ended_process_does_nothing()
    ensures run_down { (pid : ℕ) (last : State) (p : Process) → EndedProcessesAreToldNoMore
        (history_of (Rundown pid ∷ []) (Plain Normal ∷ []) [] []) last
        → Contains last.processes p → p.pid ≡ pid → ⊥ }
    ensures departed { (pid : ℕ) (last : State) (p : Process) → EndedProcessesAreToldNoMore
        (history_of (Leave (pid / 65536) ∷ []) (Plain Normal ∷ []) [] []) last
        → Contains last.processes p → p.pid ≡ pid → ⊥ }
    ensures changes { (d : Dequeue) (last new : State) (answer : Answer)
        → EndedProcessesAreToldNoMore
        (history_of (Rundown d.pid ∷ []) (Plain Normal ∷ []) [] []) last
        → Outcome last (Deq d) new answer → new ≢ last → ⊥ }
    ensures accepted { (d : Dequeue) (last new : State)
        → EndedProcessesAreToldNoMore
        (history_of (Rundown d.pid ∷ []) (Plain Normal ∷ []) [] []) last
        → Outcome last (Deq d) new (Plain Normal) → ⊥ }
    ensures takes { (pid : ℕ) (ast : Option Ast) (last new : State)
        → EndedProcessesAreToldNoMore
        (history_of (Rundown pid ∷ []) (Plain Normal ∷ []) [] []) last
        → Outcome last (Take pid) new (Taken ast) → ⊥ }
    ensures queued { (q : Queued) (last new : State) (step : Step) (answer : Answer)
        (outcome : Outcome last step new answer) → EndedProcessesAreToldNoMore
        (history_of (Rundown q.pid ∷ []) (Plain Normal ∷ []) [] []) last
        → outcome_queued outcome ≡ q ∷ [] → ⊥ }
{}

/// A Deq with DEQALL and lock 0 leaves no lock of its caller. Below a lock it leaves no sublock, and takes no lock
/// without a parent lock. It takes no lock of another process.
pub fn a_dequeue_of_all_takes_no_other_lock()
    ensures own { (old : State) (d : Dequeue) (choice : Option LockState) (r after : Resource)
        (row : LockState) → TakesThoseBelowAlone old d choice → old.resources ≡ r ∷ []
        → changed old (Deq d) choice ≡ after ∷ [] → d.lock ≡ Id 0 → r.granted ≡ row ∷ []
        → row.pid ≡ d.pid → after.granted ≡ [] }
    ensures anothers { (old : State) (d : Dequeue) (choice : Option LockState)
        (r after : Resource) (row : LockState) → TakesThoseBelowAlone old d choice
        → old.resources ≡ r ∷ [] → changed old (Deq d) choice ≡ after ∷ []
        → r.converting ≡ row ∷ [] → row.pid ≢ d.pid → after.converting ≡ row ∷ [] }
    ensures sublock { (old : State) (d : Dequeue) (choice : Option LockState) (r after : Resource)
        (row : LockState) (top : ℕ) → TakesThoseBelowAlone old d choice → old.resources ≡ r ∷ []
        → changed old (Deq d) choice ≡ after ∷ [] → d.lock ≡ Id top → 0 < top
        → WaitsAlone row r → row.parent ≡ top → after.waiting ≡ [] }
    ensures without_parent { (old : State) (d : Dequeue) (choice : Option LockState)
        (r after : Resource) (row : LockState) (top : ℕ) → TakesThoseBelowAlone old d choice
        → old.resources ≡ r ∷ [] → changed old (Deq d) choice ≡ after ∷ [] → d.lock ≡ Id top
        → 0 < top → IsHeldAlone row r → row.parent ≡ 0 → 0 < row.lkid
        → after.granted ≡ row ∷ [] }
{}

/// A Deq with DEQALL never ends the request of a later lock first, and never ends one by CANCEL.
pub fn a_dequeue_of_all_aborts_no_later_lock_first()
    ensures order { (old : State) (d : Dequeue) (choice : Option LockState) (i j : ℕ)
        (none a b : Ending) → AbortsByRisingId old d choice → i < j
        → j < length (step_change old (Deq d) choice).endings
        → slice_index_or (step_change old (Deq d) choice).endings i none ≡ a
        → slice_index_or (step_change old (Deq d) choice).endings j none ≡ b
        → b.lkid ≤ a.lkid → ⊥ }
    ensures how { (old : State) (d : Dequeue) (choice : Option LockState) (ending : Ending)
        → AbortsByRisingId old d choice
        → Contains (step_change old (Deq d) choice).endings ending
        → ending.how ≡ by_cancel → ⊥ }
{}

/// A Deq takes the lock that it names and no other, and ends a request of it by ABORT alone.
pub fn a_dequeue_takes_no_other_lock()
    ensures granted { (s : State) (d : Dequeue) (choice : Option LockState) (r after : Resource)
        (row : LockState) (lkid : ℕ) → TakesItsLock s d choice → s.resources ≡ r ∷ []
        → changed s (Deq d) choice ≡ after ∷ [] → d.lock ≡ Id lkid → r.granted ≡ row ∷ []
        → row.lkid ≡ lkid → after.granted ≡ [] }
    ensures waiting { (s : State) (d : Dequeue) (choice : Option LockState) (r after : Resource)
        (row : LockState) (lkid : ℕ) → TakesItsLock s d choice → s.resources ≡ r ∷ []
        → changed s (Deq d) choice ≡ after ∷ [] → d.lock ≡ Id lkid → r.waiting ≡ row ∷ []
        → row.lkid ≡ lkid → after.waiting ≡ [] }
    ensures other { (s : State) (d : Dequeue) (choice : Option LockState) (r after : Resource)
        (row : LockState) (lkid : ℕ) → TakesItsLock s d choice → s.resources ≡ r ∷ []
        → changed s (Deq d) choice ≡ after ∷ [] → d.lock ≡ Id lkid → r.converting ≡ row ∷ []
        → row.lkid ≢ lkid → after.converting ≡ row ∷ [] }
    ensures requests { (s : State) (d : Dequeue) (choice : Option LockState) (ending : Ending)
        (lkid : ℕ) → TakesItsLock s d choice → d.lock ≡ Id lkid
        → Contains (step_change s (Deq d) choice).endings ending
        → (ending.lkid ≢ lkid) ⊎ (ending.how ≡ by_cancel) → ⊥ }
{}

/// A conversion that a CANCEL or a search ends leaves its lock granted exactly as it held. A cancelled waiting lock
/// goes, and no other lock changes.
pub fn a_cancelled_conversion_holds_what_it_held()
    ensures conversion { (s : State) (d : Dequeue) (choice : Option LockState)
        (r after : Resource) (row : LockState) (lkid : ℕ) → CancelsItsRequest s d choice
        → s.resources ≡ r ∷ [] → changed s (Deq d) choice ≡ after ∷ [] → d.lock ≡ Id lkid
        → ConvertsAlone row r → row.lkid ≡ lkid → IsHeldAlone (record row { want = None }) after }
    ensures waiting { (s : State) (d : Dequeue) (choice : Option LockState) (r after : Resource)
        (row : LockState) (lkid : ℕ) → CancelsItsRequest s d choice → s.resources ≡ r ∷ []
        → changed s (Deq d) choice ≡ after ∷ [] → d.lock ≡ Id lkid → WaitsAlone row r
        → row.lkid ≡ lkid → IsVacant after }
    ensures other { (s : State) (d : Dequeue) (choice : Option LockState) (r after : Resource)
        (row : LockState) (lkid : ℕ) → CancelsItsRequest s d choice → s.resources ≡ r ∷ []
        → changed s (Deq d) choice ≡ after ∷ [] → d.lock ≡ Id lkid → ConvertsAlone row r
        → row.lkid ≢ lkid → ConvertsAlone row after }
    ensures how { (s : State) (d : Dequeue) (choice : Option LockState) (r : Resource)
        (row : LockState) (ending : Ending) → CancelsItsRequest s d choice
        → s.resources ≡ r ∷ [] → ConvertsAlone row r
        → Contains (step_change s (Deq d) choice).endings ending
        → ending.how ≡ by_cancel }
    ensures victim { (s : State) (node : ℕ) (victim : LockState) (r after : Resource)
        → EndsItsVictim s node victim.lkid (Some victim) → s.resources ≡ r ∷ []
        → changed s (Search node) (Some victim) ≡ after ∷ [] → ConvertsAlone victim r
        → IsHeldAlone (record victim { want = None }) after }
    ensures end_of_victim { (s : State) (node : ℕ) (victim : LockState) (ending : Ending)
        → EndsItsVictim s node victim.lkid (Some victim)
        → Contains (step_change s (Search node) (Some victim)).endings ending
        → (ending.lkid ≡ victim.lkid) × (ending.how ≡ by_deadlock) }
{}

/// No accepted request waits on a new resource, beside one granted lock that it fits beside, or expedited at NL. No
/// accepted conversion waits if its lock is the only one, or if it fits beside the other, converting, lock.
pub fn nothing_that_fits_waits()
    ensures first { (old : State) (e : NewRequest) (cond : Cond) (lkid : ℕ)
        → WhatFitsIsGrantedAtOnce old → (stepped old (Enq e) None).answer ≡ Lock cond lkid
        → old.resources ≡ [] → (stepped old (Enq e) None).endings ≡ [] → ⊥ }
    ensures expedited { (old : State) (e : NewRequest) (cond : Cond) (lkid : ℕ)
        → WhatFitsIsGrantedAtOnce old → (stepped old (Enq e) None).answer ≡ Lock cond lkid
        → has_flag e.flags expedite ≡ true → e.mode ≡ Nl
        → (stepped old (Enq e) None).endings ≡ [] → ⊥ }
    ensures beside { (old : State) (e : NewRequest) (cond : Cond) (lkid : ℕ) (r : Resource)
        (row : LockState) (held : Request) → WhatFitsIsGrantedAtOnce old
        → (stepped old (Enq e) None).answer ≡ Lock cond lkid → old.resources ≡ r ∷ []
        → IsHeldAlone row r → row.held ≡ Some held → is_compatible e.mode held.mode ≡ true
        → (stepped old (Enq e) None).endings ≡ [] → ⊥ }
    ensures only_lock { (old : State) (c : Conversion) (cond : Cond) (r : Resource)
        (row : LockState) → WhatFitsIsGrantedAtOnce old
        → (stepped old (Convert c) None).answer ≡ Lock cond row.lkid → old.resources ≡ r ∷ []
        → IsHeldAlone row r → (stepped old (Convert c) None).endings ≡ [] → ⊥ }
    ensures overtaking { (old : State) (c : Conversion) (cond : Cond) (r : Resource)
        (row other : LockState) (held : Request) → WhatFitsIsGrantedAtOnce old
        → (stepped old (Convert c) None).answer ≡ Lock cond row.lkid → old.resources ≡ r ∷ []
        → r.granted ≡ row ∷ [] → r.converting ≡ other ∷ [] → other.held ≡ Some held
        → is_compatible c.mode held.mode ≡ true → has_flag c.flags quecvt ≡ false
        → (stepped old (Convert c) None).endings ≡ [] → ⊥ }
{}

/// A search makes no two conversions that block each other where nobody was queued.
pub fn no_search_makes_a_deadlock()
    ensures { (old new : State) (a b : LockState) → NoneIsCaughtAnew old new
        → AreDeadlocked new a b
        → All (λ r. (r.converting ≡ []) × (r.waiting ≡ [])) old.resources → ⊥ }
{}

/// A disarmed lock whose granted request names a blocking routine was warned by that routine, with the request's
/// parameter. If no earlier step granted the request, the last step warned it.
pub fn no_disarmed_lock_is_unwarned()
    ensures ever { (history : History) (last : State) (run : Run history last) (r : Resource)
        (row : LockState) (held : Request) (routine : ℕ) → EachGrantIsArmedOrWarned run
        → Contains last.resources r → Contains (r.granted ++ r.converting) row
        → row.held ≡ Some held → held.blocking ≡ Some routine → row.armed ≡ false
        → All (λ q. q.ast.kind ≡ Blocking → q.pid ≡ row.pid → q.ast.lkid ≡ row.lkid
        → q.ast.routine ≡ routine → q.ast.param ≢ held.param) history.queued → ⊥ }
    ensures since { (history : History) (old new : State) (step : Step) (answer : Answer)
        (run : Run history old) (outcome : Outcome old step new answer) (r : Resource)
        (row : LockState) (held : Request) (routine : ℕ)
        → EachGrantIsArmedOrWarned (next run outcome)
        → Contains new.resources r → Contains (r.granted ++ r.converting) row
        → row.held ≡ Some held → held.blocking ≡ Some routine → row.armed ≡ false
        → All (λ ending. ending.lkid ≡ row.lkid → ending.request ≢ held) history.endings
        → All (λ q. q.ast.kind ≡ Blocking → q.ast.lkid ≢ row.lkid) (outcome_queued outcome)
        → ⊥ }
{}
