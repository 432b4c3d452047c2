//! What each law of `laws` excludes: from the law alone, a wrong state or step is impossible, or a right one follows. A
//! weaker definition of a law that lets one of these through fails to prove here. Each consequence is a function with
//! an empty body, and its contract says the consequence.

ghost use Rattle.std.specs.Prelude.{All, Contains, List, None, Option, Some, [], count_by, false, length, replicate, slice_index_or, suc, sum_by, true, ℕ, ◌++◌, ◌+◌, ◌-◌, ◌/◌, ◌<◌, ◌==◌, ◌∷◌, ◌≡◌, ◌≢◌, ◌⊎◌};
ghost use Rattle.vlm_words.specs.Conditions.{condition_number};
ghost use Rattle.vlm_words.specs.Flags.{flag_bits, has_flag, noqueue, syncsts, system, valblk, wide};
ghost use Rattle.vlm_words.specs.Modes.{is_compatible};
ghost use Rattle.vlm_words.specs.State.{Process, Resource, State, process_of};
ghost use Rattle.vlm_words.specs.declared.asts.Ast.{Ast};
ghost use Rattle.vlm_words.specs.declared.conditions.Cond.{Cond};
ghost use Rattle.vlm_words.specs.declared.conditions.Cond.TheVariants.{Abort, Badparam, Exenqlm, Nonexpr, Normal, Synch, Valnotvalid};
ghost use Rattle.vlm_words.specs.declared.locks.LockState.{LockState};
ghost use Rattle.vlm_words.specs.declared.locks.Request.{Request};
ghost use Rattle.vlm_words.specs.declared.modes.Act.{Act};
ghost use Rattle.vlm_words.specs.declared.modes.Act.TheVariants.{Return, Write};
ghost use Rattle.vlm_words.specs.declared.modes.Mode.TheVariants.{Ex, Nl, Pr, Pw};
ghost use Rattle.vlm_words.specs.declared.resources.Domain.TheVariants.{Group, System};
ghost use Rattle.vlm_words.specs.declared.steps.Answer.TheVariants.{Lock, Plain, Process as process_answer, Taken};
ghost use Rattle.vlm_words.specs.declared.steps.Conversion.{Conversion};
ghost use Rattle.vlm_words.specs.declared.steps.Declaration.{Declaration};
ghost use Rattle.vlm_words.specs.declared.steps.Dequeue.{Dequeue};
ghost use Rattle.vlm_words.specs.declared.steps.NewRequest.{NewRequest};
ghost use Rattle.vlm_words.specs.declared.steps.Step.{Step};
ghost use Rattle.vlm_words.specs.declared.steps.Step.TheVariants.{Convert, Declare, Deq, Enq, Leave, Rundown, SetValue, Take};
ghost use Rattle.vlm_words.specs.declared.steps.ValueSetting.{ValueSetting};
ghost use Rattle.vlm_words.specs.declared.steps.Which.TheVariants.{Id};
ghost use Rattle.vlm_model.specs.Asts.{Queued};
ghost use Rattle.vlm_model.specs.Cycles.{FindsWhoIsCaught};
ghost use Rattle.vlm_model.specs.Consequences.{AreDeadlocked, ConvertsAlone, IsHeldAlone, IsOfConversion, IsOfNewLock, WaitsAlone, changed};
ghost use Rattle.vlm_model.specs.Endings.{Ending};
ghost use Rattle.vlm_model.specs.Endings.How.{by_abort, by_deadlock, by_grant};
ghost use Rattle.vlm_model.specs.Granted.{NoGrantIsHidden};
ghost use Rattle.vlm_model.specs.Joining.{ChangesKeepOrder};
ghost use Rattle.vlm_model.specs.Laws.{KeysAreApart, NoResourceIsVacant, NothingIsLeftToWarn, QuotasAreKept, TreesAreBounded, WritesAreGrantedAtOnce};
ghost use Rattle.vlm_model.specs.Numbers.{NumbersAreGivenOnce};
ghost use Rattle.vlm_model.specs.Queued.{NoqueueIsKept};
ghost use Rattle.vlm_model.specs.Reasons.{RefusalHasItsReason};
ghost use Rattle.vlm_model.specs.Returned.{GrantsReturnValues};
ghost use Rattle.vlm_model.specs.Runs.{next};
ghost use Rattle.vlm_model.specs.Standing.{ConvertedLocksStandAsAskedFor, NewLocksStandAsAskedFor};
ghost use Rattle.vlm_model.specs.Stepped.{Stepped, stepped};
ghost use Rattle.vlm_model.specs.Taking.{AstsAreTakenInOrder};
ghost use Rattle.vlm_model.specs.Writers.{OnlyWritersChangeValues};
ghost use Rattle.vlm_model.specs.Written.{WritesNamedBlocks, blank_block};

/// Two roots of one domain have different names, and so have two sub-resources of one parent.
pub fn a_name_is_given_once_in_its_place()
    ensures roots { (s : State) (i j : ℕ) (d a b : Resource) → KeysAreApart s → i < j
        → j < length s.resources → slice_index_or s.resources i d ≡ a
        → slice_index_or s.resources j d ≡ b → a.parent ≡ 0 → b.parent ≡ 0
        → a.domain ≡ b.domain → a.name ≡ b.name → ⊥ }
    ensures sub_resources { (s : State) (i j : ℕ) (d a b : Resource) → KeysAreApart s → i < j
        → j < length s.resources → slice_index_or s.resources i d ≡ a
        → slice_index_or s.resources j d ≡ b → a.parent ≢ 0
        → a.parent ≡ b.parent → a.name ≡ b.name → ⊥ }
{}

/// No converting or waiting lock wants a request with NOQUEUE.
pub fn no_queued_lock_wants_noqueue()
    ensures { (s : State) (r : Resource) (row : LockState) (request : Request)
        → NoqueueIsKept s → Contains s.resources r → Contains (r.converting ++ r.waiting) row
        → row.want ≡ Some request → has_flag (flag_bits request.flags) noqueue ≡ true → ⊥ }
{}

/// No resource has three empty queues.
pub fn no_resource_has_three_empty_queues()
    ensures { (s : State) (r : Resource) → NoResourceIsVacant s → Contains s.resources r
        → r.granted ≡ [] → r.converting ≡ [] → r.waiting ≡ [] → ⊥ }
{}

/// No armed granted lock holds a mode that is incompatible with what a converting or a waiting lock wants.
pub fn no_armed_lock_keeps_out_a_queued_request()
    ensures { (s : State) (r : Resource) (row other : LockState) (held want : Request)
        → NothingIsLeftToWarn s → Contains s.resources r → Contains r.granted row
        → row.armed ≡ true → row.held ≡ Some held → Contains (r.converting ++ r.waiting) other
        → other.want ≡ Some want → is_compatible want.mode held.mode ≡ false → ⊥ }
{}

/// A lock holds no request that no ending granted to it.
pub fn a_lock_without_a_grant_holds_nothing()
    ensures { (endings : List Ending) (s : State) (r : Resource) (row : LockState) (held : Request)
        → NoGrantIsHidden endings s → Contains s.resources r
        → Contains (r.granted ++ r.converting ++ r.waiting) row → row.held ≡ Some held
        → All (λ ending. ending.lkid ≡ row.lkid → ending.pid ≡ row.pid → ending.request ≡ held
        → (act : Act) → ending.how ≢ by_grant act) endings → ⊥ }
{}

/// No process has a lock above its quota, waiting ones included. A process that does not live has no lock.
pub fn a_process_has_no_lock_above_its_quota()
    ensures living { (s : State) (pid : ℕ) (p : Process) → QuotasAreKept s
        → process_of s.processes pid ≡ Some p
        → p.quota < sum_by (λ r. count_by (λ row. row.pid == pid)
        (r.granted ++ r.converting ++ r.waiting)) s.resources → ⊥ }
    ensures without_quota { (s : State) (r : Resource) (row : LockState) (p : Process)
        → QuotasAreKept s → Contains s.resources r
        → Contains (r.granted ++ r.converting ++ r.waiting) row
        → process_of s.processes row.pid ≡ Some p → p.quota ≡ 0 → ⊥ }
    ensures ended { (s : State) (r : Resource) (row : LockState)
        → QuotasAreKept s → Contains s.resources r
        → Contains (r.granted ++ r.converting ++ r.waiting) row
        → process_of s.processes row.pid ≡ None → ⊥ }
{}

/// No resource is on level 16, no root below level 0, and no sub-resource without a parent resource that is one level
/// above it, in its domain.
pub fn a_resource_is_one_level_below_its_parent()
    ensures lowest { (s : State) (r : Resource) → TreesAreBounded s → Contains s.resources r
        → 15 < r.level → ⊥ }
    ensures roots { (s : State) (r : Resource) → TreesAreBounded s → Contains s.resources r
        → r.parent ≡ 0 → 0 < r.level → All (λ up. 0 < up.serial) s.resources → ⊥ }
    ensures sub_resources { (s : State) (r : Resource) → TreesAreBounded s
        → Contains s.resources r → 0 < r.parent
        → All (λ up. up.serial ≡ r.parent → up.domain ≡ r.domain → r.level ≡ up.level + 1 → ⊥)
        s.resources → ⊥ }
{}

/// No accepted conversion from PW to NL, or from EX to EX, is queued.
pub fn no_writing_conversion_is_queued()
    ensures { (old : State) (c : Conversion) (cond : Cond) (lkid : ℕ) (r : Resource)
        (row : LockState) (held : Request) → WritesAreGrantedAtOnce old
        → (stepped old (Convert c) None).answer ≡ Lock cond lkid → Contains old.resources r
        → Contains r.granted row → row.lkid ≡ lkid → row.held ≡ Some held
        → ((held.mode ≡ Pw) × (c.mode ≡ Nl)) ⊎ ((held.mode ≡ Ex) × (c.mode ≡ Ex))
        → All (λ ending. ending.request.number ≡ old.next_request → ending.at_once ≡ false)
        (stepped old (Convert c) None).endings → ⊥ }
{}

/// An accepted request takes the next ID and the next request number. An accepted conversion takes only the
/// request number; a refused request and a dequeue take neither. A serial is taken exactly if a resource has it.
pub fn no_number_is_given_twice_or_skipped()
    ensures new_lock { (old : State) (e : NewRequest) (choice : Option LockState) (cond : Cond)
        (lkid : ℕ) → NumbersAreGivenOnce old (Enq e) choice
        → (stepped old (Enq e) choice).answer ≡ Lock cond lkid → (lkid ≡ old.next_lkid)
        × ((stepped old (Enq e) choice).state.next_lkid ≡ old.next_lkid + 1)
        × ((stepped old (Enq e) choice).state.next_request ≡ old.next_request + 1) }
    ensures no_lock { (old : State) (e : NewRequest) (choice : Option LockState) (cond : Cond)
        (lkid : ℕ) → NumbersAreGivenOnce old (Enq e) choice
        → (stepped old (Enq e) choice).answer ≡ Lock cond lkid
        → (stepped old (Enq e) choice).state.resources ≡ [] → ⊥ }
    ensures conversion { (old : State) (c : Conversion) (choice : Option LockState) (cond : Cond)
        (lkid named : ℕ) → NumbersAreGivenOnce old (Convert c) choice
        → (stepped old (Convert c) choice).answer ≡ Lock cond lkid → c.lock ≡ Id named
        → (lkid ≡ named) × ((stepped old (Convert c) choice).state.next_lkid ≡ old.next_lkid)
        × ((stepped old (Convert c) choice).state.next_request ≡ old.next_request + 1) }
    ensures refused { (old : State) (e : NewRequest) (choice : Option LockState) (cond : Cond)
        → NumbersAreGivenOnce old (Enq e) choice
        → (stepped old (Enq e) choice).answer ≡ Plain cond
        → ((stepped old (Enq e) choice).state.next_lkid ≡ old.next_lkid)
        × ((stepped old (Enq e) choice).state.next_request ≡ old.next_request) }
    ensures dequeue { (old : State) (d : Dequeue) (choice : Option LockState)
        → NumbersAreGivenOnce old (Deq d) choice
        → ((stepped old (Deq d) choice).state.next_lkid ≡ old.next_lkid)
        × ((stepped old (Deq d) choice).state.next_request ≡ old.next_request) }
    ensures serial_taken { (old : State) (step : Step) (choice : Option LockState) (r : Resource)
        → NumbersAreGivenOnce old step choice
        → Contains (stepped old step choice).state.resources r → r.serial ≡ old.next_serial
        → (stepped old step choice).state.next_serial ≡ old.next_serial + 1 }
    ensures serial_skipped { (old : State) (step : Step) (choice : Option LockState)
        → NumbersAreGivenOnce old step choice
        → All (λ r. r.serial ≢ old.next_serial) (stepped old step choice).state.resources
        → (stepped old step choice).state.next_serial ≡ old.next_serial }
{}

/// A Take answers the oldest AST of its process, leaves the others in order, and takes none of another process. New
/// ASTs join at the end, in order.
pub fn no_ast_overtakes_another()
    ensures oldest { (old : State) (pid : ℕ) (choice : Option LockState) (before after : Process)
        (ast oldest : Ast) (rest : List Ast) → AstsAreTakenInOrder old (Take pid) choice
        → process_of old.processes pid ≡ Some before
        → process_of (stepped old (Take pid) choice).state.processes pid ≡ Some after
        → (stepped old (Take pid) choice).answer ≡ Taken (Some ast)
        → (stepped old (Take pid) choice).queued ≡ [] → before.asts ≡ oldest ∷ rest
        → (ast ≡ oldest) × (after.asts ≡ rest) }
    ensures forgotten { (old : State) (pid : ℕ) (choice : Option LockState)
        (before after : Process) (oldest : Ast) (rest : List Ast)
        → AstsAreTakenInOrder old (Take pid) choice
        → process_of old.processes pid ≡ Some before
        → process_of (stepped old (Take pid) choice).state.processes pid ≡ Some after
        → (stepped old (Take pid) choice).answer ≡ Taken None
        → before.asts ≡ oldest ∷ rest → ⊥ }
    ensures anothers { (old : State) (pid other : ℕ) (choice : Option LockState)
        (before after : Process) (ast : Option Ast) → AstsAreTakenInOrder old (Take other) choice
        → other ≢ pid → process_of old.processes pid ≡ Some before
        → process_of (stepped old (Take other) choice).state.processes pid ≡ Some after
        → (stepped old (Take other) choice).answer ≡ Taken ast
        → (stepped old (Take other) choice).queued ≡ [] → after.asts ≡ before.asts }
    ensures behind { (old : State) (d : Dequeue) (choice : Option LockState)
        (before after : Process) (q later : Queued) → AstsAreTakenInOrder old (Deq d) choice
        → process_of old.processes q.pid ≡ Some before
        → process_of (stepped old (Deq d) choice).state.processes q.pid ≡ Some after
        → (stepped old (Deq d) choice).queued ≡ q ∷ later ∷ [] → q.pid ≡ later.pid
        → after.asts ≡ before.asts ++ q.ast ∷ later.ast ∷ [] }
{}

/// A step does not reverse two waiting locks, put its own lock before another, or take a lock that is not its own. It
/// makes no resource for a lock that is not its own, and no two resources.
pub fn no_lock_of_a_queue_overtakes_another()
    ensures reversed { (old : State) (e : NewRequest) (choice : Option LockState)
        (r after : Resource) (row later : LockState) → ChangesKeepOrder old (Enq e) choice
        → old.resources ≡ r ∷ [] → changed old (Enq e) choice ≡ after ∷ []
        → r.waiting ≡ row ∷ later ∷ [] → row.lkid ≢ old.next_lkid → later.lkid ≢ old.next_lkid
        → after.waiting ≡ later ∷ row ∷ [] → row ≡ later }
    ensures ahead { (old : State) (e : NewRequest) (choice : Option LockState) (r after : Resource)
        (row new : LockState) → ChangesKeepOrder old (Enq e) choice → old.resources ≡ r ∷ []
        → changed old (Enq e) choice ≡ after ∷ [] → r.waiting ≡ row ∷ []
        → row.lkid ≢ old.next_lkid → after.waiting ≡ new ∷ row ∷ [] → new ≡ row }
    ensures gone { (old : State) (pid : ℕ) (choice : Option LockState) (r after : Resource)
        (row : LockState) → ChangesKeepOrder old (Take pid) choice → old.resources ≡ r ∷ []
        → changed old (Take pid) choice ≡ after ∷ [] → r.converting ≡ row ∷ []
        → after.converting ≡ row ∷ [] }
    ensures moved { (old : State) (pid : ℕ) (choice : Option LockState) (r after : Resource)
        → ChangesKeepOrder old (Take pid) choice → old.resources ≡ r ∷ []
        → changed old (Take pid) choice ≡ after ∷ [] → r.name ≢ after.name → ⊥ }
    ensures made { (old : State) (pid : ℕ) (choice : Option LockState) (r : Resource)
        (row : LockState) → ChangesKeepOrder old (Take pid) choice → old.resources ≡ []
        → changed old (Take pid) choice ≡ r ∷ [] → r.granted ≡ row ∷ [] → ⊥ }
    ensures two { (old : State) (step : Step) (choice : Option LockState) (r more : Resource)
        → ChangesKeepOrder old step choice → old.resources ≡ []
        → changed old step choice ≡ r ∷ more ∷ [] → ⊥ }
{}

/// A grant without VALBLK does nothing with the value block, and one from EX to NL does not return it. A returned value
/// and tail are those of the lock's resource, and an invalid value is answered VALNOTVALID.
pub fn no_grant_returns_another_value()
    ensures unasked { (old : State) (step : Step) (choice : Option LockState) (ending : Ending)
        → GrantsReturnValues old step choice → Contains (stepped old step choice).endings ending
        → has_flag (flag_bits ending.request.flags) valblk ≡ false
        → (ending.how ≡ by_grant Return) ⊎ (ending.how ≡ by_grant Write) → ⊥ }
    ensures writer { (old : State) (step : Step) (choice : Option LockState) (ending : Ending)
        (r : Resource) (row : LockState) (held : Request) → GrantsReturnValues old step choice
        → Contains (stepped old step choice).endings ending → old.resources ≡ r ∷ []
        → ConvertsAlone row r → row.lkid ≡ ending.lkid → row.lkid ≢ old.next_lkid
        → row.held ≡ Some held → held.mode ≡ Ex → ending.request.mode ≡ Nl
        → ending.how ≡ by_grant Return → ⊥ }
    ensures value { (old : State) (step : Step) (choice : Option LockState) (ending : Ending)
        (k : ℕ) (p : Process) (r : Resource) → GrantsReturnValues old step choice
        → (stepped old step choice).endings ≡ ending ∷ [] → ending.how ≡ by_grant Return
        → ending.request.block ≡ k + 1
        → process_of (stepped old step choice).state.processes ending.pid ≡ Some p
        → k < length p.blocks → (stepped old step choice).state.resources ≡ r ∷ []
        → (slice_index_or p.blocks k blank_block).value ≡ r.value_block.value }
    ensures tail { (old : State) (step : Step) (choice : Option LockState) (ending : Ending)
        (k : ℕ) (p : Process) (r : Resource) → GrantsReturnValues old step choice
        → (stepped old step choice).endings ≡ ending ∷ [] → ending.how ≡ by_grant Return
        → ending.request.block ≡ k + 1 → has_flag (flag_bits ending.request.flags) wide ≡ true
        → process_of (stepped old step choice).state.processes ending.pid ≡ Some p
        → k < length p.blocks → (stepped old step choice).state.resources ≡ r ∷ []
        → (slice_index_or p.blocks k blank_block).tail ≡ r.value_block.tail }
    ensures mark { (old : State) (step : Step) (choice : Option LockState) (ending : Ending)
        (k : ℕ) (p : Process) (r : Resource) → GrantsReturnValues old step choice
        → (stepped old step choice).endings ≡ ending ∷ [] → ending.how ≡ by_grant Return
        → ending.request.block ≡ k + 1
        → process_of (stepped old step choice).state.processes ending.pid ≡ Some p
        → k < length p.blocks → (stepped old step choice).state.resources ≡ r ∷ []
        → r.value_block.valid ≡ false → (slice_index_or p.blocks k blank_block).status
        ≡ condition_number Valnotvalid }
{}

/// The lock of an accepted request is the caller's, at the place asked for, with the whole request. A converting lock
/// stays on its resource and keeps what it holds.
pub fn a_lock_stands_nowhere_else()
    ensures granted { (old : State) (e : NewRequest) (cond : Cond) (lkid : ℕ) (r : Resource)
        (row : LockState) → NewLocksStandAsAskedFor old
        → (stepped old (Enq e) None).answer ≡ Lock cond lkid
        → (stepped old (Enq e) None).state.resources ≡ r ∷ [] → IsHeldAlone row r
        → (r.name ≡ e.name) × (row.lkid ≡ lkid) × (row.pid ≡ e.pid)
        × IsOfNewLock old.next_request e row.held }
    ensures root { (old : State) (e : NewRequest) (cond : Cond) (lkid : ℕ) (r : Resource)
        → NewLocksStandAsAskedFor old → (stepped old (Enq e) None).answer ≡ Lock cond lkid
        → (stepped old (Enq e) None).state.resources ≡ r ∷ [] → e.parent ≡ Id 0
        → has_flag e.flags system ≡ true → (r.parent ≡ 0) × (r.domain ≡ System) }
    ensures group { (old : State) (e : NewRequest) (cond : Cond) (lkid : ℕ) (r : Resource)
        (caller : Process) → NewLocksStandAsAskedFor old
        → (stepped old (Enq e) None).answer ≡ Lock cond lkid
        → (stepped old (Enq e) None).state.resources ≡ r ∷ [] → e.parent ≡ Id 0
        → has_flag e.flags system ≡ false → process_of old.processes e.pid ≡ Some caller
        → (r.parent ≡ 0) × (r.domain ≡ Group caller.group) }
    ensures sub_resource { (old : State) (e : NewRequest) (cond : Cond) (lkid parent : ℕ)
        (r up : Resource) (row : LockState) → NewLocksStandAsAskedFor old
        → (stepped old (Enq e) None).answer ≡ Lock cond lkid
        → (stepped old (Enq e) None).state.resources ≡ r ∷ [] → e.parent ≡ Id (suc parent)
        → old.resources ≡ up ∷ [] → WaitsAlone row r
        → (r.parent ≡ up.serial) × (row.parent ≡ suc parent) }
    ensures converted { (old : State) (c : Conversion) (cond : Cond) (lkid : ℕ)
        (before r : Resource) (was row : LockState) → ConvertedLocksStandAsAskedFor old
        → (stepped old (Convert c) None).answer ≡ Lock cond lkid → old.resources ≡ before ∷ []
        → IsHeldAlone was before → (stepped old (Convert c) None).state.resources ≡ r ∷ []
        → ConvertsAlone row r → (r.serial ≡ before.serial) × (was.lkid ≡ lkid)
        × (was.pid ≡ c.pid) × (row.lkid ≡ lkid) × (row.held ≡ was.held)
        × IsOfConversion old.next_request c row.want }
{}

/// A refusal changes nothing. EXENQLM is not answered below the quota, nor BADPARAM to a rundown. No dequeue is
/// accepted without a living caller, and no request is answered SYNCH without SYNCSTS.
pub fn no_step_is_refused_or_accepted_without_a_reason()
    ensures changes { (old : State) (step : Step) (choice : Option LockState)
        → RefusalHasItsReason old step choice
        → (stepped old step choice).answer ≡ Plain Nonexpr
        → ((stepped old step choice).state ≡ old) × ((stepped old step choice).endings ≡ []) }
    ensures quota { (old : State) (e : NewRequest) (choice : Option LockState) (p : Process)
        → RefusalHasItsReason old (Enq e) choice
        → (stepped old (Enq e) choice).answer ≡ Plain Exenqlm
        → process_of old.processes e.pid ≡ Some p
        → sum_by (λ r. count_by (λ row. row.pid == e.pid)
        (r.granted ++ r.converting ++ r.waiting)) old.resources < p.quota → ⊥ }
    ensures unknown { (old : State) (pid : ℕ) (choice : Option LockState)
        → RefusalHasItsReason old (Rundown pid) choice
        → (stepped old (Rundown pid) choice).answer ≡ Plain Badparam → ⊥ }
    ensures nobody { (old : State) (d : Dequeue) (choice : Option LockState)
        → RefusalHasItsReason old (Deq d) choice → old.processes ≡ []
        → (stepped old (Deq d) choice).answer ≡ Plain Normal → ⊥ }
    ensures synch { (old : State) (e : NewRequest) (choice : Option LockState) (lkid : ℕ)
        → RefusalHasItsReason old (Enq e) choice
        → (stepped old (Enq e) choice).answer ≡ Lock Synch lkid
        → has_flag e.flags syncsts ≡ false → ⊥ }
{}

/// A search does not miss two conversions that block each other, and ends no earlier request than theirs. It ends no
/// request where nobody is queued, and changes nothing if it answers no lock.
pub fn no_search_misses_a_deadlock_or_makes_one_up()
    ensures missed { (s : State) (made : Stepped) (a b : LockState)
        → FindsWhoIsCaught s made None → AreDeadlocked s a b → ⊥ }
    ensures made_up { (s : State) (made : Stepped) (lkid : ℕ)
        → FindsWhoIsCaught s made (Some lkid)
        → All (λ r. (r.converting ≡ []) × (r.waiting ≡ [])) s.resources → ⊥ }
    ensures earlier { (s : State) (made : Stepped) (lkid : ℕ) (a b : LockState) (want : Request)
        (ending : Ending) → FindsWhoIsCaught s made (Some lkid) → AreDeadlocked s a b
        → a.want ≡ Some want → made.endings ≡ ending ∷ []
        → ending.request.number < want.number → ⊥ }
    ensures unended { (s : State) (made : Stepped) (lkid : ℕ)
        → FindsWhoIsCaught s made (Some lkid)
        → All (λ ending. ending.lkid ≡ lkid → ending.how ≢ by_deadlock) made.endings → ⊥ }
    ensures changes { (s : State) (made : Stepped) → FindsWhoIsCaught s made None
        → (made.state ≡ s) × (made.endings ≡ []) × (made.queued ≡ []) }
{}

/// A step writes no status block of another process, and none that it does not name and whose request does not end. An
/// accepted request makes its block pending, and the last of two ends gives the status. Processes come and go only by
/// declarations, rundowns and departures.
pub fn no_other_status_block_is_written()
    ensures anothers { (old : State) (e : NewRequest) (choice : Option LockState) (pid k : ℕ)
        (before after : Process) → WritesNamedBlocks old (Enq e) choice → e.pid ≢ pid
        → (stepped old (Enq e) choice).endings ≡ [] → process_of old.processes pid ≡ Some before
        → process_of (stepped old (Enq e) choice).state.processes pid ≡ Some after
        → k < length before.blocks
        → slice_index_or after.blocks k blank_block ≡ slice_index_or before.blocks k blank_block }
    ensures unnamed { (old : State) (d : Dequeue) (choice : Option LockState) (pid k : ℕ)
        (before after : Process) → WritesNamedBlocks old (Deq d) choice
        → (stepped old (Deq d) choice).endings ≡ [] → process_of old.processes pid ≡ Some before
        → process_of (stepped old (Deq d) choice).state.processes pid ≡ Some after
        → k < length before.blocks
        → slice_index_or after.blocks k blank_block ≡ slice_index_or before.blocks k blank_block }
    ensures pending { (old : State) (e : NewRequest) (choice : Option LockState) (k lkid : ℕ)
        (cond : Cond) (before after : Process) → WritesNamedBlocks old (Enq e) choice
        → e.block ≡ k + 1 → (stepped old (Enq e) choice).answer ≡ Lock cond lkid
        → (stepped old (Enq e) choice).endings ≡ []
        → process_of old.processes e.pid ≡ Some before
        → process_of (stepped old (Enq e) choice).state.processes e.pid ≡ Some after
        → k < length before.blocks
        → ((slice_index_or after.blocks k blank_block).status ≡ 0)
        × ((slice_index_or after.blocks k blank_block).lkid ≡ lkid) }
    ensures last_end { (old : State) (step : Step) (choice : Option LockState) (k : ℕ)
        (granted ending : Ending) (before after : Process) → WritesNamedBlocks old step choice
        → (stepped old step choice).endings ≡ granted ∷ ending ∷ []
        → ending.how ≡ by_abort → ending.request.block ≡ k + 1
        → process_of old.processes ending.pid ≡ Some before
        → process_of (stepped old step choice).state.processes ending.pid ≡ Some after
        → k < length before.blocks
        → (slice_index_or after.blocks k blank_block).status ≡ condition_number Abort }
    ensures ended { (old : State) (e : NewRequest) (choice : Option LockState) (p : Process)
        → WritesNamedBlocks old (Enq e) choice → old.processes ≡ p ∷ []
        → (stepped old (Enq e) choice).state.processes ≡ [] → ⊥ }
    ensures set { (old : State) (v : ValueSetting) (choice : Option LockState) (k : ℕ)
        (before after : Process) → WritesNamedBlocks old (SetValue v) choice → v.block ≡ k + 1
        → (stepped old (SetValue v) choice).answer ≡ Plain Normal
        → (stepped old (SetValue v) choice).endings ≡ []
        → process_of old.processes v.pid ≡ Some before
        → process_of (stepped old (SetValue v) choice).state.processes v.pid ≡ Some after
        → k < length before.blocks
        → (slice_index_or after.blocks k blank_block).value ≡ v.value }
    ensures new_process { (old : State) (d : Declaration) (choice : Option LockState) (pid : ℕ)
        (p : Process) → WritesNamedBlocks old (Declare d) choice
        → (stepped old (Declare d) choice).answer ≡ process_answer pid → old.processes ≡ []
        → (stepped old (Declare d) choice).state.processes ≡ p ∷ [] → (p.pid ≡ pid)
        × (p.group ≡ d.group) × (p.syslck ≡ d.syslck) × (p.quota ≡ d.quota) × (p.asts ≡ []) }
    ensures departed { (old : State) (node : ℕ) (choice : Option LockState) (p after : Process)
        → WritesNamedBlocks old (Leave node) choice → old.processes ≡ p ∷ []
        → p.pid / 65536 ≡ node → (stepped old (Leave node) choice).answer ≡ Plain Normal
        → (stepped old (Leave node) choice).state.processes ≡ after ∷ [] → ⊥ }
    ensures alive { (old : State) (choice : Option LockState) (p after : Process)
        → WritesNamedBlocks old (Rundown p.pid) choice → old.processes ≡ p ∷ []
        → (stepped old (Rundown p.pid) choice).answer ≡ Plain Normal
        → (stepped old (Rundown p.pid) choice).state.processes ≡ after ∷ [] → ⊥ }
{}

/// No request, no conversion from PR or without VALBLK, and no end of a lock at PR changes a value block. A conversion
/// from EX with VALBLK writes it, and the end of a process that holds EX makes it invalid. A new value block is zeros,
/// all valid.
pub fn no_reader_changes_a_value_block()
    ensures request { (old : State) (e : NewRequest) (choice : Option LockState)
        (r after : Resource) → OnlyWritersChangeValues old (Enq e) choice
        → old.resources ≡ r ∷ [] → Contains (stepped old (Enq e) choice).state.resources after
        → after.serial ≡ r.serial → after.value_block ≡ r.value_block }
    ensures reader { (old : State) (c : Conversion) (choice : Option LockState)
        (r after : Resource) (row : LockState) (held : Request)
        → OnlyWritersChangeValues old (Convert c) choice → old.resources ≡ r ∷ []
        → IsHeldAlone row r → row.held ≡ Some held → held.mode ≡ Pr
        → Contains (stepped old (Convert c) choice).state.resources after
        → after.serial ≡ r.serial → after.value_block ≡ r.value_block }
    ensures without_valblk { (old : State) (c : Conversion) (choice : Option LockState)
        (r after : Resource) → OnlyWritersChangeValues old (Convert c) choice
        → old.resources ≡ r ∷ [] → has_flag c.flags valblk ≡ false
        → Contains (stepped old (Convert c) choice).state.resources after
        → after.serial ≡ r.serial → after.value_block ≡ r.value_block }
    ensures end_of_reader { (old : State) (pid : ℕ) (choice : Option LockState)
        (r after : Resource) (row : LockState) (held : Request)
        → OnlyWritersChangeValues old (Rundown pid) choice → old.resources ≡ r ∷ []
        → IsHeldAlone row r → row.held ≡ Some held → held.mode ≡ Pr
        → Contains (stepped old (Rundown pid) choice).state.resources after
        → after.serial ≡ r.serial → after.value_block ≡ r.value_block }
    ensures end_of_writer { (old : State) (choice : Option LockState) (r after : Resource)
        (row : LockState) (held : Request) → OnlyWritersChangeValues old (Rundown row.pid) choice
        → old.resources ≡ r ∷ [] → IsHeldAlone row r → row.held ≡ Some held → held.mode ≡ Ex
        → Contains (stepped old (Rundown row.pid) choice).state.resources after
        → after.serial ≡ r.serial → (after.value_block.valid ≡ false)
        × (after.value_block.value ≡ r.value_block.value) }
    ensures writer { (old : State) (c : Conversion) (choice : Option LockState)
        (r after : Resource) (row : LockState) (held : Request) (p : Process)
        → OnlyWritersChangeValues old (Convert c) choice → old.resources ≡ r ∷ []
        → IsHeldAlone row r → row.held ≡ Some held → held.mode ≡ Ex → c.lock ≡ Id row.lkid
        → has_flag c.flags valblk ≡ true → process_of old.processes c.pid ≡ Some p
        → Contains (stepped old (Convert c) choice).state.resources after
        → after.serial ≡ r.serial → (after.value_block.valid ≡ true)
        × (after.value_block.value
        ≡ (slice_index_or p.blocks (c.block - 1) blank_block).value) }
    ensures short_write { (old : State) (c : Conversion) (choice : Option LockState)
        (r after : Resource) (row : LockState) (held : Request) (p : Process)
        → OnlyWritersChangeValues old (Convert c) choice → old.resources ≡ r ∷ []
        → IsHeldAlone row r → row.held ≡ Some held → held.mode ≡ Ex → c.lock ≡ Id row.lkid
        → has_flag c.flags valblk ≡ true → has_flag c.flags wide ≡ false
        → process_of old.processes c.pid ≡ Some p
        → Contains (stepped old (Convert c) choice).state.resources after
        → after.serial ≡ r.serial → (after.value_block.tail_valid ≡ false)
        × (after.value_block.tail ≡ r.value_block.tail) }
    ensures new { (old : State) (step : Step) (choice : Option LockState) (after : Resource)
        → OnlyWritersChangeValues old step choice → old.resources ≡ []
        → Contains (stepped old step choice).state.resources after
        → (after.value_block.value ≡ replicate 16 0) × (after.value_block.valid ≡ true)
        × (after.value_block.tail ≡ replicate 48 0) × (after.value_block.tail_valid ≡ true) }
{}
