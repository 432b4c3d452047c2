//! Laws of the records, in any state. Each law is a function that does nothing: its contract is the law.

ghost use Rattle.std.specs.Prelude.{◌≡◌, ℕ, Option, [], ◌∷◌, ◌++◌, map};
ghost use Rattle.vlm_words.specs.declared.locks.LockState.{LockState};
ghost use Rattle.vlm_words.specs.declared.resources.Queue.{Queue};
ghost use Rattle.vlm_words.specs.declared.resources.Site.{Site};
ghost use Rattle.vlm_words.specs.declared.steps.Declaration.{Declaration};
ghost use Rattle.vlm_records.specs.declared.handles.Place.{Place};
ghost use Rattle.vlm_store.specs.Records.{Records, HasProcess, HasResource, IsLock, IsSound, joined_by, new_stored_resource, new_stored_process, on_resource, process_with_lock, with_new_lock, without_process, without_resource, without_stored_lock};

/// A lock, resource or process that is added and removed again leaves the records as they were.
pub fn law_removal_undoes_an_addition()
    ensures lock { (s : Records) (at : ℕ) (row : LockState) (owner : ℕ) (parent : Option ℕ) (to : Place)
        → IsSound s → ¬ IsLock at s
        → without_stored_lock at (with_new_lock at row owner parent to s) ≡ s }
    ensures resource { (s : Records) (res serial : ℕ) (site : Site) → ¬ HasResource res s
        → record s {
          resources = without_resource res
              (s.resources ++ new_stored_resource res serial site ∷ []);
        } ≡ s }
    ensures process { (s : Records) (at pid : ℕ) (d : Declaration) → ¬ HasProcess at s
        → record s {
          processes = without_process at (s.processes ++ new_stored_process at pid d ∷ []);
        } ≡ s }
{}

/// A new lock joins one queue at its end, and no other queue changes.
pub fn law_a_new_lock_joins_one_queue()
    ensures { (s : Records) (at : ℕ) (row : LockState) (owner : ℕ) (parent : Option ℕ) (res : ℕ) (queue : Queue)
        → with_new_lock at row owner parent (Place.Queued res queue) s
        ≡ record s {
          resources = on_resource res (joined_by queue (record { at = at; row = row })) s.resources;
          processes = map (process_with_lock owner parent at) s.processes;
        } }
{}
