//! The names that a script has bound to processes.

ghost use Rattle.std.specs.Prelude.{◌≡◌, ◌<◌, [], ◌∷◌, ◌++◌, None, Some, is_some, MatchResult};
ghost use Rattle.indexmap.specs.IndexMap.{spare};
ghost use Rattle.vlm_script.specs.Scripts.{bound_to};
ghost use Rattle.vlm_script.specs.Bindings.{bindings_of};

use crate::stops::Stop;
use indexmap::IndexMap;
use vlm_core::HashKeys;
use vlm_lines::{LineFault, ProcessName};

/// The names of the script, each with its process, in the order of their declarations.
pub(crate) type Bindings = IndexMap<ProcessName, u32, HashKeys>;

pub(crate) fn process_of(names: &Bindings, name: &ProcessName) -> Result<u32, Stop>
    ensures { MatchResult result
        (λ pid. bound_to (bindings_of names.now) name.now ≡ Some pid)
        (λ stop. (bound_to (bindings_of names.now) name.now ≡ None)
        × (stop ≡ Stop.Fault LineFault.UnknownName)) }
{
    let bound = names.get(name).copied();
    bound.ok_or(Stop::Fault(LineFault::UnknownName))
}

pub(crate) fn is_bound(names: &Bindings, name: &ProcessName) -> bool
    ensures { result ≡ is_some (bound_to (bindings_of names.now) name.now) }
{
    names.contains_key(name)
}

/// Binds a new name. There is room for it.
pub(crate) fn bind_reserved(names: &mut Bindings, name: ProcessName, pid: u32)
    requires room { 0 < spare names.old }
    requires unbound { bound_to (bindings_of names.old) name ≡ None }
    ensures { bindings_of names.new
        ≡ bindings_of names.old ++ record { name = name; pid = pid } ∷ [] }
{
    let _ = names.insert(name, pid);
}
