//! The parent of a new request, and the site of its resource in the tree.

ghost use Rattle.std.specs.Prelude.{◌≡◌, Some, true, IfOk};
ghost use Rattle.std.specs.Option.{option_map};
ghost use Rattle.std.specs.Result.{result_err};
ghost use Rattle.vlm_words.specs.declared.resources.Site.{Site};
ghost use Rattle.vlm_model.specs.Checks.{or_else};
ghost use Rattle.vlm_words.specs.Flags.{flag_bits};
ghost use Rattle.vlm_words.specs.Names.{is_name};
ghost use Rattle.vlm_words.specs.Resources.{IsKeyed};
ghost use Rattle.vlm_model.specs.Trees.{depth_refusal, parent_refusal, parent_resource, privilege_refusal, root_domain, site_below, waiting_refusal};
ghost use Rattle.vlm_store.specs.Plain.{plain_resource};
ghost use Rattle.vlm_store.specs.Records.{HasResource, StoredResource, resource_at};
ghost use Rattle.vlm_locks.specs.Standing.{IsLocated};
ghost use Rattle.vlm_machine.specs.Admissions.{IsCaller};
ghost use Rattle.vlm_machine.specs.Between.{IsBetweenSteps};
ghost use Rattle.vlm_machine.specs.Machine.{plain_state};
ghost use Rattle.vlm_machine.specs.Parents.{IsParent};

use crate::new_requests::RequestForm;
use crate::processes::Caller;
use crate::records::Machine;
use vlm_locks::LocatedLock;
use vlm_procs::{group_of, has_syslck};
use vlm_store::{LockAt, ResAt};
use vlm_words::conditions::Cond;
use vlm_words::flags::EnqFlags;
use vlm_words::names::NameArg;
use vlm_words::resources::{Domain, Key, Queue, Site};

// The lowest level of a resource.
const LAST_LEVEL: u8 = 15;

/// The parent lock of a new request.
#[derive(Clone, Copy)]
pub(crate) struct Parent {
    lock: LockAt,
    res: ResAt,
}

pub(crate) fn lock_of(parent: &Option<Parent>) -> Option<LockAt>
    ensures { result ≡ option_map (λ up. up.lock) parent.now }
{
    parent.map(|parent| parent.lock)
}

impl Machine {
    /// The parent lock of a request, with its handle and its resource's; none for 0. IVLOCKID if the lock is not one of
    /// the caller, PARNOTGRANT if it waits, EXDEPTH if its resource is on the lowest level.
    #[tactic(auto, unfolding(vlm_model::specs::Trees::parent_refusal))]
    #[inline(always)]
    pub(crate) fn checked_parent(&self, caller: &Caller, lkid: u32) -> Result<Option<Parent>, Cond>
        ensures refusal { result_err result
            ≡ parent_refusal (plain_state self.now) caller.now.pid lkid }
        ensures parent { IfOk result
            (λ parent. IsParent caller.now.pid lkid parent self.now.records) }
    {
        if lkid == 0 {
            return Ok(None);
        }
        let lock = self.checked_lock(caller, lkid)?;
        let located = self.located(lock);
        self.check_parent(&located)?;
        Ok(Some(Parent {
            lock,
            res: located.res,
        }))
    }

    // PARNOTGRANT if a parent waits, EXDEPTH if its resource is on the lowest level.
    fn check_parent(&self, parent: &LocatedLock) -> Result<(), Cond>
        requires { IsLocated parent.now self.now.records }
        ensures refusal { (r : StoredResource)
            → resource_at parent.now.res self.now.records.resources ≡ Some r
            → result_err result ≡ or_else
            (waiting_refusal parent.now.row.pid parent.now.row.lkid (Some (plain_resource r)))
            (depth_refusal (Some (plain_resource r))) }
    {
        match parent.queue {
            Queue::Waiting => Err(Cond::Parnotgrant),
            Queue::Granted | Queue::Conversion => self.check_depth(parent.res),
        }
    }

    // EXDEPTH if a resource is on the lowest level.
    fn check_depth(&self, res: ResAt) -> Result<(), Cond>
        requires { HasResource res self.now.records }
        ensures { (r : StoredResource) → resource_at res self.now.records.resources ≡ Some r
            → result_err result ≡ depth_refusal (Some (plain_resource r)) }
    {
        if self.store.resource_record(res).level < LAST_LEVEL {
            Ok(())
        } else {
            Err(Cond::Exdepth)
        }
    }

    /// NOSYSLCK for a root with SYSTEM without the privilege.
    #[tactic(auto, unfolding(vlm_model::specs::Trees::privilege_refusal))]
    pub(crate) fn check_privilege(
        &self,
        caller: &Caller,
        flags: EnqFlags,
        parent: u32,
    ) -> Result<(), Cond>
        requires { IsCaller caller.now self.now.records }
        ensures { result_err result
            ≡ privilege_refusal (plain_state self.now) caller.now.pid (flag_bits flags) parent }
    {
        if parent == 0 && flags.has(EnqFlags::SYSTEM) && !has_syslck(&self.store, caller.at) {
            Err(Cond::Nosyslck)
        } else {
            Ok(())
        }
    }

    /// The site of a request's resource: below its parent resource, in the same domain and one level lower; or a root,
    /// in the system's domain or in the caller's group.
    // Kept out of line: inlined, the key would be copied in pieces, since its two forms have the name in different
    // places.
    #[inline(never)]
    pub(crate) fn site_of(
        &self,
        caller: &Caller,
        form: &RequestForm,
        parent: &Option<Parent>,
        name: &NameArg,
    ) -> Site
        requires name { is_name name.now ≡ true }
        requires caller { IsCaller caller.now self.now.records }
        requires parent { IsParent caller.now.pid form.now.parent parent.now self.now.records }
        requires between { IsBetweenSteps (plain_state self.now) }
        ensures site { result
            ≡ site_below (root_domain (plain_state self.now) caller.now.pid
            (flag_bits form.now.flags)) name.now
            (parent_resource (plain_state self.now) caller.now.pid form.now.parent) }
        ensures keyed { IsKeyed result.domain result.key }
    {
        let name = name.checked();
        match parent {
            Some(parent) => {
                let above = self.store.resource_record(parent.res);
                Site {
                    key: Key::Below(above.serial, name),
                    domain: above.domain,
                    level: above.level + 1,
                }
            }
            None => {
                let domain = self.root_domain(caller, form.flags);
                Site {
                    key: Key::Root(domain, name),
                    domain,
                    level: 0,
                }
            }
        }
    }

    // The domain of a root.
    fn root_domain(&self, caller: &Caller, flags: EnqFlags) -> Domain
        requires { IsCaller caller.now self.now.records }
        ensures { result ≡ root_domain (plain_state self.now) caller.now.pid (flag_bits flags) }
    {
        if flags.has(EnqFlags::SYSTEM) {
            Domain::System
        } else {
            Domain::Group(group_of(&self.store, caller.at))
        }
    }
}
