//! Reads the structs and numbers that C passes as steps of the machine. include/vlm.h describes their members.
//!
//! A struct names no step if it has another size, a reserved word that is not 0, or a number that does not fit.

ghost use Rattle.std.specs.Prelude.{◌≡◌, IfSome, is_some};
ghost use Rattle.vlm_capi.specs.Structs.{AreKeysOf, conversion_of, declaration_of, dequeue_of, given, is_blank, is_options, is_request, request_of, setting_of, which_of};

use crate::numbers::mode_of;
use std::mem::size_of;
use vlm_collections::HashKeys;
use vlm_words::names::NameArg;
use vlm_words::steps::{Conversion, Declaration, Dequeue, NewRequest, ValueSetting, Which};

/// The version of the library and its header, 0.2.0: one byte for each of its numbers.
pub(crate) const VERSION: u32 = 0x00_02_00;

// The `size` that C writes into each struct.
const OPTIONS_SIZE: u32 = 64;

pub(crate) const DECLARATION_SIZE: u32 = 32;

pub(crate) const SETTING_SIZE: u32 = 96;

pub(crate) const REQUEST_SIZE: u32 = 128;

pub(crate) const DEQUEUE_SIZE: u32 = 128;

const _: () = prove!(size_of::<VlmOptions>() == 64);

const _: () = prove!(size_of::<VlmDeclaration>() == 32);

const _: () = prove!(size_of::<VlmSetting>() == 96);

const _: () = prove!(size_of::<VlmRequest>() == 128);

const _: () = prove!(size_of::<VlmDequeue>() == 128);

/// How a manager is opened.
#[repr(C)]
#[derive(Clone, Copy)]
pub struct VlmOptions {
    /// The size of the struct in bytes.
    pub size: u32,
    /// The version of the caller's header.
    pub version: u32,
    /// 1 to hash names by `keys`, or 0 to hash them by fixed keys.
    pub has_keys: u32,
    /// The random keys by which names are hashed.
    pub keys: [u8; 16],
    /// All zero.
    pub reserved: [u32; 9],
}

/// A process as it is declared.
#[repr(C)]
#[derive(Clone, Copy)]
pub struct VlmDeclaration {
    /// The size of the struct in bytes.
    pub size: u32,
    /// 1 to 8.
    pub node: u32,
    /// The UIC group.
    pub group: u32,
    /// 1 if it has the privilege SYSLCK, or 0.
    pub syslck: u32,
    /// How many locks it may have (ENQLM).
    pub quota: u32,
    /// How many status blocks it has, numbered from 1.
    pub blocks: u32,
    /// All zero.
    pub reserved: [u32; 2],
}

/// Sets the value block of a status block.
#[repr(C)]
#[derive(Clone, Copy)]
pub struct VlmSetting {
    /// The size of the struct in bytes.
    pub size: u32,
    /// The ID of the process.
    pub pid: u32,
    /// The status block, numbered from 1.
    pub block: u32,
    /// 1 to set the tail too, or 0.
    pub has_tail: u32,
    /// The first 16 bytes of the value block.
    pub value: [u8; 16],
    /// The other 48 bytes of the value block.
    pub tail: [u8; 48],
    /// All zero.
    pub reserved: [u32; 4],
}

/// Asks for a new lock, or for another mode of a lock.
#[repr(C)]
#[derive(Clone, Copy)]
pub struct VlmRequest {
    /// The size of the struct in bytes.
    pub size: u32,
    /// The process that asks.
    pub pid: u32,
    /// 0 (NL) to 5 (EX).
    pub mode: u32,
    /// The flags of the LCK$M_ constants.
    pub flags: u32,
    /// The caller's status block, from 1.
    pub block: u32,
    /// The parent lock of a new request, or 0 for a root. The lock of a conversion.
    pub lock: u32,
    /// 0 if `lock` is an ID, 1 if it is the status block that holds the ID.
    pub lock_kind: u32,
    /// 1 if `ast` names a completion routine, or 0.
    pub has_ast: u32,
    /// The number of the completion routine.
    pub ast: u32,
    /// 1 if `bast` names a blocking routine, or 0.
    pub has_bast: u32,
    /// The number of the blocking routine.
    pub bast: u32,
    /// Both routines get it.
    pub param: u32,
    /// All zero.
    pub reserved: [u32; 20],
}

/// Ends locks of a process, or a wait of one.
#[repr(C)]
#[derive(Clone, Copy)]
pub struct VlmDequeue {
    /// The size of the struct in bytes.
    pub size: u32,
    /// The process that asks.
    pub pid: u32,
    /// The flags of the LCK$M_ constants.
    pub flags: u32,
    /// The lock, or 0 with LCK$M_DEQALL for all locks of the process.
    pub lock: u32,
    /// 0 if `lock` is an ID, 1 if it is the status block that holds the ID.
    pub lock_kind: u32,
    /// 1 to write the value block, or 0.
    pub has_value: u32,
    /// 1 to write its tail too, or 0.
    pub has_tail: u32,
    /// The first 16 bytes of the value block.
    pub value: [u8; 16],
    /// The other 48 bytes of the value block.
    pub tail: [u8; 48],
    /// All zero.
    pub reserved: [u32; 9],
}

#[tactic(auto, unfolding(crate::specs::Structs::which_of))]
fn which_of(lock: u32, kind: u32) -> Option<Which>
    ensures { result ≡ which_of lock kind }
{
    match kind {
        0 => Some(Which::Id(lock)),
        1 if lock < 256 => Some(Which::Block(lock as u8)),
        _ => None,
    }
}

// It reads every word and never stops early, so the compiler can compare several fields at once.
fn is_blank(fields: &[u32]) -> bool
    ensures { result ≡ is_blank fields.now }
{
    let mut blank = true;
    for word in fields {
        blank &= *word == 0;
    }
    blank
}

fn given<T: Copy>(mark: u32, value: T) -> Option<T>
    ensures { result ≡ given mark value }
{
    if mark == 1 { Some(value) } else { None }
}

/// The keys for the index of names; `None` if the struct is malformed, or of another version. Versions that
/// differ in their last number alone are one.
#[tactic(auto, unfolding(crate::specs::Structs::is_options))]
pub(crate) fn keys_of(fields: &VlmOptions) -> Option<HashKeys>
    ensures options { is_some result ≡ is_options fields.now }
    ensures keys { IfSome result (λ keys. AreKeysOf fields.now keys) }
{
    if fields.size != OPTIONS_SIZE
        || fields.version / 256 != VERSION / 256
        || !is_blank(&fields.reserved)
    {
        return None;
    }
    match fields.has_keys {
        0 => Some(HashKeys::fixed()),
        1 => Some(HashKeys::of(fields.keys)),
        _ => None,
    }
}

#[tactic(auto, unfolding(crate::specs::Structs::declaration_of))]
pub(crate) fn declaration_of(fields: &VlmDeclaration) -> Option<Declaration>
    ensures { result ≡ declaration_of fields.now }
{
    if fields.size != DECLARATION_SIZE || !is_blank(&fields.reserved) {
        return None;
    }
    if fields.node > 255 || fields.group > 65_535 || fields.syslck > 1 {
        return None;
    }
    if fields.quota > 65_535 || fields.blocks > 255 {
        return None;
    }
    Some(Declaration {
        node: fields.node as u8,
        group: fields.group as u16,
        syslck: fields.syslck == 1,
        quota: fields.quota as u16,
        blocks: fields.blocks as u8,
    })
}

#[tactic(auto, unfolding(crate::specs::Structs::setting_of))]
pub(crate) fn setting_of(fields: &VlmSetting) -> Option<ValueSetting>
    ensures { result ≡ setting_of fields.now }
{
    if fields.size != SETTING_SIZE || !is_blank(&fields.reserved) {
        return None;
    }
    if fields.block > 255 || fields.has_tail > 1 {
        return None;
    }
    Some(ValueSetting {
        pid: fields.pid,
        block: fields.block as u8,
        value: fields.value,
        tail: given(fields.has_tail, fields.tail),
    })
}

fn is_request(fields: &VlmRequest) -> bool
    ensures { result ≡ is_request fields.now }
{
    fields.size == REQUEST_SIZE
        && is_blank(&fields.reserved)
        && fields.flags <= 65_535
        && fields.block <= 255
        && fields.has_ast <= 1
        && fields.has_bast <= 1
}

#[inline(always)]
#[tactic(auto, unfolding(crate::specs::Structs::request_of))]
pub(crate) fn request_of(fields: &VlmRequest, name: &[u8]) -> Option<NewRequest>
    ensures { result ≡ request_of fields.now name.now }
{
    if !is_request(fields) {
        return None;
    }
    let mode = mode_of(fields.mode)?;
    let parent = which_of(fields.lock, fields.lock_kind)?;
    Some(NewRequest {
        pid: fields.pid,
        mode,
        name: NameArg::of(name),
        block: fields.block as u8,
        parent,
        flags: fields.flags as u16,
        ast: given(fields.has_ast, fields.ast),
        bast: given(fields.has_bast, fields.bast),
        param: fields.param,
    })
}

#[inline(always)]
#[tactic(auto, unfolding(crate::specs::Structs::conversion_of))]
pub(crate) fn conversion_of(fields: &VlmRequest) -> Option<Conversion>
    ensures { result ≡ conversion_of fields.now }
{
    if !is_request(fields) {
        return None;
    }
    let mode = mode_of(fields.mode)?;
    let lock = which_of(fields.lock, fields.lock_kind)?;
    Some(Conversion {
        pid: fields.pid,
        lock,
        mode,
        block: fields.block as u8,
        flags: fields.flags as u16,
        ast: given(fields.has_ast, fields.ast),
        bast: given(fields.has_bast, fields.bast),
        param: fields.param,
    })
}

#[inline(always)]
#[tactic(auto, unfolding(crate::specs::Structs::dequeue_of))]
pub(crate) fn dequeue_of(fields: &VlmDequeue) -> Option<Dequeue>
    ensures { result ≡ dequeue_of fields.now }
{
    if fields.size != DEQUEUE_SIZE || !is_blank(&fields.reserved) {
        return None;
    }
    if fields.flags > 65_535 || fields.has_value > 1 || fields.has_tail > 1 {
        return None;
    }
    let lock = which_of(fields.lock, fields.lock_kind)?;
    Some(Dequeue {
        pid: fields.pid,
        lock,
        value: given(fields.has_value, fields.value),
        tail: given(fields.has_tail, fields.tail),
        flags: fields.flags as u16,
    })
}
