//! Turns steps into the structs by which C passes them.

ghost use Rattle.std.specs.Prelude.{◌≡◌};
ghost use Rattle.vlm_capi.specs.StepStructs.{conversion_struct, declaration_struct, dequeue_struct, given_or, mark, named_lock, no_declaration, no_dequeue, no_request, no_setting, request_struct, setting_struct};

use crate::arguments::{
    DECLARATION_SIZE, DEQUEUE_SIZE, REQUEST_SIZE, SETTING_SIZE, VlmDeclaration, VlmDequeue,
    VlmRequest, VlmSetting,
};
use crate::numbers::mode_number;
use vlm_words::steps::{Conversion, Declaration, Dequeue, NewRequest, ValueSetting, Which};

// 1 for a value that is given, or 0.
fn mark<T: Copy>(value: Option<T>) -> u32
    ensures { result ≡ mark value }
{
    match value {
        Some(_) => 1,
        None => 0,
    }
}

fn given_or<T: Copy>(value: Option<T>, other: T) -> T
    ensures { result ≡ given_or value other }
{
    match value {
        Some(value) => value,
        None => other,
    }
}

// How a lock is named: its number, and 0 for an ID or 1 for a status block.
fn named_lock(lock: Which) -> (u32, u32)
    ensures { result ≡ named_lock lock }
{
    match lock {
        Which::Id(lkid) => (lkid, 0),
        Which::Block(block) => (u32::from(block), 1),
    }
}

pub(crate) fn declaration_struct(declaration: Declaration) -> VlmDeclaration
    ensures { result ≡ declaration_struct declaration }
{
    VlmDeclaration {
        size: DECLARATION_SIZE,
        node: u32::from(declaration.node),
        group: u32::from(declaration.group),
        syslck: u32::from(declaration.syslck),
        quota: u32::from(declaration.quota),
        blocks: u32::from(declaration.blocks),
        reserved: [0; 2],
    }
}

pub(crate) fn setting_struct(setting: ValueSetting) -> VlmSetting
    ensures { result ≡ setting_struct setting }
{
    let value = setting.value;
    let tail = given_or(setting.tail, [0; 48]);
    VlmSetting {
        size: SETTING_SIZE,
        pid: setting.pid,
        block: u32::from(setting.block),
        has_tail: mark(setting.tail),
        value,
        tail,
        reserved: [0; 4],
    }
}

/// The struct of a new request. The name goes beside it.
pub(crate) fn request_struct(request: NewRequest) -> VlmRequest
    ensures { result ≡ request_struct request }
{
    let (lock, lock_kind) = named_lock(request.parent);
    VlmRequest {
        size: REQUEST_SIZE,
        pid: request.pid,
        mode: mode_number(Some(request.mode)),
        flags: u32::from(request.flags),
        block: u32::from(request.block),
        lock,
        lock_kind,
        has_ast: mark(request.ast),
        ast: given_or(request.ast, 0),
        has_bast: mark(request.bast),
        bast: given_or(request.bast, 0),
        param: request.param,
        reserved: [0; 20],
    }
}

pub(crate) fn conversion_struct(conversion: Conversion) -> VlmRequest
    ensures { result ≡ conversion_struct conversion }
{
    let (lock, lock_kind) = named_lock(conversion.lock);
    VlmRequest {
        size: REQUEST_SIZE,
        pid: conversion.pid,
        mode: mode_number(Some(conversion.mode)),
        flags: u32::from(conversion.flags),
        block: u32::from(conversion.block),
        lock,
        lock_kind,
        has_ast: mark(conversion.ast),
        ast: given_or(conversion.ast, 0),
        has_bast: mark(conversion.bast),
        bast: given_or(conversion.bast, 0),
        param: conversion.param,
        reserved: [0; 20],
    }
}

pub(crate) fn dequeue_struct(dequeue: Dequeue) -> VlmDequeue
    ensures { result ≡ dequeue_struct dequeue }
{
    let (lock, lock_kind) = named_lock(dequeue.lock);
    let value = given_or(dequeue.value, [0; 16]);
    let tail = given_or(dequeue.tail, [0; 48]);
    VlmDequeue {
        size: DEQUEUE_SIZE,
        pid: dequeue.pid,
        flags: u32::from(dequeue.flags),
        lock,
        lock_kind,
        has_value: mark(dequeue.value),
        has_tail: mark(dequeue.tail),
        value,
        tail,
        reserved: [0; 9],
    }
}

pub(crate) fn no_declaration() -> VlmDeclaration
    ensures { result ≡ no_declaration }
{
    VlmDeclaration {
        size: 0,
        node: 0,
        group: 0,
        syslck: 0,
        quota: 0,
        blocks: 0,
        reserved: [0; 2],
    }
}

pub(crate) fn no_setting() -> VlmSetting
    ensures { result ≡ no_setting }
{
    VlmSetting {
        size: 0,
        pid: 0,
        block: 0,
        has_tail: 0,
        value: [0; 16],
        tail: [0; 48],
        reserved: [0; 4],
    }
}

pub(crate) fn no_request() -> VlmRequest
    ensures { result ≡ no_request }
{
    VlmRequest {
        size: 0,
        pid: 0,
        mode: 0,
        flags: 0,
        block: 0,
        lock: 0,
        lock_kind: 0,
        has_ast: 0,
        ast: 0,
        has_bast: 0,
        bast: 0,
        param: 0,
        reserved: [0; 20],
    }
}

pub(crate) fn no_dequeue() -> VlmDequeue
    ensures { result ≡ no_dequeue }
{
    VlmDequeue {
        size: 0,
        pid: 0,
        flags: 0,
        lock: 0,
        lock_kind: 0,
        has_value: 0,
        has_tail: 0,
        value: [0; 16],
        tail: [0; 48],
        reserved: [0; 9],
    }
}
