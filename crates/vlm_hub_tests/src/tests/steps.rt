//! Steps that the tests post, and items that they wait for.

use vlm_journal::entries::Item;
use vlm_words::asts::AstKind;
use vlm_words::modes::Mode;
use vlm_words::names::NameArg;
use vlm_words::steps::{Answer, Declaration, Dequeue, NewRequest, Step, Which};

// The first process of either node.
pub const P: u32 = 65_537;

pub const Q: u32 = 131_073;

// A search by either node.
pub const SEARCH: Step = Step::Search(1);

pub const SECOND_SEARCH: Step = Step::Search(2);

// The routines that a request names for its completion and for its warning.
const COMPLETION: u32 = 8;

const BLOCKING: u32 = 9;

// The item is this answer.
pub fn is_answer(item: Option<Item>, answer: Answer) -> bool {
    match item {
        Some(Item::Answer(given)) => given == answer,
        _ => false,
    }
}

// The item is an AST of this kind for the process, and calls the routine that `exclusive` names for it.
pub fn is_ast(item: Option<Item>, pid: u32, kind: AstKind) -> bool {
    let routine = match kind {
        AstKind::Completion => COMPLETION,
        AstKind::Blocking => BLOCKING,
    };
    match item {
        Some(Item::Ast(to, ast)) => to == pid && ast.kind == kind && ast.routine == routine,
        _ => false,
    }
}

// A node's first declaration.
pub fn declaration(node: u8) -> Step {
    Step::Declare(Declaration {
        node,
        group: 1,
        syslck: false,
        quota: 9,
        blocks: 1,
    })
}

// A request of EX on one name, with both routines.
pub fn exclusive(pid: u32) -> Step {
    request(pid, Some(COMPLETION), Some(BLOCKING))
}

// The same without routines.
pub fn quiet(pid: u32) -> Step {
    request(pid, None, None)
}

fn request(pid: u32, ast: Option<u32>, bast: Option<u32>) -> Step {
    Step::Enq(NewRequest {
        pid,
        mode: Mode::Ex,
        name: NameArg::of(b"A"),
        block: 1,
        parent: Which::Id(0),
        flags: 0,
        ast,
        bast,
        param: 0,
    })
}

pub fn give_up(pid: u32, lock: u32) -> Step {
    Step::Deq(Dequeue {
        pid,
        lock: Which::Id(lock),
        value: None,
        tail: None,
        flags: 0,
    })
}
