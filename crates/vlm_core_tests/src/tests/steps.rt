//! Steps of the first process of node 1.

use vlm_words::modes::Mode;
use vlm_words::names::NameArg;
use vlm_words::steps::{Declaration, NewRequest, Which};

/// The first process of node 1.
pub const P: u32 = 65_537;

/// The first process of node 2.
pub const Q: u32 = 131_073;

/// Declares a process of node 1.
pub const DECLARATION: Declaration = Declaration {
    node: 1,
    group: 1,
    syslck: false,
    quota: 9,
    blocks: 4,
};

/// P asks for EX on the root of this name.
pub fn request(name: &[u8]) -> NewRequest {
    NewRequest {
        pid: P,
        mode: Mode::Ex,
        name: NameArg::of(name),
        block: 1,
        parent: Which::Id(0),
        flags: 0,
        ast: None,
        bast: None,
        param: 0,
    }
}
