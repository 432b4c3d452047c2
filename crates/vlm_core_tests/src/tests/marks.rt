//! Marked numbers, and the least of them.

use std::alloc::AllocError;
use std::process::Abort;
use std::test::Fail;
use vlm_collections::Marks;

// The ends of words, and of 64 words.
const RISING: [u16; 8] = [0, 1, 63, 64, 4095, 4096, 8191, 65_535];

// Makes room for these numbers, and marks them.
fn mark_all(rt: &impl Abort, marks: &mut Marks, numbers: &[u16]) -> Result<(), AllocError> {
    for number in numbers {
        marks.make_room(*number)?;
        marks.mark(*number);
        assert!(rt; marks.has(*number));
    }
    Ok(())
}

// Each number is the first, until its mark is taken away. Room for it is there already.
fn unmark_all(rt: &impl Abort, marks: &mut Marks, numbers: &[u16]) -> Result<(), AllocError> {
    for number in numbers {
        assert!(rt; marks.first() == Some(*number));
        marks.make_room(*number)?;
        marks.unmark(*number);
        assert!(rt; !marks.has(*number));
    }
    assert!(rt; marks.first().is_none());
    Ok(())
}

// In any order they are marked, and the least is found first.
#[test]
fn the_least_comes_first(rt: HostRuntime) -> Result<(), Fail> {
    let mut marks = Marks::new(rt.alloc());
    assert!(&rt; marks.first().is_none() && !marks.has(0));
    marks.make_room(65_535)?;
    assert!(&rt; marks.first().is_none());
    mark_all(
        &rt,
        &mut marks,
        &[4096, 65_535, 63, 0, 8191, 64, 4095, 1, 64],
    )?;
    unmark_all(&rt, &mut marks, &RISING)?;
    Ok(())
}

// Marks stay where there is more room.
#[test]
fn room_is_made_beside_marks(rt: HostRuntime) -> Result<(), Fail> {
    let mut marks = Marks::new(rt.alloc());
    for number in RISING {
        mark_all(&rt, &mut marks, &[number])?;
    }
    marks.make_room(7)?;
    assert!(&rt; !marks.has(62) && !marks.has(65_534));
    unmark_all(&rt, &mut marks, &RISING)?;
    Ok(())
}
