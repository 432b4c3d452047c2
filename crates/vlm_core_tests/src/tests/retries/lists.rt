//! A list of steps. Where memory for an answer was refused, its step is not begun, and the rest of the list is made
//! then.

use vlm_core::{Core, run_steps};
use vlm_words::conditions::Cond;
use vlm_words::steps::{Answer, Step};

// A node departs once: a step that was begun before its answer was refused answers DEPARTED when it is made again.
#[test]
fn a_list_goes_on_where_it_stopped(rt: HostRuntime) {
    let steps = [1, 2, 3, 4, 5, 6, 7, 8, 8].map(Step::Leave);
    let steps = steps.as_slice();
    let mut want = [Answer::Plain(Cond::Normal); 9];
    want[8] = Answer::Plain(Cond::Departed);
    let mut core = Core::new(rt.alloc());
    let mut answers = Vec::new(rt.alloc());
    if let Err(stopped) = run_steps(&mut core, steps, &mut answers) {
        assert_eq!(&rt; answers.len(), stopped.done);
        let rest = &steps[stopped.done..];
        assert!(&rt; run_steps(&mut core, rest, &mut answers).is_ok());
    }
    assert!(&rt; answers.as_slice() == want.as_slice());
}
