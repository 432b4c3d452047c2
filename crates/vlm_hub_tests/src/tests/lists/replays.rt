//! Lists by chance: the steps of each journal, made once more in one thread, are answered the same.

use crate::tests::lists::steps::{declaration, first_process, open_gates, report_of};
use std::alloc::{AllocError, Global};
use std::test::Fail;
use vlm_cluster::Report;
use vlm_core::{Core, run_steps};
use vlm_journal::entries::Part;
use vlm_words::modes::Mode;
use vlm_words::names::NameArg;
use vlm_words::steps::{Answer, Conversion, Dequeue, NewRequest, Step, Which};

const RUNS: u32 = 200;

const MODES: [Mode; 6] = [Mode::Nl, Mode::Cr, Mode::Cw, Mode::Pr, Mode::Pw, Mode::Ex];

const NAMES: [&[u8]; 2] = [b"A", b"B"];

// Numbers by Marsaglia's xorshift.
#[derive(Drop)]
struct Chance(u32);

impl Chance {
    // A number below this one, or 0.
    fn below(&mut self, bound: u32) -> u8 {
        self.0 ^= self.0 << 13;
        self.0 ^= self.0 >> 17;
        self.0 ^= self.0 << 5;
        u8::try_from(self.0.checked_rem(bound).unwrap_or(0)).unwrap_or(0)
    }

    fn mode(&mut self) -> Mode {
        MODES[usize::from(self.below(6)) % 6]
    }

    fn routine(&mut self) -> Option<u32> {
        Some(8).filter(|_| self.below(2) == 0)
    }

    fn lock(&mut self) -> Which {
        Which::Block(self.below(3))
    }

    fn request(&mut self, pid: u32) -> Step {
        Step::Enq(NewRequest {
            pid,
            mode: self.mode(),
            name: NameArg::of(NAMES[usize::from(self.below(2)) % 2]),
            block: 1 + self.below(2) % 2,
            parent: Which::Id(0),
            flags: u16::from(self.below(8)),
            ast: self.routine(),
            bast: self.routine(),
            param: 0,
        })
    }

    fn conversion(&mut self, pid: u32) -> Step {
        Step::Convert(Conversion {
            pid,
            lock: self.lock(),
            mode: self.mode(),
            block: 1,
            flags: u16::from(self.below(8)),
            ast: self.routine(),
            bast: self.routine(),
            param: 0,
        })
    }

    fn dequeue(&mut self, pid: u32) -> Step {
        Step::Deq(Dequeue {
            pid,
            lock: self.lock(),
            value: None,
            tail: None,
            flags: u16::from(self.below(8)),
        })
    }

    // A step of a node.
    fn step(&mut self, node: u8) -> Step {
        let pid = first_process(node);
        match self.below(16) {
            0 => declaration(node, 9),
            1 => Step::Search(node),
            2 => Step::Rundown(pid.wrapping_add(u32::from(self.below(2)))),
            3..8 => self.request(pid),
            8..12 => self.conversion(pid),
            _ => self.dequeue(pid),
        }
    }
}

// Four lists by chance.
fn lists_by(alloc: Global, chance: &mut Chance) -> Result<Vec<Vec<Step>>, AllocError> {
    let mut lists = Vec::new(alloc);
    for node in 1..5u8 {
        let mut list = Vec::new(alloc);
        list.push(declaration(node, 9))?;
        for _ in 0..chance.below(60) {
            list.push(chance.step(node))?;
        }
        lists.push(list)?;
    }
    Ok(lists)
}

// The steps of a journal, and what each was answered.
#[derive(Drop)]
struct Made {
    steps: Vec<Step>,
    answers: Vec<Answer>,
}

impl Made {
    // Appends the entries of a part.
    fn add(&mut self, part: &Part) -> Result<(), AllocError> {
        for entry in part.entries.iter() {
            self.steps.push(entry.step)?;
            self.answers.push(entry.answer)?;
        }
        Ok(())
    }

    // The steps, made in one thread, are answered the same.
    fn is_replayed(&self, alloc: Global) -> bool {
        let mut answers = Vec::new(alloc);
        let made = run_steps(&mut Core::new(alloc), &self.steps, &mut answers);
        made.is_ok() && answers.as_slice() == self.answers.as_slice()
    }
}

// What was made in a run.
fn made_in(alloc: Global, report: &Report) -> Result<Made, AllocError> {
    let mut made = Made {
        steps: Vec::new(alloc),
        answers: Vec::new(alloc),
    };
    for part in report.parts.iter() {
        made.add(part)?;
    }
    made.add(&report.rest)?;
    Ok(made)
}

#[test]
fn lists_by_chance(rt: HostRuntime) -> Result<(), Fail> {
    let mut chance = Chance(2_463_534_242);
    for run in 0..RUNS {
        let lists = lists_by(rt.alloc(), &mut chance)?;
        let Some(report) = report_of(&rt, rt.alloc(), open_gates(rt.alloc(), 4)?, lists, 30) else {
            assert!(&rt; false, "in run {run}");
            return Ok(());
        };
        assert!(&rt;
            made_in(rt.alloc(), &report)?.is_replayed(rt.alloc()),
            "in run {run}"
        );
    }
    Ok(())
}
