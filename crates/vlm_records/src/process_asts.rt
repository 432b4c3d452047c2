//! The ASTs of a process, and the mark that it has one pending.

ghost use Rattle.std.specs.Prelude.{◌≡◌, ◌<◌, ◌-◌, ◌++◌, ◌∷◌, [], drop, slice_get};
ghost use Rattle.vlm_records.specs.Pending.{IsToldOf, OtherMarksStay};

use crate::node_marks::NodeMarks;
use crate::processes::Process;
use vlm_words::asts::Ast;

impl Process {
    /// Takes the oldest AST, if there is one. With the last AST the process's mark goes too.
    pub fn take_ast(&mut self, pending: &mut NodeMarks) -> Option<Ast>
        requires { IsToldOf self.old pending.old }
        ensures taken { result ≡ slice_get self.old.asts.pending 0 }
        ensures rest { self.new ≡ record self.old { asts = self.new.asts } }
        ensures left { self.new.asts.pending ≡ drop 1 self.old.asts.pending }
        ensures due { self.new.asts.due ≡ self.old.asts.due }
        ensures told { IsToldOf self.new pending.new }
        ensures others { OtherMarksStay self.old.pid pending.old pending.new }
    {
        let taken = self.asts.take();
        if self.asts.len() == 0 {
            pending.unmark(self.pid);
        }
        taken
    }

    /// Queues a due AST at the end, and marks the process.
    pub fn queue_ast(&mut self, pending: &mut NodeMarks, ast: Ast)
        requires told { IsToldOf self.old pending.old }
        requires owed { 0 < self.old.asts.due }
        ensures queued { self.new ≡ record self.old {
          asts = record self.old.asts {
            pending = self.old.asts.pending ++ ast ∷ [];
            due = self.old.asts.due - 1;
          };
        } }
        ensures told { IsToldOf self.new pending.new }
        ensures others { OtherMarksStay self.old.pid pending.old pending.new }
    {
        self.asts.queue(ast);
        pending.mark(self.pid);
    }
}
