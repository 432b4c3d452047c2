//! Prints answers, under the names of processes or the numbers of nodes.

ghost use Rattle.std.specs.Prelude.{◌≡◌, ◌≤◌, ◌+◌, ◌++◌, codes, decimal, length};
ghost use Rattle.arrayvec.specs.ArrayVec.{array_vec_len};
ghost use Rattle.vlm_words.specs.Conditions.{condition_name};
ghost use Rattle.vlm_lines.specs.Texts.{answer_line, answer_text, ast_text, node_line};

use super::line::{PrintedLine, decimal, text};
use vlm_words::asts::{Ast, AstKind};
use vlm_words::conditions::Cond;
use vlm_words::steps::Answer;

/// The line of an answer to a process, under its name.
#[tactic(auto, unfolding(crate::specs::Texts::answer_line))]
pub fn answer_line(name: &[u8], answer: Answer) -> PrintedLine
    requires { length name.now ≤ 15 }
    ensures { result.items ≡ answer_line name.now answer }
{
    let mut line = PrintedLine::new();
    text(&mut line, name);
    text(&mut line, b": ");
    print_answer(&mut line, answer);
    text(&mut line, b"\n");
    line
}

/// The line of an answer to a node, under its number.
#[tactic(auto, unfolding(crate::specs::Texts::node_line))]
pub fn node_line(node: u8, answer: Answer) -> PrintedLine
    ensures { result.items ≡ node_line node answer }
{
    let mut line = PrintedLine::new();
    text(&mut line, b"node ");
    decimal(&mut line, u32::from(node));
    text(&mut line, b": ");
    print_answer(&mut line, answer);
    text(&mut line, b"\n");
    line
}

/// An answer without the name before it.
pub fn answer_text(answer: Answer) -> PrintedLine
    ensures { result.items ≡ answer_text answer }
{
    let mut printed = PrintedLine::new();
    print_answer(&mut printed, answer);
    printed
}

/// An AST: its kind, routine, parameter and lock.
pub fn ast_text(ast: Ast) -> PrintedLine
    ensures { result.items ≡ ast_text ast ast.kind }
{
    let mut printed = PrintedLine::new();
    print_ast(&mut printed, ast);
    printed
}

#[tactic(auto, unfolding(crate::specs::Texts::answer_text))]
fn print_answer(out: &mut PrintedLine, answer: Answer)
    requires { array_vec_len out.old ≤ 100 }
    ensures text { out.new.items ≡ out.old.items ++ answer_text answer }
    ensures len { array_vec_len out.new ≤ array_vec_len out.old + 60 }
{
    match answer {
        Answer::Process(pid) => {
            text(out, b"process ");
            decimal(out, pid);
        }
        Answer::Lock(cond, lkid) => {
            condition(out, cond);
            text(out, b" lock ");
            decimal(out, lkid);
        }
        Answer::Victim(None) => text(out, b"victim none"),
        Answer::Victim(Some(lkid)) => {
            text(out, b"victim ");
            decimal(out, lkid);
        }
        Answer::Taken(None) => text(out, b"none"),
        Answer::Taken(Some(ast)) => print_ast(out, ast),
        Answer::Plain(cond) => condition(out, cond),
    }
}

fn condition(out: &mut PrintedLine, cond: Cond)
    requires { array_vec_len out.old ≤ 100 }
    ensures text { out.new.items ≡ out.old.items ++ condition_name cond }
    ensures len { array_vec_len out.new ≤ array_vec_len out.old + 12 }
{
    text(out, cond.text().as_bytes());
}

fn print_ast(out: &mut PrintedLine, ast: Ast)
    requires { array_vec_len out.old ≤ 100 }
    ensures text { out.new.items ≡ out.old.items ++ ast_text ast ast.kind }
    ensures len { array_vec_len out.new ≤ array_vec_len out.old + 60 }
{
    match ast.kind {
        AstKind::Completion => print_numbers(out, b"completion ", ast),
        AstKind::Blocking => print_numbers(out, b"blocking ", ast),
    }
}

fn print_numbers(out: &mut PrintedLine, kind: &[u8], ast: Ast)
    requires kind { length kind.now ≤ 11 }
    requires room { array_vec_len out.old ≤ 100 }
    ensures text { out.new.items
        ≡ out.old.items
        ++ (kind.now ++ decimal ast.routine ++ codes " param " ++ decimal ast.param
        ++ codes " lock " ++ decimal ast.lkid) }
    ensures len { array_vec_len out.new ≤ array_vec_len out.old + 60 }
{
    text(out, kind);
    decimal(out, ast.routine);
    text(out, b" param ");
    decimal(out, ast.param);
    text(out, b" lock ");
    decimal(out, ast.lkid);
}
