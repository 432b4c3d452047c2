//! Prints the locks in the queues of a resource.

ghost use Rattle.std.specs.Prelude.{◌≡◌, ◌≤◌, ◌+◌, ◌++◌, length};
ghost use Rattle.arrayvec.specs.ArrayVec.{array_vec_len};
ghost use Rattle.vlm_lines.specs.Texts.{converting_line, granted_line, lock_text, mode_name, mode_text, row_line, waiting_line};

use super::line::{PrintedLine, decimal, text};
use vlm_queue::RowView;
use vlm_words::modes::Mode;
use vlm_words::resources::Queue;

/// The line of a lock in a queue.
#[tactic(auto, unfolding(crate::specs::Texts::granted_line, crate::specs::Texts::converting_line, crate::specs::Texts::waiting_line))]
pub fn row_line(queue: Queue, row: &RowView) -> PrintedLine
    ensures { result.items ≡ row_line queue row.now }
{
    let mut line = PrintedLine::new();
    match queue {
        Queue::Granted => {
            lock_text(&mut line, b"granted", row);
            mode_text(&mut line, row.held);
        }
        Queue::Conversion => {
            lock_text(&mut line, b"converting", row);
            mode_text(&mut line, row.held);
            text(&mut line, b" to ");
            mode_text(&mut line, row.want);
        }
        Queue::Waiting => {
            lock_text(&mut line, b"waiting", row);
            mode_text(&mut line, row.want);
        }
    }
    text(&mut line, b"\n");
    line
}

#[tactic(auto, unfolding(crate::specs::Texts::lock_text))]
fn lock_text(out: &mut PrintedLine, queue: &[u8], row: &RowView)
    requires queue { length queue.now ≤ 10 }
    requires room { array_vec_len out.old ≤ 100 }
    ensures text { out.new.items ≡ out.old.items ++ lock_text queue.now row.now }
    ensures len { array_vec_len out.new ≤ array_vec_len out.old + 50 }
{
    text(out, b"  ");
    text(out, queue);
    text(out, b" ");
    decimal(out, row.lkid);
    text(out, b" process ");
    decimal(out, row.pid);
    text(out, b" ");
}

fn mode_text(out: &mut PrintedLine, mode: Option<Mode>)
    requires { array_vec_len out.old ≤ 200 }
    ensures text { out.new.items ≡ out.old.items ++ mode_text mode }
    ensures len { array_vec_len out.new ≤ array_vec_len out.old + 2 }
{
    match mode {
        Some(mode) => text(out, mode_name(mode)),
        None => {}
    }
}

fn mode_name(mode: Mode) -> &'static [u8]
    ensures name { result.now ≡ mode_name mode }
    ensures len { length result.now ≡ 2 }
{
    match mode {
        Mode::Nl => b"NL",
        Mode::Cr => b"CR",
        Mode::Cw => b"CW",
        Mode::Pr => b"PR",
        Mode::Pw => b"PW",
        Mode::Ex => b"EX",
    }
}
