//! Prints resources without their queues.

ghost use Rattle.std.specs.Prelude.{◌≡◌, ◌≤◌, ◌+◌, ◌++◌, ◌&&◌, nat_le, length};
ghost use Rattle.std.specs.List.{list_all};
ghost use Rattle.arrayvec.specs.ArrayVec.{array_vec_len};
ghost use Rattle.vlm_lines.specs.Texts.{domain_text, is_readable, name_text, no_resources_line, resource_line, tail_line, validity};

use super::line::{PrintedLine, decimal, hexadecimal, text};
use vlm_queue::ResourceView;
use vlm_words::names::Name;
use vlm_words::resources::Domain;

/// The resource's own line.
#[tactic(auto, unfolding(crate::specs::Texts::resource_line))]
pub fn resource_line(view: &ResourceView) -> PrintedLine
    ensures { result.items ≡ resource_line view.now }
{
    let mut line = PrintedLine::new();
    text(&mut line, b"resource ");
    decimal(&mut line, view.serial);
    text(&mut line, b" in ");
    decimal(&mut line, view.parent);
    text(&mut line, b" ");
    domain_text(&mut line, view.domain);
    text(&mut line, b" name ");
    name_text(&mut line, view.name);
    text(&mut line, b" value ");
    hexadecimal(&mut line, &view.value);
    text(&mut line, b" ");
    text(&mut line, validity(view.valid).as_bytes());
    text(&mut line, b"\n");
    line
}

/// The tail of a resource's value block, under its serial.
#[tactic(auto, unfolding(crate::specs::Texts::tail_line))]
pub fn tail_line(view: &ResourceView) -> PrintedLine
    ensures { result.items ≡ tail_line view.now }
{
    let mut line = PrintedLine::new();
    text(&mut line, b"tail ");
    decimal(&mut line, view.serial);
    text(&mut line, b" value ");
    hexadecimal(&mut line, &view.tail);
    text(&mut line, b" ");
    text(&mut line, validity(view.tail_valid).as_bytes());
    text(&mut line, b"\n");
    line
}

/// A line that says that there is no resource.
pub fn no_resources_line() -> &'static [u8]
    ensures { result.now ≡ no_resources_line }
{
    b"no resources\n"
}

fn domain_text(out: &mut PrintedLine, domain: Domain)
    requires { array_vec_len out.old ≤ 100 }
    ensures text { out.new.items ≡ out.old.items ++ domain_text domain }
    ensures len { array_vec_len out.new ≤ array_vec_len out.old + 16 }
{
    match domain {
        Domain::Group(group) => {
            text(out, b"group ");
            decimal(out, u32::from(group));
        }
        Domain::System => text(out, b"system"),
    }
}

#[tactic(auto, using(crate::proofs::Lengths::name_short), unfolding(crate::specs::Texts::name_text))]
fn name_text(out: &mut PrintedLine, name: Name)
    requires { array_vec_len out.old ≤ 100 }
    ensures text { out.new.items ≡ out.old.items ++ name_text name }
    ensures len { array_vec_len out.new ≤ array_vec_len out.old + 64 }
{
    let bytes = name.bytes();
    if is_readable(bytes) {
        text(out, bytes);
    } else {
        text(out, b"x:");
        hexadecimal(out, bytes);
    }
}

// Whether the name can be printed as it is: `x:` in front would make it hexadecimal digits.
fn is_readable(name: &[u8]) -> bool
    ensures { result ≡ is_readable name.now }
{
    all_visible(name) && !name.starts_with(b"x:")
}

fn all_visible(name: &[u8]) -> bool
    ensures { result ≡ list_all (λ byte. nat_le 33 byte && nat_le byte 126) name.now }
{
    name.iter().all(|byte| 33 <= *byte && *byte <= 126)
}

/// Whether a value block, or its tail, is valid.
pub fn validity(valid: bool) -> &'static str
    ensures text { result.now ≡ validity valid }
    ensures len { length result.now ≤ 7 }
{
    if valid { "valid" } else { "invalid" }
}
