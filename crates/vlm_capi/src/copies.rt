//! Values that a call copies out to C.

ghost use Rattle.std.specs.Prelude.{◌≡◌};
ghost use Rattle.vlm_capi.specs.Copies.{Told, sized};

use crate::replies::status;
use vlm_words::conditions::Cond;

/// The value, or no value if the caller's struct has another size.
pub(crate) fn sized<T: Copy>(fits: bool, value: Option<T>) -> Option<T>
    ensures { result ≡ sized fits value }
{
    if fits { value } else { None }
}

/// Writes the value. With no value it writes nothing.
pub(crate) fn copy_out<T: Copy>(value: Option<T>, out: &mut T) -> u32
    ensures { Told value out.old out.new result }
{
    match value {
        Some(value) => {
            *out = value;
            status(Cond::Normal)
        }
        None => status(Cond::Badparam),
    }
}
