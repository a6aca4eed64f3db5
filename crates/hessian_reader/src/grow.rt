//! Vectors that grow.

ghost use Rattle.std.specs.Prelude.{◌≡◌, ◌++◌, ◌∷◌, [], is_ok, if◌then◌else◌};

use std::alloc::AllocError;

/// Adds a value, with no more than a test where there is room. Without memory the values stay as they were.
#[inline(always)]
pub fn push<T: Drop>(values: &mut Vec<T>, value: T) -> Result<(), AllocError>
    ensures { values.new.items ≡ (if is_ok result then values.old.items ++ value ∷ [] else values.old.items) }
{
    if values.len() < values.capacity() {
        values.push_reserved(value);
    } else {
        values.push(value)?;
    }
    Ok(())
}
