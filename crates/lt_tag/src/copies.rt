//! Copies of the parts of a tag.
ghost use Rattle.std.specs.Prelude.{◌≡◌, IfOk};

use crate::extensions::Extension;
use crate::faults::OutOfMemory;
use lt_subtag::Subtag;
use std::alloc::Global;

/// Copies of the subtags in a new vector, which takes no memory if there are no subtags. The only refusal is running
/// out of memory.
pub fn copy_subtags(alloc: Global, subtags: &[Subtag]) -> Result<Vec<Subtag>, OutOfMemory>
    ensures { IfOk result (λ copy. copy.items ≡ subtags.now) }
{
    let mut copy = Vec::with_capacity(alloc, subtags.len())?;
    for subtag in subtags {
        copy.push(subtag.copy())?;
    }
    Ok(copy)
}

/// Copies of the extensions in a new vector, which takes no memory if there are no extensions. The only refusal is
/// running out of memory.
pub fn copy_extensions(
    alloc: Global,
    extensions: &[Extension],
) -> Result<Vec<Extension>, OutOfMemory>
    ensures { IfOk result (λ copy. copy.items ≡ extensions.now) }
{
    let mut copy = Vec::with_capacity(alloc, extensions.len())?;
    for extension in extensions {
        copy.push(extension.copy(alloc)?)?;
    }
    Ok(copy)
}
