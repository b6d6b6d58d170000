//! What the comparisons of cores, extensions and tags compute: `==` is equality of their parts. Each function only
//! compares, and states this law by its contract.
ghost use Rattle.std.specs.Prelude.{◌≡◌, ◌↔◌, IsTrue};

use crate::cores::Core;
use crate::extensions::Extension;
use crate::tags::Tag;

/// Two cores are equal exactly if their parts are.
pub fn core_equality(left: &Core, right: &Core) -> bool
    ensures { IsTrue result ↔ (left.now ≡ right.now) }
{
    left == right
}

/// Two extensions are equal exactly if their parts are.
pub fn extension_equality(left: &Extension, right: &Extension) -> bool
    ensures { IsTrue result ↔ (left.now ≡ right.now) }
{
    left == right
}

/// Two tags are equal exactly if their parts are; so exactly if the texts that `write_tag` gives for them are.
pub fn tag_equality(left: &Tag, right: &Tag) -> bool
    ensures { IsTrue result ↔ (left.now ≡ right.now) }
{
    left == right
}
