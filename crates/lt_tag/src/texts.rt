//! Reading a tag, as a method of its type.
ghost use Rattle.std.specs.Prelude.{IfErr, IfOk};
ghost use Rattle.lt_tag.specs.Faults.{HasTag, IsFault};

use crate::faults::TagFault;
use crate::reading::read_tag;
use crate::tags::Tag;
use std::alloc::Global;

impl Tag {
    /// Reads a text as a tag (RFC 5646, 2.1 and 2.2.9), in any letter case: `ZH-hant` is read as the tag that
    /// is printed as `zh-Hant`. The faults are those of [`read_tag`](crate::read_tag).
    pub fn read(alloc: Global, text: &[u8]) -> Result<Tag, TagFault>
        ensures tag { IfOk result (HasTag text.now) }
        ensures fault { IfErr result (λ fault. IsFault text.now fault.kind fault.place) }
    {
        read_tag(alloc, text)
    }
}
