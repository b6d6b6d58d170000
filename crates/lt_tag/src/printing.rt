//! How cores, extensions and tags are printed by `{}`: in conventional case (RFC 5646, 2.1.1).
ghost use Rattle.std.specs.Prelude.{Some};
ghost use Rattle.lt_tag.specs.Conventional.{conventional};
ghost use Rattle.lt_tag.specs.Spelling.{spell_core, spell_extension};
ghost use Rattle.lt_tag.specs.WellFormed.{spell};

use crate::cores::Core;
use crate::extensions::Extension;
use crate::tags::Tag;
use crate::writing::Style;
use std::fmt;

impl fmt::Display for Core {
    ghost output = { λ core. Some (conventional (spell_core core)) };

    /// Writes the core in conventional case.
    fn fmt<W: fmt::Write>(&self, f: &mut fmt::Formatter<W>) -> fmt::Result {
        Style::new().put_core(f, self)
    }
}

impl fmt::Display for Extension {
    ghost output = { λ extension. Some (conventional (spell_extension extension)) };

    /// Writes the extension, its singleton first, in lower case.
    fn fmt<W: fmt::Write>(&self, f: &mut fmt::Formatter<W>) -> fmt::Result {
        Style::new().put_extension(f, self)
    }
}

impl fmt::Display for Tag {
    ghost output = { λ tag. Some (conventional (spell tag)) };

    /// Writes the tag in conventional case.
    fn fmt<W: fmt::Write>(&self, f: &mut fmt::Formatter<W>) -> fmt::Result {
        Style::new().put_tag(f, self)
    }
}
