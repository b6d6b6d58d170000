//! The words for the classes of tags.
ghost use Rattle.std.specs.Prelude.{◌≡◌};
ghost use Rattle.lt_answers.specs.Tags.{class_word};

use lt_tag::Class;

/// The word for a class: `langtag`, `privateuse` or `grandfathered`.
pub fn class_name(class: Class) -> &'static str
    ensures { result.now ≡ class_word class }
{
    match class {
        Class::LangTag => "langtag",
        Class::PrivateUse => "privateuse",
        Class::Grandfathered => "grandfathered",
    }
}
