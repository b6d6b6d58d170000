//! The conditions that a registry meets.
ghost use Rattle.std.specs.Prelude.{◌≡◌};
ghost use Rattle.lt_check.specs.Codes.{code_of};

/// The conditions on a registry, in the order in which they are judged. Each speaks of one record among all, and a
/// registry meets it if each record does. No RFC asks for them: they are rules of this project. The crate's own page
/// says what a *whole* record, a chain and a core normal form are.
#[derive(Clone, Copy, Debug, PartialEq, Eq)]
pub enum Condition {
    /// C1: no earlier record has the same kind and the same name, and no earlier whole record the same tag.
    OwnName,
    /// C2: if a language, script or region has a value, that is registered too, as the same kind.
    RegisteredValue,
    /// C3: the chain of values that begins with the value of a language, script, region or variant ends.
    EndingChain,
    /// C4: an extlang is one subtag with one Prefix of one subtag, a registered language without a value; it and its
    /// replacement, which is its value or else itself, are registered languages whose chains have the same end.
    FittingExtlang,
    /// C5: the value of a variant is registered: one of 2 or 3 letters as a language, a longer one as a
    /// variant, whose own value, if any, is no language.
    FittingVariantValue,
    /// C6: a variant with a language as its value has Prefixes, each of one subtag, a registered language
    /// without a value.
    FinalPrefixes,
    /// C7: each Prefix of a variant is a langtag without extensions and private use.
    LangtagPrefixes,
    /// C8: a grandfathered record names one of the 26 tags (RFC 5646, 2.2.8), and no record makes a regular one of
    /// them, such as `zh-min`, valid when it is read as a langtag: the entry of its second subtag would be at fault.
    FittingGrandfathered,
    /// C9: if a whole record has a value, this is a valid langtag without extensions and private use; and so is the
    /// record's tag, if it is redundant.
    ValidWhole,
    /// C10: in the core normal form of a whole record's value no variant occurs twice, and no whole record
    /// gives this form a value.
    RestingWhole,
    /// C11: if the tag of a whole record with a value has a core normal form that is another tag, the value has
    /// that form too; or that form has a value as a whole tag, and the two values have one core normal form.
    AgreeingWhole,
    /// C12: a range has no value.
    NoRangeValue,
}

impl Condition {
    /// The condition's code, from `C1` to `C12` in the order in which they are judged.
    pub fn code(self) -> &'static str
        ensures { result.now ≡ code_of self }
    {
        match self {
            Condition::OwnName => "C1",
            Condition::RegisteredValue => "C2",
            Condition::EndingChain => "C3",
            Condition::FittingExtlang => "C4",
            Condition::FittingVariantValue => "C5",
            Condition::FinalPrefixes => "C6",
            Condition::LangtagPrefixes => "C7",
            Condition::FittingGrandfathered => "C8",
            Condition::ValidWhole => "C9",
            Condition::RestingWhole => "C10",
            Condition::AgreeingWhole => "C11",
            Condition::NoRangeValue => "C12",
        }
    }
}
