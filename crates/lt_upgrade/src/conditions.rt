//! The conditions that a newer registry meets beside an older one.
ghost use Rattle.std.specs.Prelude.{◌≡◌};
ghost use Rattle.lt_upgrade.specs.Codes.{upgrade_code_of};

/// The conditions on a newer registry beside an older one, in the order in which they are judged.
/// `NoNewVariantLanguage` speaks of a record of the newer registry, the others of one of the older. No RFC asks for
/// them: they are rules of this project. A *chain* goes from a subtag to its value, to the value of that, and so on, to
/// its *end*, all by the newer registry.
#[derive(Clone, Copy, Debug, PartialEq, Eq)]
pub enum UpgradeCondition {
    /// U1: a subtag that an older record names is registered as the same kind, and a range that one names is
    /// within one range of that kind.
    StaysRegistered,
    /// U2: the chains of a subtag and of its older value, if that is of the same kind, have the same end.
    SameEnds,
    /// U3: an extlang keeps its Prefix, and the chains of its older and its newer replacement, which is its value or
    /// else itself, have the same end.
    SameExtlang,
    /// U4: a variant whose value is a language keeps its Prefixes, and has a language as its newer value, whose chain
    /// has the same end as that of the older.
    SameVariantLanguage,
    /// U5: no variant that the older registry has without a language as its value gets one.
    NoNewVariantLanguage,
    /// U6: an older whole tag and its older value come to the same canonical tag.
    SameWhole,
}

impl UpgradeCondition {
    /// The condition's code, from `U1` to `U6` in the order in which they are judged.
    pub fn code(self) -> &'static str
        ensures { result.now ≡ upgrade_code_of self }
    {
        match self {
            UpgradeCondition::StaysRegistered => "U1",
            UpgradeCondition::SameEnds => "U2",
            UpgradeCondition::SameExtlang => "U3",
            UpgradeCondition::SameVariantLanguage => "U4",
            UpgradeCondition::NoNewVariantLanguage => "U5",
            UpgradeCondition::SameWhole => "U6",
        }
    }
}
