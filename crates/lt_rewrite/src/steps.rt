//! A step, which is given by its kind, its place in the tag and the record that it uses.
ghost use Rattle.std.specs.Prelude.{◌≡◌};
ghost use Rattle.lt_rewrite.specs.Names.{name_of};

/// The kinds of step (RFC 5646, 4.5; RFC 6067; RFC 6497).
#[derive(Clone, Copy, Debug, PartialEq, Eq)]
pub enum StepKind {
    /// The one extlang's replacement becomes the language: `zh-yue` to `yue`.
    Extlang,
    /// The language is replaced by its value: `iw` to `he`.
    Language,
    /// The script is replaced by its value (RFC 5646, 3.1.7).
    Script,
    /// The region is replaced by its value: `sgn-DD` to `sgn-DE`.
    Region,
    /// A variant is replaced by its value, which is a variant, in its place: `heploc` by `alalc97`.
    Variant,
    /// A variant is dropped, and its value, which is a language, takes the place of the language of the core, which is
    /// one of the variant's Prefixes (no RFC asks for that: it is a rule of this project).
    VariantLanguage,
    /// The whole tag is replaced by its value: `i-klingon` to `tlh`.
    Whole,
    /// Two neighbouring extensions in falling order of their singletons change places: `t`, `a` to `a`, `t`.
    SwapExtensions,
    /// An attribute is dropped, if an equal one is before it.
    DropAttribute,
    /// Two neighbouring attributes in falling order change places.
    SwapAttributes,
    /// A keyword is dropped, if one of its key is before it.
    DropKeyword,
    /// Two neighbouring keywords in falling order of their keys change places.
    SwapKeywords,
    /// `true` is dropped where it is the only type of a keyword: `u-kn-true` to `u-kn` (no RFC asks for that: it is a
    /// rule of this project).
    DropTrue,
    /// Two neighbouring fields in falling order of their separators change places.
    SwapFields,
}

impl StepKind {
    /// The kind's name, as it is written here and printed, for example `Extlang`.
    pub fn name(self) -> &'static str
        ensures { result.now ≡ name_of self }
    {
        match self {
            StepKind::Extlang => "Extlang",
            StepKind::Language => "Language",
            StepKind::Script => "Script",
            StepKind::Region => "Region",
            StepKind::Variant => "Variant",
            StepKind::VariantLanguage => "VariantLanguage",
            StepKind::Whole => "Whole",
            StepKind::SwapExtensions => "SwapExtensions",
            StepKind::DropAttribute => "DropAttribute",
            StepKind::SwapAttributes => "SwapAttributes",
            StepKind::DropKeyword => "DropKeyword",
            StepKind::SwapKeywords => "SwapKeywords",
            StepKind::DropTrue => "DropTrue",
            StepKind::SwapFields => "SwapFields",
        }
    }
}

/// A step on a tag: its kind, where it is, and the record that it uses.
#[derive(Clone, Copy, Debug, PartialEq, Eq)]
pub struct Step {
    /// What it does.
    pub kind: StepKind,
    /// The number in the tag, counted from 1, of the subtag that is replaced or dropped, or of the key that is dropped
    /// with its types. If two parts change places, the number of the first subtag of the first part; 1 for a whole tag.
    pub place: u32,
    /// The number in the file of the record that it uses, counted from 1, or 0 if it uses none.
    pub number: u32,
}
