//! The kinds of part.
ghost use Rattle.std.specs.Prelude.{◌≡◌};
ghost use Rattle.lt_show.specs.PartKinds as spec;

/// What a part of a tag is.
#[derive(Clone, Copy, Debug, PartialEq, Eq)]
pub enum PartKind {
    /// The primary language (RFC 5646, 2.2.1): `zh` of `zh-yue-Hant-HK`.
    Language,
    /// An extended language (RFC 5646, 2.2.2): `yue` of `zh-yue-Hant-HK`.
    Extlang,
    /// The script (RFC 5646, 2.2.3): `Hant` of `zh-yue-Hant-HK`.
    Script,
    /// The region (RFC 5646, 2.2.4): `HK` of `zh-yue-Hant-HK`.
    Region,
    /// A variant (RFC 5646, 2.2.5): `1996` of `de-1996`.
    Variant,
    /// The singleton that begins an extension (RFC 5646, 2.2.6): `u` of `de-u-co-phonebk`.
    Singleton,
    /// A subtag of an extension that is no `u` or `t` extension, or of a `t` extension without the form of
    /// RFC 6497, 2.2 (RFC 5646, 2.2.6): `bbb` of `en-a-bbb`.
    ExtensionSubtag,
    /// An attribute of a `u` extension (RFC 6067, 2.1): `attr` of `de-u-attr-co-phonebk`.
    Attribute,
    /// The key of a keyword of a `u` extension (RFC 6067, 2.1): `co` of `de-u-attr-co-phonebk`.
    Key,
    /// A type of a keyword of a `u` extension (RFC 6067, 2.1): `phonebk` of `de-u-attr-co-phonebk`.
    Type,
    /// The language of the source of a `t` extension (RFC 6497, 2.2): `und` of `und-t-und-cyrl-m0-ungegn`.
    SourceLanguage,
    /// An extlang of the source of a `t` extension.
    SourceExtlang,
    /// The script of the source of a `t` extension: `cyrl` of `und-t-und-cyrl-m0-ungegn`.
    SourceScript,
    /// The region of the source of a `t` extension.
    SourceRegion,
    /// A variant of the source of a `t` extension.
    SourceVariant,
    /// The separator of a field of a `t` extension (RFC 6497, 2.2): `m0` of `und-t-und-cyrl-m0-ungegn`.
    Separator,
    /// A value of a field of a `t` extension (RFC 6497, 2.2): `ungegn` of `und-t-und-cyrl-m0-ungegn`.
    Value,
    /// The `x` that begins private use (RFC 5646, 2.2.7).
    PrivateUseSingleton,
    /// A subtag of private use (RFC 5646, 2.2.7): `ab` of `en-x-ab`.
    PrivateUse,
    /// The whole of a grandfathered tag (RFC 5646, 2.2.8): `i-klingon`.
    Grandfathered,
}

impl PartKind {
    /// The name of the kind, such as `Extlang`.
    pub fn name(self) -> &'static str
        ensures { result.now ≡ spec.name_of self }
    {
        match self {
            PartKind::Language => "Language",
            PartKind::Extlang => "Extlang",
            PartKind::Script => "Script",
            PartKind::Region => "Region",
            PartKind::Variant => "Variant",
            PartKind::Singleton => "Singleton",
            PartKind::ExtensionSubtag => "ExtensionSubtag",
            PartKind::Attribute => "Attribute",
            PartKind::Key => "Key",
            PartKind::Type => "Type",
            PartKind::SourceLanguage => "SourceLanguage",
            PartKind::SourceExtlang => "SourceExtlang",
            PartKind::SourceScript => "SourceScript",
            PartKind::SourceRegion => "SourceRegion",
            PartKind::SourceVariant => "SourceVariant",
            PartKind::Separator => "Separator",
            PartKind::Value => "Value",
            PartKind::PrivateUseSingleton => "PrivateUseSingleton",
            PartKind::PrivateUse => "PrivateUse",
            PartKind::Grandfathered => "Grandfathered",
        }
    }

    /// The kind that a language, extlang, script, region or variant has in the source of a `t` extension: `Language`
    /// becomes `SourceLanguage`. Any other kind stays.
    pub(crate) fn in_source(self) -> PartKind
        ensures { result ≡ spec.in_source self }
    {
        match self {
            PartKind::Language => PartKind::SourceLanguage,
            PartKind::Extlang => PartKind::SourceExtlang,
            PartKind::Script => PartKind::SourceScript,
            PartKind::Region => PartKind::SourceRegion,
            PartKind::Variant => PartKind::SourceVariant,
            kind => kind,
        }
    }
}
