//! What follows from the forms of `u` and `t` extensions alone. Nothing is computed here: each contract is a law.
#![tactic(auto, using(crate::proofs::PartsLaws::has_parts, crate::proofs::PartsLaws::u_unique, crate::proofs::PartsLaws::t_unique))]

ghost use Rattle.std.specs.Prelude.{ℕ, ◌≡◌, ◌↔◌, List, Some};
ghost use Rattle.lt_tag.specs.Parts.{CoreParts, ExtensionParts, UForm, TForm};
ghost use Rattle.lt_tag.specs.Spelling.{spell_core, IsCore, IsExtension};
ghost use Rattle.lt_tag.specs.Extensions.{unicode, transform, spell_u, IsU, IsUnicode, spell_t, IsT, IsTransform};
ghost use Rattle.lt_tag.specs.Splitting.{core_of_list, unicode_of, transform_of};

/// Every `u` extension has parts that spell it.
pub fn unicode_has_parts()
    ensures { (extension : ExtensionParts) → IsExtension extension → (parts : UForm) × IsUnicode extension.subtags parts }
{}

/// A `u` extension has one way to be split.
pub fn one_unicode()
    ensures { (subtags : List (List ℕ)) (p q : UForm) → IsUnicode subtags p → IsUnicode subtags q → p ≡ q }
{}

/// A `t` extension has at most one way to be split.
pub fn one_transform()
    ensures { (subtags : List (List ℕ)) (p q : TForm) → IsTransform subtags p → IsTransform subtags q → p ≡ q }
{}

/// `core_of_list` decides whether subtags are those of a core: it gives a core exactly if that core has the
/// shape of a core (`IsCore`) and spells them.
pub fn core_is_decided()
    ensures { (subtags : List (List ℕ)) (core : CoreParts) → (core_of_list subtags ≡ Some core) ↔ (IsCore core × (spell_core core ≡ subtags)) }
{}

/// `unicode_of` decides whether subtags are those of a `u` extension: it gives parts exactly if these have their forms
/// and spell the subtags.
pub fn unicode_is_decided()
    ensures { (subtags : List (List ℕ)) (parts : UForm) → (unicode_of subtags ≡ Some parts) ↔ IsUnicode subtags parts }
{}

/// `transform_of` decides whether subtags have the form of a `t` extension: it gives parts exactly if these have their
/// forms and spell the subtags.
pub fn transform_is_decided()
    ensures { (subtags : List (List ℕ)) (parts : TForm) → (transform_of subtags ≡ Some parts) ↔ IsTransform subtags parts }
{}

/// What the parts of a `u` extension spell is an extension, after the singleton `u`.
#[tactic(auto, using(crate::proofs::PartsLemmas::u_extension), unfolding(lt_subtag::specs::Shapes::is_singleton, lt_subtag::specs::Bytes::is_subtag))]
pub fn unicode_is_extension()
    ensures { (parts : UForm) → IsU parts → IsExtension (record { singleton = unicode; subtags = spell_u parts }) }
{}

/// What the parts of a `t` extension spell is an extension, after the singleton `t`.
#[tactic(auto, using(crate::proofs::PartsLemmas::t_extension), unfolding(lt_subtag::specs::Shapes::is_singleton, lt_subtag::specs::Bytes::is_subtag))]
pub fn transform_is_extension()
    ensures { (parts : TForm) → IsT parts → IsExtension (record { singleton = transform; subtags = spell_t parts }) }
{}
