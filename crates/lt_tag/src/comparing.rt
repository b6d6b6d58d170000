//! Equality, order and hash of cores, extensions and tags: those of their parts, one after another. The order is that
//! of the parts' lower-case bytes, with tags without a core first. Each `impl` says by `eq`, `partial_cmp`, `cmp` or
//! `hash_input` what it computes. Its other `ghost` lines are the proofs that the trait asks for.
ghost use Rattle.std.specs.Prelude.{◌≡◌, refl};
ghost use Rattle.std.specs.Option.{option_cmp, option_copied};
ghost use Rattle.std.proofs.Common.{ap};
ghost use Rattle.std.specs.Cmp.Lexicographic.{slice_cmp};
ghost use Rattle.std.specs.Cmp.{eq_by_cmp_equiv, partial_equiv_from_equiv, partial_order_from_total};
ghost use Rattle.std.specs.Ordering.{as_partial_cmp, eq_by_cmp};
ghost use Rattle.lt_tag.specs.Order.{subtag_cmp, list_cmp, core_cmp, extension_cmp, tag_cmp, core_writes, extension_writes, tag_writes};
ghost use Rattle.lt_tag.specs.OrderLaws.{core_total, cores_apart, extension_total, extensions_apart, tag_total, tags_apart, the_same};

use crate::cores::Core;
use crate::extensions::Extension;
use crate::tags::Tag;
use lt_subtag::Subtag;
use std::cmp::Ordering;
use std::hash::{Hash, Hasher};

/// The order of two lists of subtags: that of the first subtags that differ; a list that begins the other comes
/// before it.
fn compare_lists(left: &[Subtag], right: &[Subtag]) -> Ordering
    ensures { result ≡ list_cmp left.now right.now }
{
    left.cmp(right)
}

/// The order of two lists of extensions: that of the first extensions that differ; a list that begins the other
/// comes before it.
fn compare_extensions(left: &[Extension], right: &[Extension]) -> Ordering
    ensures { result ≡ slice_cmp extension_cmp left.now right.now }
{
    left.cmp(right)
}

/// The order of two subtags, each of which may be missing: None comes before any subtag. The clause compares the
/// subtags behind the references.
fn compare_options(left: Option<&Subtag>, right: Option<&Subtag>) -> Ordering
    ensures { result ≡ option_cmp subtag_cmp (option_copied left.entry) (option_copied right.entry) }
{
    left.cmp(&right)
}

/// The order of two cores, each of which may be missing: None comes before any core. The clause compares the cores
/// behind the references.
fn compare_optional_cores(left: Option<&Core>, right: Option<&Core>) -> Ordering
    ensures { result ≡ option_cmp core_cmp (option_copied left.entry) (option_copied right.entry) }
{
    left.cmp(&right)
}

impl PartialEq for Core {
    ghost eq = { eq_by_cmp core_cmp };

    ghost laws = { partial_equiv_from_equiv (eq_by_cmp_equiv core_total) };

    /// Whether all parts are equal.
    fn eq(&self, other: &Core) -> bool {
        self.cmp(other) == Ordering::Equal
    }
}

impl Eq for Core {
    ghost laws = { eq_by_cmp_equiv core_total };
}

impl PartialOrd for Core {
    ghost partial_cmp = { as_partial_cmp core_cmp };

    ghost laws = { partial_order_from_total core_total };

    /// `Some` of what `cmp` gives: any two cores have an order.
    fn partial_cmp(&self, other: &Core) -> Option<Ordering> {
        Some(self.cmp(other))
    }
}

impl Ord for Core {
    ghost cmp = { core_cmp };

    ghost total = { core_total };

    ghost matches_partial_cmp = { λ a b. refl };

    ghost matches_eq = { λ a b. refl };

    /// By language, extlangs, script, region and variants, in this order. A core without a script comes before one
    /// with a script, and so it is with the region.
    fn cmp(&self, other: &Core) -> Ordering {
        self.language()
            .cmp(other.language())
            .then_with(|| compare_lists(self.extlangs(), other.extlangs()))
            .then_with(|| compare_options(self.script(), other.script()))
            .then_with(|| compare_options(self.region(), other.region()))
            .then_with(|| compare_lists(self.variants(), other.variants()))
    }
}

impl Hash for Core {
    ghost hash_input = { core_writes };

    ghost respects_eq = { λ a b h. ap core_writes (the_same cores_apart a b h) };

    /// Feeds the parts to the hasher, in the order in which `cmp` compares them. Equal cores hash alike.
    fn hash<H: Hasher>(&self, state: &mut H) {
        self.language().hash(state);
        self.extlangs().hash(state);
        self.script().hash(state);
        self.region().hash(state);
        self.variants().hash(state);
    }
}

impl PartialEq for Extension {
    ghost eq = { eq_by_cmp extension_cmp };

    ghost laws = { partial_equiv_from_equiv (eq_by_cmp_equiv extension_total) };

    /// Whether the singletons and the subtags are equal.
    fn eq(&self, other: &Extension) -> bool {
        self.cmp(other) == Ordering::Equal
    }
}

impl Eq for Extension {
    ghost laws = { eq_by_cmp_equiv extension_total };
}

impl PartialOrd for Extension {
    ghost partial_cmp = { as_partial_cmp extension_cmp };

    ghost laws = { partial_order_from_total extension_total };

    /// `Some` of what `cmp` gives: any two extensions have an order.
    fn partial_cmp(&self, other: &Extension) -> Option<Ordering> {
        Some(self.cmp(other))
    }
}

impl Ord for Extension {
    ghost cmp = { extension_cmp };

    ghost total = { extension_total };

    ghost matches_partial_cmp = { λ a b. refl };

    ghost matches_eq = { λ a b. refl };

    /// By the singleton, then by the subtags.
    fn cmp(&self, other: &Extension) -> Ordering {
        self.singleton()
            .cmp(&other.singleton())
            .then_with(|| compare_lists(self.subtags(), other.subtags()))
    }
}

impl Hash for Extension {
    ghost hash_input = { extension_writes };

    ghost respects_eq = { λ a b h. ap extension_writes (the_same extensions_apart a b h) };

    /// Feeds the singleton and the subtags to the hasher. Equal extensions hash alike.
    fn hash<H: Hasher>(&self, state: &mut H) {
        self.singleton().hash(state);
        self.subtags().hash(state);
    }
}

impl PartialEq for Tag {
    ghost eq = { eq_by_cmp tag_cmp };

    ghost laws = { partial_equiv_from_equiv (eq_by_cmp_equiv tag_total) };

    /// Whether all parts are equal. Tags of two kinds are never equal.
    fn eq(&self, other: &Tag) -> bool {
        self.cmp(other) == Ordering::Equal
    }
}

impl Eq for Tag {
    ghost laws = { eq_by_cmp_equiv tag_total };
}

impl PartialOrd for Tag {
    ghost partial_cmp = { as_partial_cmp tag_cmp };

    ghost laws = { partial_order_from_total tag_total };

    /// `Some` of what `cmp` gives: any two tags have an order.
    fn partial_cmp(&self, other: &Tag) -> Option<Ordering> {
        Some(self.cmp(other))
    }
}

impl Ord for Tag {
    ghost cmp = { tag_cmp };

    ghost total = { tag_total };

    ghost matches_partial_cmp = { λ a b. refl };

    ghost matches_eq = { λ a b. refl };

    /// By core, extensions, private use and the number of a grandfathered tag, in this order. A tag without a core
    /// comes before any with one.
    fn cmp(&self, other: &Tag) -> Ordering {
        compare_optional_cores(self.core(), other.core())
            .then_with(|| compare_extensions(self.extensions(), other.extensions()))
            .then_with(|| compare_lists(self.private(), other.private()))
            .then_with(|| self.grandfathered().cmp(&other.grandfathered()))
    }
}

impl Hash for Tag {
    ghost hash_input = { tag_writes };

    ghost respects_eq = { λ a b h. ap tag_writes (the_same tags_apart a b h) };

    /// Feeds the parts to the hasher, in the order in which `cmp` compares them. Equal tags hash alike.
    fn hash<H: Hasher>(&self, state: &mut H) {
        self.core().hash(state);
        self.extensions().hash(state);
        self.private().hash(state);
        self.grandfathered().hash(state);
    }
}
