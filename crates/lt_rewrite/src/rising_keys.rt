//! A quick test of a `u` extension for its normal form (RFC 6067, 2.1.1): it has only keywords, their keys rise, and
//! none has a type `true`. Such an extension need not be split into parts, which would take memory.
ghost use Rattle.std.specs.Prelude.{◌≡◌, None};
ghost use Rattle.lt_rewrite.specs.RisingKeys as rising;

use lt_subtag::Subtag;
use std::cmp::Ordering;

/// Whether a key comes after the last one in the order of keys (RFC 6067, 2.1.1). True of the first key, which has none
/// before it.
fn comes_after(last: &Option<Subtag>, key: &Subtag) -> bool
    ensures { result ≡ rising.comes_after last.now key.now }
{
    match last {
        Some(last) => matches!(key.cmp(last), Ordering::Greater),
        None => true,
    }
}

/// Whether a subtag of a `u` extension is long enough for a type, which has 3 letters or digits at least (RFC 6067,
/// 2.1), and is not `true`, which a step may drop.
#[tactic(auto, unfolding(lt_tag::specs::Extensions::is_long))]
fn is_type(subtag: &Subtag) -> bool
    ensures { result ≡ rising.is_type subtag.now }
{
    3 <= subtag.bytes().len() && subtag.bytes() != b"true".as_slice()
}

/// The last key of a `u` extension once one more subtag is read. That is the subtag if it is a key after the last one
/// in the order of keys (RFC 6067, 2.1.1), or the last key if the subtag is a type other than `true`. `last` is None
/// before the first key. None for any other subtag, for example a key that is not after the last one, a type `true`, or
/// an attribute before the first key: then the extension may not be in its normal form.
pub fn next_key(last: Option<Subtag>, subtag: Subtag) -> Option<Subtag>
    ensures { result ≡ rising.next_key last subtag }
{
    if subtag.is_key() {
        if comes_after(&last, &subtag) {
            Some(subtag)
        } else {
            None
        }
    } else if is_type(&subtag) {
        last
    } else {
        None
    }
}

/// Whether the subtags of a `u` extension are keywords with rising keys, none of which has a type `true`. Then the
/// extension is in its normal form; one that fails this test may be so too.
pub(crate) fn keys_rise(subtags: &[Subtag]) -> bool
    ensures { result ≡ rising.keys_rise None subtags.now }
{
    let mut last = None;
    for subtag in subtags {
        let Some(key) = next_key(last, subtag.copy()) else {
            return false;
        };
        last = Some(key);
    }
    true
}
