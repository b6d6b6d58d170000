//! BCP 47 language tags by a registry of language subtags, for programs in C: the calls of the crate `bcp47` as
//! functions of C. A program in Rattle begins with `bcp47` itself.
//!
//! A call on a [`Handle`] needs it open, which its caller must see to: nothing checks C. A text that does not fit its
//! buffer is not written; the status is then 5, and the length is the one that is needed.
//!
//! In clauses `registry` is what the handle holds: by `requires` the handle is open, and by `kept` it holds the same
//! after the call, which takes the registry out of the handle and puts it back. A text is written to the front of
//! `buffer`; the clauses see the buffer before and after the call (`buffer.old`, `buffer.new`), since the bytes behind
//! the text stay as they were.
#![tactic(auto)]

ghost use Rattle.std.specs.Prelude.{◌≡◌, ◌≤◌, ◌<◌, ◌≢◌, [], Some, None, length, slice_index_or};
ghost use Rattle.sha2.specs.Sha256.{sha256};
ghost use Rattle.lt_rewrite.specs.Names.{name_of};
ghost use Rattle.lt_rewrite.specs.declared.steps.StepKind.{StepKind};
ghost use Rattle.lt_canon.specs.ExplanationTexts.{IsExplanationTextOf};
ghost use Rattle.lt_canon.specs.TextAnswers.{IsExtlangTextOf};
ghost use Rattle.lt_canon.specs.Texts.{IsCanonicalTextOf, IsTextRefusal};
ghost use Rattle.bcp47_c.specs.Ends.{ChecksUpgrade, Classifies, Compares, CountsSteps, Keeps, Opens, Shares, Validates};
ghost use Rattle.bcp47_c.specs.Matches.{Matches};
ghost use Rattle.bcp47_c.specs.Names.{fault_names, status_names};
ghost use Rattle.bcp47_c.specs.Numbers as number_of;
ghost use Rattle.bcp47_c.specs.Outcomes.{Answers, IsDelivered, ended};
ghost use Rattle.bcp47_c.specs.Records.{AreRowsOf, Kept, TellsRecord};
ghost use Rattle.bcp47_c.specs.Serving.{Accepts, Lists, Serves, texts_of};
ghost use Rattle.bcp47_c.specs.Texts.{IsReadingRefusal};
ghost use Rattle.bcp47_c.specs.Traces.{Verifies};

mod blocks;
mod errors;
mod handle;
mod matching;
mod names;
mod numbers;
mod opened;
mod outcomes;
mod parents;
mod parts;
mod posix;
mod records;
mod replacing;
mod serving;
mod steps;
mod texts;
mod traces;

use errors::refuse_registry;
pub use handle::Handle;
use handle::{put, take};
use names::{LAST_FAULT, LAST_STATUS, fault_name, kind_name, status_name};
use numbers::{DONE, OUT_OF_MEMORY};
use opened::Opened;
pub use outcomes::Outcome;
use outcomes::{deliver, ended};
pub use parents::bcp47_write_parent;
pub use parts::{PartNumbers, bcp47_write_part_kind_name, bcp47_write_parts};
pub use posix::bcp47_write_posix;
pub use records::FieldLengths;
pub use replacing::bcp47_write_with;
use sha2::{Digest, Sha256};
use std::alloc::Global;
pub use steps::StepNumbers;
use texts::classify;

/// Opens the registry whose text the bytes are (RFC 5646, 3.1), in a handle that holds nothing: status 0.
///
/// Status 7 says that the bytes are not in the format of a registry, 8 that a record can't be read as an entry, and 9
/// that the entries do not pass the check, with the number of the fault and its line or record. Status 4 says that
/// memory ran out. The handle then still holds nothing, and what is wrong is written to the buffer, for example
/// `jar BadLine line 3`.
#[unsafe(no_mangle)]
pub extern "C" fn bcp47_handle_open(
    alloc: Global,
    handle: &mut Handle,
    bytes: &[u8],
    buffer: &mut [u8],
) -> Outcome
    requires { handle.old.held ≡ None }
    ensures { Opens handle.new.held bytes.now buffer.old buffer.new result }
{
    match Opened::read(alloc, bytes) {
        Ok(opened) => {
            put(handle, opened);
            deliver(ended(DONE), &[], buffer)
        }
        Err(error) => refuse_registry(alloc, error, buffer),
    }
}

/// Lets another handle, `other`, which holds nothing, hold the registry of `handle` too, with the records and the list of tags
/// that are kept with it: status 0. Status 4 says that memory ran out; `other` still holds nothing then.
#[unsafe(no_mangle)]
pub extern "C" fn bcp47_handle_share(alloc: Global, handle: &mut Handle, other: &mut Handle) -> u8
    ghost registry: { Kept }
    requires open { handle.old.held ≡ Some registry }
    requires empty { other.old.held ≡ None }
    ensures kept { handle.new.held ≡ Some registry }
    ensures shared { Shares registry other.new.held result }
{
    let opened = take(alloc, handle);
    let shared = opened.share(alloc);
    put(handle, opened);
    match shared {
        Ok(opened) => {
            put(other, opened);
            DONE
        }
        Err(_) => OUT_OF_MEMORY,
    }
}

/// Keeps the records of bytes with a registry (RFC 5646, 3.1.1), in place of those that were kept: status 0. The
/// bytes are meant to be those from which the registry was opened, but this is not checked.
///
/// Status 7 says that the bytes are not in the format, and 4 that memory ran out. The handle then keeps what it had.
#[unsafe(no_mangle)]
pub extern "C" fn bcp47_handle_keep(alloc: Global, handle: &mut Handle, bytes: &[u8]) -> u8
    ghost registry: { Kept }
    requires { handle.old.held ≡ Some registry }
    ensures { Keeps registry handle.new.held bytes.now result }
{
    let mut opened = take(alloc, handle);
    let status = opened.keep(alloc, bytes);
    put(handle, opened);
    status
}

/// Closes a registry: the handle holds nothing then. What it held is freed if no other handle holds it too.
#[unsafe(no_mangle)]
pub extern "C" fn bcp47_handle_close(alloc: Global, handle: &mut Handle)
    ghost registry: { Kept }
    requires { handle.old.held ≡ Some registry }
    ensures { handle.new.held ≡ None }
{
    drop(take(alloc, handle));
}

/// How many entries the registry has: one for each record but the header.
#[unsafe(no_mangle)]
pub extern "C" fn bcp47_handle_entries(alloc: Global, handle: &mut Handle) -> usize
    ghost registry: { Kept }
    requires { handle.old.held ≡ Some registry }
    ensures kept { handle.new.held ≡ Some registry }
    ensures count { result ≡ length registry.entries }
{
    let opened = take(alloc, handle);
    let count = opened.count();
    put(handle, opened);
    count
}

/// Writes the SHA-256 digest of bytes (FIPS 180-4), which has 32 bytes: status 0, or 5 if the buffer is shorter.
#[unsafe(no_mangle)]
pub extern "C" fn bcp47_digest(bytes: &[u8], buffer: &mut [u8]) -> Outcome
    ensures { IsDelivered (ended 0) (sha256 bytes.now) buffer.old buffer.new result }
{
    let digest = Sha256::digest(bytes);
    deliver(ended(DONE), &digest, buffer)
}

/// Writes the canonical text of the tag that a text is read as (RFC 5646, 4.5): status 0, and `yue` for `zh-yue`.
///
/// Status 1 says that the text is no tag, and 2 that the tag is not valid, both with the number of the fault and its
/// place. Status 3 says that steps can repeat a variant; the variant is written to the buffer. Status 4 says that
/// memory ran out.
#[unsafe(no_mangle)]
pub extern "C" fn bcp47_handle_canonical(
    alloc: Global,
    handle: &mut Handle,
    text: &[u8],
    buffer: &mut [u8],
) -> Outcome
    ghost registry: { Kept }
    requires { handle.old.held ≡ Some registry }
    ensures kept { handle.new.held ≡ Some registry }
    ensures answer { Answers (IsCanonicalTextOf registry.entries text.now) (IsTextRefusal registry.entries text.now) buffer.old buffer.new result }
{
    let mut opened = take(alloc, handle);
    let outcome = opened.canonical(alloc, text, buffer);
    put(handle, opened);
    outcome
}

/// Writes the text of the extlang form of the tag that a text is read as (RFC 5646, 4.5): `zh-cmn-Hans` for
/// `cmn-Hans`. The statuses are those of `bcp47_handle_canonical`.
#[unsafe(no_mangle)]
pub extern "C" fn bcp47_handle_extlang(
    alloc: Global,
    handle: &mut Handle,
    text: &[u8],
    buffer: &mut [u8],
) -> Outcome
    ghost registry: { Kept }
    requires { handle.old.held ≡ Some registry }
    ensures kept { handle.new.held ≡ Some registry }
    ensures answer { Answers (IsExtlangTextOf registry.entries text.now) (IsTextRefusal registry.entries text.now) buffer.old buffer.new result }
{
    let mut opened = take(alloc, handle);
    let outcome = opened.extlang(alloc, text, buffer);
    put(handle, opened);
    outcome
}

/// Writes the text, in conventional case (RFC 5646, 2.1.1), of the tag that a text is read as, and answers its
/// class as the detail: 1 for a langtag, 2 for private use, 3 for a grandfathered tag (RFC 5646, 2.1). Status 1
/// says that the text is no tag, with the number of the fault and its place, and 4 that memory ran out.
#[unsafe(no_mangle)]
pub extern "C" fn bcp47_handle_classify(
    alloc: Global,
    handle: &mut Handle,
    text: &[u8],
    buffer: &mut [u8],
) -> Outcome
    ghost registry: { Kept }
    requires { handle.old.held ≡ Some registry }
    ensures kept { handle.new.held ≡ Some registry }
    ensures answer { Classifies text.now buffer.old buffer.new result }
{
    let mut opened = take(alloc, handle);
    let outcome = opened.classify(alloc, text, buffer);
    put(handle, opened);
    outcome
}

/// Does what `bcp47_handle_classify` does, without a registry.
#[unsafe(no_mangle)]
pub extern "C" fn bcp47_classify_text(alloc: Global, text: &[u8], buffer: &mut [u8]) -> Outcome
    ensures { Classifies text.now buffer.old buffer.new result }
{
    classify(alloc, text, &mut Vec::new(alloc), buffer)
}

/// Writes the explanation of the tag that a text is read as (RFC 5646, 4.5): a line for each step to its canonical form, with
/// the tag to which the step leads, and a line for that form. A line feed ends each line. The statuses are those of
/// `bcp47_handle_canonical`.
#[unsafe(no_mangle)]
pub extern "C" fn bcp47_handle_explain(
    alloc: Global,
    handle: &mut Handle,
    text: &[u8],
    buffer: &mut [u8],
) -> Outcome
    ghost registry: { Kept }
    requires { handle.old.held ≡ Some registry }
    ensures kept { handle.new.held ≡ Some registry }
    ensures answer { Answers (IsExplanationTextOf registry.entries text.now) (IsTextRefusal registry.entries text.now) buffer.old buffer.new result }
{
    let opened = take(alloc, handle);
    let outcome = opened.explain(alloc, text, buffer);
    put(handle, opened);
    outcome
}

/// Writes what the registry has for the parts of the tag that a text is read as, in order, with the fields of the records that
/// are kept: an array of JSON (RFC 8259) of objects with the members `place`, `kind`, `text`, `listing` (`Record`, `Unregistered`
/// or `Unlisted`), `record` (its number, or null) and `fields`, an array of objects with a `name` and a `body`. A tag that is
/// registered as redundant has an object for the whole of it first. The tag need not be valid.
///
/// Status 1 says that the text is no tag, with the number of the fault and its place; 4 that memory ran out.
#[unsafe(no_mangle)]
pub extern "C" fn bcp47_handle_show(
    alloc: Global,
    handle: &mut Handle,
    text: &[u8],
    buffer: &mut [u8],
) -> Outcome
    ghost registry: { Kept }
    requires { handle.old.held ≡ Some registry }
    ensures kept { handle.new.held ≡ Some registry }
    ensures answer { Answers (AreRowsOf registry.entries registry.records text.now) (IsReadingRefusal text.now) buffer.old buffer.new result }
{
    let opened = take(alloc, handle);
    let outcome = opened.show(alloc, text, buffer);
    put(handle, opened);
    outcome
}

/// Counts the steps in the explanation of the tag that a text is read as: status 0, and their number as the place. The
/// other statuses are those of `bcp47_handle_canonical`. Only the variant of status 3 is written to the buffer.
#[unsafe(no_mangle)]
pub extern "C" fn bcp47_handle_count_steps(
    alloc: Global,
    handle: &mut Handle,
    text: &[u8],
    buffer: &mut [u8],
) -> Outcome
    ghost registry: { Kept }
    requires { handle.old.held ≡ Some registry }
    ensures kept { handle.new.held ≡ Some registry }
    ensures answer { CountsSteps registry.entries text.now buffer.old buffer.new result }
{
    let opened = take(alloc, handle);
    let outcome = opened.count_steps(alloc, text, buffer);
    put(handle, opened);
    outcome
}

/// Writes the fields of one of the records that are kept (RFC 5646, 3.1.1), and answers how many fields there are as
/// the place: status 0. `number` is that of the record, counted from 1 with the header. The name and the body of each
/// field are written to the buffer, with a zero after each, and their lengths to `room`. A record that is not there has
/// no fields.
///
/// If the lengths do not fit the room, or the texts the buffer, nothing is written, and the status is 5. Status 4 says
/// that memory ran out.
#[unsafe(no_mangle)]
pub extern "C" fn bcp47_handle_record(
    alloc: Global,
    handle: &mut Handle,
    number: u32,
    buffer: &mut [u8],
    room: &mut [FieldLengths],
) -> Outcome
    ghost registry: { Kept }
    requires { handle.old.held ≡ Some registry }
    ensures kept { handle.new.held ≡ Some registry }
    ensures answer { TellsRecord registry.records number room.old room.new buffer.old buffer.new result }
{
    let opened = take(alloc, handle);
    let outcome = opened.record(alloc, number, buffer, room);
    put(handle, opened);
    outcome
}

/// Whether steps lead, one after another, from the tag that `text` is read as, which is valid, to the tag that `last` is read
/// as, which is then equivalent to it (RFC 5646, 4.5): status 0.
///
/// Status 1 says that one of the texts is no tag, `text` or else `last`, and 2 that the tag of `text` is not valid,
/// both with the number of the fault and its place. Status 11 says that a step does not lead on; the place is its
/// number, counted from 1. Status 12 says that the steps lead to another tag than that of `last`, and 4 that memory ran
/// out.
#[unsafe(no_mangle)]
pub extern "C" fn bcp47_handle_verify(
    alloc: Global,
    handle: &mut Handle,
    text: &[u8],
    steps: &[StepNumbers],
    last: &[u8],
) -> Outcome
    ghost registry: { Kept }
    requires { handle.old.held ≡ Some registry }
    ensures kept { handle.new.held ≡ Some registry }
    ensures answer { Verifies registry.entries text.now steps.now last.now result }
{
    let opened = take(alloc, handle);
    let outcome = opened.verify(alloc, text, steps, last);
    put(handle, opened);
    outcome
}

/// Whether the tag that a text is read as is valid (RFC 5646, 2.2.9): status 0. Status 1 says that the text is
/// no tag, 2 that the tag is not valid, both with the number of the fault and its place; 4 that memory ran out.
#[unsafe(no_mangle)]
pub extern "C" fn bcp47_handle_validate(alloc: Global, handle: &mut Handle, text: &[u8]) -> Outcome
    ghost registry: { Kept }
    requires { handle.old.held ≡ Some registry }
    ensures kept { handle.new.held ≡ Some registry }
    ensures answer { Validates registry.entries text.now result }
{
    let opened = take(alloc, handle);
    let outcome = opened.validate(alloc, text);
    put(handle, opened);
    outcome
}

/// Whether the tags that two texts are read as are equivalent (RFC 5646, 4.5): status 0, or 6 if they are not.
///
/// Status 1 says that a text is no tag, the first or else the second. Status 2 or 3 says that a tag is refused as by
/// `bcp47_handle_canonical`, the first or else the second, and 4 that memory ran out. Only the variant of status 3 is
/// written to the buffer.
#[unsafe(no_mangle)]
pub extern "C" fn bcp47_handle_equal(
    alloc: Global,
    handle: &mut Handle,
    first: &[u8],
    second: &[u8],
    buffer: &mut [u8],
) -> Outcome
    ghost registry: { Kept }
    requires { handle.old.held ≡ Some registry }
    ensures kept { handle.new.held ≡ Some registry }
    ensures answer { Compares registry.entries first.now second.now buffer.old buffer.new result }
{
    let opened = take(alloc, handle);
    let outcome = opened.equal(alloc, first, second, buffer);
    put(handle, opened);
    outcome
}

/// Whether a language range matches a tag (RFC 4647), by the scheme of a number: 1 for basic filtering (3.3.1), 2 for
/// extended filtering (3.3.2), 3 for lookup (3.4), by which a range matches the tag that it is or becomes when it is
/// cut from its end. The status is 0 if the range matches, and 6 if not. Both are matched by their extlang forms (RFC
/// 5646, 4.5), so that `zh` and `zh-yue` match `yue-HK`. A range that is no valid tag has no such form; its first
/// subtag is matched by its own extlang form, if it has one: `yue-*` matches `zh-yue-HK`.
///
/// If one of the two is refused, the outcome's `text` says which, 1 for the range and 2 for the tag:
///
/// - Status 1 with 1: the range is neither a valid tag nor a range (RFC 4647, 2.2); the detail is the number of the
///   fault of the leftmost piece that has one. Status 3 with 1: steps can repeat a variant of the range; the variant
///   is written to the buffer.
/// - Status 1, 2 or 3 with 2: the range passes, but the tag is refused as by `bcp47_handle_canonical`.
/// - Status 4: memory ran out. Status 14: the number is that of no scheme.
#[unsafe(no_mangle)]
pub extern "C" fn bcp47_handle_match(
    alloc: Global,
    handle: &mut Handle,
    scheme: u32,
    range: &[u8],
    tag: &[u8],
    buffer: &mut [u8],
) -> Outcome
    ghost registry: { Kept }
    requires { handle.old.held ≡ Some registry }
    ensures kept { handle.new.held ≡ Some registry }
    ensures answer { Matches registry.entries scheme range.now tag.now buffer.old buffer.new result }
{
    let opened = take(alloc, handle);
    let outcome = opened.matches(alloc, scheme, range, tag, buffer);
    put(handle, opened);
    outcome
}

/// Keeps a list of tags with a registry, in place of the one that was kept: status 0. The tags are texts of these lengths,
/// which stand one after another in `texts`.
///
/// If one of the tags is refused, the status, the detail and the place are those of `bcp47_handle_canonical` for the
/// first such tag, and the outcome's `text` is its number, counted from 1; no variant is written. Status 4 says that
/// memory ran out. The handle then keeps the list that it had.
#[unsafe(no_mangle)]
pub extern "C" fn bcp47_handle_list(
    alloc: Global,
    handle: &mut Handle,
    texts: &[u8],
    lengths: &[usize],
) -> Outcome
    ghost registry: { Kept }
    requires { handle.old.held ≡ Some registry }
    ensures { Lists registry (texts_of lengths.now texts.now) handle.new.held result }
{
    let mut opened = take(alloc, handle);
    let outcome = opened.list(alloc, texts, lengths);
    put(handle, opened);
    outcome
}

/// Which tag of the list that is kept is served for an Accept-Language header (RFC 9110, 12.5.4): status 0, with 1 as
/// the detail and the place of the tag in the list, counted from 0. If no range serves a tag, the detail is 0. Ranges
/// and tags are matched by their extlang forms (RFC 5646, 4.5).
///
/// Status 18 says that the text is no header, with the number of the fault, and as the place the number of the list
/// element, counted from 1. Status 3 says that steps can repeat a variant of one of the ranges, and 4 that memory ran
/// out.
#[unsafe(no_mangle)]
pub extern "C" fn bcp47_handle_best(alloc: Global, handle: &mut Handle, header: &[u8]) -> Outcome
    ghost registry: { Kept }
    requires { handle.old.held ≡ Some registry }
    ensures kept { handle.new.held ≡ Some registry }
    ensures answer { Serves registry.entries registry.lists header.now result }
{
    let opened = take(alloc, handle);
    let outcome = opened.best(alloc, header);
    put(handle, opened);
    outcome
}

/// Writes the places, counted from 0, of those tags of the kept list that an Accept-Language header accepts to the
/// front of `places`, from the greatest weight to the least (RFC 9110, 12.5.4): status 0, and as the outcome's place
/// how many there are. If they do not fit, none is written, and the status is 5 with the same number. The other
/// statuses are those of `bcp47_handle_best`.
#[unsafe(no_mangle)]
pub extern "C" fn bcp47_handle_filter(
    alloc: Global,
    handle: &mut Handle,
    header: &[u8],
    places: &mut [usize],
) -> Outcome
    ghost registry: { Kept }
    requires { handle.old.held ≡ Some registry }
    ensures kept { handle.new.held ≡ Some registry }
    ensures answer { Accepts registry.entries registry.lists header.now places.old places.new result }
{
    let opened = take(alloc, handle);
    let outcome = opened.accepted(alloc, header, places);
    put(handle, opened);
    outcome
}

/// Tells whether the registry that the handle `newer` holds upgrades an older one: the outcome is that of
/// `bcp47_handle_upgrade_check`. The handle must hold a registry, and holds it afterwards too.
fn check_newer(alloc: Global, older: &Opened, newer: &mut Handle) -> Outcome
    ghost registry: { Kept }
    requires { newer.old.held ≡ Some registry }
    ensures kept { newer.new.held ≡ Some registry }
    ensures answer { ChecksUpgrade older.now.entries registry.entries result }
{
    let opened = take(alloc, newer);
    let outcome = older.upgrade_check(alloc, &opened);
    put(newer, opened);
    outcome
}

/// Whether a newer registry upgrades an older one: status 0. Status 10 says that it does not, with the number of the
/// condition that is not met and that of the record at fault, and 4 that memory ran out.
#[unsafe(no_mangle)]
pub extern "C" fn bcp47_handle_upgrade_check(
    alloc: Global,
    older: &mut Handle,
    newer: &mut Handle,
) -> Outcome
    ghost registry: { Kept × Kept }
    requires older { older.old.held ≡ Some registry.0 }
    requires newer { newer.old.held ≡ Some registry.1 }
    ensures kept { older.new.held ≡ Some registry.0 }
    ensures kept_newer { newer.new.held ≡ Some registry.1 }
    ensures answer { ChecksUpgrade registry.0.entries registry.1.entries result }
{
    let opened = take(alloc, older);
    let outcome = check_newer(alloc, &opened, newer);
    put(older, opened);
    outcome
}

/// Writes the name of a status, 0 to 12, for example `NotATag` for 1 (`named`); nothing for another number (`none`),
/// since `bindings/c/names.c` names the greater ones.
#[unsafe(no_mangle)]
pub extern "C" fn bcp47_write_status_name(status: u8, buffer: &mut [u8]) -> Outcome
    ensures named { status ≤ 12 → IsDelivered (ended 0) (slice_index_or status_names status []) buffer.old buffer.new result }
    ensures none { 12 < status → IsDelivered (ended 0) [] buffer.old buffer.new result }
{
    let name = if status <= LAST_STATUS {
        status_name(status)
    } else {
        ""
    };
    deliver(ended(DONE), name.as_bytes(), buffer)
}

/// Writes the name of a fault, 0 to 55, as the program prints it: `BadByte` for 3; nothing for another number.
#[unsafe(no_mangle)]
pub extern "C" fn bcp47_write_fault_name(fault: u8, buffer: &mut [u8]) -> Outcome
    ensures named { fault ≤ 55 → IsDelivered (ended 0) (slice_index_or fault_names fault []) buffer.old buffer.new result }
    ensures none { 55 < fault → IsDelivered (ended 0) [] buffer.old buffer.new result }
{
    let name = if fault <= LAST_FAULT {
        fault_name(fault)
    } else {
        ""
    };
    deliver(ended(DONE), name.as_bytes(), buffer)
}

/// Writes the name of a kind of step, 1 to 14, as the program prints it: `Extlang` for 1 (`named`, where `k` is the
/// kind with this number); nothing for a number that no kind has (`none`).
#[unsafe(no_mangle)]
pub extern "C" fn bcp47_write_kind_name(kind: u8, buffer: &mut [u8]) -> Outcome
    ensures named { (k : StepKind) → kind ≡ number_of.step_kind k → IsDelivered (ended 0) (name_of k) buffer.old buffer.new result }
    ensures none { ((k : StepKind) → kind ≢ number_of.step_kind k) → IsDelivered (ended 0) [] buffer.old buffer.new result }
{
    deliver(ended(DONE), kind_name(kind).as_bytes(), buffer)
}
