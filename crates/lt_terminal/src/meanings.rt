//! What each fault means, and what to do: the words that the manual has too.

/// The messages that a person may be told: a name that is printed, a colon, a space, what it means, and what to do. A
/// range that is refused is wrong usage and needs none, so BadFirst has none.
const MESSAGES: [&str; 68] = [
    "BadByte: A byte that is no ASCII letter, digit or hyphen: write zh-Hant for zh_Hant; remove quotes, spaces, a byte order mark.",
    "EmptySubtag: Nothing between two hyphens, or an empty text: remove a hyphen too many, or the empty line.",
    "LongSubtag: A subtag of more than 8 letters and digits: put a hyphen where subtags meet.",
    "TooLong: A text of more than 1,024 bytes, which is no tag: see whether line ends are missing.",
    "BadLanguage: The first subtag is no language: begin with a language of 2 to 8 letters, or with x.",
    "Misplaced: A subtag that can't stand where it does: order them: language, extlang, script, region, variants, extensions, x.",
    "Unfinished: The text ends after a singleton or x: add what follows it, or remove it.",
    "UnknownLanguage: The registry lacks the language: correct it (en for eng or English), or get a newer registry.",
    "UnknownExtlang: The registry lacks the extlang: correct it, or get a newer registry.",
    "UnknownScript: The registry lacks the script: correct it, or get a newer registry.",
    "UnknownRegion: The registry lacks the region: correct it (GB for UK), or get a newer registry.",
    "UnknownVariant: The registry lacks the variant: correct it, or get a newer registry.",
    "ExtlangPrefix: The extlang belongs to another language: put it after its language (zh-yue), or leave the language out (yue).",
    "TooManyExtlangs: A second extlang: keep only one.",
    "DuplicateVariant: A variant stands twice: remove one.",
    "DuplicateSingleton: An extension stands twice: join the two, or remove one.",
    "BadTransform: A t extension without its form: mend it: a language, and fields such as m0-names.",
    "ReplacementRepeats: Replacements would repeat the variant that is named: remove one of the variants.",
    "NoColumn: The row has too few fields (tsv, csv): name another column, or mend the row.",
    "BadReturn: A carriage return without a line feed is in the record (csv): end lines with line feeds, or put the field in quotes.",
    "NoSuchStep: The step of the line leads nowhere (verify): mend the line, or name the registry with which the tag was explained.",
    "WrongEnd: The line of the end has another tag than the steps lead to (verify): mend the line, or the steps.",
    "BadStep: The line is that of no step, has another tag than its step leads to, is missing, or comes after the end (verify): mend it.",
    "BadLine: Neither a field, %%, nor a continuation. This is no registry, or not its plain text: get one from https://www.iana.org/assignments/language-subtag-registry/language-subtag-registry, or remove a byte order mark.",
    "NotUtf8: A line that is not UTF-8: convert the file, or unpack it.",
    "LineTooLong: A line of more than 65,536 bytes: it is no registry, or its line feeds are missing.",
    "LeadingContinuation: A continuation with no field before it: remove the spaces that begin the line.",
    "TooManyRecords: Record 100,001: cut the file.",
    "ok 0: There is no entry. This is no registry, or an empty file: get one from https://www.iana.org/assignments/language-subtag-registry/language-subtag-registry.",
    "RepeatedField: Type, Subtag, Tag or Preferred-Value stands twice: keep one.",
    "MissingType: There is no Type: add it.",
    "UnknownType: The Type is none of the seven: mend it.",
    "MissingName: No Subtag, or no Tag where one is wanted: add it.",
    "BadRange: A range without its form: write two subtags of one length with two full stops between them, the lower one first.",
    "BadSubtag: A Subtag without the form of its Type: mend it.",
    "BadTag: A Tag without the form of its Type: mend it.",
    "BadPreferred: A Preferred-Value without the form of its Type: mend it.",
    "BadPrefix: A Prefix that is no list of subtags: mend it.",
    "BadRow: A line of the table of codes has not five fields: see whether it is ISO-639-2_utf-8.txt.",
    "BadCode: A code of the table has not three letters, or in the third field two: mend the line.",
    "RepeatedCode: An earlier line of the table of codes has a code for another language: remove one of the two.",
    "TableTooLong: The table of codes has more than 1,048,576 bytes: see whether it is one.",
    "C1: An earlier record has the same kind and name, or the same tag: remove one of the two.",
    "C2: The value of a language, script or region is not registered as the same kind: register it, or mend the Preferred-Value.",
    "C3: The preferred values lead round in a circle: mend one of them.",
    "C4: An extlang without one Prefix that is a registered language with no value, or it and its value lead to two languages: mend the record.",
    "C5: The value of a variant is not registered, or leads on from a variant to a language: mend the Preferred-Value.",
    "C6: A variant whose value is a language has no Prefix, or one that is no registered language with no value: mend it.",
    "C7: A Prefix of a variant is no langtag, or has extensions or private use: mend it.",
    "C8: A grandfathered record has none of the 26 tags, or its subtags are registered so that its tag is valid by its parts: remove one of them.",
    "C9: The value of a whole tag, or a redundant tag with a value, is no valid langtag without extensions and private use: mend it.",
    "C10: The value of a whole tag leads on to another whole tag, or repeats a variant: mend the Preferred-Value.",
    "C11: The subtags of a redundant tag lead to another tag than its Preferred-Value: mend the Preferred-Value.",
    "C12: A range has a Preferred-Value: remove it.",
    "U1: The newer registry lacks a subtag of the older one, or has no one range that holds a range of it: register it.",
    "U2: In the newer registry a subtag and its older value lead to two subtags: lead both to one.",
    "U3: The newer registry lacks an extlang, or gives it another Prefix or leads it elsewhere: keep what it was.",
    "U4: In the newer registry a variant no longer becomes a language, or has other Prefixes, or becomes another language: keep what it was.",
    "U5: In the newer registry a variant of the older one becomes a language: remove its Preferred-Value.",
    "U6: In the newer registry a whole tag and its older value lead to two canonical tags: lead both to one.",
    "File: A file can't be opened: see whether its name is right, and whether you may read it.",
    "Read: The file or the input can't be read to its end: see whether it is a folder, or closed, or a disk fails.",
    "TooManyTurns: After 10,000,000 reads the input had not ended: write larger pieces, or start the program again.",
    "Write: The output can't be written: see whether it is closed, or the disk is full.",
    "OutOfMemory: No memory was left: end other programs, or use a larger machine.",
    "BadCsv: The record that begins in the line that is named (csv) is within quotes where the input ends, or longer than 16 MiB: close its quotes, or double a quote that stands for itself.",
    "BadTsv: The row in the line that is named (tsv) is longer than 16 MiB: see whether line ends are missing.",
    "Utf16: The input is in UTF-16: convert it to UTF-8, for example with iconv -f UTF-16 -t UTF-8.",
];

/// Whether a message is for the fault that a word names: the word stands before its colon.
fn is_of(message: &[u8], word: &[u8]) -> bool {
    message.starts_with(word) && message[word.len()..].starts_with(b": ")
}

/// The first of some messages that is for the fault that a word names. None if there is none.
pub(crate) fn first_of(messages: &[&'static str], word: &[u8]) -> Option<&'static str> {
    for message in messages {
        if is_of(message.as_bytes(), word) {
            return Some(message);
        }
    }
    None
}

/// What a person is told of the fault that a word names, for example `BadByte` or `C2`: the word, what it means, and what to
/// do. None if the word names no fault.
pub(crate) fn message_of(word: &[u8]) -> Option<&'static str> {
    first_of(&MESSAGES, word)
}

/// What a person is told of the fault that a word names, without its name. None if the word names no fault.
pub(crate) fn meaning_of(word: &[u8]) -> Option<&'static str> {
    let (_, meaning) = message_of(word)?.split_once(": ")?;
    Some(meaning)
}
