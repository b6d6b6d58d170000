//! What the help of each command says besides its words: what it does, an example, its statuses, and where the manual is.

/// What a command's help says at the top (`about`), and below the list of its arguments (`after`).
pub(crate) struct Help {
    pub(crate) about: &'static str,
    pub(crate) after: &'static str,
}

pub(crate) static LANGTAG: Help = Help {
    about: "Checks language tags (BCP 47, RFC 5646) and makes them canonical",
    after: "\
Example:
    $ printf 'zh-yue\\nen_US\\n' | langtag canon registry.txt
    yue
    ! BadByte 1

Status:
  0  all was done
  1  a tag was refused, two tags are different, steps are wrong,
     or no line was printed
  2  a registry, a table or an upgrade was refused
  3  the command line is wrong
  4  a file, the input, the output or memory failed

langtag help COMMAND says more of a command.
The manual, man langtag, has all of it.",
};

pub(crate) static CLASSIFY: Help = Help {
    about: "Prints the class of a tag and the tag in conventional case",
    after: "\
Example:
    $ langtag classify ZH-hant-tw
    langtag zh-Hant-TW

Status:
  0  the text is a tag
  1  the text is no tag
  3  the command line is wrong
  4  the output or memory failed

The manual, man langtag, says what each fault means.",
};

pub(crate) static CHECK: Help = Help {
    about: "Checks a registry, and prints the number of its entries",
    after: "\
Example:
    $ langtag check registry.txt
    ok 9274

Status:
  0  the registry passed the check
  2  the registry was refused
  3  the command line is wrong
  4  the file, the output or memory failed

The manual, man langtag, says what each fault means.",
};

pub(crate) static CANON: Help = Help {
    about: "Prints the canonical form of each line of the standard input",
    after: "\
A refused line is answered by ! and the fault, with the number of the subtag.

Example:
    $ printf 'zh-yue\\nen_US\\n' | langtag canon registry.txt
    yue
    ! BadByte 1

Status:
  0  each line has a canonical form
  1  a line was refused
  2  the registry was refused
  3  the command line is wrong
  4  a file, the input, the output or memory failed

The manual, man langtag, says what each fault means.",
};

pub(crate) static CODES: Help = Help {
    about: "Does the same as canon, and reads codes of ISO 639-2 too",
    after: "\
Example:
    $ printf 'ger|deu|de|German|allemand\\n' > table.txt
    $ printf 'ger-AT\\n' | langtag codes table.txt registry.txt
    de-AT

Status:
  0  each line has a canonical form
  1  a line was refused
  2  the registry or the table was refused
  3  the command line is wrong
  4  a file, the input, the output or memory failed

The manual, man langtag, says what each fault means.",
};

pub(crate) static TSV: Help = Help {
    about: "Makes the tags in one field of rows with tabs canonical",
    after: "\
Example:
    $ printf '1\\tiw\\n2\\ten_US\\n' | langtag tsv registry.txt 2 | cut -f 2
    he
    en_US

Status:
  0  each tag has a canonical form
  1  a tag was refused
  2  the registry or the table was refused
  3  the command line is wrong, or the column is missing or
     stands twice
  4  a file, the input, the output or memory failed

The manual, man langtag, says what each fault means.",
};

pub(crate) static CSV: Help = Help {
    about: "Makes the tags in one column of CSV canonical",
    after: "\
Example:
    $ printf 'id,tag\\n1,iw\\n2,en_US\\n' | langtag csv registry.txt tag
    id,tag,langtag_fault
    1,he,
    2,en_US,BadByte 1

Status:
  0  each tag has a canonical form
  1  a tag was refused
  2  the registry or the table was refused
  3  the command line is wrong, or the column is missing or
     stands twice
  4  a file, the input, the output or memory failed

The manual, man langtag, says what each fault means.",
};

pub(crate) static MATCH: Help = Help {
    about: "Prints the lines, each a tag, that a language range matches",
    after: "\
Example:
    $ printf 'de-AT\\nen\\n' | langtag match registry.txt de
    de-AT
    $ printf 'en\\nde\\n' | langtag match --accept 'de-CH, en;q=0.5' registry.txt
    de

Status:
  0  a line was printed
  1  no line was printed
  2  the registry was refused
  3  the command line is wrong, or a range or a header was
     refused
  4  a file, the input, the output or memory failed

The manual, man langtag, says how ranges match.",
};

pub(crate) static EXTLANG: Help = Help {
    about: "Prints the canonical form of a tag with its extlang prefix",
    after: "\
Example:
    $ langtag extlang registry.txt yue
    zh-yue

Status:
  0  the tag has a canonical form
  1  the tag was refused
  2  the registry was refused
  3  the command line is wrong
  4  a file, the output or memory failed

The manual, man langtag, says what each fault means.",
};

pub(crate) static EQUAL: Help = Help {
    about: "Tells whether two tags are equivalent",
    after: "\
Example:
    $ langtag equal registry.txt i-klingon tlh
    equal

Status:
  0  the tags are equivalent
  1  the tags are different, or one was refused
  2  the registry was refused
  3  the command line is wrong
  4  a file, the output or memory failed

The manual, man langtag, says what each fault means.",
};

pub(crate) static EXPLAIN: Help = Help {
    about: "Prints the steps from a tag to its canonical form",
    after: "\
A line is a step: its kind, the subtag, the record, and the tag after it.

Example:
    $ langtag explain registry.txt zh-yue
    Extlang 2 8520 yue
    = yue

Status:
  0  the tag has a canonical form
  1  the tag was refused
  2  the registry was refused
  3  the command line is wrong
  4  a file, the output or memory failed

The manual, man langtag, says what each fault means.",
};

pub(crate) static VERIFY: Help = Help {
    about: "Tells whether the standard input explains a tag",
    after: "\
Example:
    $ langtag explain registry.txt zh-yue | langtag verify registry.txt zh-yue
    ok

Status:
  0  the lines explain the tag
  1  they do not, or the tag was refused
  2  the registry was refused
  3  the command line is wrong
  4  a file, the input, the output or memory failed

The manual, man langtag, says what each fault means.",
};

pub(crate) static UPGRADE: Help = Help {
    about: "Tells whether a newer registry keeps tags valid and equivalent",
    after: "\
Example:
    $ langtag upgrade registry.txt registry.txt
    ok

Status:
  0  valid tags stay valid, and equivalent tags stay equivalent
  2  a registry or the upgrade was refused
  3  the command line is wrong
  4  a file, the output or memory failed

The manual, man langtag, says what each fault means.",
};

pub(crate) static SHOW: Help = Help {
    about: "Prints what a registry says of each subtag of a tag",
    after: "\
Example:
    $ langtag show registry.txt en
    en
    1    Language  en  record 39
         Description      English
         Suppress-Script  Latn
    = en

Status:
  0  each tag has a canonical form
  1  a tag was refused
  2  the registry was refused
  3  the command line is wrong
  4  a file, the output or memory failed

The manual, man langtag, says what each fault means.",
};

pub(crate) static JSON: Help = Help {
    about: "Prints each line of the standard input as JSON, with its parts",
    after: "\
Example:
    $ echo sr-latn-rs | langtag json registry.txt | jq -r .script
    Latn

Status:
  0  each line has a canonical form
  1  a line was refused
  2  the registry was refused
  3  the command line is wrong
  4  a file, the input, the output or memory failed

The manual, man langtag, says what each member is.",
};
