//! What a registry says of tags, and what a call does where a growth of memory is refused.
mod growths;
mod showing;

use lt_jar::{Device, Jar, Pieces};
use lt_registry::{Registry, SortedTable};
use lt_show::{RecordsFault, read_records};
use lt_tag::{Tag, read_tag};
use lt_testing::{again, sorted};
use std::alloc::Global;
use std::test::Fail;

/// A file with some of IANA's records.
const FILE: &[u8] = b"File-Date: 2025-05-15
%%
Type: language
Subtag: de
Description: German
Added: 2005-10-16
Suppress-Script: Latn
%%
Type: language
Subtag: zh
Description: Chinese
Scope: macrolanguage
%%
Type: language
Subtag: yue
Description: Yue Chinese
Description: Canto
  nese
%%
Type: extlang
Subtag: yue
Description: Yue Chinese
Preferred-Value: yue
Prefix: zh
Macrolanguage: zh
%%
Type: region
Subtag: DE
Description: Germany
%%
Type: redundant
Tag: zh-yue
Description: Cantonese
Deprecated: 2009-07-29
Preferred-Value: yue
";

/// What is read of a file that a device gives in pieces of a size.
fn read_file(alloc: Global, size: usize) -> Result<(Registry, Jar), RecordsFault> {
    read_records(alloc, &mut Device::new(Pieces::once(FILE, size)))
}

/// The table and the records of the file.
fn table_of_file(alloc: Global) -> Result<(SortedTable, Jar), Fail> {
    let (registry, jar) = match again!(read_file(alloc, 64)) {
        Ok(both) => both,
        Err(_) => return Err(Fail::from("the file is refused")),
    };
    Ok((sorted(alloc, registry)?, jar))
}

/// The tag that a text is read as.
fn tag_of(alloc: Global, text: &str) -> Result<Tag, Fail> {
    Ok(again!(read_tag(alloc, text.as_bytes()))?)
}
