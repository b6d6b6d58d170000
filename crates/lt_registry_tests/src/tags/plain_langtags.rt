//! Lists that are langtags without extensions and private use, and others.
use lt_subtag::Subtag;
use lt_tag::is_plain_langtag;
use std::alloc::Global;
use std::test::Fail;

fn is_langtag(alloc: Global, texts: &[&[u8]]) -> Result<bool, Fail> {
    let mut subtags = Vec::new(alloc);
    for text in texts {
        subtags.push(Subtag::read(text)?)?;
    }
    Ok(is_plain_langtag(&subtags))
}

/// Lists of subtags, and whether each spells a langtag of no grandfathered tag.
const LISTS: [(&[&[u8]], bool); 4] = [
    (&[b"ja", b"latn", b"hepburn"], true),
    (&[b"zh", b"min", b"hans"], true),
    (&[b"zh", b"min"], false),
    (&[b"de", b"x", b"a"], false),
];

#[test]
fn lists_of_langtags(rt: HostRuntime) -> Result<(), Fail> {
    for (list, told) in &LISTS {
        assert!(rt; is_langtag(rt.alloc(), list)? == *told);
    }
    Ok(())
}
