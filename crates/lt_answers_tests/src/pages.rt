//! Pages, and what is written on them.
use std::io::Cursor;

/// Room for what a run writes, which then takes no memory for it.
pub type Page = Cursor<[u8; 2048]>;

/// A page on which nothing is written.
pub fn empty_page() -> Page {
    Cursor::new([0; 2048])
}

/// What was written.
pub fn text_of(page: &Page) -> &[u8] {
    let length = page.position() as usize;
    page.get_ref().get(..length).unwrap_or(&[])
}
