//! Pages of trees.

use bx_base::OutOfMemory;
use bx_page::Page;
use bx_page_bytes::PageBytes;
use bx_tests_lines::Line;
use std::alloc::Global;

/// Tells a page twice: its fields as they are found in its bytes, and the bytes as the page that is read of them is written.
pub(crate) fn page(alloc: Global, line: &mut Line, bytes: &[u8]) -> Result<(), OutOfMemory> {
    match PageBytes::read(bytes) {
        None => line.text("none"),
        Some(page) => tell_page(line, &page),
    }
    let Some(page) = Page::read(alloc, bytes)? else {
        line.text(" none");
        return Ok(());
    };
    let mut written = [1; 4096];
    page.write(&mut written);
    line.written(&written, bytes);
    Ok(())
}

/// Tells the fields of a page: its level, its right link, how many bytes are left, its high key, where it has one, and its entries.
fn tell_page(line: &mut Line, page: &PageBytes<'_>) {
    line.numbers(&[u64::from(page.level()), page.right(), page.room() as u64]);
    if let Some(high) = page.high() {
        line.text(" high");
        line.bytes(high);
    }
    let mut entries = page.from(b"");
    for _ in 0..4096 {
        let Some(entry) = entries.next() else {
            break;
        };
        line.text(" /");
        line.bytes(entry.key());
        line.bytes(entry.value());
    }
}
