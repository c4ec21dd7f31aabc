// What a page says. A page is a middle part of each lent image, one page long: document 01 names this form, so its length is a clause.
ghost use Rattle.std.specs.Prelude.{◌≡◌, length};
ghost use Rattle.rules.specs.Bytes.{all255};
ghost use Rattle.rules.specs.Page.{erased, page_of};

use super::bytes::all_255;
use super::spare::Marks;
use rules::page::Page;

// The data bytes are asked so many at a time: the first group that differs ends the test.
const GROUP: usize = 64;

// Whether all 512 data bytes are 255.
fn data_erased(page: &[u8]) -> bool
    requires { length page.now ≡ 512 }
    ensures { result ≡ all255 page.now }
{
    page.chunks_exact(GROUP).all(all_255)
}

// Whether all 528 bytes are 255. A programmed page is known by its spare bytes, so those come first; they are sixteen for the compiler too.
pub fn page_erased(page: &[u8], marks: &Marks) -> bool
    requires { length page.now ≡ 512 }
    ensures { result ≡ erased page.now marks.now.bytes.now }
{
    if !all_255(&marks.bytes[0..16]) {
        return false;
    }
    data_erased(page)
}

// Bytes of the table make it an entry, whatever the data bytes are.
pub fn read_page(page: &[u8], marks: &Marks) -> Page
    requires { length page.now ≡ 512 }
    ensures { result ≡ page_of page.now marks.now.bytes.now }
{
    match marks.kind() {
        Some(kind) if marks.in_table() => Page::Entry(marks.number(), kind, marks.address()),
        _ if page_erased(page, marks) => Page::Erased,
        _ => Page::Junk,
    }
}
