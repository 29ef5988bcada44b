// Class pages: the number of their list, and what stands in their record.
#![tactic(auto)]

ghost use Rattle.std.specs.Prelude.{◌≡◌};
ghost use Rattle.chunks.specs.Mirror.{list_of, class_links};

use records::{CLASS_PAGE, Links, NO_PAGE, PageNumber};

pub fn list_of(c: u8) -> u8
    ensures { result ≡ list_of c }
{
    ((1 + c as u16) % 256) as u8
}

// A class page that is on no list.
pub fn class_links(c: u8) -> Links
    ensures { result ≡ class_links c }
{
    Links {
        kind: CLASS_PAGE,
        class: c,
        run: 0,
        next: PageNumber(NO_PAGE),
        prev: PageNumber(NO_PAGE),
    }
}
