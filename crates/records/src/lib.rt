// The records of a pool by value: header, class records and page records, and where they stand.
#![tactic(auto)]

ghost use Rattle.std.specs.Prelude.{◌≡◌, ◌+◌, ◌*◌};
ghost use Rattle.records.specs.Mirror.{free_to, first_run_to, used_to, total_to};
ghost use Rattle.records.specs.Class.{empty_class};

// Where no page is meant: after a list's last page, before its first, and in a link without use.
pub const NO_PAGE: u16 = 65535;

// What a page is.
pub const INSIDE_FREE: u8 = 0;

pub const FIRST_FREE: u8 = 1;

pub const CLASS_PAGE: u8 = 2;

pub const FIRST_TAKEN: u8 = 3;

pub const INSIDE_TAKEN: u8 = 4;

// Bytes: of a page, of a page and its record, of the header, and of one word of the nine class records.
pub const PAGE: u32 = 4096;

pub const PAGE_AND_RECORD: usize = 4112;

pub const HEADER: usize = 8;

pub const CLASS_WORD: usize = 72;

// The most pages of a pool (`max_pages`), and the bytes of one more with their records.
pub const MOST_PAGES: usize = 4096;

pub const TOO_LONG: usize = PAGE_AND_RECORD * (MOST_PAGES + 1);

// Larger blocks are whole pages.
pub const LARGEST_CHUNK: u32 = 2048;

// Tallies stop at the largest number of 32 bits (`most`).
pub const MOST_ASKS: u32 = 4294967295;

// A page by its number, or NO_PAGE.
#[derive(Clone, Copy)]
pub struct PageNumber(pub u16);

#[derive(Clone, Copy)]
pub struct Header {
    pub edition: u8,
    pub min_shift: u8,
    pub page_shift: u8,
    pub pages: u16,
    pub free_pages: u16,
    pub first_run: PageNumber,
}

// `reqs` and `fails` are nginx's names for asks and failures (SPEC 2.3).
#[derive(Clone, Copy)]
pub struct ClassRecord {
    pub first: PageNumber,
    pub used: u32,
    pub total: u32,
    pub reqs: u32,
    pub fails: u32,
}

// A page record but for its chunk map.
#[derive(Clone, Copy)]
pub struct Links {
    pub kind: u8,
    pub class: u8,
    pub run: u16,
    pub next: PageNumber,
    pub prev: PageNumber,
}

// The i-th of the words that stand `step` apart from `from` on.
pub fn place(from: u16, step: u8, i: u16) -> usize
    ensures { result ≡ from + step * i }
{
    from as usize + step as usize * i as usize
}

// ---- a header with one field changed

pub fn free_to(h: Header, n: u16) -> Header
    ensures { result ≡ free_to h n }
{
    Header { free_pages: n, ..h }
}

pub fn first_run_to(h: Header, p: PageNumber) -> Header
    ensures { result ≡ first_run_to h p.0 }
{
    Header { first_run: p, ..h }
}

// ---- a class record without pages, and with one field changed

pub fn empty_class() -> ClassRecord
    ensures { result ≡ empty_class }
{
    ClassRecord {
        first: PageNumber(NO_PAGE),
        used: 0,
        total: 0,
        reqs: 0,
        fails: 0,
    }
}

pub fn used_to(r: ClassRecord, n: u32) -> ClassRecord
    ensures { result ≡ used_to r n }
{
    ClassRecord { used: n, ..r }
}

pub fn total_to(r: ClassRecord, n: u32) -> ClassRecord
    ensures { result ≡ total_to r n }
{
    ClassRecord { total: n, ..r }
}
