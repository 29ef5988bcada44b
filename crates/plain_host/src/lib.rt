// The plain engine for a host that has the table of free runs as its own array: it is lent for the call.
#![tactic(auto)]

ghost use Rattle.std.specs.Prelude.{◌≡◌};
ghost use Rattle.model.specs.Calls.{Alloc, Free};
ghost use Rattle.plain_decide.specs.Calls.{Serves, Formats};
ghost use Rattle.plain_host.specs.Host.{shown, told, reply_with};

use answers::Offset;
use plain::{Answer, Counts, Extent, Kept, PageEntry};

// What a host has.
#[derive(Clone, Copy)]
pub struct Host {
    pub kept: Kept,
    pub runs: [Extent; 12],
}

// The answer of a call: the refusal's number, 0 where it is granted, and the offset or the bytes released.
#[derive(Clone, Copy)]
pub struct Reply {
    pub after: Host,
    pub number: u8,
    pub value: u32,
}

fn reply_with(a: Answer, runs: [Extent; 12]) -> Reply
    ensures { result ≡ reply_with a runs }
{
    Reply {
        after: Host {
            kept: a.after,
            runs,
        },
        number: a.number,
        value: a.value,
    }
}

// One free run of 12 pages.
pub fn format() -> Host
    ensures { Formats (shown result) }
{
    let none = Extent { first: 0, len: 0 };
    let mut runs = [none; 12];
    runs[0] = Extent { first: 0, len: 12 };
    Host {
        kept: plain_engine::format(),
        runs,
    }
}

pub fn alloc(h: Host, chunks: &mut [u8], size: u32) -> Reply
    ensures { Serves (shown h) chunks.old (Alloc size) (told result) chunks.new }
{
    let mut runs = h.runs;
    let a = plain_engine::alloc(h.kept, &mut runs, chunks, size);
    reply_with(a, runs)
}

pub fn free(h: Host, chunks: &mut [u8], at: Offset) -> Reply
    ensures { Serves (shown h) chunks.old (Free at.0) (told result) chunks.new }
{
    let mut runs = h.runs;
    let a = plain_engine::free(h.kept, &mut runs, chunks, at);
    reply_with(a, runs)
}
