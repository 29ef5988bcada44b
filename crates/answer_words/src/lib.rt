// An answer as one word, for C and other languages.
#![tactic(auto)]

ghost use Rattle.std.specs.Prelude.{◌≡◌};
ghost use Rattle.answers.specs.Outcome.{refused, of_format, of_alloc, of_free, of_batch};
ghost use Rattle.answer_words.specs.Word.{word_of};

use answers::{Offset, Refusal};

// The refusal's number in the top byte.
pub fn refusal_word(r: Refusal) -> u64
    ensures { result ≡ word_of (refused r) }
{
    u8::from(r) as u64 * 72057594037927936
}

pub fn formatted_word(f: Result<u16, Refusal>) -> u64
    ensures { result ≡ word_of (of_format f) }
{
    match f {
        Ok(n) => n as u64,
        Err(r) => refusal_word(r),
    }
}

pub fn allocated_word(a: Result<Offset, Refusal>) -> u64
    ensures { result ≡ word_of (of_alloc a) }
{
    match a {
        Ok(at) => at.0 as u64,
        Err(r) => refusal_word(r),
    }
}

pub fn freed_word(f: Result<u32, Refusal>) -> u64
    ensures { result ≡ word_of (of_free f) }
{
    match f {
        Ok(n) => n as u64,
        Err(r) => refusal_word(r),
    }
}

pub fn batched_word(b: Result<(), Refusal>) -> u64
    ensures { result ≡ word_of (of_batch b) }
{
    match b {
        Ok(()) => 0,
        Err(r) => refusal_word(r),
    }
}
