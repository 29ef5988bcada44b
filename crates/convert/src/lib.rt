// From a sound pool of edition 1 into a second slice as edition 2 (SPEC 13).
#![tactic(auto)]

ghost use Rattle.std.specs.Prelude.{◌≡◌, ◌+◌, ◌*◌, ◌≤◌, length};
ghost use Rattle.records.specs.Layout.{pages_from};
ghost use Rattle.answers.specs.Outcome.{of_format};
ghost use Rattle.image.specs.Image.{header_of};
ghost use Rattle.convert.specs.Convert.{convert_outcome, converted};
ghost use Rattle.convert.specs.Mirror.{words_copied, peaks_set, pages_laid, header_set, classes_copied, pages_copied, written};

use answers::Refusal;
use records::{Header, PageNumber};

// Copies n words of the source, `stride` apart from `from` on, to words of the target, `step` apart from `to` on.
fn copy_words(target: &mut [u8], to: u16, step: u8, source: &[u8], from: u16, stride: u8, n: u16)
    ensures { target.new ≡ words_copied to step from stride n source.now target.old }
{
    for i in 0..n {
        let v = cells::get_word(source, records::place(from, stride, i));
        cells::put_word(target, records::place(to, step, i), v);
    }
}

// Each peak is what the class has in use.
fn set_peaks(target: &mut [u8], source: &[u8])
    ensures { target.new ≡ peaks_set source.now target.old }
{
    for c in 0..9 {
        let used = record_class::get_used(source, 2, c);
        record_class::put_peak(target, 3, c, used);
    }
}

fn second_header(pages: u16, h: Header) -> Header
    ensures { result ≡ header_of 3 pages h.free_pages h.first_run.0 }
{
    Header {
        edition: 2,
        min_shift: 3,
        page_shift: 12,
        pages,
        free_pages: h.free_pages,
        first_run: h.first_run,
    }
}

fn set_header(target: &mut [u8], source: &[u8], pages: u16)
    ensures { target.new ≡ header_set pages source.now target.old }
{
    let h = record_header::get_header(source);
    record_header::put_header(target, second_header(pages, h));
}

fn copy_classes(target: &mut [u8], source: &[u8])
    ensures { target.new ≡ classes_copied source.now target.old }
{
    copy_words(target, 1, 3, source, 1, 2, 9);
    copy_words(target, 2, 3, source, 2, 2, 9);
}

fn copy_records(target: &mut [u8], source: &[u8], pages: u16)
    ensures { target.new ≡ pages_copied pages source.now target.old }
{
    copy_words(target, 28, 2, source, 19, 2, pages);
    copy_words(target, 29, 2, source, 20, 2, pages);
}

fn lay_pages(target: &mut [u8], source: &[u8], pages: u16)
    requires { (pages_from 3 pages + 4096 * pages ≤ length target.old) × (pages_from 2 pages + 4096 * pages ≤ length source.now) }
    ensures { target.new ≡ pages_laid pages source.now target.old }
{
    let n = pages as usize;
    copying::copy(target, 224 + 16 * n, source, 152 + 16 * n, 4096 * n);
}

fn write(target: &mut [u8], source: &[u8], pages: u16)
    requires { (pages_from 3 pages + 4096 * pages ≤ length target.old) × (pages_from 2 pages + 4096 * pages ≤ length source.now) }
    ensures { target.new ≡ written pages source.now target.old }
{
    lay_pages(target, source, pages);
    set_peaks(target, source);
    set_header(target, source, pages);
    copy_classes(target, source);
    copy_records(target, source, pages);
}

// Copies a pool of edition 1 into the target as edition 2: the page count, or the refusal. The target's tail stays.
pub fn convert(source: &[u8], target: &mut [u8]) -> Result<u16, Refusal>
    ensures answer { of_format result ≡ convert_outcome source.now target.old }
    ensures slice { target.new ≡ converted source.now target.old }
{
    let pages = calls::sound_pages(source, 2)?;
    if validate_length::page_count(3, target.len()) != pages as usize {
        return Err(Refusal::WrongLength);
    }
    write(target, source, pages);
    Ok(pages)
}
