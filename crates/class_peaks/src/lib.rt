// The peak of a class, raised to what the class has in use. `w` is the number of words of a class record: edition 1 has no peaks.
#![tactic(auto)]

ghost use Rattle.std.specs.Prelude.{◌≡◌};
ghost use Rattle.class_peaks.specs.Mirror.{lifted_to, peak_lifted, peak_raised};

use class_counting::Tally;

fn lift_to(pool: &mut [u8], w: u8, c: u8, peak: u32, used: u32)
    ensures { pool.new ≡ lifted_to w pool.old c peak used }
{
    if peak < used {
        record_class::put_peak(pool, w, c, used);
    }
}

// By the class's tally, which is lent: no chunk is taken, and the peak follows used.
fn lift_peak(pool: &mut [u8], w: u8, c: u8)
    ensures { pool.new ≡ peak_lifted w pool.old c }
{
    let peak = record_class::get_peak(pool, w, c);
    let counts = cells::get_word(pool, records::place(1, w, c as u16));
    let t = Tally {
        counts,
        asks: 0,
        peak,
    };
    let r = class_counting::raised_by_loan(t, 0, false, false);
    lift_to(pool, w, c, peak, r.peak);
}

pub fn raise_peak(pool: &mut [u8], w: u8, c: u8)
    ensures { pool.new ≡ peak_raised w pool.old c }
{
    if 2 < w {
        lift_peak(pool, w, c);
    }
}
