// The answers of the calls on a gauge, for C and other languages: a word, and the gauge beside it.
#![tactic(auto)]

ghost use Rattle.std.specs.Prelude.{◌≡◌};
ghost use Rattle.answers.specs.Outcome.{refused};
ghost use Rattle.answer_words.specs.Word.{word_of};
ghost use Rattle.gauge.specs.Gauge.{blank, of_gauge, gauge_in, of_trip};

use answers::Refusal;
use gauge::Gauge;

// What a call answers, and the gauge afterwards; laid out as `struct dnk_gauge_reply` of the header.
#[repr(C)]
#[derive(Clone, Copy)]
pub struct GaugeReply {
    pub answer: u64,
    pub gauge: Gauge,
}

// No gauge: what a refused start leaves.
pub fn blank() -> Gauge
    ensures { result ≡ blank }
{
    Gauge {
        load: 0.0,
        level: 0.0,
        samples: 0,
    }
}

// The reply of a call on the gauge `kept`, which stays where the call is refused.
pub fn gauged_reply(kept: Gauge, gauged: Result<Gauge, Refusal>) -> GaugeReply
    ensures answer { result.answer ≡ word_of (of_gauge gauged) }
    ensures gauge { result.gauge ≡ gauge_in kept gauged }
{
    match gauged {
        Ok(gauge) => GaugeReply { answer: 0, gauge },
        Err(r) => refused_reply(kept, r),
    }
}

fn refused_reply(gauge: Gauge, r: Refusal) -> GaugeReply
    ensures answer { result.answer ≡ word_of (refused r) }
    ensures gauge { result.gauge ≡ gauge }
{
    let answer = answer_words::refusal_word(r);
    GaugeReply { answer, gauge }
}

pub fn tripped_word(t: Result<bool, Refusal>) -> u64
    ensures { result ≡ word_of (of_trip t) }
{
    match t {
        Ok(true) => 1,
        Ok(false) => 0,
        Err(r) => answer_words::refusal_word(r),
    }
}
