// The load gauge (SPEC 15): a smoothed number of pages in use, and the level above which the panel trips.
#![tactic(auto)]

ghost use Rattle.std.specs.Prelude.{◌≡◌, ◌<◌};
ghost use Rattle.gauge.specs.Gauge.{in_range, usable, takes, fresh, begun, halves, advanced, blank, of_gauge, gauge_in, of_trip, start_outcome, started, sample_outcome, sampled, trip_outcome};

use answers::Refusal;

// The pages of the largest pool: the largest count of a sample.
const MOST: u32 = 4096;

// Samples of a round.
const ROUND: u32 = 40;

// Laid out as `struct dnk_gauge` of the header.
#[repr(C)]
#[derive(Clone, Copy)]
pub struct Gauge {
    // the smoothed number of pages in use
    pub load: f64,
    // the panel trips where the load is above it
    pub level: f64,
    // samples of the round so far
    pub samples: u32,
}

// A gauge with this trip level, at load 0.
pub fn start(level: f64) -> Result<Gauge, Refusal>
    ensures answer { of_gauge result ≡ start_outcome level }
    ensures gauge { gauge_in blank result ≡ started level }
{
    if in_range(level) {
        Ok(fresh(level))
    } else {
        Err(Refusal::OutOfRange)
    }
}

// The gauge after one sample more, a count of pages in use.
pub fn sample(gauge: Gauge, count: u32) -> Result<Gauge, Refusal>
    ensures answer { of_gauge result ≡ sample_outcome gauge count }
    ensures gauge { gauge_in gauge result ≡ sampled gauge count }
{
    if takes(gauge, count) {
        Ok(advanced(begun(gauge), count))
    } else {
        Err(Refusal::OutOfRange)
    }
}

// Whether the load is above the level.
pub fn trips(gauge: Gauge) -> Result<bool, Refusal>
    ensures { of_trip result ≡ trip_outcome gauge }
{
    if usable(gauge) {
        Ok(gauge.level < gauge.load)
    } else {
        Err(Refusal::OutOfRange)
    }
}

// ---- what is refused

// A number from 0 to 4,096.
fn in_range(x: f64) -> bool
    ensures { result ≡ in_range x }
{
    0.0 <= x && x <= 4096.0
}

// Whether a call takes the gauge.
#[tactic(auto, unfolding(crate::specs::Gauge::usable, base::specs::Tests::pick))]
fn usable(gauge: Gauge) -> bool
    ensures { result ≡ usable gauge }
{
    gauge.samples <= ROUND && in_range(gauge.load) && in_range(gauge.level)
}

// Whether the gauge takes a sample of this count.
#[tactic(auto, unfolding(crate::specs::Gauge::takes, base::specs::Tests::pick))]
fn takes(gauge: Gauge, count: u32) -> bool
    ensures { result ≡ takes gauge count }
{
    usable(gauge) && count <= MOST
}

// ---- what a sample does

fn fresh(level: f64) -> Gauge
    ensures { result ≡ fresh level }
{
    Gauge {
        load: 0.0,
        level,
        samples: 0,
    }
}

// The gauge before a sample: after a whole round it restarts at 0.
#[tactic(auto, unfolding(crate::specs::Gauge::begun, base::specs::Tests::pick))]
fn begun(gauge: Gauge) -> Gauge
    ensures { result ≡ begun gauge }
{
    if gauge.samples == ROUND {
        fresh(gauge.level)
    } else {
        gauge
    }
}

// The gauge with one sample more in its round.
#[tactic(auto, unfolding(crate::specs::Gauge::advanced))]
fn advanced(gauge: Gauge, count: u32) -> Gauge
    requires { gauge.samples < 40 }
    ensures { result ≡ advanced gauge count }
{
    Gauge {
        load: halves(gauge.load, count),
        samples: gauge.samples + 1,
        ..gauge
    }
}

// Half the old load plus half the new count.
fn halves(load: f64, count: u32) -> f64
    ensures { result ≡ halves load count }
{
    load / 2.0 + count as f64 / 2.0
}
