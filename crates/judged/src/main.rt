// Replays a sample of the judge's answers on the proved functions, with no Rust at hand, and writes how
// many records each entry point has and how many come out otherwise. The file stdin beside src/ is the
// sample, stdout what the judge's side says of it: `oracle/run store` makes both from the original
// Rust over the same trigonometry and from a second reading of document 01's refusals, of GPS times, of
// the turn rule's edition 2, of courses, of the tables, of the run of rejections, of the writer and of
// gate values by bucket.
// Each record has one call: a byte for the entry point, one for the number that it gives, then words.
#![tactic(auto)]

mod logs; // logs.rt: the log
mod numbers; // numbers.rt: wrap and root, trigonometry, the blend
mod records; // records.rt: the filter, the low-pass and the five learners; a record of a log
mod sample; // sample.rt: the words of a record
mod summaries; // summaries.rt: gate values by bucket

use boundary_filter::track_ekf;
use boundary_learners::biquad_filter::track_lowpass;
use boundary_learners::gps_acceleration::track_gps;
use boundary_learners::heading_aligner::track_aligner;
use boundary_learners::orientation_corrector::track_orientation;
use boundary_learners::tilt_estimator::track_tilt;
use boundary_learners::yaw_rate_calibrator::track_yawrate;
use sample::Record;
use std::io::Read;
use std::{fmt, io};

#[derive(Clone, Copy)]
enum Entry {
    Float,
    Trig,
    Ekf,
    Lowpass,
    Orientation,
    Gps,
    Tilt,
    Yawrate,
    Aligner,
    Blend,
    List,
    Replay,
    Append,
    ReplayRecord,
    SummaryAdd,
    SummaryMerge,
    Summarize,
}

// By the byte that stands for each, so that what is counted has its place by it too.
const ENTRIES: [Entry; 17] = [
    Entry::Float,
    Entry::Trig,
    Entry::Ekf,
    Entry::Lowpass,
    Entry::Orientation,
    Entry::Gps,
    Entry::Tilt,
    Entry::Yawrate,
    Entry::Aligner,
    Entry::Blend,
    Entry::List,
    Entry::Replay,
    Entry::Append,
    Entry::ReplayRecord,
    Entry::SummaryAdd,
    Entry::SummaryMerge,
    Entry::Summarize,
];

impl fmt::Display for Entry {
    fn fmt<W: fmt::Write>(&self, f: &mut fmt::Formatter<W>) -> fmt::Result {
        f.write_str(match self {
            Entry::Float => "track_float",
            Entry::Trig => "track_trig",
            Entry::Ekf => "track_ekf",
            Entry::Lowpass => "track_lowpass",
            Entry::Orientation => "track_orientation",
            Entry::Gps => "track_gps",
            Entry::Tilt => "track_tilt",
            Entry::Yawrate => "track_yawrate",
            Entry::Aligner => "track_aligner",
            Entry::Blend => "track_blend",
            Entry::List => "track_list",
            Entry::Replay => "track_replay",
            Entry::Append => "track_append",
            Entry::ReplayRecord => "track_replay_record",
            Entry::SummaryAdd => "track_summary_add",
            Entry::SummaryMerge => "track_summary_merge",
            Entry::Summarize => "track_summarize",
        })
    }
}

impl Entry {
    // Whether the call of a record comes out as the judge says.
    fn replays(self, record: &mut Record<impl Read>) -> bool {
        match self {
            Entry::Float => numbers::float(record),
            Entry::Trig => numbers::trig(record),
            Entry::Ekf => records::operation!(record, track_ekf, records::FILTER),
            Entry::Lowpass => records::operation!(record, track_lowpass, 16),
            Entry::Orientation => records::operation!(record, track_orientation, 19),
            Entry::Gps => records::operation!(record, track_gps, 19),
            Entry::Tilt => records::operation!(record, track_tilt, 14),
            Entry::Yawrate => records::operation!(record, track_yawrate, 37),
            Entry::Aligner => records::operation!(record, track_aligner, 14),
            Entry::Blend => numbers::blend(record),
            Entry::List => logs::list(record),
            Entry::Replay => logs::replay(record),
            Entry::Append => logs::append(record),
            Entry::ReplayRecord => records::record(record),
            Entry::SummaryAdd => summaries::add(record),
            Entry::SummaryMerge => summaries::merge(record),
            Entry::Summarize => summaries::summarize(record),
        }
    }
}

// How many records an entry point has.
#[derive(Clone, Copy)]
struct Tally {
    entry: Entry,
    records: u32,
}

impl Tally {
    fn raise(&mut self) -> Tally {
        self.records = self.records.saturating_add(1);
        *self
    }
}

// The byte for the entry point and the number of the next record, if there is one.
fn head(input: &mut impl Read) -> Option<(u8, u32)> {
    let mut head = [0; 2];
    input.read_exact(&mut head).ok()?;
    let [entry, number] = head;
    Some((entry, u32::from(number)))
}

fn main(rt: HostRuntime) -> io::Result<()> {
    let mut input = rt.reader();
    let mut tallies = ENTRIES.map(|entry| Tally { entry, records: 0 });
    let mut differences = 0u32;
    // Every loop is proved to end, and an input need not: so many records at most.
    for _ in 0..100000u32 {
        let Some((entry, number)) = head(&mut input) else {
            break;
        };
        let Some(tally) = tallies.get_mut(usize::from(entry)) else {
            break;
        };
        let Tally { entry, records } = tally.raise();
        if !entry.replays(&mut Record::new(&mut input, number)) {
            differences = differences.saturating_add(1);
            println!(rt; "{entry}: record {records} differs")?;
        }
    }
    for Tally { entry, records } in tallies {
        println!(rt; "{entry} {records}")?;
    }
    println!(rt; "{differences} differences")
}
