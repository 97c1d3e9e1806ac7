// What is prepared once a call: N, T and P, the jobs of each kind, the places permitted to them, and the numbering of the table's entries.
#![tactic(auto)]

ghost use Rattle.std.specs.Prelude.{map, ◌≡◌, ℕ, ◌+◌, ◌-◌, ◌*◌, ◌^◌, ◌<◌, ◌≤◌, length, get_or};
ghost use Rattle.std.proofs.lemmas.List.Edits.{sets};
ghost use Rattle.fields.specs.Lists.{tabulate, filled};
ghost use Rattle.queue.specs.Record.{Valid};
ghost use Rattle.sequencing.specs.Lists.{upto};
ghost use Rattle.sequencing.specs.States.{all_left};
ghost use Rattle.sequencing.specs.Entries.{block, entries};
ghost use Rattle.problem.specs.OfQueue.{problem};
ghost use Rattle.jobs_left.specs.Steps.{LeftOf};
ghost use Rattle.layout.specs.Steps.{of_kind, with_blocks, permitted_places, slot_places, Listed};
ghost use Rattle.layout.specs.PlaceSets.{places_from, set_at};
ghost use Rattle.layout.specs.Prepared.{by_kind, by_slot, places_at, kind_by, kind_of, Prepared};

use gaps::GapTable;
use jobs_left::{JobsLeft, Kind};
use queue::{Queue, ValidQueue, Window};

// 01's N, T and P.
#[derive(Clone, Copy)]
pub struct Size {
    pub kinds: usize,
    pub jobs: u32,
    pub block: usize,
}

// What is prepared once a call. Arrays have room for the most: memory is fixed, and there is no heap.
#[derive(Clone, Copy)]
pub struct Layout {
    pub size: Size,
    // What is known of each kind, then zeros.
    pub kinds: [Kind; 5],
    // The jobs kind by kind, each kind by hand-in, then 0.
    pub jobs: [u8; 60],
    // The queue's gaps, told whether any is never.
    pub gaps: GapTable,
    // The places permitted to a kind's job just cut, a slot for each number left of the kind.
    pub places: [Window; 65],
}

// A queue and what is prepared of it.
#[derive(Clone, Copy)]
pub struct Setup {
    pub queue: Queue,
    pub layout: Layout,
    pub ghost valid: { Valid queue },
    pub ghost prepared: { Prepared queue layout },
}

// What fills the array behind the last kind.
const NO_KIND: Kind = Kind {
    count: 0,
    weight: 0,
    stride: 0,
    block: 0,
    begin: 0,
    slot: 0,
};

// What is permitted to a job that was not cut, and fills the array behind the last slot: the last place comes before the first.
const NO_PLACE: Window = Window { first: 1, last: 0 };

// Lists the jobs of a kind by hand-in, from the front of `jobs` on; returns how many there are.
#[tactic(auto, using(crate::proofs::Listing::own_room))]
fn list_kind(job_kinds: &[u8], kind: u8, jobs: &mut [u8]) -> usize
    requires { (length job_kinds.now ≤ 60) × (length (of_kind job_kinds.now kind) ≤ length jobs.old) }
    ensures value { result ≡ length (of_kind job_kinds.now kind) }
    ensures jobs_after { jobs.new ≡ sets jobs.old 0 (of_kind job_kinds.now kind) }
{
    // There is no heap: what a `Vec` would push goes to the next place of the array.
    // `as`, here and below: no `From` goes between these, and nothing is cut off.
    let mut listed: usize = 0;
    for (i, own) in job_kinds.iter().enumerate() {
        if *own == kind {
            jobs[listed] = i as u8 + 1;
            listed += 1;
        }
    }
    listed
}

// Lists the jobs kind by kind, and tells of each kind what is known before P is; returns P.
#[tactic(auto, using(crate::proofs::ByKind::jobs_room, crate::proofs::ByKind::product_fits))]
fn list_jobs(queue: &ValidQueue, kinds: &mut [Kind; 5], jobs: &mut [u8; 60]) -> usize
    ensures value { result ≡ block (problem queue.now.queue) }
    ensures kinds_after { kinds.new ≡ sets kinds.old 0 (map (kind_by queue.now.queue 0) (upto queue.now.queue.kinds)) }
    ensures jobs_after { jobs.new ≡ sets jobs.old 0 (by_kind (problem queue.now.queue)) }
{
    let queue = &queue.queue;
    let job_kinds = &queue.job_kinds[..queue.jobs as usize];
    // A running sum and a running product, which index nothing here but where a kind's jobs begin.
    let mut begin: usize = 0;
    let mut stride: usize = 1;
    for (j, kind) in kinds[..queue.kinds as usize].iter_mut().enumerate() {
        let count = list_kind(job_kinds, j as u8 + 1, &mut jobs[begin..]);
        *kind = Kind {
            count: count as u32,
            weight: queue.weights[j],
            stride,
            block: 0,
            begin,
            slot: begin + j,
        };
        begin += count;
        stride *= count + 1;
    }
    stride
}

// Where each kind's entries begin: P further for each kind.
fn set_blocks(block: usize, kinds: &mut [Kind])
    requires { length kinds.old * block < 2 ^ 64 }
    ensures { kinds.new ≡ with_blocks block 0 kinds.old }
{
    let mut at: usize = 0;
    for kind in kinds.iter_mut() {
        kind.block = at;
        at += block;
    }
}

// The places that a kind's allowed places and the shift permit to a job.
fn permitted_places(job: u8, window: Window, max_shift: u32) -> Window
    ensures { result ≡ permitted_places job window max_shift }
{
    let job = u32::from(job);
    let first = job.saturating_sub(max_shift);
    let last = job.saturating_add(max_shift);
    Window {
        first: window.first.max(first as u8),
        last: u32::from(window.last).min(last) as u8,
    }
}

// The slots of one kind, whose jobs these are: with n left, the n-th last job's; with all left none was cut.
fn set_kind_places(jobs: &[u8], window: Window, max_shift: u32, places: &mut [Window])
    requires { length jobs.now < length places.old }
    ensures { places.new ≡ sets places.old 0 (tabulate (slot_places jobs.now window max_shift) 0 (length jobs.now + 1)) }
{
    // By the number left: what a zip over `iter_mut` writes is not known behind the loop, and the proof did not close.
    for (n, job) in jobs.iter().rev().enumerate() {
        places[n] = permitted_places(*job, window, max_shift);
    }
    places[jobs.len()] = NO_PLACE;
}

// The slots of every kind.
#[tactic(auto, using(crate::proofs::Places::next_kind))]
fn set_places(queue: &ValidQueue, kinds: &[Kind; 5], jobs: &[u8; 60], places: &mut [Window; 65])
    requires { Listed queue.now.queue kinds.now jobs.now }
    ensures { places.new ≡ sets places.old 0 (by_slot (problem queue.now.queue) (places_at queue.now.queue)) }
{
    let queue = &queue.queue;
    for (j, kind) in kinds[..queue.kinds as usize].iter().enumerate() {
        let own = &jobs[kind.begin..kind.begin + kind.count as usize];
        set_kind_places(
            own,
            queue.windows[j],
            queue.max_shift,
            &mut places[kind.slot..],
        );
    }
}

// What is prepared of a queue.
fn lay_out(queue: &ValidQueue) -> Layout
    ensures { Prepared queue.now.queue result }
{
    let mut kinds = [NO_KIND; 5];
    let mut jobs = [0u8; 60];
    let mut places = [NO_PLACE; 65];
    let block = list_jobs(queue, &mut kinds, &mut jobs);
    let number = queue.queue.kinds as usize;
    set_blocks(block, &mut kinds[..number]);
    set_places(queue, &kinds, &jobs, &mut places);
    Layout {
        size: Size {
            kinds: number,
            jobs: queue.queue.jobs,
            block,
        },
        kinds,
        jobs,
        gaps: GapTable::new(queue.queue.gaps),
        places,
    }
}

// Prepares a queue.
pub fn prepare(queue: ValidQueue) -> Setup
    ensures { result.queue ≡ queue.queue }
{
    let layout = lay_out(&queue);
    Setup {
        queue: queue.queue,
        layout,
    }
}

// A place as a set by itself: bit p. No half shifts further than its 32 bits, which a small processor does in one step.
pub fn place_bit(place: u32) -> u64
    requires { place < 64 }
    ensures { result ≡ 2 ^ place }
{
    if place < 32 {
        return u64::from(1u32 << place);
    }
    u64::from(1u32 << (place - 32)) * 4294967296
}

// The places from a first to a last one as a set; none where the last comes before the first, or is past 60.
fn place_range(places: Window) -> u64
    ensures { result ≡ places_from places.first places.last }
{
    let Window { first, last } = places;
    if last < first {
        return 0;
    }
    if 60 < last {
        return 0;
    }
    place_bit(u32::from(last) + 1) - place_bit(u32::from(first))
}

// The places permitted to each kind's job just cut, as sets, in the T + N slots that are used; the others are left alone.
pub fn place_sets(places: &[Window; 65], size: Size, sets: &mut [u64; 65])
    requires { size.jobs + size.kinds ≤ 65 }
    ensures { (i : ℕ) → get_or sets.new i 0 ≡ set_at places.now (size.jobs + size.kinds) sets.old i }
{
    let used = size.jobs as usize + size.kinds;
    // By the slot's number: what a zip over `iter_mut` writes is not known behind the loop, and the proof did not close.
    for (i, slot) in places[..used].iter().enumerate() {
        sets[i] = place_range(*slot);
    }
}

// The entries that a table of this size needs: N times P.
pub fn needed_entries(size: Size) -> u64
    requires { size.kinds * size.block < 2 ^ 64 }
    ensures { result ≡ size.kinds * size.block }
{
    size.kinds as u64 * size.block as u64
}

impl Setup {
    // What is known of the queue's kinds.
    pub fn kinds(&self) -> &[Kind]
        ensures { result.now ≡ map (kind_of self.now.queue) (upto self.now.queue.kinds) }
    {
        &self.layout.kinds[..self.layout.size.kinds]
    }

    // All jobs of the queue left.
    pub fn all_left(&self) -> JobsLeft
        ensures left_value { result.left ≡ filled 5 (all_left (problem self.now.queue)) }
        ensures index_value { result.index ≡ block (problem self.now.queue) - 1 }
        ensures left_of { LeftOf (problem self.now.queue) result }
    {
        let left = self.layout.kinds.map(|kind| kind.count);
        JobsLeft::new(left, self.layout.size.block - 1, self.kinds())
    }

    // The places permitted to each kind's job just cut, as sets, in the T + N slots that are used; the others are left alone. Into the caller's array: one that
    // is answered was copied twice.
    pub fn place_sets(&self, sets: &mut [u64; 65])
        ensures { (i : ℕ) → get_or sets.new i 0 ≡ set_at self.now.layout.places (self.now.queue.jobs + self.now.queue.kinds) sets.old i }
    {
        place_sets(&self.layout.places, self.layout.size, sets);
    }

    // The entries that the table needs: N times P.
    pub fn needed_entries(&self) -> u64
        ensures { result ≡ entries (problem self.now.queue) }
    {
        needed_entries(self.layout.size)
    }
}
