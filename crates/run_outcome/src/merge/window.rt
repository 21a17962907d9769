// Where the entries of merged logs stand that are read next.
ghost use Rattle.std.specs.Prelude.{◌≡◌, ◌≤◌, ◌<◌, length, true, IfOk, IfSome, IfNone, slice_get};
ghost use Rattle.tlm_model.specs.History.{IsNumbered};
ghost use Rattle.run_outcome.specs.Merge.{merged};
ghost use Rattle.run_outcome.specs.Places.{are_whole, entries_of_logs, HasAt, HasNoneBefore, StandsAt};

use entry_log::Log;
use std::alloc::Global;
use tlm_types::Memory;

// Where an entry stands: in which log, and at which index there.
#[derive(Clone, Copy)]
pub(super) struct Place {
    pub(super) log: usize,
    pub(super) index: u64,
}

// Places that were noted ahead, so that a log is read from its first entry to its last. A place is taken
// only where the entry there has the position that is asked for: nothing rests on how it was noted.
#[derive(Drop)]
pub(super) struct Window {
    // The position of the first place.
    first: u64,
    places: Vec<Place>,
    // How many entries of each log were noted so far.
    noted: Vec<u64>,
}

// How many places are noted at a time, so few that their entries are still in the caches when they are
// read.
const PLACES: usize = 512;

impl Window {
    // A window over so many logs, with as many places at least, so that to go through the logs costs
    // little a place.
    pub(super) fn over(alloc: Global, logs: usize) -> Result<Window, Memory>
        ensures { IfOk result (λ window. length window.noted.items ≡ logs) }
    {
        let places = vec![in alloc; Place { log: 0, index: 0 }; logs.max(PLACES)]?;
        let noted = vec![in alloc; 0; logs]?;
        Ok(Window {
            first: 0,
            places,
            noted,
        })
    }

    // The place of the entry of this position.
    #[inline(always)]
    pub(super) fn place_of(&mut self, logs: &[Log], position: u64) -> Place
        requires numbered { IsNumbered (merged (entries_of_logs logs.now)) }
        requires whole { are_whole logs.now ≡ true }
        requires within { position < length (merged (entries_of_logs logs.now)) }
        ensures { StandsAt (entries_of_logs logs.now) position result }
    {
        if let Some(place) = self.noted_at(logs, position) {
            return place;
        }
        self.note_from(logs, position);
        match self.noted_at(logs, position) {
            Some(place) => place,
            None => find(logs, position),
        }
    }

    // The place that was noted for this position, where the entry there has it.
    #[inline(always)]
    fn noted_at(&self, logs: &[Log], position: u64) -> Option<Place>
        requires numbered { IsNumbered (merged (entries_of_logs logs.now)) }
        requires whole { are_whole logs.now ≡ true }
        ensures { IfSome result (StandsAt (entries_of_logs logs.now) position) }
    {
        let ahead = position.checked_sub(self.first)?;
        let place = self.places.get(ahead as usize)?;
        let log = logs.get(place.log)?;
        if place.index < log.len() && log.head(place.index).position == position {
            Some(*place)
        } else {
            None
        }
    }

    // Notes the places of the entries from this position on that are next in their logs.
    #[cold]
    #[inline(never)]
    fn note_from(&mut self, logs: &[Log], position: u64)
        requires { are_whole logs.now ≡ true }
        ensures { self.new.first ≡ position }
    {
        self.first = position;
        for number in 0..logs.len() {
            if let Some(noted) = self.noted.get_mut(number) {
                *noted = note_log(&mut self.places, position, &logs[number], number, *noted);
            }
        }
    }
}

// Notes the places of a log's entries from an index on, up to the first whose position is after those that
// have a place, which are from `first` on. It answers the index of that one.
fn note_log(places: &mut [Place], first: u64, log: &Log, number: usize, from: u64) -> u64
    requires { log.now.whole ≡ true }
    ensures { result ≤ length log.now.entries }
{
    for index in from..log.len() {
        let Some(ahead) = log.head(index).position.checked_sub(first) else {
            continue;
        };
        let Some(place) = places.get_mut(ahead as usize) else {
            return index;
        };
        *place = Place { log: number, index };
    }
    log.len()
}

// The place of the entry of this position, by a search.
#[cold]
fn find(logs: &[Log], position: u64) -> Place
    requires numbered { IsNumbered (merged (entries_of_logs logs.now)) }
    requires whole { are_whole logs.now ≡ true }
    requires within { position < length (merged (entries_of_logs logs.now)) }
    ensures { StandsAt (entries_of_logs logs.now) position result }
{
    for log in 0..logs.len() {
        if let Some(index) = find_in(&logs[log], position) {
            return Place { log, index };
        }
    }
    unreachable!()
}

// The index of a log's entry of this position, where it has one.
fn find_in(log: &Log, position: u64) -> Option<u64>
    requires { log.now.whole ≡ true }
    ensures found { IfSome result (HasAt log.now.entries position) }
    ensures none { IfNone result (HasNoneBefore log.now.entries position (length log.now.entries)) }
{
    for index in 0..log.len() {
        if log.head(index).position == position {
            return Some(index);
        }
    }
    None
}
