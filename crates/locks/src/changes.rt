// Changes of the table. A station number at or past 16 names no station: nothing changes there.
ghost use Rattle.std.specs.Prelude.{◌≡◌, ◌+◌, replicate, if◌then◌else◌, ◌==◌};
ghost use Rattle.std.specs.Fn.{FnOnceReturnsAtMut};
ghost use Rattle.locks.specs.View.{HasRoom, no_station, stamp_at, active_at, member_of};
ghost use Rattle.locks.specs.Changes.{begins, Change, Keeps, Does, change, freed, started, awaiting, granted, again, retired_at, wounded_below};

use crate::set::StationSet;
use crate::station::Station;
use crate::table::{LAST_STAMP, LockTable};
use rules::Mode;
use std::array;

impl LockTable {
    // Station s, if there is one, is changed. The change keeps the room of its hand, and makes no attempt.
    fn change<F: FnOnce(&mut Station)>(&mut self, s: usize, by: F)
        requires callable { (station : _) → HasRoom station.now → F.pre by station }
        requires kept { (f : Change) × Keeps f × Does (λ old new. FnOnceReturnsAtMut F.FnOnce by old tt new) f }
        ensures stations { (f : Change) → Does (λ old new. FnOnceReturnsAtMut F.FnOnce by old tt new) f → self.new.stations ≡ change f s self.old.stations }
        ensures stamps { self.new.next ≡ self.old.next }
        ensures commits { self.new.commits ≡ self.old.commits }
    {
        if s < 16 {
            by(&mut self.stations[s]);
        }
    }

    // A table of idle stations; 0 as the first stamp counts as 1.
    pub fn new(first: u32) -> LockTable
        ensures stations { result.stations ≡ replicate 16 no_station }
        ensures stamps { result.next ≡ (if first == 0 then 1 else first) }
        ensures commits { result.commits ≡ 0 }
    {
        let next = if first == 0 { 1 } else { first };
        LockTable {
            stations: array::from_fn(|_| Station::new()),
            next,
            commits: 0,
        }
    }

    // Station s runs under the next stamp, unless the stamps are used up. Answers that stamp.
    pub fn begin(&mut self, s: usize) -> u32
        ensures stamp { result ≡ self.old.next }
        ensures stations { self.new.stations ≡ (if begins s self.old.next then change (started self.old.next) s self.old.stations else self.old.stations) }
        ensures stamps { self.new.next ≡ (if begins s self.old.next then self.old.next + 1 else self.old.next) }
        ensures commits { self.new.commits ≡ self.old.commits }
    {
        let stamp = self.next;
        if s < 16 && stamp <= LAST_STAMP {
            // Not by `change`, which makes no attempt.
            self.stations[s].start(stamp);
            self.next = stamp + 1;
        }
        stamp
    }

    // The wounded attempt of station s starts again. Answers its stamp.
    pub fn again(&mut self, s: usize) -> u32
        ensures stamp { result ≡ stamp_at self.old.stations s }
        ensures stations { self.new.stations ≡ change again s self.old.stations }
        ensures stamps { self.new.next ≡ self.old.next }
        ensures commits { self.new.commits ≡ self.old.commits }
    {
        let stamp = self.stamp(s);
        self.change(s, |station| station.again());
        stamp
    }

    // The running attempt of station s waits for the record, where its hand has room.
    pub fn wait(&mut self, s: usize, at: u32, mode: Mode)
        ensures stations { self.new.stations ≡ change (awaiting at mode) s self.old.stations }
        ensures stamps { self.new.next ≡ self.old.next }
        ensures commits { self.new.commits ≡ self.old.commits }
    {
        self.change(s, |station| station.wait(at, mode));
    }

    // The hold at a place of station s is retired.
    pub fn retire(&mut self, s: usize, place: usize)
        ensures stations { self.new.stations ≡ change (retired_at place) s self.old.stations }
        ensures stamps { self.new.next ≡ self.old.next }
        ensures commits { self.new.commits ≡ self.old.commits }
    {
        self.change(s, |station| station.retire(place));
    }

    // What station s waits for becomes an owned hold.
    pub fn grant(&mut self, s: usize)
        ensures stations { self.new.stations ≡ change granted s self.old.stations }
        ensures stamps { self.new.next ≡ self.old.next }
        ensures commits { self.new.commits ≡ self.old.commits }
    {
        self.change(s, |station| station.grant());
    }

    // The attempts of the members are wounded.
    pub fn wound(&mut self, members: &StationSet)
        ensures stations { self.new.stations ≡ wounded_below 16 (member_of members.now) self.old.stations }
        ensures stamps { self.new.next ≡ self.old.next }
        ensures commits { self.new.commits ≡ self.old.commits }
    {
        for (s, station) in self.stations.iter_mut().enumerate() {
            if members.contains(s) {
                station.wound();
            }
        }
    }

    // Station s has no attempt any more.
    pub fn free(&mut self, s: usize)
        ensures stations { self.new.stations ≡ change freed s self.old.stations }
        ensures stamps { self.new.next ≡ self.old.next }
        ensures commits { self.new.commits ≡ self.old.commits }
    {
        self.change(s, |station| station.free());
    }

    // The attempt of station s, if there is one, is counted as committed, and the station is idle. Answers the commits so far.
    pub fn commit(&mut self, s: usize) -> u32
        ensures number { result ≡ self.new.commits }
        ensures stations { self.new.stations ≡ change freed s self.old.stations }
        ensures stamps { self.new.next ≡ self.old.next }
        ensures commits { self.new.commits ≡ (if active_at self.old.stations s then self.old.commits + 1 else self.old.commits) }
    {
        let counts = self.has_attempt(s);
        self.free(s);
        if counts {
            self.commits += 1;
        }
        self.commits
    }
}
