// Questions to the whole table. A station number at or past 16 is an idle station in each.
ghost use Rattle.std.specs.Prelude.{◌≡◌, ◌<◌, ◌≤◌, true, length, IfSome, MatchOption, slice_index_or};
ghost use Rattle.rules.specs.Searches.{any_below};
ghost use Rattle.rules.specs.Tables.{older, is_wounded, conflicts, hold_on};
ghost use Rattle.rules.specs.Operations.{bonds, behind_bond};
ghost use Rattle.locks.specs.View.{bare, no_station, hand_at, stamp_at, active_at};
ghost use Rattle.locks.specs.Asked.{binds_on, hold_at};

use crate::station::{Hold, Station};
use crate::table::LockTable;
use rules::Mode;

impl LockTable {
    // The stamp of station i; 0 where there is none.
    pub(crate) fn stamp(&self, i: usize) -> u32
        ensures { result ≡ stamp_at self.now.stations i }
    {
        self.stations.get(i).map_or(0, Station::stamp)
    }

    // Whether there is an attempt at station i.
    pub(crate) fn has_attempt(&self, i: usize) -> bool
        ensures { result ≡ active_at self.now.stations i }
    {
        self.stations.get(i).map_or(false, Station::has_attempt)
    }

    // Whether the attempt of station i was wounded.
    pub fn is_wounded(&self, i: usize) -> bool
        ensures { result ≡ is_wounded (bare self.now.stations i).phase }
    {
        self.stations.get(i).map_or(false, Station::is_wounded)
    }

    // How many records station i holds: the next hold comes to that place.
    pub fn held(&self, i: usize) -> usize
        ensures within { result ≤ 16 }
        ensures held { result ≡ length (hand_at self.now.stations i) }
    {
        self.stations.get(i).map_or(0, |station| station.hand.len())
    }

    // The hold at a place of station i, if the place is in use.
    pub fn hold(&self, i: usize, place: usize) -> Option<Hold>
        ensures { result ≡ hold_at (slice_index_or self.now.stations i no_station) place }
    {
        self.stations.get(i)?.hand.get(place).copied()
    }

    // Whether station j is older than station i.
    pub fn older(&self, j: usize, i: usize) -> bool
        ensures { result ≡ older (bare self.now.stations) j i }
    {
        self.stamp(j) < self.stamp(i)
    }

    // Whether station j holds the record in a mode that conflicts.
    pub(crate) fn conflicts_on(&self, j: usize, at: u32, mode: Mode) -> bool
        ensures { result ≡ conflicts mode (hold_on at (bare self.now.stations j).hand) }
    {
        self.stations
            .get(j)
            .map_or(false, |station| station.conflicts_on(at, mode))
    }

    // Whether station j is older than station i and holds the record in a mode that conflicts.
    fn binds(&self, i: usize, at: u32, mode: Mode, j: usize) -> bool
        ensures { result ≡ binds_on self.now.stations i at mode j }
    {
        self.older(j, i) && self.conflicts_on(j, at, mode)
    }

    // Whether a station that is older than station i holds the record in a mode that conflicts. A function by itself in the machine code
    // too: with it inside, `bonds` is no longer taken into its callers, and standing of a short hand takes longer.
    #[inline(never)]
    fn bound_on(&self, i: usize, at: u32, mode: Mode) -> bool
        ensures { result ≡ any_below 16 (binds_on self.now.stations i at mode) }
    {
        (0..16).any(|j| self.binds(i, at, mode, j))
    }

    // How many records station i holds on which an older holder has a conflicting mode.
    pub fn bonds(&self, i: usize) -> u32
        ensures { result ≡ bonds (bare self.now.stations) i }
    {
        let Some(station) = self.stations.get(i) else {
            return 0;
        };
        let bound = station
            .hand
            .iter()
            .filter(|hold| self.bound_on(i, hold.at, hold.mode))
            .count();
        bound as u32
    }

    // Whether station j is behind a bond of station i.
    fn behind_bond(&self, i: usize, j: usize) -> bool
        requires { (i < 16) × (j < 16) }
        ensures { result ≡ behind_bond (bare self.now.stations) i j }
    {
        self.stations[i]
            .hand
            .iter()
            .any(|hold| self.binds(i, hold.at, hold.mode, j))
    }

    // A station behind a bond of station i, if there are bonds.
    pub fn blocker(&self, i: usize) -> Option<usize>
        ensures behind { MatchOption result (bonds (bare self.now.stations) i ≡ 0) (λ j. behind_bond (bare self.now.stations) i j ≡ true) }
        ensures within { IfSome result (λ j. j < 16) }
    {
        if i >= 16 {
            return None;
        }
        (0..16).find(|&j| self.behind_bond(i, j))
    }
}
