// Whom a wound reaches.
ghost use Rattle.std.specs.Prelude.{◌≡◌, ◌<◌, IfSome};
ghost use Rattle.rules.specs.Searches.{any_below, first_below};
ghost use Rattle.rules.specs.Operations.{must_yield, joins, widen};
ghost use Rattle.locks.specs.View.{bare, member_of};
ghost use Rattle.locks.specs.Asked.{pulls};

use crate::set::StationSet;
use crate::station::Station;
use crate::table::LockTable;
use rules::Mode;

impl LockTable {
    // Whether station j is younger than station i and holds the record in a mode that conflicts.
    fn yields(&self, i: usize, at: u32, mode: Mode, j: usize) -> bool
        ensures { result ≡ must_yield (bare self.now.stations) i at mode j }
    {
        self.older(i, j) && self.conflicts_on(j, at, mode)
    }

    // The younger holders of the record whose mode conflicts with the mode that station i takes.
    pub fn must_yield(&self, i: usize, at: u32, mode: Mode) -> StationSet
        ensures { member_of result ≡ must_yield (bare self.now.stations) i at mode }
    {
        StationSet::of(|j| self.yields(i, at, mode, j))
    }

    // Whether station j is a member that is older than station i and holds a record exclusively that station i holds.
    fn pulls(&self, members: &StationSet, i: usize, j: usize) -> bool
        ensures { result ≡ pulls self.now.stations (member_of members.now) i j }
    {
        let (Some(other), Some(station)) = (self.stations.get(j), self.stations.get(i)) else {
            return false;
        };
        members.contains(j) && self.older(j, i) && other.exclusive_in_common(station)
    }

    // Whether station i, not yet a member, holds a record that an older member holds exclusively.
    fn joins(&self, members: &StationSet, i: usize) -> bool
        ensures { result ≡ joins (bare self.now.stations) (member_of members.now) i }
    {
        !members.contains(i) && (0..16).any(|j| self.pulls(members, i, j))
    }

    // The first station that joins the members.
    fn joiner(&self, members: &StationSet) -> Option<usize>
        ensures within { IfSome result (λ k. k < 16) }
        ensures first { result ≡ first_below 16 (joins (bare self.now.stations) (member_of members.now)) }
    {
        (0..16).find(|&i| self.joins(members, i))
    }

    // The members widened: who holds a record that an older member holds exclusively joins, until nobody joins.
    pub fn widen(&self, members: StationSet) -> StationSet
        ensures { member_of result ≡ widen (bare self.now.stations) (member_of members) }
    {
        let mut widened = members;
        while let Some(k) = self.joiner(&widened) {
            widened.insert(k);
        }
        widened
    }
}
