// Which wait is granted next, and what stands before a hold.
ghost use Rattle.std.specs.Prelude.{◌≡◌, ◌<◌, IfSome, None};
ghost use Rattle.rules.specs.Searches.{any_below, first_below};
ghost use Rattle.rules.specs.Tables.{is_waiting};
ghost use Rattle.rules.specs.Operations.{blocks, grantable, before};
ghost use Rattle.locks.specs.View.{bare, placed, awaited_at, member_of};
ghost use Rattle.locks.specs.Asked.{Below, younger, stamped_draft};

use crate::set::StationSet;
use crate::station::Station;
use crate::table::LockTable;
use rules::Mode;

// The draft of an exclusive hold: the stamp of its attempt, and its station and place.
#[derive(Clone, Copy)]
struct Draft {
    stamp: u32,
    place: (usize, usize),
}

// The younger of two drafts; the first where the stamps are equal.
fn younger(one: Draft, other: Draft) -> Draft
    ensures { result ≡ younger one other }
{
    if one.stamp < other.stamp { other } else { one }
}

impl LockTable {
    // What station i waits for, if it waits.
    pub fn awaited(&self, i: usize) -> Option<(u32, Mode)>
        ensures { result ≡ awaited_at self.now.stations i }
    {
        self.stations.get(i)?.awaited()
    }

    // Whether station i waits.
    fn waits(&self, i: usize) -> bool
        ensures { result ≡ is_waiting (bare self.now.stations i).phase }
    {
        self.stations.get(i).map_or(false, Station::waits)
    }

    // Which stations wait.
    pub fn waiting(&self) -> StationSet
        ensures { member_of result ≡ (λ j. is_waiting (bare self.now.stations j).phase) }
    {
        StationSet::of(|j| self.waits(j))
    }

    // Whether station j keeps station i from being granted the record: by an owned hold that conflicts, or by an older wait.
    fn blocks(&self, i: usize, at: u32, mode: Mode, j: usize) -> bool
        ensures { result ≡ blocks (bare self.now.stations) i at mode j }
    {
        self.stations.get(j).map_or(false, |other| {
            other.owned_conflicts_on(at, mode) || (other.waits_for(at) && self.older(j, i))
        })
    }

    // Whether some station keeps station i from being granted the record.
    fn blocked(&self, i: usize, at: u32, mode: Mode) -> bool
        ensures { result ≡ any_below 16 (blocks (bare self.now.stations) i at mode) }
    {
        (0..16).any(|j| self.blocks(i, at, mode, j))
    }

    // Whether station i may be granted what it waits for.
    fn ready(&self, i: usize) -> bool
        ensures { result ≡ grantable (bare self.now.stations) i }
    {
        match self.awaited(i) {
            Some((at, mode)) => !self.blocked(i, at, mode),
            None => false,
        }
    }

    // The first station that may be granted what it waits for.
    pub fn grantable(&self) -> Option<usize>
        ensures within { IfSome result (λ k. k < 16) }
        ensures first { result ≡ first_below 16 (grantable (bare self.now.stations)) }
    {
        (0..16).find(|&i| self.ready(i))
    }

    // The exclusive hold of station j on the record, if j has an attempt that is older than station i.
    fn older_draft(&self, i: usize, at: u32, j: usize) -> Option<Draft>
        ensures { result ≡ stamped_draft self.now.stations i at j }
    {
        let stamp = self.stamp(j);
        if stamp > 0 && self.older(j, i) {
            let place = self.stations.get(j)?.exclusive_on(at)?;
            Some(Draft {
                stamp,
                place: (j, place),
            })
        } else {
            None
        }
    }

    // The station and place of the youngest exclusive holder of the record that is older than station i: what stands before i there,
    // if each draft is its own place and no value is plotted.
    pub fn before(&self, i: usize, at: u32) -> Option<(usize, usize)>
        ensures within { IfSome result Below }
        ensures place { result ≡ before (placed self.now.stations) (λ _. None) i at }
    {
        (0..16)
            .filter_map(|j| self.older_draft(i, at, j))
            .reduce(younger)
            .map(|draft| draft.place)
    }
}
