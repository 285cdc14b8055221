// A set of stations.
ghost use Rattle.std.specs.Prelude.{◌≡◌, ℕ, ◌<◌, ◌≤◌, false, not, ◌&&◌, ◌==◌, nat_lt};
ghost use Rattle.rules.specs.Searches.{count_below};
ghost use Rattle.rules.specs.Operations.{with_member};
ghost use Rattle.locks.specs.View.{member_of};

use std::array;
use std::marker::Model;

// Station j is a member where the entry at j is true. Clauses see the sixteen entries, and read them by `member_of`.
#[derive(Clone, Copy, PartialEq, Debug, Drop)]
pub struct StationSet {
    members: [bool; 16],
}

impl Model for StationSet {
    ghost use Rattle.std.specs.Prelude.{Bool, List};

    ghost Value = { List Bool };

    ghost view = { λ s. s.members };

    ghost inverse = { λ members. record { members = members } };
}

impl From<[bool; 16]> for StationSet {
    ghost from_gives = { λ members s. s ≡ members };

    fn from(members: [bool; 16]) -> StationSet {
        StationSet { members }
    }
}

impl StationSet {
    // The stations that pass.
    pub(crate) fn of<F: Fn(usize) -> bool>(passes: F) -> StationSet
        requires { (j : ℕ) → j < 16 → F.pre passes j }
        ensures members { (j : ℕ) → j < 16 → F.post passes j (member_of result j) }
        ensures nobody_else { (j : ℕ) → 16 ≤ j → member_of result j ≡ false }
    {
        StationSet {
            members: array::from_fn(passes),
        }
    }

    // The set of station s alone; nobody where s is no station.
    pub fn alone(s: usize) -> StationSet
        ensures { member_of result ≡ (λ j. nat_lt j 16 && j == s) }
    {
        StationSet::of(|j| j == s)
    }

    // Whether station j is a member.
    pub fn contains(&self, j: usize) -> bool
        ensures { result ≡ member_of self.now j }
    {
        self.members.get(j).map_or(false, |member| *member)
    }

    // Station k joins.
    pub(crate) fn insert(&mut self, k: usize)
        requires { k < 16 }
        ensures { member_of self.new ≡ with_member k (member_of self.old) }
    {
        self.members[k] = true;
    }

    // The members that are not among the others.
    pub fn without(&self, others: &StationSet) -> StationSet
        ensures { member_of result ≡ (λ j. member_of self.now j && not (member_of others.now j)) }
    {
        let members = &self.members;
        StationSet::of(|j| members[j] && !others.contains(j))
    }

    // The number of members.
    pub fn count(&self) -> u32
        ensures { result ≡ count_below 16 (member_of self.now) }
    {
        self.members.iter().filter(|member| **member).count() as u32
    }
}
