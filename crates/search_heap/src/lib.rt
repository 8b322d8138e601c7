//! The variables of a search by their scores: the one of greatest score, and of these the one of least number, is at
//! hand. It is a tournament tree: the variables play matches, and a change costs the matches above it alone.
#![tactic(auto)]

ghost use Rattle.std.specs.Prelude.{◌≡◌, ◌+◌, ◌^◌, ◌<◌, ◌≤◌, IfOk, IfNone, IfSome, false, true, if◌then◌else◌, length};
ghost use Rattle.search_heap.specs.Ranking.{HasNone, IsFirst, all_of, score_of, with_member, with_score};

mod matches;

use matches::{settle, settle_all};
use std::alloc::{AllocError, Global};
use std::marker::Model;

/// Variables by their scores, some of them members.
///
/// It keeps the score of each variable, and whether it is a member. Only `new` takes memory.
#[derive(Drop)]
pub struct Heap {
    /// The score of each variable, from variable 1.
    scores: Vec<u128>,
    /// Whether each variable is a member.
    members: Vec<bool>,
    /// The matches: node i, from 1, has the better of the nodes 2i and 2i + 1; the last half are the members, 0 for none.
    tree: Vec<u32>,
}

impl Model for Heap {
    ghost use Rattle.search_heap.specs.Ranking.{Ranking};
    ghost use Rattle.search_heap.specs.Tree.{IsTree};

    ghost Value = { Ranking };

    ghost view = { λ h. record { scores = h.scores.items; members = h.members.items } };

    ghost invariant = { λ h. IsTree h.scores.items h.members.items h.tree.items };
}

/// What stands at the leaf of a variable.
fn entry(var: u32, is_member: bool) -> u32
    ensures { result ≡ (if is_member then var else 0) }
{
    if is_member { var } else { 0 }
}

impl Heap {
    /// The variables 1 to `vars`, each with score 0. The only error is want of memory. O(vars).
    pub fn new(alloc: Global, vars: u32) -> Result<Heap, AllocError>
        ensures { IfOk result (λ heap. heap ≡ all_of vars) }
    {
        let size = vars as usize;
        let scores = vec![in alloc; 0; size]?;
        let members = vec![in alloc; true; size]?;
        let mut tree = vec![in alloc; 0; 2 * size]?;
        for place in 0..vars {
            tree[size + place as usize] = place + 1;
        }
        settle_all(&scores, &mut tree);
        Ok(Heap {
            scores,
            members,
            tree,
        })
    }

    /// Makes a variable a member or takes it out.
    fn place(&mut self, var: u32, is_member: bool)
        requires { (0 < var) × (var ≤ length self.old.scores) }
        ensures { self.new ≡ with_member self.old var is_member }
    {
        let place = var as usize - 1;
        let leaf = self.scores.len() + place;
        self.members[place] = is_member;
        self.tree[leaf] = entry(var, is_member);
        settle(&self.scores, &mut self.tree, leaf);
    }

    /// The member of greatest score, then of least number; 0 where there is none.
    fn first(&self) -> u32
        ensures none { result ≡ 0 → HasNone self.now }
        ensures first { 0 < result → IsFirst self.now result }
    {
        if self.tree.is_empty() {
            0
        } else {
            self.tree[1]
        }
    }

    /// Takes out the member of greatest score, then of least number; `None` exactly where there is none. O(log vars).
    pub fn take(&mut self) -> Option<u32>
        ensures none { IfNone result (HasNone self.old × (self.new ≡ self.old)) }
        ensures first { IfSome result (λ var. IsFirst self.old var) }
        ensures taken { IfSome result (λ var. self.new ≡ with_member self.old var false) }
    {
        let first = self.first();
        if first == 0 {
            return None;
        }
        self.place(first, false);
        Some(first)
    }

    /// Makes a variable a member. O(log vars).
    pub fn put_back(&mut self, var: u32)
        requires { (0 < var) × (var ≤ length self.old.scores) }
        ensures { self.new ≡ with_member self.old var true }
    {
        if !self.members[var as usize - 1] {
            self.place(var, true);
        }
    }

    /// Raises the score of a variable, member or not. O(log vars).
    pub fn raise(&mut self, var: u32, by: u64)
        requires var { (0 < var) × (var ≤ length self.old.scores) }
        requires room { score_of self.old.scores var + by < 2 ^ 128 }
        ensures { self.new ≡ with_score self.old var (score_of self.old.scores var + by) }
    {
        let place = var as usize - 1;
        let is_member = self.members[place];
        self.place(var, false);
        self.scores[place] += by as u128;
        self.place(var, is_member);
    }
}

#[cfg(test)]
mod tests {
    use super::*;
    use std::test::Fail;

    #[test]
    fn greatest_then_least(rt: HostRuntime) -> Result<(), Fail> {
        let mut heap = Heap::new(rt.alloc(), 3)?;
        heap.raise(2, 5);
        heap.raise(3, 5);
        assert_eq!(rt; heap.take(), Some(2));
        assert_eq!(rt; heap.take(), Some(3));
        assert_eq!(rt; heap.take(), Some(1));
        assert_eq!(rt; heap.take(), None);
        heap.put_back(3);
        assert_eq!(rt; heap.take(), Some(3));
        Ok(())
    }
}
