// The dry run of an edit: what of the result is there already, and how many nodes are not. It changes nothing.
#![tactic(auto)]

ghost use Rattle.std.specs.Prelude.{◌≡◌, ◌≤◌, ◌<◌};
ghost use Rattle.basics.specs.Limits.{deepest};
ghost use Rattle.nodes.specs.Words.{fact_of};
ghost use Rattle.arena.specs.Seen.{seen_in};
ghost use Rattle.edit_plan.specs.Models.{slot_plan, cell_plan, whole_of, need_plan, plan_up, plan_on};

use arena::Seen;
use basics::{DEEPEST, Kids};
use edit_way::{LEVELS, Way, hash_over, parts, with_part};
use find::{search, search_leaf};
use find_hash::{leaf_hash, rehash};
use ids::BlockId;
use new_value::value_at;
use nodes::own;
use paths::Cell;
use tree::part_of;

// What a dry run found: how many nodes are to be made, and the part below them that is there.
#[derive(Clone, Copy)]
pub struct Plan {
    pub new: u32,
    pub id: u64,
}

// Are the eight all the part s, which is EMPTY or a leaf? Then they are s, and no branch.
fn is_whole(ks: Kids, s: u64) -> bool
    ensures { result ≡ whole_of ks s }
{
    BlockId(s).is_end() && ks.iter().all(|k| *k == s)
}

// The node in the slot that a search found; none found: one is to be made over the part s.
#[tactic(auto, unfolding(crate::specs::Models::slot_plan))]
fn plan_slot(facts: &[u32], found: usize, s: u64) -> Plan
    ensures { result ≡ slot_plan (fact_of facts.now) found s }
{
    if found == 0 {
        return Plan { new: 1, id: s };
    }
    Plan {
        new: 0,
        id: own(facts, found),
    }
}

// The cell itself: EMPTY for 0, the leaf of the value if it lives.
fn plan_cell(seen: Seen<'_>, v: u32) -> Plan
    ensures { result ≡ cell_plan (seen_in seen.entry) v }
{
    if v == 0 {
        return Plan {
            new: 0,
            id: BlockId::EMPTY.0,
        };
    }
    let f = search_leaf(seen.find, seen.facts, seen.capacity, leaf_hash(v), v);
    plan_slot(seen.facts, f.slot, BlockId::EMPTY.0)
}

// What the parts of `old` come to with number c replaced by s.
fn plan_node(seen: Seen<'_>, old: u64, c: usize, s: u64) -> Plan
    requires { c < 8 }
    ensures { result ≡ need_plan (seen_in seen.entry) old c s }
{
    let all = with_part(parts(seen.kids, old), c, s);
    if is_whole(all, s) {
        return Plan { new: 0, id: s };
    }
    let h = rehash(hash_over(seen.facts, old), c, part_of(seen.kids, old, c), s);
    let f = search(seen.find, seen.kids, seen.facts, seen.capacity, h, all);
    plan_slot(seen.facts, f.slot, s)
}

// From the cell upward, as long as what is needed is there: over a part that is to be made, each node is to be made.
fn plan_up(seen: Seen<'_>, ids: [u64; LEVELS], path: u32, depth: u32, v: u32) -> Plan
    requires { depth ≤ deepest }
    ensures { result ≡ plan_up (seen_in seen.entry) ids depth 0 path (cell_plan (seen_in seen.entry) v) }
{
    let mut below = plan_cell(seen, v);
    let mut digits = path;
    for l in 0..depth {
        if below.new != 0 {
            return Plan {
                new: 1 + (depth - l),
                id: below.id,
            };
        }
        let c = (digits % 8) as usize;
        digits /= 8;
        below = plan_node(seen, ids[l as usize], c, below.id);
    }
    below
}

// The plan of an edit along a way: the root where the cell already has the value, else the dry run's. INVALID of a depth above 6.
pub fn plan_edit(seen: Seen<'_>, root: u64, cell: Cell, v: u16, way: Way) -> Plan
    ensures { result ≡ plan_on (seen_in seen.entry) v cell root way }
{
    if DEEPEST < cell.depth {
        return Plan {
            new: 0,
            id: BlockId::INVALID.0,
        };
    }
    if value_at(seen.facts, way.end) % 65536 == v as u32 {
        return Plan { new: 0, id: root };
    }
    plan_up(seen, way.ids, way.path, cell.depth, v as u32)
}
