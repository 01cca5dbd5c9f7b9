//! The successors sets of nodes, lowest first.
//!
//! Families stand in a list, and each node that is done has the place of its own. A node with one marker with one
//! successor has the same picks as that one, and shares its family; so a chain copies nothing.
ghost use Rattle.std.specs.Prelude.{◌≡◌, ◌↔◌, ◌<◌, ℕ, length, Contains, None, IsTrue, IfOk, IfSome, IfNone, OnOk};
ghost use Rattle.std.specs.Prelude.{false};
ghost use Rattle.std.specs.List.{flat_map};
ghost use Rattle.hg_changeset.specs.declared.node.Node.{Node};
ghost use Rattle.hg_replica.specs.Content.{Content, content_of};
ghost use Rattle.hg_replica.specs.Evolution.{IsPredecessor};
ghost use Rattle.hg_succ.specs.declared.search.Closed.{Closed};
ghost use Rattle.hg_succ.specs.Rows.{At, rows_of, IsOrder};
ghost use Rattle.hg_succ.specs.Successors.{IsRewrittenTo, IsOnCycle};
ghost use Rattle.hg_succ.specs.Answer.{AreSets, sets_of};
ghost use Rattle.hg_succ.specs.Numbered.{successors_at, AreRows, IsRow};
ghost use Rattle.hg_succ.specs.Cover.Known.{are_sets};
ghost use Rattle.hg_succ.specs.Cover.{IsTable, IsSolved, IsSeveral, HasEntry, PutsLast, Solves, AddsAnswer, answer};
ghost use Rattle.hg_succ.specs.Cover.{answer_at, entry, families, known_by, sets_at, count_in, count_of, IsNotCounted};
ghost use Rattle.hg_succ.specs.Plan.{Lists, IsPlan};
ghost use Rattle.hg_succ.specs.Unions.{with_sets, choices};
ghost use Rattle.hg_succ.specs.Factors.{factor_in, HasManyWays, HasWays, AllWays, many_at, IsInLimit, IsOnlySuccessor};
ghost use Rattle.hg_succ.specs.Factors.{have_none, empties_at};
ghost use Rattle.hg_succ.specs.Factors.{IsShared};

use crate::numbered::{Numbered, number, successors_at};
use crate::plan::{Asked, Plan};
use crate::search::{Closed, order};
use crate::sets::{Sets, UNION_LIMIT};
use crate::unions::{copy_of, largest, products};
use hg_changeset::Node;
use hg_marker::Marker;
use hg_node_set::NodeSet;
use hg_replica::Replica;
use std::alloc::{AllocError, Global};

/// What is known of a node that is done.
#[derive(Clone, Copy)]
pub(crate) enum Solved {
    /// Its successors sets are the family at this place.
    Family(usize),
    /// It has so many successors sets, of which no list is kept.
    Counted(usize),
    Overfull,
}

/// The successors sets of the nodes that are done.
pub(crate) struct Table {
    alloc: Global,
    nodes: NodeSet,
    /// For each of the nodes, by its number, what is known of it, once it is done.
    answers: Vec<Option<Solved>>,
    families: Vec<Vec<Vec<Node>>>,
}

// Whoever owns a table calls this once, and is proved without a look at each family.
impl Drop for Table {
    fn drop(self) {
        let Table {
            alloc: _,
            nodes: _,
            answers: _,
            families: _,
        } = self;
    }
}

/// The sets of the roots and of all that they lead to, or how many there are.
pub(crate) fn table_of(
    alloc: Global,
    replica: &Replica,
    roots: NodeSet,
    asked: Asked,
) -> Result<Table, AllocError>
    ensures table { IfOk result (IsTable (content_of replica.now)) }
    ensures done { IfOk result (λ table. (n : Node) → Contains roots.keys n → HasEntry table n) }
    ensures sets { asked ≡ Asked.Sets → IfOk result (λ table. (n : Node) → IsNotCounted table n) }
{
    let Numbered { nodes, rows } = number(alloc, replica, roots)?;
    let order = order(alloc, &rows)?;
    let plan = Plan::new(alloc, replica, asked, &nodes, &rows, &order)?;
    let mut table = Table::new(alloc, nodes)?;
    table.add_all(replica, &plan, &rows, &order)?;
    Ok(table)
}

impl Table {
    // None of the nodes is done.
    fn new(alloc: Global, nodes: NodeSet) -> Result<Table, AllocError>
        ensures nodes { IfOk result (λ table. table.nodes.keys ≡ nodes.keys) }
        ensures long { IfOk result (λ table. length table.answers.items ≡ length table.nodes.keys) }
        ensures none { IfOk result (λ table. (n : Node) → answer table n ≡ None) }
    {
        let answers = vec![in alloc; None; nodes.len()]?;
        Ok(Table {
            alloc,
            nodes,
            answers,
            families: Vec::new(alloc),
        })
    }

    /// The sets of a node. It is done, unless no marker rewrote it, and they aren't only counted.
    pub(crate) fn sets(&self, replica: &Replica, node: Node) -> Result<Sets, AllocError>
        requires table { IsTable (content_of replica.now) self.now }
        requires done { IsPredecessor (content_of replica.now) node → HasEntry self.now node }
        requires kept { IsNotCounted self.now node }
        ensures { IfOk result (AreSets (content_of replica.now) node) }
    {
        match self.answer(node) {
            Some(Solved::Family(place)) => {
                let family = copy_of(self.alloc, self.family_at(place))?;
                Ok(Sets::Family(family))
            }
            // never, since they are kept
            Some(Solved::Counted(_)) => Ok(Sets::Overfull),
            Some(Solved::Overfull) => Ok(Sets::Overfull),
            None => {
                let family = self.own_set(replica, node)?;
                Ok(Sets::Family(family))
            }
        }
    }

    /// Whether a node has several sets, or is overfull. It is done, unless no marker rewrote it.
    pub(crate) fn has_several(&self, node: Node) -> bool
        ensures { IsTrue result ↔ IsSeveral (entry self.now node) }
    {
        match self.answer(node) {
            Some(Solved::Family(place)) => self.family_at(place).len() > 1,
            Some(Solved::Counted(count)) => count > 1,
            Some(Solved::Overfull) => true,
            None => false,
        }
    }

    // Does the nodes in the order in which they are closed.
    fn add_all(
        &mut self,
        replica: &Replica,
        plan: &Plan,
        rows: &[Vec<usize>],
        order: &[Closed],
    ) -> Result<(), AllocError>
        requires table { IsTable (content_of replica.now) self.old }
        requires all { length rows.now ≡ length self.old.nodes.keys }
        requires rows { AreRows (content_of replica.now) self.old.nodes.keys (rows_of rows.now) }
        requires order { IsOrder (rows_of rows.now) order.now }
        requires plan { IsPlan replica.now self.old.nodes.keys plan.now }
        requires kept { (n : Node) → Lists plan.now n → IsNotCounted self.old n }
        ensures table { OnOk result (IsTable (content_of replica.now) self.new) }
        ensures kept { OnOk result ((n : Node) → Lists plan.now n → IsNotCounted self.new n) }
        ensures done { OnOk result ((k : ℕ) (e : Closed) (x : Node) → At order.now k e
            → At self.old.nodes.keys e.node x → HasEntry self.new x) }
    {
        for closed in order {
            let number = closed.node;
            self.add(replica, plan, number, &rows[number], closed.cyclic)?;
        }
        Ok(())
    }

    // Does a node, whose number and row are given. Each successor of its markers is done, unless it is on a cycle.
    fn add(
        &mut self,
        replica: &Replica,
        plan: &Plan,
        number: usize,
        row: &[usize],
        cyclic: bool,
    ) -> Result<(), AllocError>
        requires table { IsTable (content_of replica.now) self.old }
        requires number { number < length self.old.nodes.keys }
        requires row { (n : Node) → At self.old.nodes.keys number n
            → IsRow (content_of replica.now) self.old.nodes.keys n row.now }
        requires cyclic { (n : Node) → At self.old.nodes.keys number n → IsTrue cyclic
            ↔ IsOnCycle (content_of replica.now) n }
        requires below { cyclic ≡ false → (n y : Node) → At self.old.nodes.keys number n
            → IsRewrittenTo (content_of replica.now) n y → HasEntry self.old y }
        requires plan { IsPlan replica.now self.old.nodes.keys plan.now }
        requires kept { (n : Node) → Lists plan.now n → IsNotCounted self.old n }
        ensures answer { OnOk result (AddsAnswer (content_of replica.now) number self.old self.new) }
        ensures kept { OnOk result ((n : Node) → Lists plan.now n → IsNotCounted self.new n) }
    {
        let node = self.nodes.as_slice()[number];
        let solved = self.solve(replica, plan, node, row, cyclic)?;
        self.answers[number] = Some(solved);
        Ok(())
    }

    // Its successors sets, by the first case that applies.
    fn solve(
        &mut self,
        replica: &Replica,
        plan: &Plan,
        node: Node,
        row: &[usize],
        cyclic: bool,
    ) -> Result<Solved, AllocError>
        requires table { IsTable (content_of replica.now) self.old }
        requires row { IsRow (content_of replica.now) self.old.nodes.keys node row.now }
        requires cyclic { IsTrue cyclic ↔ IsOnCycle (content_of replica.now) node }
        requires below { cyclic ≡ false → (y : Node) → IsRewrittenTo (content_of replica.now) node y
            → HasEntry self.old y }
        requires plan { IsPlan replica.now self.old.nodes.keys plan.now }
        requires kept { (n : Node) → Lists plan.now n → IsNotCounted self.old n }
        requires held { Contains self.old.nodes.keys node }
        ensures solves { IfOk result (Solves (content_of replica.now) node self.old self.new) }
        ensures kept { Lists plan.now node → IfOk result (λ solved. (count : ℕ) → ¬ (solved ≡ Solved.Counted count)) }
    {
        if cyclic {
            return self.keep(Vec::new(self.alloc));
        }
        let store = replica.store();
        let markers = store.markers();
        let places = store.with_predecessor(node);
        if places.is_empty() {
            let own = self.own_set(replica, node)?;
            return self.keep(own);
        }
        match self.shared(markers, places, row) {
            Some(solved) => return Ok(solved),
            None => {}
        }
        let ways = match self.all_ways(markers, places) {
            Some(ways) => ways,
            None => return Ok(Solved::Overfull),
        };
        if !plan.unites(node) {
            let empty = self.empty_ways(markers, places);
            return Ok(Solved::Counted(ways - empty));
        }
        let found = self.unions(markers, places)?;
        let family = largest(self.alloc, self.nodes.keys(), found)?;
        self.sets_or_count(plan.lists(node), family)
    }

    // Puts the family last where it is to be kept, and else counts its sets.
    fn sets_or_count(
        &mut self,
        wants_sets: bool,
        family: Vec<Vec<Node>>,
    ) -> Result<Solved, AllocError>
        ensures solves { IfOk result (λ solved. (f : Content) (n : Node)
            → IsSolved f n (are_sets (sets_of family.items)) → Solves f n self.old self.new solved) }
        ensures kept { IsTrue wants_sets → IfOk result (λ solved. (count : ℕ) → ¬ (solved ≡ Solved.Counted count)) }
    {
        if wants_sets {
            return self.keep(family);
        }
        Ok(Solved::Counted(family.len()))
    }

    // Puts the family last.
    fn keep(&mut self, family: Vec<Vec<Node>>) -> Result<Solved, AllocError>
        ensures { IfOk result (PutsLast family self.old self.new) }
    {
        let place = self.families.len();
        self.families.push(family)?;
        Ok(Solved::Family(place))
    }

    // The set of the node alone, where it is held.
    fn own_set(&self, replica: &Replica, node: Node) -> Result<Vec<Vec<Node>>, AllocError>
        requires { ¬ (IsPredecessor (content_of replica.now) node) }
        ensures { IfOk result (λ family. IsSolved (content_of replica.now) node (are_sets (sets_of family.items))) }
    {
        let held = replica.graph().contains(node);
        let mut family = Vec::new(self.alloc);
        if held {
            let mut set = Vec::new(self.alloc);
            set.push(node)?;
            family.push(set)?;
        }
        Ok(family)
    }

    // What is known of the only successor of the only marker, if there is one of each.
    fn shared(&self, markers: &[Marker], places: &[usize], row: &[usize]) -> Option<Solved>
        ensures { IfSome result (IsShared self.now markers.now places.now row.now) }
    {
        if !has_one_successor(markers, places) {
            return None;
        }
        let solved = self.answer_at(*row.first()?)?;
        if self.has_many(solved) {
            return None;
        }
        Some(solved)
    }

    // Whether a node of which this is known has more sets than ways are allowed.
    fn has_many(&self, solved: Solved) -> bool
        ensures { result ≡ false → IsInLimit (known_by self.now.families.items solved) }
    {
        self.count_of(solved) > UNION_LIMIT
    }

    // How many unions the markers give, where no successor is overfull and they are 4,096 at most.
    fn all_ways(&self, markers: &[Marker], places: &[usize]) -> Option<usize>
        ensures few { IfSome result (AllWays self.now markers.now places.now) }
        ensures many { IfNone result (many_at self.now markers.now places.now) }
    {
        let mut sum = 0;
        for place in places {
            sum += self.ways(successors_at(markers, *place))?;
            if sum > UNION_LIMIT {
                return None;
            }
        }
        Some(sum)
    }

    // How many of the markers give the empty union.
    fn empty_ways(&self, markers: &[Marker], places: &[usize]) -> usize
        ensures { result ≡ empties_at self.now markers.now places.now }
    {
        let mut count = 0;
        for place in places {
            if self.have_none(successors_at(markers, *place)) {
                count += 1;
            }
        }
        count
    }

    // Whether none of the nodes has sets.
    fn have_none(&self, nodes: &[Node]) -> bool
        ensures { result ≡ have_none self.now nodes.now }
    {
        for node in nodes {
            if self.count(*node) > 0 {
                return false;
            }
        }
        true
    }

    // How many unions the nodes' sets give, where none of them is overfull and they are 4,096 at most.
    fn ways(&self, nodes: &[Node]) -> Option<usize>
        ensures few { IfSome result (HasWays self.now nodes.now) }
        ensures many { IfNone result (HasManyWays self.now nodes.now) }
    {
        let mut product = 1usize;
        for node in nodes {
            let factor = self.factor(*node)?;
            product = product.saturating_mul(factor);
            if product > UNION_LIMIT {
                return None;
            }
        }
        Some(product)
    }

    // How many sets a node has, or 1 where it has none. None where it is overfull.
    fn factor(&self, node: Node) -> Option<usize>
        ensures { result ≡ factor_in (entry self.now node) }
    {
        match self.answer(node) {
            Some(Solved::Overfull) => None,
            Some(solved) => Some(self.count_of(solved).max(1)),
            None => Some(1),
        }
    }

    // How many sets a node has; none where it isn't done, or is overfull.
    fn count(&self, node: Node) -> usize
        ensures { result ≡ count_in (entry self.now node) }
    {
        match self.answer(node) {
            Some(solved) => self.count_of(solved),
            None => 0,
        }
    }

    // How many sets a node has of which this is known; none where it is overfull.
    fn count_of(&self, solved: Solved) -> usize
        ensures { result ≡ count_of (known_by self.now.families.items solved) }
    {
        match solved {
            Solved::Family(place) => self.family_at(place).len(),
            Solved::Counted(count) => count,
            Solved::Overfull => 0,
        }
    }

    // The unions that the markers at these places give, as lists in any order.
    fn unions(&self, markers: &[Marker], places: &[usize]) -> Result<Vec<Vec<Node>>, AllocError>
        ensures { IfOk result
            (λ found. sets_of found.items ≡ flat_map (λ place. choices self.now (successors_at markers.now place))
            places.now) }
    {
        let mut found = Vec::new(self.alloc);
        for place in places {
            let mut unions = self.choices(successors_at(markers, *place))?;
            found.append(&mut unions)?;
        }
        Ok(found)
    }

    // The unions that take one set of each node, of those that have sets.
    fn choices(&self, nodes: &[Node]) -> Result<Vec<Vec<Node>>, AllocError>
        ensures { IfOk result (λ found. sets_of found.items ≡ choices self.now nodes.now) }
    {
        let mut unions = Vec::new(self.alloc);
        unions.push(Vec::new(self.alloc))?;
        for node in nodes {
            unions = self.with_sets(*node, unions)?;
        }
        Ok(unions)
    }

    // The unions with each set of the node, or as they are where it has none.
    fn with_sets(&self, node: Node, unions: Vec<Vec<Node>>) -> Result<Vec<Vec<Node>>, AllocError>
        ensures { IfOk result
            (λ found. sets_of found.items ≡ with_sets (families self.now node) (sets_of unions.items)) }
    {
        let family = self.family(node);
        if family.is_empty() {
            return Ok(unions);
        }
        products(self.alloc, &unions, family)
    }

    // The sets of a node that are kept; none where none are.
    fn family(&self, node: Node) -> &[Vec<Node>]
        ensures { sets_of result.now ≡ families self.now node }
    {
        match self.answer(node) {
            Some(Solved::Family(place)) => self.family_at(place),
            Some(Solved::Counted(_)) => &[],
            Some(Solved::Overfull) => &[],
            None => &[],
        }
    }

    // The family at a place.
    fn family_at(&self, place: usize) -> &[Vec<Node>]
        ensures { sets_of result.now ≡ sets_at self.now.families.items place }
    {
        match self.families.get(place) {
            Some(family) => family.as_slice(),
            None => &[],
        }
    }

    // What is known of a node that is done.
    fn answer(&self, node: Node) -> Option<Solved>
        ensures { result ≡ answer self.now node }
    {
        self.answer_at(self.nodes.get_index_of(node)?)
    }

    // What is known of the node with this number, once it is done.
    fn answer_at(&self, number: usize) -> Option<Solved>
        ensures { result ≡ answer_at self.now.answers.items number }
    {
        match self.answers.get(number) {
            Some(solved) => *solved,
            None => None,
        }
    }
}

/// Whether one place is given, and the marker there has one successor.
pub(crate) fn has_one_successor(markers: &[Marker], places: &[usize]) -> bool
    ensures { IsTrue result → (x : Node) × IsOnlySuccessor markers.now places.now x }
{
    if places.len() != 1 {
        return false;
    }
    successors_at(markers, places[0]).len() == 1
}
