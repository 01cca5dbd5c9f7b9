//! The columns of a drawing, by Mercurial's rules for graphs of its log (`graphmod`).
//!
//! Changesets are drawn from the newest to the oldest. A column stands for each changeset that something above it is a
//! child of, and that isn't drawn yet. A changeset is drawn in its own column, or in a new one to the right where it is
//! a head. Its column then goes to its lower parent that has none yet, and a new column beside it to the other; where
//! its parents have columns already, or it has none, its own closes, and those to the right of it move to the left.
ghost use Rattle.std.specs.Prelude.{◌≡◌, ◌<◌, ◌++◌, ◌∷◌, [], IfOk, IfSome, OnOk, Some, is_some, length};
ghost use Rattle.hg_log.specs.Columns.{AreFound, HasBelow, IsInOrder, IsRow, IsSameParents, StandsFor};

use hg_graph::ParentPlaces;
use std::alloc::{AllocError, Global};

/// How the columns go on from one row to the next.
#[derive(Clone, Copy, PartialEq, Eq)]
pub(crate) enum Change {
    /// The changeset's column closes.
    Closing,
    /// There are as many.
    Staying,
    /// One opens to the right of the changeset's.
    Opening,
}

/// Where an edge leads from a changeset to the column of a parent.
#[derive(Clone, Copy, PartialEq, Eq)]
pub(crate) enum Edge {
    /// Down in the changeset's column.
    Straight,
    /// To the column left of it.
    Left,
    /// To the column right of it.
    Right,
    /// Over others to this column.
    Far(usize),
}

/// In which column a row's changeset stands, and how the columns go on below it.
#[derive(Clone, Copy)]
pub(crate) struct Turn {
    pub(crate) column: usize,
    pub(crate) change: Change,
}

impl Turn {
    /// Above the first row.
    pub(crate) const FIRST: Turn = Turn {
        column: 0,
        change: Change::Staying,
    };
}

/// A changeset among the columns.
#[derive(Clone, Copy)]
pub(crate) struct Row {
    /// What the row above did.
    pub(crate) above: Turn,
    /// Where it stands itself.
    pub(crate) turn: Turn,
    /// How many columns there are beside it, its own included.
    pub(crate) width: usize,
    /// How many there are below it.
    pub(crate) width_below: usize,
    /// The edge to its first parent.
    pub(crate) first: Option<Edge>,
    /// The edge to its second parent.
    pub(crate) second: Option<Edge>,
}

impl Row {
    /// Whether one of its edges is this one.
    pub(crate) fn has(&self, edge: Edge) -> bool {
        self.first == Some(edge) || self.second == Some(edge)
    }

    /// Where its edges over others lead.
    pub(crate) fn far_ends(&self) -> (Option<usize>, Option<usize>) {
        (far_end(self.first), far_end(self.second))
    }
}

fn far_end(edge: Option<Edge>) -> Option<usize> {
    match edge {
        Some(Edge::Far(end)) => Some(end),
        _ => None,
    }
}

/// The columns below what is drawn so far.
#[derive(Drop)]
pub(crate) struct Columns {
    // The places of the changesets that the columns stand for, from left to right.
    places: Vec<usize>,
    above: Turn,
}

impl Columns {
    /// Above the first row.
    pub(crate) fn new(alloc: Global) -> Columns {
        Columns {
            places: Vec::new(alloc),
            above: Turn::FIRST,
        }
    }

    /// The row of the changeset at this place, whose parents stand at those, and the columns below it. It costs the
    /// columns.
    pub(crate) fn next_row(
        &mut self,
        place: usize,
        parents: ParentPlaces,
    ) -> Result<Row, AllocError>
        ensures { IfOk result IsRow }
    {
        let row = next_row(&mut self.places, self.above, place, in_order(parents))?;
        self.above = row.turn;
        Ok(row)
    }
}

// The places of the parents, the lower one first, as Mercurial's graphs have them. An id that is lesser may stand
// above.
fn in_order(parents: ParentPlaces) -> ParentPlaces
    ensures same { IsSameParents parents result }
    ensures order { IsInOrder result }
{
    match (parents.first, parents.second) {
        (Some(first), Some(second)) if second < first => ParentPlaces {
            first: parents.second,
            second: parents.first,
        },
        _ => parents,
    }
}

fn next_row(
    places: &mut Vec<usize>,
    above: Turn,
    place: usize,
    parents: ParentPlaces,
) -> Result<Row, AllocError>
    ensures row { IfOk result IsRow }
    ensures above { IfOk result (λ row. row.above ≡ above) }
{
    let found = find(places, place, parents);
    let column = own_column(places, place, found.own)?;
    let width = places.len();
    let first = without_column(parents.first, found.first);
    let second = without_column(parents.second, found.second);
    let change = go_on(places, column, first, second)?;
    let turn = Turn { column, change };
    Ok(Row {
        above,
        turn,
        width,
        width_below: places.len(),
        first: parent_edge(turn, parents.first, found.first, Edge::Straight),
        second: parent_edge(turn, parents.second, found.second, beside(change)),
    })
}

// Which columns stand for a changeset and for its parents.
#[derive(Clone, Copy)]
struct Found {
    own: Option<usize>,
    first: Option<usize>,
    second: Option<usize>,
}

fn find(places: &[usize], place: usize, parents: ParentPlaces) -> Found
    ensures { AreFound places.now place parents result }
{
    let mut found = Found {
        own: None,
        first: None,
        second: None,
    };
    for (column, pending) in places.iter().enumerate() {
        let pending = Some(*pending);
        if pending == Some(place) {
            found.own = Some(column);
        }
        if pending == parents.first {
            found.first = Some(column);
        }
        if pending == parents.second {
            found.second = Some(column);
        }
    }
    found
}

// The changeset's column: the one that stands for it, or a new one to the right.
fn own_column(
    places: &mut Vec<usize>,
    place: usize,
    own: Option<usize>,
) -> Result<usize, AllocError>
    requires { IfSome own (StandsFor places.old.items (Some place)) }
    ensures { IfOk result (StandsFor places.new.items (Some place)) }
{
    match own {
        Some(column) => Ok(column),
        None => {
            let column = places.len();
            places.push(place)?;
            Ok(column)
        }
    }
}

// A parent that has no column yet.
fn without_column(parent: Option<usize>, found: Option<usize>) -> Option<usize> {
    match found {
        Some(_) => None,
        None => parent,
    }
}

// Gives the column to the parents that have none yet, and a new one to the second of two.
fn go_on(
    places: &mut Vec<usize>,
    column: usize,
    first: Option<usize>,
    second: Option<usize>,
) -> Result<Change, AllocError>
    requires { column < length places.old.items }
    ensures { IfOk result (λ change. HasBelow change (length places.old.items) (length places.new.items)) }
{
    match (first, second) {
        (Some(first), Some(second)) => {
            places[column] = first;
            places.insert(column + 1, second)?;
            Ok(Change::Opening)
        }
        (Some(parent), None) | (None, Some(parent)) => {
            places[column] = parent;
            Ok(Change::Staying)
        }
        (None, None) => {
            places.remove(column);
            Ok(Change::Closing)
        }
    }
}

// The edge to the second parent, where it has no column yet.
fn beside(change: Change) -> Edge {
    match change {
        Change::Opening => Edge::Right,
        _ => Edge::Straight,
    }
}

// The edge to a parent, where there is one: the fresh one, if the parent had no column yet.
fn parent_edge(turn: Turn, parent: Option<usize>, found: Option<usize>, fresh: Edge) -> Option<Edge>
    ensures { is_some result ≡ is_some parent }
{
    parent?;
    match found {
        Some(column) => Some(edge_to(turn, column)),
        None => Some(fresh),
    }
}

// The edge to another column.
fn edge_to(turn: Turn, column: usize) -> Edge {
    if column < turn.column {
        return if turn.column - column == 1 {
            Edge::Left
        } else {
            Edge::Far(column)
        };
    }
    match (column - turn.column, turn.change) {
        // The parent's column moves to where the changeset's was.
        (1, Change::Closing) => Edge::Straight,
        (1, _) => Edge::Right,
        _ => Edge::Far(column),
    }
}
