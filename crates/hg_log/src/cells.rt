//! What stands in a column of a line: a mark, and a mark in the gap right of it.
//!
//! A row has a line with its changeset, one in which its edges lead on to the next row, and further ones below where
//! its text needs them. The rules are Mercurial's (`graphmod`), as they are while its option to shorten graphs is off.
use crate::columns::{Change, Edge, Row};
use std::alloc::AllocError;

/// A line of a row.
#[derive(Clone, Copy)]
pub(crate) enum Line {
    /// With the changeset, which has this mark. What moved in the row above moves on here, unless the text is tall.
    Changeset { mark: u8, is_tall: bool },
    /// Between the two, where an edge that leads far to the right would run into a tall text's columns.
    Padding,
    /// With the edges to the next row.
    Edges,
    /// Below them.
    Below,
}

/// A column of a line.
#[derive(Clone, Copy)]
struct Cell {
    mark: u8,
    gap: u8,
}

/// Appends the columns of a line, and the blank before its text.
pub(crate) fn push_columns(row: &Row, line: Line, text: &mut Vec<u8>) -> Result<(), AllocError> {
    for column in 0..row.width.max(row.width_below) {
        let cell = cell_at(row, line, column);
        text.extend_from_slice(&[cell.mark, cell.gap])?;
    }
    text.push(b' ')?;
    Ok(())
}

/// Whether a row with a tall text has a line of padding.
pub(crate) fn needs_padding(row: &Row) -> bool {
    let (first, second) = row.far_ends();
    row.turn.change == Change::Closing
        && (leads_right(row.turn.column, first) || leads_right(row.turn.column, second))
}

fn leads_right(column: usize, end: Option<usize>) -> bool {
    match end {
        Some(end) => end > column,
        None => false,
    }
}

fn cell_at(row: &Row, line: Line, column: usize) -> Cell {
    match line {
        Line::Changeset { mark, is_tall } => Cell {
            mark: changeset_mark(row, mark, is_tall, column),
            gap: changeset_gap(row, column),
        },
        Line::Padding => bare(padding_mark(row, column)),
        Line::Edges => Cell {
            mark: edges_mark(row, column),
            gap: edges_gap(row, column),
        },
        Line::Below => bare(mark_within(row.width_below, column)),
    }
}

// A column with nothing right of it.
fn bare(mark: u8) -> Cell {
    Cell { mark, gap: b' ' }
}

// The mark of a column that goes straight down, where there are so many.
fn mark_within(width: usize, column: usize) -> u8 {
    if column < width { b'|' } else { b' ' }
}

fn changeset_mark(row: &Row, mark: u8, is_tall: bool, column: usize) -> u8 {
    let own = row.turn.column;
    let (first, second) = row.far_ends();
    if column == own {
        return mark;
    }
    if first == Some(column) || second == Some(column) {
        return b'+';
    }
    if is_between(own, first, column) || is_between(own, second, column) {
        return b'-';
    }
    if column >= row.width {
        return b' ';
    }
    if is_tall || column < own {
        return b'|';
    }
    moving_mark(row, column)
}

// The mark of a column to the right of the changeset: where the row above and this one move it one way, it goes on so
// without a stop.
fn moving_mark(row: &Row, column: usize) -> u8 {
    match (row.above.change, row.turn.change) {
        (Change::Closing, Change::Closing) if column >= row.above.column => b'/',
        (Change::Opening, Change::Opening) => b'\\',
        _ => b'|',
    }
}

// Whether an edge from one column to the end of another passes over a column.
fn is_between(own: usize, end: Option<usize>, column: usize) -> bool {
    match end {
        Some(end) => own.min(end) < column && column < own.max(end),
        None => false,
    }
}

fn changeset_gap(row: &Row, column: usize) -> u8 {
    let (first, second) = row.far_ends();
    let own = row.turn.column;
    if is_gap_between(own, first, column) || is_gap_between(own, second, column) {
        b'-'
    } else {
        b' '
    }
}

// Whether an edge from one column to the end of another passes over the gap right of a column.
fn is_gap_between(own: usize, end: Option<usize>, column: usize) -> bool {
    match end {
        Some(end) => own.min(end) <= column && column < own.max(end),
        None => false,
    }
}

fn padding_mark(row: &Row, column: usize) -> u8 {
    if column == row.turn.column && !row.has(Edge::Straight) && !row.has(Edge::Left) {
        return b' ';
    }
    mark_within(row.width, column)
}

fn edges_mark(row: &Row, column: usize) -> u8 {
    let own = row.turn.column;
    if column == own {
        return if row.has(Edge::Straight) { b'|' } else { b' ' };
    }
    if column < own || row.turn.change == Change::Staying {
        return mark_within(row.width, column);
    }
    b' '
}

fn edges_gap(row: &Row, column: usize) -> u8 {
    let own = row.turn.column;
    if column < own {
        let leads_left = own - column == 1 && row.has(Edge::Left);
        return if leads_left { b'/' } else { b' ' };
    }
    if column == own && row.has(Edge::Right) {
        return b'\\';
    }
    match row.turn.change {
        // What stands right of the gap moves into the column.
        Change::Closing if is_inner(row.width, column) => b'/',
        // The column moves into what is right of the gap.
        Change::Opening if column > own && column < row.width => b'\\',
        _ => b' ',
    }
}

// Whether there is another column to the right.
fn is_inner(width: usize, column: usize) -> bool {
    column < width && width - column > 1
}
