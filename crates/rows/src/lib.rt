// Rows of cells, from a train down to 1, each from the later rows as they stand. Nothing but the
// cells in use of these rows is written.
#![tactic(auto)]

ghost use Rattle.std.specs.Prelude.{◌≡◌, ◌≤◌, length};
ghost use Rattle.line.specs.Cells.{lesser};
ghost use Rattle.cells.specs.Place.{RowsWorked};
ghost use Rattle.cells.specs.Held.{book_held};
ghost use Rattle.rows.specs.Rows.{Diagonal, RowRoom, RowFilled};
ghost use Rattle.rows.specs.Rows.{RowGiven, RowWorked, RowsGiven};

use cells::book::Book;
use cells::costs::Costs;
use cells::place::{Table, place};
use terms::{Station, Train};

// The lesser of the two choices; without an excess only keep is one.
#[tactic(auto, using(line::proofs::Choices::lesser_of_go_less, line::proofs::Choices::lesser_of_keep_le))]
fn lesser(excess: u64, keep: u64, go: u64) -> u64
    ensures { (result ≡ lesser excess keep go) × (result ≤ keep) }
{
    if excess == 0 {
        return keep;
    }
    keep.min(go)
}

// The row of `first`, from its last cell back to its first. `diagonal` is by station.
fn fill_row(row: &mut [u64], first: Train, costs: &Costs, diagonal: &[u64; 64])
    requires { RowRoom first.0 (length row.old) costs.now diagonal.now }
    ensures { RowFilled first.0 costs.now diagonal.now
        row.old row.new }
{
    let mut next: u64 = 0;
    for j in (0..row.len()).rev() {
        let station = Station(first.0 + j as u32);
        let cost = costs.on(station);
        let keep = cost.keep + next;
        let go = cost.go + diagonal[station.index()];
        next = lesser(cost.excess, keep, go);
        row[j] = next;
    }
}

// By station, the first cell of the row that begins there, for the rows after `last`.
#[tactic(auto, using(lists::proofs::Held::held_set, lists::proofs::Held::nth_set_other))]
fn diagonal_after(diagonal: &mut [u64; 64], table: &Table, last: Train)
    requires { last.0 ≤ table.now.m }
    ensures { Diagonal table.now.m last.0 table.now.cells.now diagonal.old
        diagonal.new }
{
    for i in last.0 + 1..=table.m {
        let train = Train(i);
        let at = train.leaves();
        diagonal[at.index()] = table.cell_at(train, at);
    }
}

// Works one row, lent as a part of the cells of its own, and answers its first cell. `costs` is
// room to work in: what stands in it before does not count.
#[tactic(auto, using(cells::proofs::Places::row_fits))]
fn work_row(
    cells: &mut [u64],
    costs: &mut Costs,
    book: &Book,
    first: Train,
    diagonal: &[u64; 64],
) -> u64
    requires { RowGiven book.now.sums.m first.0 cells.old diagonal.now }
    ensures { RowWorked (book_held book.now)
        first.0 diagonal.now cells.old cells.new result }
{
    book.costs_along(costs, first);
    let a = place(book.sums.m, first, first.leaves());
    let b = a + (book.sums.m + 1 - first.0) as usize;
    fill_row(&mut cells[a..b], first, costs, diagonal);
    cells[a]
}

// The rows of `last` and of the trains before it, from the later rows as they stand.
pub fn work_rows(cells: &mut [u64], book: &Book, last: Train)
    requires { RowsGiven book.now.sums.m last.0 cells.old }
    ensures { RowsWorked (book_held book.now) last.0
        cells.old cells.new }
{
    let mut diagonal = [0u64; 64];
    let table = Table::new(book.sums.m, cells);
    diagonal_after(&mut diagonal, &table, last);
    let mut costs = Costs::zeros();
    for i in (1..=last.0).rev() {
        let train = Train(i);
        let cell = work_row(cells, &mut costs, book, train, &diagonal);
        diagonal[train.leaves().index()] = cell;
    }
}
