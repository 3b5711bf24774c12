// The work on prepared times and sums, which plan does from the last train and a report from its
// own: the rows of cells, the decisions and delays read off them, and the total.
ghost use Rattle.cells.specs.Book.{book_in, BookGiven};
ghost use Rattle.planner.specs.Buffers.{buffers};
ghost use Rattle.planner.specs.Settled.{Settled};
ghost use Rattle.planner.specs.Workable.{Workable};

use cells::book::Book;
use cells::place::Table;
use cells::sources::Sources;
use rows::work_rows;
use terms::Train;
use walk::follow;

// Works the rows of `last` and of the trains before it, fills decisions and delays as read off the
// cells, and answers the first cell, which is the total.
#[tactic(auto, using(cells::proofs::Bounded::worked_in_range))]
pub fn settle(
    m: u32,
    last: Train,
    cells: &mut [u64],
    decisions: &mut [u8],
    delays: &mut [u32],
    sources: &Sources,
) -> u64
    requires { Workable m last.0 (buffers cells.old decisions.old delays.old)
        × BookGiven m sources.now.timing sources.now.sums }
    ensures { Settled (book_in m sources.now.timing sources.now.sums) last.0
        (buffers cells.old decisions.old delays.old)
        (buffers cells.new decisions.new delays.new)
        result }
{
    let book = Book::new(m, sources);
    work_rows(cells, &book, last);
    let table = Table::new(m, cells);
    follow(decisions, delays, &table, &book);
    table.cell_at(Train(1), Train(1).leaves())
}
