// The header: the six numbers of the making, and the counts, the marks and the counter in range.
ghost use Rattle.std.specs.Prelude.{◌≡◌, nat_lt};
ghost use Rattle.model.specs.Table.{all};
ghost use Rattle.model.specs.Memory.{numbers?, range?};
ghost use Rattle.tables.specs.Lent.{state_in};

use tables::cells::{COUNTER, LAST, MARKS, USED, WRITES};
use tables::lent::Tables;

// The tables were made for these six numbers.
pub fn numbers_fit(tables: &Tables) -> bool
    ensures { result ≡ numbers? tables.now.g tables.now.cells.now }
{
    let g = tables.g;
    let arenas = tables.header_number(0) == g.arenas;
    let per = tables.header_number(1) == g.per;
    let pages = tables.header_number(2) == g.pages;
    let records = tables.header_number(3) == g.records;
    let turn = tables.header_number(4) == g.turn;
    let words = tables.header_number(5) == g.words;
    arenas & (per & (pages & (records & (turn & words))))
}

// Each arena's mark stands inside the arena.
fn marks_fit(tables: &Tables) -> bool
    ensures { result ≡ all tables.now.g.arenas (λ a. nat_lt ((state_in tables.now).mark a) tables.now.g.per) }
{
    let g = tables.g;
    (0..g.arenas).all(|a| tables.header_number(MARKS + a) < g.per)
}

// Each number of the header that has a range lies in it.
pub fn ranges_fit(tables: &Tables) -> bool
    ensures { result ≡ range? tables.now.g (state_in tables.now) }
{
    let g = tables.g;
    let last = tables.header_number(LAST) <= 999999;
    let marks = marks_fit(tables);
    let counter = tables.header_number(COUNTER) < g.arenas;
    let writes = tables.header_number(WRITES) < g.turn;
    let used = tables.header_number(USED) <= g.words;
    last & (marks & (counter & (writes & used)))
}
