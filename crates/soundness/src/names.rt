// The names: a row in use names a record in the store, by a valid name that no other row has; and each record counts its rows.
ghost use Rattle.std.specs.Prelude.{◌≡◌, ℕ, suc, ◌+◌, ◌<◌, ◌≤◌, true, ◌&&◌, ◌||◌, length, ◌==◌, nat_le, slice_index};
ghost use Rattle.model.specs.Table.{all};
ghost use Rattle.model.specs.Names.{letters, valid_name};
ghost use Rattle.model.specs.NamesAgree.{owned};
ghost use Rattle.model.specs.Layout.{title_cell, letters_cell, numbers, titles_of};
ghost use Rattle.model.specs.Memory.{other_name?, row?, count?, names?};
ghost use Rattle.tables.specs.Lent.{view_in, state_in};

use tables::cells::{LETTERS, NAMES, NUMBER, OPEN, TITLE, TITLES};
use tables::find::wide;
use tables::lent::Tables;
use tables::titles::is_letter;

// The n numbers from `at` on are letters.
fn letters_fit(t: &[u32], at: usize, n: usize) -> bool
    requires { at + n ≤ length t.now }
    ensures { result ≡ letters (numbers t.now at n) }
{
    t[at..at + n].iter().all(|x| is_letter(*x))
}

// The name that stands in row i has 1 to 32 letters a to z. Of a longer one none is looked at.
fn name_fits(tables: &Tables, i: usize) -> bool
    requires { i < 32 }
    ensures is { result ≡ valid_name (numbers tables.now.cells.now (letters_cell i) (slice_index tables.now.cells.now (title_cell i + 1))) }
    ensures range { result ≡ true → slice_index tables.now.cells.now (title_cell i + 1) ≤ 32 }
{
    let n = wide(tables.cells[TITLES + TITLE * i + 1]);
    (1..=32).contains(&n) && letters_fit(tables.cells, TITLES + LETTERS + TITLE * i, n)
}

// Row j is empty, or its name is another than that of row i, which is in use.
fn is_other(tables: &Tables, i: usize, j: usize) -> bool
    requires { (i < 32) × (j < 32) × (0 < slice_index tables.now.cells.now (title_cell i)) ×
        (slice_index tables.now.cells.now (title_cell i + 1) ≤ 32) }
    ensures { result ≡ other_name? (titles_of tables.now.cells.now) i j }
{
    let t = tables.cells;
    if t[TITLES + TITLE * j] == 0 {
        return true;
    }
    if t[TITLES + TITLE * j + 1] != t[TITLES + TITLE * i + 1] {
        return true;
    }
    let n = wide(t[TITLES + TITLE * i + 1]);
    let a = TITLES + LETTERS + TITLE * i;
    let b = TITLES + LETTERS + TITLE * j;
    t[b..b + n] != t[a..a + n]
}

// No row before row i, which is in use, has its name.
fn is_first(tables: &Tables, i: usize) -> bool
    requires { (i < 32) × (0 < slice_index tables.now.cells.now (title_cell i)) × (slice_index tables.now.cells.now (title_cell i + 1) ≤ 32) }
    ensures { result ≡ all i (other_name? (titles_of tables.now.cells.now) i) }
{
    (0..i).all(|j| is_other(tables, i, j))
}

// Row i is empty, or it names a record in the store by a valid name that no row before it has.
fn row_fits(tables: &Tables, i: usize) -> bool
    requires { i < 32 }
    ensures { result ≡ row? (view_in tables.now) (titles_of tables.now.cells.now) i }
{
    let link = wide(tables.cells[TITLES + TITLE * i]);
    if link == 0 {
        return true;
    }
    tables.column_number(NUMBER, link - 1) != 0 && name_fits(tables, i) && is_first(tables, i)
}

// All rows.
fn rows_fit(tables: &Tables) -> bool
    ensures { result ≡ all 32 (row? (view_in tables.now) (titles_of tables.now.cells.now)) }
{
    (0..32).all(|i| row_fits(tables, i))
}

// How many rows each link has: number s + 1 is how many rows are of slot s, and the first how many are empty.
fn count_rows(tables: &Tables) -> [u32; 65]
    requires { (i : ℕ) → i < 32 → slice_index tables.now.cells.now (title_cell i) ≤ 64 }
    ensures { (s : ℕ) → s < 64 → slice_index result (s + 1) ≡ owned (titles_of tables.now.cells.now) s }
{
    let mut rows = [0u32; 65];
    for i in 0..32 {
        let link = wide(tables.cells[TITLES + TITLE * i]);
        rows[link] += 1;
    }
    rows
}

// The count of one slot: of a record it is the number of its rows, and at most 1 where the record is open.
fn count_fits(number: u32, opened: u32, count: u32, rows: u32) -> bool
    ensures { result ≡ (number == 0 || (count == rows && (opened == 0 || nat_le count 1))) }
{
    (number == 0) | ((count == rows) & ((opened == 0) | (count <= 1)))
}

// All counts. It looks at all slots, several in one instruction.
fn counts_fit(tables: &Tables, rows: &[u32; 65]) -> bool
    requires { (s : ℕ) → s < 64 → slice_index rows.now (s + 1) ≡ owned (titles_of tables.now.cells.now) s }
    ensures { result ≡ all tables.now.g.records (count? (view_in tables.now) (titles_of tables.now.cells.now) (state_in tables.now).notes.names) }
{
    let t = tables.cells;
    let mut fit = true;
    for s in 0..tables.g.records {
        fit &= count_fits(t[NUMBER + s], t[OPEN + s], t[NAMES + s], rows[s + 1]);
    }
    fit
}

// The rows of names, then the counts of the records: each row is counted once.
pub fn names_fit(tables: &Tables) -> bool
    ensures { result ≡ names? (view_in tables.now) (state_in tables.now).notes }
{
    rows_fit(tables) && counts_fit(tables, &count_rows(tables))
}
