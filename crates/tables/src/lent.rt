// The lent tables beside the geometry that they are for, and their numbers where nothing is known of them yet: outside its range a number is read as 0.
ghost use Rattle.std.specs.Prelude.{◌≡◌, ◌+◌, ◌<◌, nat_lt, slice_index};
ghost use Rattle.model.specs.Layout.{field};
ghost use Rattle.tables.specs.Ready.{Roomy};

use crate::find::wide;
use geometry::Geometry;

// Lent tables, and the geometry of their store: it is inside its limits, and they are as long as it needs.
#[derive(Clone, Copy)]
pub struct Tables<'a> {
    pub g: Geometry,
    pub cells: &'a [u32],
    pub ghost roomy: { Roomy g cells.now },
}

impl<'a> Tables<'a> {
    // A number of the header.
    pub fn header_number(&self, i: usize) -> usize
        requires { i < 32 }
        ensures { result ≡ slice_index self.now.cells.now i }
    {
        wide(self.cells[i])
    }

    // Slot s of the column that begins at `column`.
    pub fn column_number(&self, column: usize, s: usize) -> usize
        requires { column < 512 }
        ensures { result ≡ field self.now.cells.now (nat_lt s self.now.g.records) (column + s) }
    {
        if s < self.g.records {
            return wide(self.cells[column + s]);
        }
        0
    }
}
