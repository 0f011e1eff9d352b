// The deletes of a line's oldest records, one after another.
ghost use Rattle.std.specs.Prelude.{◌≡◌, get_or};
ghost use Rattle.model.specs.Layout.{view_of};
ghost use Rattle.tables.specs.Ready.{Ready};
ghost use Rattle.retaining.specs.Lines.{Lined};
ghost use Rattle.retaining.specs.Deletes.{oldest_left};

use crate::line::is_bare;
use deleting::delete::delete_record;
use geometry::Geometry;
use tables::find::wide;

// Deletes of the line, from its oldest record on, the first `most` without a fork and without a name, and never its newest.
pub fn delete_oldest(g: Geometry, t: &mut [u32], line: &[u32; 64], count: usize, most: usize)
    requires { Ready g t.old × Lined (view_of g t.old) (get_or line.now 0 0) line.now count }
    ensures { t.new ≡ oldest_left g t.old most (get_or line.now 0 0) }
{
    let mut left = most;
    for i in (1..count).rev() {
        if left == 0 {
            return;
        }
        let s = wide(line[i]);
        if is_bare(t, g, s) {
            delete_record(g, t, s, wide(line[i - 1]) + 1);
            left -= 1;
        }
    }
}
