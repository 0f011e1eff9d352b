// The sealed records of a line, and which of them a window may take.
ghost use Rattle.std.specs.Prelude.{◌≡◌, ◌<◌};
ghost use Rattle.model.specs.Window.{bare};
ghost use Rattle.model.specs.Layout.{view_of, state_of};
ghost use Rattle.tables.specs.Ready.{Roomy, Ready};
ghost use Rattle.retaining.specs.Lines.{Lined};

use geometry::Geometry;
use tables::cells::{NAMES, PREV};
use tables::find::{is_forked, wide};

// The slot s and those before it in its line, newest first, written to `line`. Returns how many they are.
pub fn line_of(t: &[u32], g: Geometry, s: usize, line: &mut [u32; 64]) -> usize
    requires { Ready g t.now × (0 < (view_of g t.now).num s) }
    ensures { Lined (view_of g t.now) s line.new result }
{
    line[0] = s as u32;
    let mut count: usize = 1;
    let mut link = wide(t[PREV + s]);
    // Kept: how many links there are is known only at the last, which no range tells.
    while 0 < link {
        line[count] = (link - 1) as u32;
        count += 1;
        link = wide(t[PREV + (link - 1)]);
    }
    count
}

// Whether a window may take the record in slot s: neither a fork nor a name is on it.
pub fn is_bare(t: &[u32], g: Geometry, s: usize) -> bool
    requires { Roomy g t.now × (s < g.records) }
    ensures { result ≡ bare (view_of g t.now) (state_of g t.now).notes.names s }
{
    t[NAMES + s] == 0 && !is_forked(t, g, s)
}
