// The check of what a stranger lends: whether it is long enough, and whether tables and log are a sound store. Linear in the tables and the log, but for
// pairs of record slots and of rows of names.
#![tactic(auto)]

mod header;
mod held;
pub mod lengths;
mod lists;
mod names;
mod pages;
mod records;

ghost use Rattle.std.specs.Prelude.{◌≡◌};
ghost use Rattle.model.specs.Memory.{sound?};
ghost use Rattle.tables.specs.Ready.{Roomy, LogLong};

use crate::header::{numbers_fit, ranges_fit};
use crate::held::{births_agree, log_holds, queue_fits, words_fit};
use crate::names::names_fit;
use crate::pages::pages_fit;
use crate::records::{records_fit, windows_fit};
use geometry::Geometry;
use tables::lent::Tables;

// Whether the tables and the log are a sound store.
pub fn is_sound(g: Geometry, t: &[u32], log: &[u8]) -> bool
    requires { Roomy g t.now × LogLong g log.now }
    ensures { result ≡ sound? g t.now log.now }
{
    let tables = Tables { g, cells: t };
    if !(numbers_fit(&tables) && ranges_fit(&tables) && records_fit(&tables)) {
        return false;
    }
    let mut own = [0u8; 2048];
    pages_fit(&tables, &mut own)
        && births_agree(&tables, &own)
        && queue_fits(&tables, &mut own)
        && words_fit(&tables)
        && windows_fit(&tables)
        && names_fit(&tables)
        && log_holds(&tables, log, &own)
}
