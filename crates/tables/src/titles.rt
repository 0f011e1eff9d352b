// The rows of names: the one that has a link, and what a letter is.
ghost use Rattle.std.specs.Prelude.{◌≡◌, ◌&&◌, ◌<◌, ◌≤◌, leb, length, IfSome};
ghost use Rattle.model.specs.Layout.{titles_of};
ghost use Rattle.tables.specs.Links.{link_of};
ghost use Rattle.tables.specs.Titles.{row_with};

use crate::cells::{TITLE, TITLES};

// The first row that has this link: the row of a record by the record's link, an empty row by 0.
pub fn row_with(t: &[u32], link: u32) -> Option<usize>
    requires { 2048 ≤ length t.now }
    ensures is { link_of result ≡ row_with (titles_of t.now) link }
    ensures range { IfSome result (λ i. i < 32) }
{
    (0..32).find(|i| t[TITLES + TITLE * i] == link)
}

// Whether a number is a letter, a to z.
pub fn is_letter(x: u32) -> bool
    ensures { result ≡ (leb 97 x && leb x 122) }
{
    (97..=122).contains(&x)
}
