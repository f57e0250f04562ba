// How many pages the store of a worker has, where its file doesn't say so.
ghost use Rattle.std.specs.Prelude.{◌≡◌, ◌≤◌};
ghost use Rattle.mage_directives.specs.Directives.{most_pages};
ghost use Rattle.mage_file.specs.Stores.{above, store_above, pages_in};

use crate::version::Version;
use mage_instr::Directive;

// One above the page that a transfer names; 0 where none is named.
fn above(directive: Directive) -> u32
    requires { above directive ≤ most_pages }
    ensures { result ≡ above directive }
{
    match directive {
        Directive::IssueIn { page, .. } => page + 1,
        Directive::IssueOut { page, .. } => page + 1,
        _ => 0,
    }
}

// One above the greatest page that a transfer names, or 0.
fn store_above(directives: &[Directive]) -> u32
    requires { store_above directives.now ≤ most_pages }
    ensures { result ≡ store_above directives.now }
{
    let mut pages = 0;
    for directive in directives {
        pages = pages.max(above(*directive));
    }
    pages
}

// The pages of the store of a worker with these directives, of which the file tells so many.
pub fn pages_in(version: Version, told: u32, directives: &[Directive]) -> u32
    requires { store_above directives.now ≤ most_pages }
    ensures { result ≡ pages_in version told directives.now }
{
    match version {
        Version::First => store_above(directives),
        Version::Second => told,
    }
}
