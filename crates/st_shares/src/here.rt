ghost use Rattle.std.specs.Prelude.{◌≡◌, ◌+◌, ◌*◌, ◌/◌, ◌<◌, nat_le, nat_lt, ◌||◌};
ghost use Rattle.st_shares.specs.Sites.{rep_index, rep_scope, site_scope};

use st_message::{Here, Scope};
use st_words::{Number, ServerId, SiteId, WINDOW};

/// How many servers the site has.
pub fn servers(here: &Here) -> usize
    ensures { result ≡ 3 * here.now.f + 1 }
{
    3 * here.f as usize + 1
}

/// How many of them are a quorum.
pub fn quorum(here: &Here) -> usize
    ensures { result ≡ 2 * here.now.f + 1 }
{
    2 * here.f as usize + 1
}

/// How many sites are a majority.
pub fn majority(here: &Here) -> usize
    ensures { result ≡ here.now.sites / 2 + 1 }
{
    here.sites as usize / 2 + 1
}

/// The index of the site's representative.
pub fn rep(here: &Here) -> u8
    requires { 3 * here.now.f < 256 }
    ensures { result ≡ rep_index here.now }
{
    (here.local.0 % (3 * here.f as u32 + 1)) as u8
}

/// Whether a number isn't one of the window.
pub fn out_of_window(here: &Here, number: Number) -> bool
    ensures { result ≡ (nat_le number.0 here.now.executed || nat_lt (here.now.executed + WINDOW) number.0) }
{
    number.0 <= here.executed || number.0 - here.executed > WINDOW
}

/// To the servers of the site.
pub fn to_site(here: &Here) -> Scope
    ensures { result ≡ site_scope here.now }
{
    Scope::Site(SiteId(here.me.site))
}

/// To the site's representative.
pub fn to_rep(here: &Here) -> Scope
    requires { 3 * here.now.f < 256 }
    ensures { result ≡ rep_scope here.now }
{
    Scope::One(ServerId {
        site: here.me.site,
        index: rep(here),
    })
}
