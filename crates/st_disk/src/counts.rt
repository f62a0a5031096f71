ghost use Rattle.std.specs.Prelude.{◌≡◌, ◌≢◌, ◌≤◌, ◌<◌, ℕ, IsTrue, IfSome};
ghost use Rattle.std.specs.Option.{SomeIff};
ghost use Rattle.st_io.specs.Causes.{Rose};
ghost use Rattle.st_words.specs.declared.ids.ServerId.{ServerId};
ghost use Rattle.st_disk.specs.Racks.{count_of, has_place, place_of};

use st_words::ServerId;

/// How many places a rack has: 7 sites of 7 servers.
pub(crate) const PLACES: usize = 49;

/// A server's place, where it has one.
pub(crate) fn place(who: ServerId) -> Option<usize>
    ensures place { SomeIff result (IsTrue (has_place who)) (place_of who) }
    ensures within { IfSome result (λ k. k < 49) }
{
    if who.site < 7 && who.index < 7 {
        return Some(7 * usize::from(who.site) + usize::from(who.index));
    }
    None
}

/// Counts a fault of a server's disk.
pub(crate) fn raise(counts: &mut [u64; PLACES], who: ServerId)
    ensures here { Rose (count_of counts.old who) (count_of counts.new who) }
    ensures later { count_of counts.old who ≤ count_of counts.new who }
    ensures others { (other : ServerId) → other ≢ who → count_of counts.new other ≡ count_of counts.old other }
{
    if let Some(k) = place(who) {
        counts[k] = counts[k].saturating_add(1);
    }
}
