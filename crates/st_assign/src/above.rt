ghost use Rattle.std.specs.Prelude.{◌≡◌, ℕ, ◌+◌, ◌^◌, ◌<◌};
ghost use Rattle.st_protocol.specs.Forced.{forced_above};
ghost use Rattle.st_state.specs.HereView.{Serve, here_of};
ghost use Rattle.st_state.specs.ForcedView.{forced_by};
ghost use Rattle.st_assign.specs.Above as above;

use st_message::Here;
use st_state::Forced;
use st_words::WINDOW;

/// Whether a greater number of the window is forced.
#[tactic(auto, using(st_protocol::proofs::BelowLaws::some_below_none, st_protocol::proofs::BelowLaws::some_below_more, crate::proofs::ReasonLaws::forced_above_by))]
pub fn is_forced_above(here: &Here, forced: &Forced, number: u32) -> bool
    requires { here.now.executed + 16 < 2 ^ 32 }
    ensures { (clients : ℕ) (serve : Serve) → let h = here_of clients serve here.now in result ≡ forced_above h (forced_by h forced.now) number }
{
    for k in 0..WINDOW {
        if is_forced_over(here, forced, number, k) {
            return true;
        }
    }
    false
}

// Whether the window's number at this place, from 0, is greater and forced.
#[tactic(auto, unfolding(crate::specs::Above::is_forced_over))]
fn is_forced_over(here: &Here, forced: &Forced, number: u32, k: u32) -> bool
    requires { here.now.executed + 1 + k < 2 ^ 32 }
    ensures { (clients : ℕ) (serve : Serve) → let h = here_of clients serve here.now in result ≡ above.is_forced_over h (forced_by h forced.now) number k }
{
    let over = here.executed + 1 + k;
    number < over && forced.value(here, over).is_some()
}
