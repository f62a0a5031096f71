ghost use Rattle.std.specs.Prelude.{◌≡◌, ◌+◌, ◌++◌, length};

/// The bytes of `front` and of `back` in one array.
pub fn joined_array<const N: usize>(front: &[u8], back: &[u8]) -> [u8; N]
    requires { length front.now + length back.now ≡ N }
    ensures { result ≡ front.now ++ back.now }
{
    let mut joined = [0; N];
    join_into(&mut joined, front, back);
    joined
}

/// Writes `front` and `back` over all of `joined`.
#[tactic(auto, using(crate::proofs::JoinLaws::written))]
fn join_into(joined: &mut [u8], front: &[u8], back: &[u8])
    requires { length front.now + length back.now ≡ length joined.old }
    ensures { joined.new ≡ front.now ++ back.now }
{
    let middle = front.len();
    joined[..middle].copy_from_slice(front);
    joined[middle..].copy_from_slice(back);
}
