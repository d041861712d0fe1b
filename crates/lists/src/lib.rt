// Facts that a rule asks of a list of numbers, of any length.
#![tactic(auto)]

ghost use Rattle.std.specs.Prelude.{◌≡◌, [], ◌∷◌, ◌+◌, ◌≤◌, length, take, drop};
ghost use Rattle.lists.specs.Lists.{stretch, joined, all_zero, names, distinct};

// Eight bytes joined to one number, the first the lowest: one load where they stand side by side.
#[tactic(auto, using(crate::proofs::ZeroLaws::joined_eight))]
fn join(eight: [u8; 8]) -> u64
    ensures { result ≡ joined eight }
{
    u64::from_le_bytes(eight)
}

// Whether each byte is 0, byte by byte.
#[tactic(auto, using(crate::proofs::ListsLaws::zero_scan))]
fn zero_bytes(s: &[u8]) -> bool
    ensures { result ≡ all_zero s.now }
{
    let mut ok = true;
    for x in s {
        ok &= *x == 0;
    }
    ok
}

// Whether each byte is 0: whole eights from the beginning, each as one number, then the rest byte by byte.
// No early return, so that the machine looks at all of a short stretch at once.
#[tactic(auto, using(crate::proofs::ZeroLaws::zero_eight))]
pub fn zeros(s: &[u8]) -> bool
    ensures { result ≡ all_zero s.now }
{
    let (eights, rest) = s.as_chunks::<8>();
    let mut ok = true;
    for eight in eights {
        ok &= join(*eight) == 0;
    }
    ok & zero_bytes(rest)
}

// Whether each byte from a up to b is 0. Callers know that the stretch lies in the slice.
pub fn zero_between(s: &[u8], a: usize, b: usize) -> bool
    requires { (a ≤ b) × (b ≤ length s.now) }
    ensures { result ≡ all_zero (stretch s.now a b) }
{
    zeros(&s[a..b])
}

// Whether a list names x. A loop, since `contains` and `any` take more instructions on so short a list.
#[tactic(auto, using(crate::proofs::ListsLaws::named_scan))]
pub fn is_named(s: &[u8], x: u8) -> bool
    ensures { result ≡ names s.now x }
{
    for y in s {
        if *y == x {
            return true;
        }
    }
    false
}

// Whether a list names no number twice.
#[tactic(auto, using(crate::proofs::ListsLaws::distinct_scan))]
pub fn is_distinct(list: &[u8]) -> bool
    ensures { result ≡ distinct list.now }
{
    for (i, x) in list.iter().enumerate() {
        if is_named(&list[i + 1..], *x) {
            return false;
        }
    }
    true
}
