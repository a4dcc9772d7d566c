// What the programs that compare share: memory as they lend it, and digests of it: one number for all words, or all bytes, of a slice.
#![tactic(auto)]

ghost use Rattle.digests.specs.Digest.{Digested};

pub mod lent;

// The digest of words or bytes, first to last: bytes have that of words of the same numbers.
pub fn digest<T: Copy + Into<u32>>(numbers: &[T]) -> u64
    ensures { Digested T.converts numbers.now result }
{
    let mut d: u64 = 0;
    for number in numbers {
        let x: u32 = (*number).into();
        d = (d * 65599 + u64::from(x) + 1) % 4294967291;
    }
    d
}
