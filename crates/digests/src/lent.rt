// Memory as it is lent before a call: every place has a number of its own, so that a digest afterwards tells which were kept. And a list in the reverse order.
ghost use Rattle.std.specs.Prelude.{◌≡◌, length};
ghost use Rattle.digests.specs.Lent.{counted_from, turned};

// Sets the words to first, first + 1 and so on; after 2^32 - 1 comes 0.
pub fn count_from(first: u32, words: &mut [u32])
    ensures { words.new ≡ counted_from first (length words.old) }
{
    let mut next = first;
    for word in words.iter_mut() {
        *word = next;
        next = next.wrapping_add(1);
    }
}

// The list from its last element to its first.
pub fn reverse(list: &[u32], places: &mut [u32])
    requires { length places.old ≡ length list.now }
    ensures { places.new ≡ turned list.now }
{
    places.copy_from_slice(list);
    places.reverse();
}
