// The primes that a table may be built with.
ghost use Rattle.std.specs.Prelude.{◌≡◌};
ghost use Rattle.table.specs.Primes.{is_table_prime};

// Whether p is one of the three (document 02, Change 6).
pub fn is_table_prime(p: u32) -> bool
    ensures { result ≡ is_table_prime p }
{
    p == 65537 || (p == 1000003 || p == 2147483647)
}
