//! Whether two lists have the same content.
ghost use Rattle.std.specs.Prelude.{◌≡◌, ◌↔◌, IsTrue};

/// Whether both hold the same values.
pub fn same_values(values: &[i64], others: &[i64]) -> bool
    ensures { IsTrue result ↔ (values.now ≡ others.now) }
{
    values == others
}

/// Whether both hold the same numbers.
pub fn same_numbers(numbers: &[u32], others: &[u32]) -> bool
    ensures { IsTrue result ↔ (numbers.now ≡ others.now) }
{
    numbers == others
}

/// Whether both hold the same counts.
pub(crate) fn same_counts(counts: &[u64], others: &[u64]) -> bool
    ensures { IsTrue result ↔ (counts.now ≡ others.now) }
{
    counts == others
}

/// Whether both hold the same bytes.
pub fn same_bytes(bytes: &[u8], others: &[u8]) -> bool
    ensures { IsTrue result ↔ (bytes.now ≡ others.now) }
{
    bytes == others
}
