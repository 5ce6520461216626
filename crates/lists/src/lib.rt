// Lists of bytes: whether two are the same.
#![tactic(auto)]

ghost use Rattle.std.specs.Prelude.{◌≡◌};
ghost use Rattle.lists.specs.Lists.{same_bytes};

// Whether two byte strings are the same. A function, so that callers have the definition's word for it and not that of `==`.
pub fn same_bytes(a: &[u8], b: &[u8]) -> bool
    ensures { result ≡ same_bytes a.now b.now }
{
    a == b
}
